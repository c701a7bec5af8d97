// What step, run, event and frame answer, from the end of the run that they make. A step and a frame watch nothing, and theirs is
// never Paused.
#![tactic(auto)]

ghost use Rattle.std.specs.Prelude.{◌≡◌, ◌≤◌};
ghost use Rattle.cpu.specs.Ended.{unspent};
ghost use Rattle.replies.specs.FromRun.{step_of, run_of, frame_of};

use cpu::End;
use model::{FrameEnd, Ports, RunEnd, StepEnd};

// The answer of a step, from the end of a run with budget 1 and the ports that it wrote.
pub fn step_of(end: End, ports: Ports) -> StepEnd
    ensures { result ≡ step_of ports end }
{
    match end {
        End::Broke(m, _) => StepEnd::Broke(m),
        End::Spent(m) => StepEnd::WentOn(m, ports),
        End::Paused(m, _) => StepEnd::WentOn(m, ports),
    }
}

// The answer of a run, and of an event that is not ignored.
pub fn run_of(end: End, budget: u32) -> RunEnd
    requires { unspent end ≤ budget }
    ensures { result ≡ run_of budget end }
{
    match end {
        End::Broke(m, left) => RunEnd::Broke(m, budget - left),
        End::Spent(m) => RunEnd::Spent(m, budget),
        End::Paused(m, left) => RunEnd::Paused(m, budget - left),
    }
}

// "The verdict is port F2 if Broke and 0 if Spent."
pub fn frame_of(end: End, budget: u32, verdict: u8) -> FrameEnd
    requires { unspent end ≤ budget }
    ensures { result ≡ frame_of budget end verdict }
{
    match end {
        End::Broke(m, left) => FrameEnd::Broke(m, budget - left, verdict),
        End::Spent(m) => FrameEnd::Spent(m, budget),
        End::Paused(m, left) => FrameEnd::Spent(m, budget - left),
    }
}
