// The public calls that run a machine: step, run, event and frame. Each takes the machine record by value and four lent
// buffers of any length, and refuses first. Record and buffers are five arguments, as the C interface lends them: with a struct of four
// `&mut` each function would have to promise besides that every one of the four is still the slice that was lent; and so would one that
// makes the four arrays at once.
#![tactic(auto)]

ghost use Rattle.std.specs.Prelude.{◌≡◌};
ghost use Rattle.model.specs.Machine.{state};
ghost use Rattle.model.specs.Calls.{step_call, run_call, event_call, frame_call};
ghost use Rattle.model.specs.Replies.{of_step, of_run, of_event, of_frame};

use buffers::{clear_verdict, frame_memory, sized, verdict};
use cpu::ports;
use model::{EventEnd, FrameEnd, Machine, Refusal, Refused, RunEnd, START, StepEnd};
use refusals::{check_buffers, check_event, check_frame};
use replies::{frame_of, run_of, step_of};
use stack::input;

// Device d has the ports from 16 x d on.
const DEVICE_PORTS: u16 = 16;

// "A refusal returns its number, 0 steps, verdict 0 and that record unchanged."
// Where it is met by `if let`: a closure for `map_err` that keeps the record is two functions more to prove at each call, here, in `load` and
// in `install`.
fn refused(refusal: Refusal, machine: Machine) -> Refused
    ensures { result ≡ record { refusal = refusal; machine = machine } }
{
    Refused { refusal, machine }
}

// One instruction, as a run with budget 1: the loop of `cpu::run` stays the one place where an instruction is carried out. Which ports it
// writes (C-18) is read before it.
pub fn step(
    m: Machine,
    memory: &mut [u8],
    devices: &mut [u8],
    work: &mut [u8],
    ret: &mut [u8],
) -> Result<StepEnd, Refused>
    ensures { of_step (state memory.new devices.new work.new ret.new) result
        ≡ step_call (state memory.old devices.old work.old ret.old m) }
{
    if let Err(refusal) = check_buffers(memory, devices, work, ret) {
        return Err(refused(refusal, m));
    }
    let memory = sized(memory);
    let devices = sized(devices);
    let work = sized(work);
    let ret = sized(ret);
    let wrote = ports(m, memory, work, ret);
    let end = cpu::run(m, memory, devices, work, ret, 1, None);
    Ok(step_of(end, wrote))
}

// "Each instruction costs one, BRK too. Broke if the last was BRK, else Spent."; C-18: Paused after a step that wrote the watched port
pub fn run(
    m: Machine,
    memory: &mut [u8],
    devices: &mut [u8],
    work: &mut [u8],
    ret: &mut [u8],
    budget: u32,
    watch: Option<u8>,
) -> Result<RunEnd, Refused>
    ensures { of_run (state memory.new devices.new work.new ret.new) result
        ≡ run_call watch budget (state memory.old devices.old work.old ret.old m) }
{
    if let Err(refusal) = check_buffers(memory, devices, work, ret) {
        return Err(refused(refusal, m));
    }
    let memory = sized(memory);
    let devices = sized(devices);
    let work = sized(work);
    let ret = sized(ret);
    let end = cpu::run(m, memory, devices, work, ret, budget, watch);
    Ok(run_of(end, budget))
}

// "Zero: Ignored, 0 steps, nothing changed. Else run from it; stacks and pointers are retained.", C-20: and the
// high marks
pub fn event(
    m: Machine,
    memory: &mut [u8],
    devices: &mut [u8],
    work: &mut [u8],
    ret: &mut [u8],
    device: u32,
    budget: u32,
    watch: Option<u8>,
) -> Result<EventEnd, Refused>
    ensures { of_event (state memory.new devices.new work.new ret.new) result
        ≡ event_call watch device budget (state memory.old devices.old work.old ret.old m) }
{
    if let Err(refusal) = check_event(memory, devices, work, ret, device) {
        return Err(refused(refusal, m));
    }
    let devices = sized(devices);
    let vector = input(devices, DEVICE_PORTS * (device as u16), true);
    if vector == 0 {
        return Ok(EventEnd::Ignored(m));
    }
    let from = Machine { pc: vector, ..m };
    let memory = sized(memory);
    let work = sized(work);
    let ret = sized(ret);
    let end = cpu::run(from, memory, devices, work, ret, budget, watch);
    Ok(EventEnd::Ran(run_of(end, budget)))
}

// "Port F2 is set to 0", C-16: the record is "written to 0080 to 00FF", "both pointers become 0, and the program runs from 0100
// with the budget given."; C-20: the high marks become 0; C-18: it watches nothing
pub fn frame(
    m: Machine,
    memory: &mut [u8],
    devices: &mut [u8],
    work: &mut [u8],
    ret: &mut [u8],
    frame: &[u8],
    budget: u32,
) -> Result<FrameEnd, Refused>
    ensures { of_frame (state memory.new devices.new work.new ret.new) result
        ≡ frame_call frame.now budget (state memory.old devices.old work.old ret.old m) }
{
    if let Err(refusal) = check_frame(memory, devices, work, ret, frame) {
        return Err(refused(refusal, m));
    }
    let memory = sized(memory);
    let devices = sized(devices);
    let work = sized(work);
    let ret = sized(ret);
    frame_memory(memory, frame);
    clear_verdict(devices);
    let started = Machine {
        pc: START,
        ..Machine::default()
    };
    let end = cpu::run(started, memory, devices, work, ret, budget, None);
    Ok(frame_of(end, budget, verdict(devices)))
}
