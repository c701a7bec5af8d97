// Document 01's load, of any program, admitted or not: for its cases and for tests. A filter goes in by `install`.
#![tactic(auto)]

ghost use Rattle.std.specs.Prelude.{◌≡◌};
ghost use Rattle.model.specs.Machine.{state};
ghost use Rattle.model.specs.Calls.{load_call};
ghost use Rattle.model.specs.Replies.{of_load};

use buffers::{put_program, sized};
use model::{Machine, Refused};
use refusals::check_load;

// "memory is zero but for the program at 0100 hexadecimal; device page and stacks are zero; both pointers 0; counter 0100";
// C-20: the high marks are 0
pub fn load(
    m: Machine,
    memory: &mut [u8],
    devices: &mut [u8],
    work: &mut [u8],
    ret: &mut [u8],
    program: &[u8],
) -> Result<Machine, Refused>
    ensures { of_load (state memory.new devices.new work.new ret.new) result
        ≡ load_call program.now (state memory.old devices.old work.old ret.old m) }
{
    if let Err(refusal) = check_load(memory, devices, work, ret, program) {
        return Err(Refused {
            refusal,
            machine: m,
        });
    }
    // As `install` goes on after its check: one function for both would be lent the same five slices.
    Ok(put_program(
        sized(memory),
        sized(devices),
        sized(work),
        sized(ret),
        program,
    ))
}
