// C-15, "Load and admit become one": "a filter goes in only if admitted, its sheet written by the same call. If not, the old one
// keeps running."
#![tactic(auto)]

ghost use Rattle.std.specs.Prelude.{◌≡◌, ◌≤◌, length, OnOk};
ghost use Rattle.model.specs.Machine.{state};
ghost use Rattle.model.specs.declared.Machine.{Machine};
ghost use Rattle.model.specs.Calls.{refusal, load_most, admit_by, install_rows, install_call};
ghost use Rattle.model.specs.Refusals.{refused_by};
ghost use Rattle.refusals.specs.Lengths.{Lengths};
ghost use Rattle.model.specs.Replies.{of_install};

use admission::admit;
use buffers::{put_program, sized};
use model::{Machine, Refusal, Refused};
use refusals::check_buffers;

// "Refusals: 1 to 4, 5 (empty only), 9, 10, 11 .. 11 zeroes the sheet lent": why, with the sheet as admission leaves it. The machine is only
// looked at.
fn check_install(
    memory: &[u8],
    devices: &[u8],
    work: &[u8],
    ret: &[u8],
    program: &[u8],
    sheet: &mut [u8],
) -> Result<(), Refusal>
    ensures number { (m : Machine) → refused_by result ≡ refusal (install_rows program.now sheet.old (state memory.now devices.now work.now ret.now m)) }
    ensures sheet_left { sheet.new ≡ (admit_by (refused_by result) program.now sheet.old).sheet }
    ensures lengths { OnOk result (Lengths memory.now devices.now work.now ret.now) }
{
    check_buffers(memory, devices, work, ret)?;
    admit(program, sheet)
}

// "the four machine buffers stay" where it is refused: they are written after the check.
pub fn install(
    m: Machine,
    memory: &mut [u8],
    devices: &mut [u8],
    work: &mut [u8],
    ret: &mut [u8],
    program: &[u8],
    sheet: &mut [u8],
) -> Result<Machine, Refused>
    ensures { of_install (state memory.new devices.new work.new ret.new) sheet.new result
        ≡ install_call program.now sheet.old (state memory.old devices.old work.old ret.old m) }
{
    if let Err(refusal) = check_install(memory, devices, work, ret, program, sheet) {
        return Err(Refused {
            refusal,
            machine: m,
        });
    }
    Ok(put_program(
        sized(memory),
        sized(devices),
        sized(work),
        sized(ret),
        program,
    ))
}
