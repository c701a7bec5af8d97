// sheet: reads a program on standard input and writes its depth sheet as plain bytes, or nothing if it is refused.
#![tactic(auto)]

ghost use Rattle.std.specs.Prelude.{◌≡◌, ◌*◌, ◌≤◌, length, take};
ghost use Rattle.model.specs.Admission.{sheet_record};
ghost use Rattle.model.specs.Calls.{number_of, admit_call};
ghost use Rattle.model.specs.Refusals.{refused_by};
ghost use Rattle.sheet.specs.Output.{written, output};

use admission::{SHEET_RECORD, admit};
use input::{PROGRAM_ROOM, has_arguments, read_whole, say_refused, write_output};
use model::Refusal;

// The bytes that are to be written, the program's sheet, which stands at the start of `sheet`.
#[tactic(auto, unfolding(crate::specs::Output::output_of))]
fn make_sheet<'a>(program: &[u8], sheet: &'a mut [u8]) -> Result<&'a [u8], Refusal>
    requires { sheet_record * length program.now ≤ length sheet.old }
    ensures sheet_made { written (λ bytes. bytes.now) result
        ≡ output (admit_call program.now (take (sheet_record * length program.now) sheet.old)) }
    ensures refused_number { refused_by result
        ≡ number_of (admit_call program.now (take (sheet_record * length program.now) sheet.old)).answer }
{
    let n = SHEET_RECORD * program.len();
    admit(program, &mut sheet[..n])?;
    Ok(&sheet[..n])
}

const USAGE: &[u8] =
    b"usage: sheet < PROGRAM > SHEET\nWrites eight bytes for each byte of the program: mark, working depth, return depth, the byte,\nthe routine (two bytes), two zeros.\nA program that is not admitted gives nothing, and on standard error refused and the number:\n5 it is empty, 9 it is above 4,096 bytes, 11 no depths and routines obey the admission rules.\n";

fn run(rt: &HostRuntime) -> Option<()> {
    let mut program = [0u8; PROGRAM_ROOM];
    let mut sheet = [0u8; SHEET_RECORD * PROGRAM_ROOM];
    let program = read_whole(rt, &mut rt.stdin(), b"standard input", &mut program)?;
    match make_sheet(program, &mut sheet) {
        Ok(bytes) => write_output(rt, bytes),
        Err(refusal) => {
            say_refused(rt, refusal.into());
            None
        }
    }
}

fn main(rt: HostRuntime) {
    if has_arguments(&rt, 1, USAGE) {
        let _ = run(&rt);
    }
}
