// frames PROGRAM RECORDS: installs the program, makes a frame call for each whole record, and writes a line for each.
#![tactic(auto)]

mod stream;

ghost use Rattle.std.specs.Prelude.{◌+◌, ◌≤◌, length};
ghost use Rattle.model.specs.Admission.{admit_most};

use arrayvec::ArrayVec;
use blocks::{SHEET_RECORD, install};
use input::{PROGRAM_ROOM, argument, has_arguments, open, or_say_failed, read_whole, write_output};
use model::Machine;
use std::io::Read;
use stream::stream_records;

// The sheet has room for one byte more than an install takes.
fn run(rt: &HostRuntime, program: &[u8], records: &mut impl Read, records_path: &[u8]) -> Option<()>
    requires { length program.now ≤ 1 + admit_most }
{
    // "Fresh stacks are 256 bytes of zero"
    let mut memory = [0u8; 65536];
    let mut devices = [0u8; 256];
    let mut work = [0u8; 256];
    let mut ret = [0u8; 256];
    // "A program refused at load gives that one line alone."
    let mut sheet = [0u8; SHEET_RECORD * PROGRAM_ROOM];
    let mut line: ArrayVec<u8, 12> = ArrayVec::new();
    let m = install(
        Machine::default(),
        &mut memory,
        &mut devices,
        &mut work,
        &mut ret,
        program,
        &mut sheet,
        &mut line,
    );
    if !line.is_empty() {
        return write_output(rt, line.as_slice());
    }
    stream_records(
        rt,
        m,
        &mut memory,
        &mut devices,
        &mut work,
        &mut ret,
        records,
        records_path,
    );
    Some(())
}

const USAGE: &[u8] =
    b"usage: frames PROGRAM RECORDS\nInstalls the filter in the file PROGRAM and writes a line for each whole 128-byte record of the file\nRECORDS: pass, drop, spent (10,000 steps used up), or refused and the number of the refusal.\nA program that is not admitted is not run: it gives one line, refused and the number.\nRefusals: 5 the program is empty, 9 it is above 4,096 bytes, 11 no depths and routines obey the\nadmission rules (explain says why); 8 a record's data length is above 126, or a byte past its data\nis not 0.\nA file of the old 64-byte records is not told from one of these: widen moves it to this form.\nStandard error is empty if all went well; bytes at the end of RECORDS that are no whole record\nare counted there.\n";

// Both files are opened before anything is read; the paths are for messages too.
fn open_and_run(rt: &HostRuntime, program_path: &[u8], records_path: &[u8]) -> Option<()> {
    let mut program_file = or_say_failed(rt, program_path, open(rt, program_path))?;
    let mut records = or_say_failed(rt, records_path, open(rt, records_path))?;
    let mut bytes = [0u8; PROGRAM_ROOM];
    let program = read_whole(rt, &mut program_file, program_path, &mut bytes)?;
    run(rt, program, &mut records, records_path)
}

fn run_named(rt: &HostRuntime) -> Option<()> {
    let mut program_word = [0u8; 4096];
    let program_path = argument(rt, 1, b"PROGRAM", &mut program_word)?;
    let mut records_word = [0u8; 4096];
    let records_path = argument(rt, 2, b"RECORDS", &mut records_word)?;
    open_and_run(rt, program_path, records_path)
}

fn main(rt: HostRuntime) {
    if has_arguments(&rt, 3, USAGE) {
        let _ = run_named(&rt);
    }
}
