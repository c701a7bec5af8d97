// The work of the programs `widen` and `narrow`: a file of frame records to the other form, of any length. A first pass over the file looks
// for refusals and writes nothing, a second one writes.
#![tactic(auto)]

ghost use Rattle.convert.specs.Passes.{PassOf};

use input::{argument, open, or_say_failed, read_whole, say, say_refused, write_output, zeros};
use records::{Direction, take_block};
use std::io::Read;

// What a pass comes to: the number that the file is refused with, or 0, as its blocks have it, and how many bytes it has.
// A number, and no `Refusal`, as in `BlockMoved`: it is worked out from those of the blocks, whatever they are (`earlier`).
#[derive(Clone, Copy, PartialEq)]
pub struct Passed {
    pub number: u8,
    pub total: u64,
}

// One pass over the file; none where a read or a write failed, which is said. Where it writes, it does so block by block, and no more once
// a block is refused or more bytes came than it is told.
fn read_blocks(
    rt: &HostRuntime,
    direction: Direction,
    file: &mut impl Read,
    path: &[u8],
    writes: Option<u64>,
) -> Option<Passed>
    ensures { PassOf direction result }
{
    let mut block_space = zeros::<65536>();
    let block: &mut [u8] = &mut block_space;
    // Room for the records of a block in the other form.
    let mut output_space = zeros::<131072>();
    let output: &mut [u8] = &mut output_space;
    let mut number = 0;
    let mut total: u64 = 0;
    // A proved loop has to end, and nothing says that a file does: no run takes so many turns.
    for _turn in 0..u64::MAX {
        let part = read_whole(rt, file, path, block)?;
        let n = part.len();
        let taken = take_block(direction, number, part, output);
        number = taken.number;
        let written = taken.written;
        total = total.wrapping_add(n as u64);
        if let Some(most) = writes {
            if number != 0 || most < total {
                return Some(Passed { number, total });
            }
            write_output(rt, &output[..written])?;
        }
        // A block that is not full is the last.
        if n < block.len() {
            return Some(Passed { number, total });
        }
    }
    Some(Passed { number, total })
}

// A pass over the file of this name.
fn pass_over(
    rt: &HostRuntime,
    direction: Direction,
    path: &[u8],
    writes: Option<u64>,
) -> Option<Passed>
    ensures { PassOf direction result }
{
    let mut file = or_say_failed(rt, path, open(rt, path))?;
    read_blocks(rt, direction, &mut file, path, writes)
}

// The file of this name in the other form, on standard output; nothing if it is refused.
fn convert_file(rt: &HostRuntime, direction: Direction, path: &[u8]) -> Option<()> {
    let first = pass_over(rt, direction, path, None)?;
    if first.number != 0 {
        say_refused(rt, first.number);
        return None;
    }
    let second = pass_over(rt, direction, path, Some(first.total))?;
    if second != first {
        say(rt, path);
        say(
            rt,
            b": can not be read twice, or changed meanwhile: what was written is not that file\n",
        );
    }
    Some(())
}

// The program's argument names the file.
pub fn convert(rt: &HostRuntime, direction: Direction) {
    let mut word = [0u8; 4096];
    if let Some(path) = argument(rt, 1, b"FILE", &mut word) {
        let _ = convert_file(rt, direction, path);
    }
}
