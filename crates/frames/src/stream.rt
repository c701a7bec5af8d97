// The record file, of any length and in whatever pieces it comes: what is there is read, its whole records are worked off,
// their lines are written at once, and a part record waits at the start of the block for the rest of it.
ghost use Rattle.std.specs.Prelude.{◌≡◌, ◌<◌, length, take};
ghost use Rattle.model.specs.Machine.{state};
ghost use Rattle.model.specs.Calls.{frame_size};
ghost use Rattle.frames.specs.Reading.{block_size, Came, CameInAll};

use arrayvec::ArrayVec;
use blocks::{Worked, work_off};
use input::{or_say_failed, read_more, say, write_output, zeros};
use model::Machine;
use std::io::Read;
use text::put_decimal;

// What one read leaves, and whether to read on. A flag, and no ControlFlow: what is left is the same whether there is more or not.
#[derive(Clone, Copy)]
pub struct Turn {
    pub worked: Worked,
    pub more: bool,
}

// The file has ended, and so many bytes of it are no whole record: they have no line, and are not passed over in silence.
fn end_of_file(rt: &HostRuntime, path: &[u8], waiting: usize)
    requires { waiting < frame_size }
{
    if waiting == 0 {
        return;
    }
    let mut digits: ArrayVec<u8, 3> = ArrayVec::new();
    put_decimal(&mut digits, waiting as u8);
    say(rt, path);
    say(rt, b": bytes at the end that are no whole record: ");
    say(rt, digits.as_slice());
    say(rt, b"\n");
}

// One read, and a line for each whole record that is there then. The block is lent with how much of it waits beside it: `read` of std fills
// a slice, here the bytes after those, and what waits then is moved to the front.
fn read_some(
    rt: &HostRuntime,
    m: Machine,
    memory: &mut [u8],
    devices: &mut [u8],
    work: &mut [u8],
    ret: &mut [u8],
    file: &mut impl Read,
    path: &[u8],
    block: &mut [u8],
    waited: usize,
    lines: &mut ArrayVec<u8, 6144>,
) -> Turn
    requires { (length block.old ≡ block_size) × (waited < frame_size) }
    ensures came { Came (take waited block.old) (state memory.old devices.old work.old ret.old m)
        (record {
          machine = state memory.new devices.new work.new ret.new result.worked.machine;
          lines = lines.new.items;
          waiting = take result.worked.waiting block.new;
        }) }
    ensures part_waits { result.worked.waiting < frame_size }
{
    lines.clear();
    let last = Turn {
        worked: Worked {
            machine: m,
            waiting: waited,
        },
        more: false,
    };
    let Some(n) = or_say_failed(rt, path, read_more(file, block, waited)) else {
        return last;
    };
    if n == waited {
        end_of_file(rt, path, waited);
        return last;
    }
    let worked = work_off(m, memory, devices, work, ret, block, n, lines);
    let more = write_output(rt, lines.as_slice()).is_some();
    Turn { worked, more }
}

// The whole file. The answer is the machine record after all that came.
pub fn stream_records(
    rt: &HostRuntime,
    m: Machine,
    memory: &mut [u8],
    devices: &mut [u8],
    work: &mut [u8],
    ret: &mut [u8],
    file: &mut impl Read,
    path: &[u8],
) -> Machine
    ensures { CameInAll (state memory.old devices.old work.old ret.old m)
        (state memory.new devices.new work.new ret.new result) }
{
    let mut block_space = zeros::<65536>();
    let block: &mut [u8] = &mut block_space;
    let mut lines: ArrayVec<u8, 6144> = ArrayVec::new();
    let mut worked = Worked {
        machine: m,
        waiting: 0,
    };
    // A proved loop has to end, and nothing says that a file does: no run takes so many turns.
    for _turn in 0..u64::MAX {
        let turn = read_some(
            rt,
            worked.machine,
            memory,
            devices,
            work,
            ret,
            file,
            path,
            block,
            worked.waiting,
            &mut lines,
        );
        worked = turn.worked;
        if !turn.more {
            return worked.machine;
        }
    }
    worked.machine
}
