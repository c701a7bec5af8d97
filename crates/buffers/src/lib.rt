// What load and frame write to memory, device page and stacks.
#![tactic(auto)]

ghost use Rattle.std.specs.Prelude.{◌≡◌, ◌++◌, ◌+◌, ◌-◌, ◌≤◌, length, get_or, set, take, drop};
ghost use Rattle.std.specs.Borrow.{sem, Lends, Array, u8};
ghost use Rattle.model.specs.Bytes.{zeros};
ghost use Rattle.model.specs.Machine.{memory_size, page_size, stack_size, state};
ghost use Rattle.model.specs.Calls.{load_most, load, frame_size, frame_place, verdict_port};

use model::{Machine, START};
use stack::{Memory, Page, Stack};

// Out of line, for of 256 bytes the compiler makes sixteen stores at each place.
#[inline(never)]
pub fn clear(bytes: &mut [u8])
    ensures { bytes.new ≡ zeros (length bytes.old) }
{
    bytes.fill(0);
}

// The source at the start of the part, and "the rest of it stays". Byte by byte, since `copy_from_slice` calls `memmove`, and the library asks its
// host for `memset` alone.
pub fn place(part: &mut [u8], source: &[u8])
    requires { length source.now ≤ length part.old }
    ensures { part.new ≡ source.now ++ drop (length source.now) part.old }
{
    for (k, byte) in source.iter().enumerate() {
        part[k] = *byte;
    }
}

// A lent buffer of this length, as an array.
pub fn sized<const N: usize>(bytes: &mut [u8]) -> &mut [u8; N]
    requires { length bytes.old ≡ N }
    ensures* writes_back { sem 𝓛 (Lends (Array u8 0) (Array u8 0) bytes.entry result (λ ws. ws)) }
    ensures value { result.now ≡ bytes.old }
{
    bytes.as_mut_array().unwrap()
}

// The program at the start of the part, and zeros after it: in place and not by `clear`, for of a stored frame record the compiler makes a
// few stores of them, so that the moves of records ask the host for no `memset`.
pub fn fill(part: &mut [u8], program: &[u8])
    requires { length program.now ≤ length part.old }
    ensures { part.new ≡ program.now ++ zeros (length part.old - length program.now) }
{
    place(part, program);
    part[program.len()..].fill(0);
}

// Load: "memory is zero but for the program at 0100 hexadecimal", and the loader "hands on the part of memory that
// starts at 0100 to be filled": 256 is 0100 hexadecimal.
pub fn load_memory(memory: &mut Memory, program: &[u8])
    requires { length program.now ≤ load_most }
    ensures { memory.new ≡ (load program.now).memory }
{
    clear(&mut memory[0..256]);
    fill(&mut memory[256..], program);
}

// "device page and stacks are zero; both pointers 0; counter 0100"; C-20: the high marks are 0.
pub fn put_program(
    memory: &mut Memory,
    devices: &mut Page,
    work: &mut Stack,
    ret: &mut Stack,
    program: &[u8],
) -> Machine
    requires { length program.now ≤ load_most }
    ensures { state memory.new devices.new work.new ret.new result ≡ load program.now }
{
    load_memory(memory, program);
    clear(devices);
    clear(work);
    clear(ret);
    Machine {
        pc: START,
        ..Machine::default()
    }
}

// Frame, C-16: the record is "written to 0080 to 00FF"; the frame area from 0080, which is 128, is handed on.
pub fn frame_memory(memory: &mut Memory, frame: &[u8])
    requires { length frame.now ≡ frame_size }
    ensures { memory.new ≡ take frame_place memory.old ++ frame.now ++ drop (frame_place + length frame.now) memory.old }
{
    place(&mut memory[128..], frame);
}

// "Port F2 is set to 0" before the run, and is the verdict after it.
const VERDICT_PORT: usize = 0xF2;

pub fn clear_verdict(devices: &mut Page)
    ensures { devices.new ≡ set devices.old verdict_port 0 }
{
    devices[VERDICT_PORT] = 0;
}

pub fn verdict(devices: &Page) -> u8
    ensures { result ≡ get_or devices.now verdict_port 0 }
{
    devices[VERDICT_PORT]
}
