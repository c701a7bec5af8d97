// The tests behind the numbered replies: why the call is refused, or nothing where no row of the call says so.
#![tactic(auto)]

ghost use Rattle.std.specs.Prelude.{◌≡◌, ◌+◌, ◌≤◌, length, OnOk};
ghost use Rattle.model.specs.Machine.{state};
ghost use Rattle.model.specs.Calls.{refusal, buffer_rows, load_most, load_rows, event_rows, well_formed, frame_size, frame_rows};
ghost use Rattle.model.specs.Refusals.{refused_by};
ghost use Rattle.refusals.specs.Lengths.{Lengths};
ghost use Rattle.model.specs.declared.Machine.{Machine};

use model::Refusal;
use stack::{MEMORY_SIZE, PAGE_SIZE, STACK_SIZE};

// Reply 5: "at load also above 65,280 bytes".
const LOAD_MOST: usize = 65280;

// "Event for device d, 0 to 15".
const LAST_DEVICE: u32 = 15;

// C-16: "the record becomes 128 bytes with L from 0 to 126".
pub const FRAME_SIZE: usize = 128;

pub const FRAME_MOST: usize = 126;

// L and the node number stand before the data.
const FRAME_HEAD: usize = 2;

// "memory, device page, working stack, return stack of wrong length"
pub fn check_buffers(memory: &[u8], devices: &[u8], work: &[u8], ret: &[u8]) -> Result<(), Refusal>
    ensures number { (m : Machine) → refused_by result ≡ refusal (buffer_rows (state memory.now devices.now work.now ret.now m)) }
    ensures lengths { OnOk result (Lengths memory.now devices.now work.now ret.now) }
{
    if memory.len() != MEMORY_SIZE {
        return Err(Refusal::MemoryLength);
    }
    if devices.len() != PAGE_SIZE {
        return Err(Refusal::DevicesLength);
    }
    if work.len() != STACK_SIZE {
        return Err(Refusal::WorkLength);
    }
    if ret.len() != STACK_SIZE {
        return Err(Refusal::RetLength);
    }
    Ok(())
}

// "program empty; at load also above 65,280 bytes"
pub fn check_load(
    memory: &[u8],
    devices: &[u8],
    work: &[u8],
    ret: &[u8],
    program: &[u8],
) -> Result<(), Refusal>
    ensures number { (m : Machine) → refused_by result ≡ refusal (load_rows program.now (state memory.now devices.now work.now ret.now m)) }
    ensures lengths { OnOk result (Lengths memory.now devices.now work.now ret.now) }
    ensures program_fits { OnOk result (length program.now ≤ load_most) }
{
    check_buffers(memory, devices, work, ret)?;
    if program.len() == 0 {
        return Err(Refusal::Program);
    }
    if LOAD_MOST < program.len() {
        return Err(Refusal::Program);
    }
    Ok(())
}

// "device above 15"
pub fn check_event(
    memory: &[u8],
    devices: &[u8],
    work: &[u8],
    ret: &[u8],
    device: u32,
) -> Result<(), Refusal>
    ensures number { (m : Machine) → refused_by result ≡ refusal (event_rows device (state memory.now devices.now work.now ret.now m)) }
    ensures lengths { OnOk result (Lengths memory.now devices.now work.now ret.now) }
    ensures is_device { OnOk result (device ≤ 15) }
{
    check_buffers(memory, devices, work, ret)?;
    if LAST_DEVICE < device {
        return Err(Refusal::Device);
    }
    Ok(())
}

// Not "L above 126 or a tail byte not 0", in a record whose data may have so many bytes. The bytes are joined by OR: no branch in the loop.
pub fn well_formed(frame: &[u8], most: usize) -> bool
    requires { 2 + most ≤ length frame.now }
    ensures { result ≡ well_formed most frame.now }
{
    let n = usize::from(frame[0]);
    if most < n {
        return false;
    }
    let tail = &frame[FRAME_HEAD + n..];
    let mut seen: u8 = 0;
    for byte in tail {
        seen |= *byte;
    }
    seen == 0
}

// C-16: "7 now means not 128", 8 not well-formed.
pub fn check_frame(
    memory: &[u8],
    devices: &[u8],
    work: &[u8],
    ret: &[u8],
    frame: &[u8],
) -> Result<(), Refusal>
    ensures number { (m : Machine) → refused_by result ≡ refusal (frame_rows frame.now (state memory.now devices.now work.now ret.now m)) }
    ensures lengths { OnOk result (Lengths memory.now devices.now work.now ret.now) }
    ensures whole_frame { OnOk result (length frame.now ≡ frame_size) }
{
    check_buffers(memory, devices, work, ret)?;
    if frame.len() != FRAME_SIZE {
        return Err(Refusal::FrameLength);
    }
    if well_formed(frame, FRAME_MOST) {
        Ok(())
    } else {
        Err(Refusal::FrameBroken)
    }
}
