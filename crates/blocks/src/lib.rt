// The work of the program `frames`, without its input and output: the install with its line, and frame calls with their lines for
// the records of a block.
#![tactic(auto)]

ghost use Rattle.std.specs.Prelude.{◌≡◌, ◌++◌, ◌+◌, ◌*◌, ◌/◌, ◌≤◌, ◌<◌, length, take};
ghost use Rattle.arrayvec.specs.ArrayVec.{array_vec_len};
ghost use Rattle.model.specs.Machine.{State, state};
ghost use Rattle.model.specs.Calls.{frame_size, install_call};
ghost use Rattle.model.specs.Run.Answer.{Loaded};
ghost use Rattle.model.specs.Admission.{sheet_record};
ghost use Rattle.model.specs.Replies.{of_frame};
ghost use Rattle.text.specs.Lines.{line, line_most};
ghost use Rattle.blocks.specs.Frames.{whole_records, machine_after, first_lines, judged, behind};

pub use admission::SHEET_RECORD;
use arrayvec::ArrayVec;
use model::{FrameEnd, Machine, Refused};
use refusals::FRAME_SIZE;
use text::{put_line, put_refused};

// "with a budget of 10,000 steps a frame"
const BUDGET: u32 = 10000;

// The machine record after a block, and how many bytes wait at the start of the block.
#[derive(Clone, Copy)]
pub struct Worked {
    pub machine: Machine,
    pub waiting: usize,
}

// The install of the program, with as much of `sheet` as it asks for. "A program refused at load gives that one line alone": there is
// no line otherwise, and without one the program is admitted and stands in memory.
pub fn install<const N: usize>(
    m: Machine,
    memory: &mut [u8],
    devices: &mut [u8],
    work: &mut [u8],
    ret: &mut [u8],
    program: &[u8],
    sheet: &mut [u8],
    out: &mut ArrayVec<u8, N>,
) -> Machine
    requires { (sheet_record * length program.now ≤ length sheet.old) × (array_vec_len out.old + line_most ≤ N) }
    ensures machine_left { state memory.new devices.new work.new ret.new result
        ≡ (install_call program.now (take (sheet_record * length program.now) sheet.old) (state memory.old devices.old work.old ret.old m)).reply.state }
    ensures line_put { out.new.items ≡ out.old.items
        ++ line (install_call program.now (take (sheet_record * length program.now) sheet.old) (state memory.old devices.old work.old ret.old m)).reply }
    ensures loaded { array_vec_len out.new ≡ array_vec_len out.old
        → (install_call program.now (take (sheet_record * length program.now) sheet.old) (state memory.old devices.old work.old ret.old m)).reply.answer ≡ Loaded }
{
    let n = SHEET_RECORD * program.len();
    match install::install(m, memory, devices, work, ret, program, &mut sheet[..n]) {
        Ok(machine) => machine,
        Err(refused) => {
            put_refused(out, u8::from(refused.refusal));
            refused.machine
        }
    }
}

// The record alone is taken out of a refusal: a copy of the whole would go through memory at each frame.
fn record_of(reply: Result<FrameEnd, Refused>) -> Machine
    ensures { (state_of : Machine → State) → (of_frame state_of reply).state ≡ state_of result }
{
    match reply {
        Ok(FrameEnd::Broke(m, _, _)) => m,
        Ok(FrameEnd::Spent(m, _)) => m,
        Err(Refused { machine, .. }) => machine,
    }
}

// Each call is made on what the one before it left; a refused one leaves all as it was.
fn frames<const N: usize>(
    m: Machine,
    memory: &mut [u8],
    devices: &mut [u8],
    work: &mut [u8],
    ret: &mut [u8],
    records: &[u8],
    out: &mut ArrayVec<u8, N>,
) -> Machine
    requires { array_vec_len out.old + line_most * whole_records records.now ≤ N }
    ensures machine_left { state memory.new devices.new work.new ret.new result
        ≡ machine_after records.now (state memory.old devices.old work.old ret.old m) (whole_records records.now) }
    ensures lines_put { out.new.items ≡ out.old.items
        ++ first_lines records.now (state memory.old devices.old work.old ret.old m) (whole_records records.now) }
{
    let mut machine = m;
    for record in records.chunks_exact(FRAME_SIZE) {
        let reply = machine::frame(machine, memory, devices, work, ret, record, BUDGET);
        machine = record_of(reply);
        put_line(out, reply);
    }
    machine
}

// The first n bytes of the block: frame calls for its whole records, their lines behind what is in `out`, and the bytes after the
// last whole record moved to the start of the block, where they wait for the rest of their record. The block is lent with n beside it:
// `read` of std fills a slice, and what waits has to stand at the front of it, for what comes next is read in behind that.
pub fn work_off<const N: usize>(
    m: Machine,
    memory: &mut [u8],
    devices: &mut [u8],
    work: &mut [u8],
    ret: &mut [u8],
    block: &mut [u8],
    n: usize,
    out: &mut ArrayVec<u8, N>,
) -> Worked
    requires { (n ≤ length block.old) × (array_vec_len out.old + line_most * (n / frame_size) ≤ N) }
    ensures block_after { record {
      machine = state memory.new devices.new work.new ret.new result.machine;
      lines = out.new.items;
      waiting = take result.waiting block.new;
    }
        ≡ behind out.old.items (judged (take n block.old) (state memory.old devices.old work.old ret.old m)) }
    ensures bounds { (result.waiting < frame_size) × (result.waiting ≤ length block.new) }
{
    let machine = frames(m, memory, devices, work, ret, &block[..n], out);
    let waiting = n % FRAME_SIZE;
    block.copy_within(n - waiting..n, 0);
    Worked { machine, waiting }
}
