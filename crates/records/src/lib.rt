// The two moves of a file of frame records: from 64 bytes a record to 128, and back.
#![tactic(auto)]

ghost use Rattle.std.specs.Prelude.{◌≡◌, ◌||◌, ◌++◌, ◌+◌, ◌*◌, ◌%◌, ◌≤◌, ◌<◌, min, eqb, length, get_or, take, drop};
ghost use Rattle.model.specs.Moves.{records_of, some_record, each_record};
ghost use Rattle.model.specs.RecordMoves.{old_form, new_form, broken, too_long, fitted, move_call, widen_records, narrow_records};
ghost use Rattle.model.specs.Replies.{of_write};
ghost use Rattle.records.specs.Blocks.{from_form, to_form, file_number, file_moved, earlier};

use buffers::fill;
use model::{Form, Refusal};
use moves::{each_record, some_record};
use refusals::{FRAME_MOST, FRAME_SIZE, well_formed};

// Document 01: "a record of exactly 64 bytes", "length L (0 to 62)".
fn old_form() -> Form
    ensures { result ≡ old_form }
{
    Form { size: 64, most: 62 }
}

// C-16: "the record becomes 128 bytes with L from 0 to 126".
fn new_form() -> Form
    ensures { result ≡ new_form }
{
    Form {
        size: FRAME_SIZE,
        most: FRAME_MOST,
    }
}

// ---- a record

// "a broken one by its form's rules".
fn broken(entry: &[u8], most: usize) -> bool
    requires { 2 + most ≤ length entry.now }
    ensures { result ≡ broken most entry.now }
{
    !well_formed(entry, most)
}

// "one too long to go back": L is above what the other form allows.
fn too_long(entry: &[u8], most: usize) -> bool
    requires { 0 < length entry.now }
    ensures { result ≡ too_long most entry.now }
{
    most < usize::from(entry[0])
}

// The record in as many bytes as the other form has: the bytes that both forms have room for, and zeros after them.
fn put_fitted(entry: &[u8], part: &mut [u8])
    ensures { part.new ≡ fitted (length part.old) entry.now }
{
    let kept = entry.len().min(part.len());
    fill(part, &entry[..kept]);
}

// ---- the calls

// "15 for a file not of whole records, then 8 for a broken one by its form's rules, then 16 for one too long to go back, then 13 for
// a short output", each with "nothing written".
fn move_records(from: Form, to: Form, file: &[u8], output: &mut [u8]) -> Result<usize, Refusal>
    requires { (2 + from.most ≤ from.size) × (0 < to.size) }
    ensures { of_write output.new result ≡ move_call from to file.now output.old }
{
    let size = from.size;
    if file.len() % size != 0 {
        return Err(Refusal::PartRecord);
    }
    if some_record(file, size, |entry| broken(entry, from.most)) {
        return Err(Refusal::FrameBroken);
    }
    if some_record(file, size, |entry| too_long(entry, to.most)) {
        return Err(Refusal::FrameTooLong);
    }
    let count = file.len() / size;
    let room = to.size;
    if output.len() / room < count {
        return Err(Refusal::OutputShort);
    }
    each_record(file, size, output, room, put_fitted);
    Ok(count * room)
}

// "move each to the new form by adding zeros".
pub fn widen_records(old: &[u8], output: &mut [u8]) -> Result<usize, Refusal>
    ensures { of_write output.new result ≡ widen_records old.now output.old }
{
    move_records(old_form(), new_form(), old, output)
}

// "and back where L is at most 62".
pub fn narrow_records(new: &[u8], output: &mut [u8]) -> Result<usize, Refusal>
    ensures { of_write output.new result ≡ narrow_records new.now output.old }
{
    move_records(new_form(), old_form(), new, output)
}

// ---- a file of any length, block by block

// From the old form to the new one, or back.
#[derive(Clone, Copy)]
pub enum Direction {
    Widen,
    Narrow,
}

// The number that the file is refused with so far, or 0, and how many bytes of the block in the other form there are. A number and no
// `Refusal`: the numbers of two parts make that of the whole (`earlier`), and every number is taken.
#[derive(Clone, Copy)]
pub struct BlockMoved {
    pub number: u8,
    pub written: usize,
}

fn either(a: u8, b: u8, n: u8) -> bool
    ensures { result ≡ (eqb a n || eqb b n) }
{
    a == n || b == n
}

// The number of a file from those of its two parts: "15 .., then 8 .., then 16 ..".
fn earlier_of(a: u8, b: u8) -> u8
    ensures { result ≡ earlier a b }
{
    if either(a, b, 15) {
        return 15;
    }
    if either(a, b, 8) {
        return 8;
    }
    if either(a, b, 16) {
        return 16;
    }
    0
}

// The forms that a direction leads from and to.
fn forms(direction: Direction) -> (Form, Form)
    ensures { (result.0 ≡ from_form direction) × (result.1 ≡ to_form direction) }
{
    match direction {
        Direction::Widen => (old_form(), new_form()),
        Direction::Narrow => (new_form(), old_form()),
    }
}

fn move_block(direction: Direction, block: &[u8], output: &mut [u8]) -> Result<usize, Refusal>
    ensures { of_write output.new result ≡ move_call (from_form direction) (to_form direction) block.now output.old }
{
    let (from, to) = forms(direction);
    move_records(from, to, block, output)
}

// One block more of a file whose blocks so far are of whole records, and have this number: its records in the other form at the start of
// the output, if it is not refused. How many bytes they are, and no slice of them: the number goes with it, in one record.
pub fn take_block(direction: Direction, number: u8, block: &[u8], output: &mut [u8]) -> BlockMoved
    requires { 2 * length block.now ≤ length output.old }
    ensures number_so_far { result.number ≡ earlier number (file_number direction block.now) }
    ensures block_moved { (result.written ≤ length output.new) × (take result.written output.new ≡ file_moved direction block.now) }
{
    match move_block(direction, block, output) {
        Ok(written) => BlockMoved {
            number: earlier_of(number, 0),
            written,
        },
        Err(refusal) => BlockMoved {
            number: earlier_of(number, u8::from(refusal)),
            written: 0,
        },
    }
}
