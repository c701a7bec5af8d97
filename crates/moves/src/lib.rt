// The two moves of a sheet: from four bytes a record to eight, and back; and the loops over the records of a file, for every move.
#![tactic(auto)]

ghost use Rattle.std.specs.Prelude.{◌≡◌, ℕ, List, Bool, ◌<◌, cond, not, ◌++◌, ◌/◌, ◌*◌, ◌≤◌, eqb, length, drop};
ghost use Rattle.model.specs.Calls.{all_zero};
ghost use Rattle.model.specs.Admission.{sheet_record};
ghost use Rattle.model.specs.Moves.{old_record, wrong_old, wrong_new, stays_new, widened, narrowed, records_of, some_record, each_record, widen_call, narrow_call};
ghost use Rattle.model.specs.Replies.{of_write};
ghost use Rattle.moves.specs.Judging.{Tells, Puts};

use buffers::place;
use model::{Refusal, START};
use stack::{SHEET_RECORD, two_bytes};

// "the old four": mark, working depth, return depth, program byte.
const OLD_RECORD: usize = 4;

const MARKED: u8 = 1;

const START_HIGH: u8 = 0x01;

// ---- a record

// A byte is not 0.
fn not_zero(bytes: &[u8]) -> bool
    ensures { result ≡ not (all_zero bytes.now) }
{
    bytes.iter().any(|byte| *byte != 0)
}

// "a mark above 1, an unmarked record not 0 but for its program byte", in a record of either form.
fn wrong_old(bytes: &[u8]) -> bool
    requires { old_record ≤ length bytes.now }
    ensures { result ≡ wrong_old bytes.now }
{
    if bytes[0] == MARKED {
        return false;
    }
    if not_zero(&bytes[0..3]) {
        return true;
    }
    not_zero(&bytes[4..])
}

// And "a marked routine 0 or last pair not 0". Records are slices, as `chunks_exact` gives them: an array would be a copy.
fn wrong_new(bytes: &[u8]) -> bool
    requires { length bytes.now ≡ sheet_record }
    ensures { result ≡ wrong_new bytes.now }
{
    if wrong_old(bytes) {
        return true;
    }
    if bytes[0] != MARKED {
        return false;
    }
    if two_bytes(bytes[4], bytes[5]) == 0 {
        return true;
    }
    not_zero(&bytes[6..])
}

// "one that can't go back".
fn stays_new(bytes: &[u8]) -> bool
    requires { length bytes.now ≡ sheet_record }
    ensures { result ≡ stays_new bytes.now }
{
    if bytes[0] != MARKED {
        return false;
    }
    two_bytes(bytes[4], bytes[5]) != START
}

// The high byte of the routine, whose low byte is 0: "to the new form with routine 0100".
fn routine_high(mark: u8) -> u8
    ensures { result ≡ cond (eqb mark 1) 1 0 }
{
    if mark == MARKED { START_HIGH } else { 0 }
}

// The record in the new form.
fn put_widened(bytes: &[u8], part: &mut [u8])
    requires { (length bytes.now ≡ old_record) × (length part.old ≡ sheet_record) }
    ensures { part.new ≡ widened bytes.now }
{
    place(part, bytes);
    place(&mut part[4..], &[routine_high(bytes[0]), 0, 0, 0]);
}

// The record in the old form: its first four bytes.
fn put_narrowed(bytes: &[u8], part: &mut [u8])
    requires { (length bytes.now ≡ sheet_record) × (length part.old ≡ old_record) }
    ensures { part.new ≡ narrowed bytes.now }
{
    place(part, &bytes[..OLD_RECORD]);
}

// ---- a sheet, or another file of records of one size

// The test says yes to some whole record of this size.
pub fn some_record<F: Fn(&[u8]) -> bool>(file: &[u8], size: usize, test: F) -> bool
    requires sized { 0 < size }
    requires callable { (entry : _) → length entry.now ≡ size → F.pre test entry }
    ensures { (holds : List ℕ → Bool) → Tells size (F.post test) holds → result ≡ some_record holds (records_of size file.now) }
{
    for record in file.chunks_exact(size) {
        if test(record) {
            return true;
        }
    }
    false
}

// Each whole record of this size in another form, of so many bytes, one after the other; the rest of the output stays. Its place is counted,
// since of what is written through the items of `chunks_exact_mut` the prover knows nothing.
pub fn each_record<F: Fn(&[u8], &mut [u8])>(
    file: &[u8],
    size: usize,
    output: &mut [u8],
    room: usize,
    change: F,
)
    requires sized { 0 < size }
    requires callable { (entry : _) (part : _) → length entry.now ≡ size → length part.now ≡ room → F.pre change entry part }
    requires fits { length file.now / size * room ≤ length output.old }
    ensures { (changed : List ℕ → List ℕ) → Puts size room (F.post change) changed
        → output.new ≡ each_record changed (records_of size file.now) ++ drop (length (each_record changed (records_of size file.now))) output.old }
{
    let mut put = 0;
    for entry in file.chunks_exact(size) {
        let next = put + room;
        change(entry, &mut output[put..next]);
        put = next;
    }
}

// ---- the calls

// C calls each of the two moves of a sheet by its name, as those of records, and lends the output: how much of it is written is answered.

// "Old sheets move to the new form with routine 0100": 18, then 13 "for a short output", each with "nothing written".
pub fn widen_sheet(old: &[u8], output: &mut [u8]) -> Result<usize, Refusal>
    ensures { of_write output.new result ≡ widen_call old.now output.old }
{
    if old.len() % OLD_RECORD != 0 {
        return Err(Refusal::SheetBroken);
    }
    if some_record(old, OLD_RECORD, wrong_old) {
        return Err(Refusal::SheetBroken);
    }
    if output.len() / 2 < old.len() {
        return Err(Refusal::OutputShort);
    }
    each_record(old, OLD_RECORD, output, SHEET_RECORD, put_widened);
    Ok(old.len() * 2)
}

// "and back if no other is marked": 18, then 19 "for one that can't go back", then 13.
pub fn narrow_sheet(new: &[u8], output: &mut [u8]) -> Result<usize, Refusal>
    ensures { of_write output.new result ≡ narrow_call new.now output.old }
{
    if new.len() % SHEET_RECORD != 0 {
        return Err(Refusal::SheetBroken);
    }
    if some_record(new, SHEET_RECORD, wrong_new) {
        return Err(Refusal::SheetBroken);
    }
    if some_record(new, SHEET_RECORD, stays_new) {
        return Err(Refusal::OtherRoutine);
    }
    if output.len() < new.len() / 2 {
        return Err(Refusal::OutputShort);
    }
    each_record(new, SHEET_RECORD, output, OLD_RECORD, put_narrowed);
    Ok(new.len() / 2)
}
