// The line of the program `explain`: "admitted", "refused" and a number, or the reason of a refusal with 11.
#![tactic(auto)]

ghost use Rattle.std.specs.Prelude.{◌≡◌, ◌++◌, ◌+◌, ◌-◌, ◌≤◌, length};
ghost use Rattle.arrayvec.specs.ArrayVec.{array_vec_len};
ghost use Rattle.model.specs.Machine.{start};
ghost use Rattle.model.specs.Admission.{byte_at};
ghost use Rattle.why.specs.Explained.{rest_from, last_of, stack_name, takes, leaves, returns_with, in_routine, with_depths, other_way, is_cut, takes_below, goes_outside, ways_differ, returns_off_floor, returns_differ, part_most, sentence, sentence_most, place_of, because_line, explain_line, explain_most};

use arrayvec::ArrayVec;
use model::{Place, Reason, Refusal, START};
use table::WhichStack;
use text::{put, put_refused};
use words::{put_name, put_with_count, put_with_hex, put_with_number};

// ---- of the program

// How many addresses there are.
const ADDRESSES: usize = 65536;

// The place of an address in the program, 0 for one below 0100.
fn index_of(address: u16) -> usize
    ensures { result ≡ address - start }
{
    address.saturating_sub(START) as usize
}

// The byte at an address, 0 past the end of the program.
#[tactic(auto, unfolding(model::specs::Admission::byte_at))]
fn byte_at(program: &[u8], address: u16) -> u8
    ensures { result ≡ byte_at program.now address }
{
    *program.get(index_of(address)).unwrap_or(&0)
}

// How many bytes there are from an address to the program's end.
fn rest_from(program: &[u8], address: u16) -> u16
    ensures { result ≡ rest_from program.now address }
{
    let end = START as usize + program.len();
    let from = address as usize;
    (end.saturating_sub(from) % ADDRESSES) as u16
}

// The address of the program's last byte.
fn last_of(program: &[u8]) -> u16
    ensures { result ≡ last_of program.now }
{
    ((START as usize + program.len() - 1) % ADDRESSES) as u16
}

// ---- parts of sentences. Each function from here on puts text behind what is in `out`.
// Bytes are widened by `as`: with `u16::from` six of the proofs did not close.

// The word for a stack; `part_most` has room for both.
fn stack_name(stack: WhichStack) -> &'static [u8]
    ensures word { result.now ≡ stack_name stack }
    ensures short { length result.now ≤ 7 }
{
    match stack {
        WhichStack::Working => b"working",
        WhichStack::Returning => b"return",
    }
}

// " takes 1 byte of the working stack, which holds 0".
fn put_takes<const N: usize>(out: &mut ArrayVec<u8, N>, bytes: u8, stack: WhichStack, holds: u8)
    requires { array_vec_len out.old + part_most ≤ N }
    ensures len { array_vec_len out.new ≤ array_vec_len out.old + part_most }
    ensures bytes { out.new.items ≡ out.old.items ++ takes bytes (stack_name stack) holds }
{
    put_with_count(out, b" takes ", bytes as u16);
    put(out, b" of the ");
    put(out, stack_name(stack));
    put_with_number(out, b" stack, which holds ", holds as u16);
}

// " leaves 256 bytes on the working stack, which has room for 255".
fn put_leaves<const N: usize>(out: &mut ArrayVec<u8, N>, bytes: u16, stack: WhichStack)
    requires { array_vec_len out.old + part_most ≤ N }
    ensures len { array_vec_len out.new ≤ array_vec_len out.old + part_most }
    ensures bytes { out.new.items ≡ out.old.items ++ leaves bytes (stack_name stack) }
{
    put_with_count(out, b" leaves ", bytes);
    put(out, b" on the ");
    put(out, stack_name(stack));
    put(out, b" stack, which has room for 255");
}

// " returns from routine 0104 with return depth 3".
fn put_returns<const N: usize>(
    out: &mut ArrayVec<u8, N>,
    routine: u16,
    stack: WhichStack,
    depth: u8,
)
    requires { array_vec_len out.old + part_most ≤ N }
    ensures len { array_vec_len out.new ≤ array_vec_len out.old + part_most }
    ensures bytes { out.new.items ≡ out.old.items ++ returns_with routine (stack_name stack) depth }
{
    put_with_hex(out, b" returns from routine ", routine);
    put(out, b" with ");
    put(out, stack_name(stack));
    put_with_number(out, b" depth ", depth as u16);
}

// " in routine 0104", if the other one is another.
#[tactic(auto, using(words::proofs::Joined::pieces), unfolding(crate::specs::Explained::in_routine))]
fn put_in_routine<const N: usize>(out: &mut ArrayVec<u8, N>, routine: u16, other: u16)
    requires { array_vec_len out.old + 16 ≤ N }
    ensures len { array_vec_len out.new ≤ array_vec_len out.old + 16 }
    ensures bytes { out.new.items ≡ out.old.items ++ in_routine routine other }
{
    if routine != other {
        put_with_hex(out, b" in routine ", routine);
    }
}

// " with working depth 1 and return depth 0", with the routine if the other one is another.
fn put_with_depths<const N: usize>(out: &mut ArrayVec<u8, N>, next: Place, other: u16)
    requires { array_vec_len out.old + part_most ≤ N }
    ensures len { array_vec_len out.new ≤ array_vec_len out.old + part_most }
    ensures bytes { out.new.items ≡ out.old.items ++ with_depths next other }
{
    put_with_number(out, b" with working depth ", next.work as u16);
    put_with_number(out, b" and return depth ", next.ret as u16);
    put_in_routine(out, next.routine, other);
}

// ", and another way there has 0 and 0", with the routine if the other one is another.
fn put_other_way<const N: usize>(out: &mut ArrayVec<u8, N>, other: Place, next: u16)
    requires { array_vec_len out.old + part_most ≤ N }
    ensures len { array_vec_len out.new ≤ array_vec_len out.old + part_most }
    ensures bytes { out.new.items ≡ out.old.items ++ other_way other next }
{
    put_with_number(out, b", and another way there has ", other.work as u16);
    put_with_number(out, b" and ", other.ret as u16);
    put_in_routine(out, other.routine, next);
}

// ---- a sentence for each reason

// " is 3 bytes long, and the program ends after 2 of them".
#[tactic(auto, unfolding(crate::specs::Explained::is_cut, words::specs::Words::joined))]
fn put_cut<const N: usize>(out: &mut ArrayVec<u8, N>, bytes: u8, rest: u16)
    requires { array_vec_len out.old + sentence_most ≤ N }
    ensures len { array_vec_len out.new ≤ array_vec_len out.old + sentence_most }
    ensures bytes { out.new.items ≡ out.old.items ++ is_cut bytes rest }
{
    put_with_count(out, b" is ", bytes as u16);
    put_with_number(out, b" long, and the program ends after ", rest);
    put(out, b" of them");
}

// " takes 1 byte of the return stack, which holds 2, and 2 of them belong to the callers of routine 0104".
#[tactic(auto, using(words::proofs::Joined::pieces), unfolding(crate::specs::Explained::takes_below))]
fn put_takes_below<const N: usize>(
    out: &mut ArrayVec<u8, N>,
    bytes: u8,
    holds: u8,
    floor: u8,
    routine: u16,
)
    requires { array_vec_len out.old + sentence_most ≤ N }
    ensures len { array_vec_len out.new ≤ array_vec_len out.old + sentence_most }
    ensures bytes { out.new.items ≡ out.old.items ++ takes_below bytes holds floor routine }
{
    put_takes(out, bytes, WhichStack::Returning, holds);
    put_with_number(out, b", and ", floor as u16);
    put_with_hex(out, b" of them belong to the callers of routine ", routine);
}

// " goes on to 0203, outside the program, which is 0100 to 0102".
fn put_outside<const N: usize>(out: &mut ArrayVec<u8, N>, next: u16, last: u16)
    requires { array_vec_len out.old + sentence_most ≤ N }
    ensures len { array_vec_len out.new ≤ array_vec_len out.old + sentence_most }
    ensures bytes { out.new.items ≡ out.old.items ++ goes_outside next last }
{
    put_with_hex(out, b" goes on to ", next);
    put_with_hex(out, b", outside the program, which is 0100 to ", last);
}

// " goes on to 0107 with working depth 1 and return depth 0, and another way there has 0 and 0", with the routines if they differ.
fn put_ways_differ<const N: usize>(out: &mut ArrayVec<u8, N>, next: Place, other: Place)
    requires { array_vec_len out.old + sentence_most ≤ N }
    ensures len { array_vec_len out.new ≤ array_vec_len out.old + sentence_most }
    ensures bytes { out.new.items ≡ out.old.items ++ ways_differ next other }
{
    put_with_hex(out, b" goes on to ", next.at);
    put_with_depths(out, next, other.routine);
    put_other_way(out, other, next.routine);
}

// " returns from routine 0104 with return depth 3, and it was entered with 2".
#[tactic(auto, using(words::proofs::Joined::pieces), unfolding(crate::specs::Explained::returns_off_floor))]
fn put_off_floor<const N: usize>(out: &mut ArrayVec<u8, N>, place: Place, entry: Place)
    requires { array_vec_len out.old + sentence_most ≤ N }
    ensures len { array_vec_len out.new ≤ array_vec_len out.old + sentence_most }
    ensures bytes { out.new.items ≡ out.old.items ++ returns_off_floor place entry }
{
    put_returns(out, place.routine, WhichStack::Returning, place.ret);
    put_with_number(out, b", and it was entered with ", entry.ret as u16);
}

// " returns from routine 0107 with working depth 2, and the JMP2r at 010A with 1".
fn put_returns_differ<const N: usize>(out: &mut ArrayVec<u8, N>, place: Place, other: Place)
    requires { array_vec_len out.old + sentence_most ≤ N }
    ensures len { array_vec_len out.new ≤ array_vec_len out.old + sentence_most }
    ensures bytes { out.new.items ≡ out.old.items ++ returns_differ place other }
{
    put_returns(out, place.routine, WhichStack::Working, place.work);
    put_with_hex(out, b", and the JMP2r at ", other.at);
    put_with_number(out, b" with ", other.work as u16);
}

// The sentence of a reason, after the name of the instruction.
#[tactic(auto, unfolding(crate::specs::Explained::sentence))]
fn put_sentence<const N: usize>(out: &mut ArrayVec<u8, N>, program: &[u8], reason: Reason)
    requires { array_vec_len out.old + sentence_most ≤ N }
    ensures len { array_vec_len out.new ≤ array_vec_len out.old + sentence_most }
    ensures bytes { out.new.items ≡ out.old.items ++ sentence program.now reason }
{
    match reason {
        Reason::Cut(p, n) => put_cut(out, n, rest_from(program, p.at)),
        Reason::Forbidden(_) => put(out, b" is not allowed in a filter"),
        Reason::FewWorking(p, n) => put_takes(out, n, WhichStack::Working, p.work),
        Reason::FewReturn(p, n) => put_takes(out, n, WhichStack::Returning, p.ret),
        Reason::BelowFloor(p, n, entry) => { put_takes_below(out, n, p.ret, entry.ret, p.routine) }
        Reason::ManyWorking(_, n) => put_leaves(out, n, WhichStack::Working),
        Reason::ManyReturn(_, n) => put_leaves(out, n, WhichStack::Returning),
        Reason::Outside(_, next) => put_outside(out, next.at, last_of(program)),
        Reason::WaysDiffer(_, next, other) => put_ways_differ(out, next, other),
        Reason::ReturnIn0100(_) => { put(out, b" returns in routine 0100, which was not called") }
        Reason::ReturnOffFloor(p, entry) => put_off_floor(out, p, entry),
        Reason::ReturnsDiffer(p, other) => put_returns_differ(out, p, other),
    }
}

// ---- the line

// The place of the instruction where the rule fails.
#[tactic(auto, unfolding(crate::specs::Explained::place_of))]
fn place_of(reason: Reason) -> Place
    ensures { result ≡ place_of reason }
{
    match reason {
        Reason::Cut(p, _)
        | Reason::Forbidden(p)
        | Reason::FewWorking(p, _)
        | Reason::FewReturn(p, _)
        | Reason::BelowFloor(p, _, _)
        | Reason::ManyWorking(p, _)
        | Reason::ManyReturn(p, _)
        | Reason::Outside(p, _)
        | Reason::WaysDiffer(p, _, _)
        | Reason::ReturnIn0100(p)
        | Reason::ReturnOffFloor(p, _)
        | Reason::ReturnsDiffer(p, _) => p,
    }
}

// The line of a refusal with 11.
#[tactic(auto, unfolding(crate::specs::Explained::because_line, words::specs::Words::joined))]
fn put_because<const N: usize>(out: &mut ArrayVec<u8, N>, program: &[u8], reason: Reason)
    requires { array_vec_len out.old + explain_most ≤ N }
    ensures len { array_vec_len out.new ≤ array_vec_len out.old + explain_most }
    ensures bytes { out.new.items ≡ out.old.items ++ because_line program.now reason }
{
    let place = place_of(reason);
    put_with_hex(out, b"refused 11 at ", place.at);
    put(out, b": ");
    put_name(out, byte_at(program, place.at));
    put_sentence(out, program, reason);
    put(out, b"\n");
}

// The line of a reply to `explain`.
#[tactic(auto, unfolding(crate::specs::Explained::explain_line))]
pub fn put_explained<const N: usize>(
    out: &mut ArrayVec<u8, N>,
    program: &[u8],
    reply: Result<Option<Reason>, Refusal>,
)
    requires { array_vec_len out.old + explain_most ≤ N }
    ensures len { array_vec_len out.new ≤ array_vec_len out.old + explain_most }
    ensures bytes { out.new.items ≡ out.old.items ++ explain_line program.now reply }
{
    match reply {
        Err(refusal) => put_refused(out, refusal.into()),
        Ok(None) => put(out, b"admitted\n"),
        Ok(Some(reason)) => put_because(out, program, reason),
    }
}
