// The line of a reply: "pass", "drop", "spent", or "refused" with a space and the number.
#![tactic(auto)]

ghost use Rattle.std.specs.Prelude.{◌≡◌, ◌++◌, ◌+◌, ◌≤◌, length};
ghost use Rattle.arrayvec.specs.ArrayVec.{array_vec_len};
ghost use Rattle.model.specs.Machine.{State};
ghost use Rattle.model.specs.Replies.{of_frame};
ghost use Rattle.model.specs.declared.Machine.{Machine};
ghost use Rattle.text.specs.Lines.{decimal, refused_line, line, line_most};

use arrayvec::ArrayVec;
use model::{FrameEnd, Refused};

// Each function here puts text behind what is in `out`. That there is room for it stands in each contract, for what is put differs: no type
// of a buffer says how much of it is free.

// A push has its room by its contract; `try_extend_from_slice` would look for it at each call.
pub fn put<const N: usize>(out: &mut ArrayVec<u8, N>, text: &[u8])
    requires { array_vec_len out.old + length text.now ≤ N }
    ensures len { array_vec_len out.new ≡ array_vec_len out.old + length text.now }
    ensures bytes { out.new.items ≡ out.old.items ++ text.now }
{
    for byte in text {
        out.push(*byte);
    }
}

// Here and in `put_number` and `put_hex` the digits are taken by hand: the check alone finds that they are those of the definition. A library has
// its own definition of a number's digits, and laws that it comes to ours would be longer than the three.
#[tactic(auto, unfolding(crate::specs::Lines::decimal))]
pub fn put_decimal<const N: usize>(out: &mut ArrayVec<u8, N>, number: u8)
    requires { array_vec_len out.old + 3 ≤ N }
    ensures len { array_vec_len out.new ≤ array_vec_len out.old + 3 }
    ensures bytes { out.new.items ≡ out.old.items ++ decimal number }
{
    let ones = b'0' + number % 10;
    if number < 10 {
        return put(out, &[ones]);
    }
    let tens = b'0' + number / 10 % 10;
    if number < 100 {
        return put(out, &[tens, ones]);
    }
    put(out, &[b'0' + number / 100, tens, ones]);
}

// A number, and no `Refusal`: of a whole file `convert` has the number alone, worked out from those of its blocks, whatever they are.
#[tactic(auto, unfolding(crate::specs::Lines::refused_line))]
pub fn put_refused<const N: usize>(out: &mut ArrayVec<u8, N>, number: u8)
    requires { array_vec_len out.old + line_most ≤ N }
    ensures len { array_vec_len out.new ≤ array_vec_len out.old + line_most }
    ensures bytes { out.new.items ≡ out.old.items ++ refused_line number }
{
    put(out, b"refused ");
    put_decimal(out, number);
    put(out, b"\n");
}

#[tactic(auto, unfolding(crate::specs::Lines::line_of))]
pub fn put_line<const N: usize>(out: &mut ArrayVec<u8, N>, reply: Result<FrameEnd, Refused>)
    requires { array_vec_len out.old + line_most ≤ N }
    ensures len { array_vec_len out.new ≤ array_vec_len out.old + line_most }
    ensures bytes { (state_of : Machine → State) → out.new.items ≡ out.old.items ++ line (of_frame state_of reply) }
{
    match reply {
        Ok(FrameEnd::Broke(_, _, 0)) => put(out, b"drop\n"),
        Ok(FrameEnd::Broke(_, _, _)) => put(out, b"pass\n"),
        Ok(FrameEnd::Spent(_, _)) => put(out, b"spent\n"),
        Err(Refused { refusal, .. }) => put_refused(out, refusal.into()),
    }
}
