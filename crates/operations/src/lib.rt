// The operations that need their main stack alone, in both widths, with keep as a flag: two flags, since an arm of `execute` writes the one out
// and hands on the other.
#![tactic(auto)]

ghost use Rattle.std.specs.Prelude.{◌≡◌, []};
ghost use Rattle.alu.specs.Numbers.{arithmetic_at, comparison_at};
ghost use Rattle.model.specs.Machine.{stack};
ghost use Rattle.model.specs.Instruction.Op.{INC, POP, NIP, SWP, ROT, DUP, OVR, compare, compute, SFT};
ghost use Rattle.operations.specs.After.{main_with};

use alu::{compared, computed, flag, shifted};
use stack::{Stack, lower, operands, push, push_byte, size_of};

// INC a: a+1.
pub fn inc(s: &mut Stack, p: u8, wide: bool, keep: bool) -> u8
    ensures { stack s.new result ≡ main_with [] [] 0 INC wide keep (stack s.old p) }
{
    let n = size_of(wide);
    let x = operands(s, p, n, 0, 0);
    push(s, lower(p, keep, n), wide, x[0].wrapping_add(1))
}

// POP a: nothing.
pub fn pop(s: &Stack, p: u8, wide: bool, keep: bool) -> u8
    ensures { stack s.now result ≡ main_with [] [] 0 POP wide keep (stack s.now p) }
{
    lower(p, keep, size_of(wide))
}

// NIP a b: b.
pub fn nip(s: &mut Stack, p: u8, wide: bool, keep: bool) -> u8
    ensures { stack s.new result ≡ main_with [] [] 0 NIP wide keep (stack s.old p) }
{
    let n = size_of(wide);
    let x = operands(s, p, n, n, 0);
    push(s, lower(p, keep, n + n), wide, x[1])
}

// SWP a b: b a.
pub fn swp(s: &mut Stack, p: u8, wide: bool, keep: bool) -> u8
    ensures { stack s.new result ≡ main_with [] [] 0 SWP wide keep (stack s.old p) }
{
    let n = size_of(wide);
    let x = operands(s, p, n, n, 0);
    let q = push(s, lower(p, keep, n + n), wide, x[1]);
    push(s, q, wide, x[0])
}

// ROT a b c: b c a.
pub fn rot(s: &mut Stack, p: u8, wide: bool, keep: bool) -> u8
    ensures { stack s.new result ≡ main_with [] [] 0 ROT wide keep (stack s.old p) }
{
    let n = size_of(wide);
    let x = operands(s, p, n, n, n);
    let q = push(s, lower(p, keep, n + n + n), wide, x[1]);
    let r = push(s, q, wide, x[2]);
    push(s, r, wide, x[0])
}

// DUP a: a a.
pub fn dup(s: &mut Stack, p: u8, wide: bool, keep: bool) -> u8
    ensures { stack s.new result ≡ main_with [] [] 0 DUP wide keep (stack s.old p) }
{
    let n = size_of(wide);
    let x = operands(s, p, n, 0, 0);
    let q = push(s, lower(p, keep, n), wide, x[0]);
    push(s, q, wide, x[0])
}

// OVR a b: a b a.
pub fn ovr(s: &mut Stack, p: u8, wide: bool, keep: bool) -> u8
    ensures { stack s.new result ≡ main_with [] [] 0 OVR wide keep (stack s.old p) }
{
    let n = size_of(wide);
    let x = operands(s, p, n, n, 0);
    let q = push(s, lower(p, keep, n + n), wide, x[0]);
    let r = push(s, q, wide, x[1]);
    push(s, r, wide, x[0])
}

// EQU, NEQ, GTH, LTH a b, as o = 0 to 3: one byte, 1 or 0. Here and in `compute` o stays a number, as in `alu`.
pub fn compare(s: &mut Stack, p: u8, wide: bool, keep: bool, o: u8) -> u8
    ensures { stack s.new result ≡ main_with [] [] 0 (compare (comparison_at o)) wide keep (stack s.old p) }
{
    let n = size_of(wide);
    let x = operands(s, p, n, n, 0);
    push_byte(s, lower(p, keep, n + n), flag(compared(o, x[0], x[1])))
}

// ADD, SUB, MUL, DIV, AND, ORA, EOR a b, as o = 0 to 6.
pub fn compute(s: &mut Stack, p: u8, wide: bool, keep: bool, o: u8) -> u8
    ensures { stack s.new result ≡ main_with [] [] 0 (compute (arithmetic_at o)) wide keep (stack s.old p) }
{
    let n = size_of(wide);
    let x = operands(s, p, n, n, 0);
    push(s, lower(p, keep, n + n), wide, computed(o, x[0], x[1]))
}

// SFT a shift8.
pub fn sft(s: &mut Stack, p: u8, wide: bool, keep: bool) -> u8
    ensures { stack s.new result ≡ main_with [] [] 0 SFT wide keep (stack s.old p) }
{
    let n = size_of(wide);
    let x = operands(s, p, n, 1, 0);
    push(s, lower(p, keep, n + 1), wide, shifted(x[0], x[1]))
}
