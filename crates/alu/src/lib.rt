// Arithmetic, comparison, shift and jump addresses: numbers in, number out.
#![tactic(auto)]

ghost use Rattle.std.specs.Prelude.{◌≡◌, ◌*◌, ◌%◌, if◌then◌else◌, nat_lt};
ghost use Rattle.model.specs.Instruction.{size};
ghost use Rattle.model.specs.Instruction.Arithmetic.{DIV};
ghost use Rattle.model.specs.Step as model;
ghost use Rattle.alu.specs.Numbers.{arithmetic_at, comparison_at};

// MUL, "low 8 or 16 bits kept". C-13: "by shifts and adds", a turn for each bit of the smaller number: 16 at most, 8 if it has no more bits.
pub fn product(a: u16, b: u16) -> u16
    ensures { result ≡ (a * b) % 65536 }
{
    // by hand: the edit `product_larger_number` turns this comparison round, and with `max` and `min`, which say no more, there is none
    let mut term = a;
    let mut rest = b;
    if a < b {
        term = b;
        rest = a;
    }
    let mut sum: u16 = 0;
    // A turn for each bit that is left, and none is counted. What stays: sum + term * rest is the product, modulo 65,536.
    while rest > 0 {
        if rest % 2 == 1 {
            sum = sum.wrapping_add(term);
        }
        term = term << 1;
        rest = rest >> 1;
    }
    sum
}

// DIV, "by 0 gives 0".
#[tactic(auto, unfolding(model::specs::Step::computed))]
pub fn quotient(a: u16, b: u16) -> u16
    ensures { result ≡ model.computed DIV a b }
{
    if b == 0 { 0 } else { a / b }
}

// The operations 18 to 1E, as o = 0 to 6: the low 16 bits. Here and in `compared` o stays a number: each u8 has its promise, and an enum would
// take seven of them.
#[tactic(auto, unfolding(model::specs::Step::computed))]
pub fn computed(o: u8, a: u16, b: u16) -> u16
    ensures { result ≡ model.computed (arithmetic_at o) a b % 65536 }
{
    match o {
        0 => a.wrapping_add(b),
        1 => a.wrapping_sub(b),
        2 => product(a, b),
        3 => quotient(a, b),
        4 => a & b,
        5 => a | b,
        _ => a ^ b,
    }
}

// The operations 08 to 0B, as o = 0 to 3: "compare, unsigned".
#[tactic(auto, unfolding(model::specs::Step::compared))]
pub fn compared(o: u8, a: u16, b: u16) -> bool
    ensures { result ≡ model.compared (comparison_at o) a b }
{
    match o {
        0 => a == b,
        1 => a != b,
        2 => b < a,
        _ => a < b,
    }
}

// "one byte 1 or 0"
pub fn flag(b: bool) -> u16
    ensures { result ≡ model.flag b }
{
    u16::from(b)
}

// SFT: "right by the low nibble, then left by the high nibble", the low 16 bits.
#[tactic(auto, unfolding(model::specs::Step::shifted))]
pub fn shifted(a: u16, by: u16) -> u16
    ensures { result ≡ model.shifted a by % 65536 }
{
    (a >> (by % 16)) << (by / 16 % 16)
}

// What to add to an 8-bit number so that it counts as signed, modulo 65,536: from 128 on it stands for 256 less.
fn extension(v: u16) -> u16
    ensures { result ≡ (if nat_lt v 128 then 0 else 65280) }
{
    if v < 128 { 0 } else { 65280 }
}

// An 8-bit relative address, "signed, -128 to 127, from the address just after the instruction byte".
#[tactic(auto, unfolding(model::specs::Step::relative))]
pub fn relative(next: u16, v: u16) -> u16
    ensures { result ≡ model.relative next v }
{
    next.wrapping_add(v).wrapping_add(extension(v))
}

// "A jump address of 16 bits is absolute; of 8 bits it is" relative.
#[tactic(auto, unfolding(model::specs::Step::address, model::specs::Instruction::size))]
pub fn address(next: u16, wide: bool, v: u16) -> u16
    ensures { result ≡ model.address (size wide) next v }
{
    if wide { v } else { relative(next, v) }
}
