// Words of a line: numbers, counts, addresses and the names of instructions.
#![tactic(auto)]

ghost use Rattle.std.specs.Prelude.{◌≡◌, ◌++◌, ◌+◌, ◌*◌, ◌%◌, ◌≤◌, length};
ghost use Rattle.arrayvec.specs.ArrayVec.{array_vec_len};
ghost use Rattle.words.specs.Words.{hex_digit, hex, digits, count, letters, mode, name};

use arrayvec::ArrayVec;
use text::{put, put_decimal};

// Each function that puts text puts it behind what is in `out`.

// A number in decimal digits, with no 0 in front; by hand, as `text::put_decimal`.
#[tactic(auto, unfolding(crate::specs::Words::digits, text::specs::Lines::decimal))]
fn put_number<const N: usize>(out: &mut ArrayVec<u8, N>, value: u16)
    requires { array_vec_len out.old + 6 ≤ N }
    ensures len { array_vec_len out.new ≤ array_vec_len out.old + 6 }
    ensures bytes { out.new.items ≡ out.old.items ++ digits value }
{
    if value < 256 {
        return put_decimal(out, value as u8);
    }
    let hundreds = b'0' + (value / 100 % 10) as u8;
    let tens = b'0' + (value / 10 % 10) as u8;
    let ones = b'0' + (value % 10) as u8;
    if value < 1000 {
        return put(out, &[hundreds, tens, ones]);
    }
    put_decimal(out, (value / 1000) as u8);
    put(out, &[hundreds, tens, ones]);
}

// Words, then a number. No generic function does this for numbers, counts and addresses: each has a room and a definition of its own,
// which such a function would have to be passed.
pub fn put_with_number<const N: usize>(out: &mut ArrayVec<u8, N>, words: &[u8], value: u16)
    requires { array_vec_len out.old + length words.now + 6 ≤ N }
    ensures len { array_vec_len out.new ≤ array_vec_len out.old + length words.now + 6 }
    ensures bytes { out.new.items ≡ (out.old.items ++ words.now) ++ digits value }
{
    put(out, words);
    put_number(out, value);
}

// "1 byte", "2 bytes".
#[tactic(auto, unfolding(crate::specs::Words::count, crate::specs::Words::joined))]
fn put_count<const N: usize>(out: &mut ArrayVec<u8, N>, value: u16)
    requires { array_vec_len out.old + 12 ≤ N }
    ensures len { array_vec_len out.new ≤ array_vec_len out.old + 12 }
    ensures bytes { out.new.items ≡ out.old.items ++ count value }
{
    put_number(out, value);
    if value == 1 {
        put(out, b" byte");
    } else {
        put(out, b" bytes");
    }
}

// Words, then a count.
pub fn put_with_count<const N: usize>(out: &mut ArrayVec<u8, N>, words: &[u8], value: u16)
    requires { array_vec_len out.old + length words.now + 12 ≤ N }
    ensures len { array_vec_len out.new ≤ array_vec_len out.old + length words.now + 12 }
    ensures bytes { out.new.items ≡ (out.old.items ++ words.now) ++ count value }
{
    put(out, words);
    put_count(out, value);
}

const DIGITS: [u8; 16] = *b"0123456789ABCDEF";

fn hex_digit(value: u16) -> u8
    ensures { result ≡ hex_digit (value % 16) }
{
    DIGITS[(value % 16) as usize]
}

// An address, in four hexadecimal digits, by hand too.
#[tactic(auto, unfolding(crate::specs::Words::hex))]
fn put_hex<const N: usize>(out: &mut ArrayVec<u8, N>, address: u16)
    requires { array_vec_len out.old + 4 ≤ N }
    ensures len { array_vec_len out.new ≤ array_vec_len out.old + 4 }
    ensures bytes { out.new.items ≡ out.old.items ++ hex address }
{
    let digits = [
        hex_digit(address / 4096),
        hex_digit(address / 256),
        hex_digit(address / 16),
        hex_digit(address),
    ];
    put(out, &digits);
}

// Words, then an address.
pub fn put_with_hex<const N: usize>(out: &mut ArrayVec<u8, N>, words: &[u8], address: u16)
    requires { array_vec_len out.old + length words.now + 4 ≤ N }
    ensures len { array_vec_len out.new ≤ array_vec_len out.old + length words.now + 4 }
    ensures bytes { out.new.items ≡ (out.old.items ++ words.now) ++ hex address }
{
    put(out, words);
    put_hex(out, address);
}

// ---- names of instructions. They stand in one text, name k at 4 * k, as the definitions have them (`letters`); arrays of names are no
// plainer, with each of the forty in quotes.

// By the high three bits of a byte whose low five are 0.
const EXCEPTIONS: [u8; 31] = *b"BRK JCI JMI JSI LIT LIT LIT LIT";

// By the low five bits.
const OPERATIONS: [u8; 127] =
    *b"... INC POP NIP SWP ROT DUP OVR EQU NEQ GTH LTH JMP JCN JSR STH LDZ STZ LDR STR LDA STA DEI DEO ADD SUB MUL DIV AND ORA EOR SFT";

// The three letters at place k of these names.
fn put_letters<const N: usize>(out: &mut ArrayVec<u8, N>, names: &[u8], k: usize)
    requires { (4 * k + 3 ≤ length names.now) × (array_vec_len out.old + 3 ≤ N) }
    ensures len { array_vec_len out.new ≤ array_vec_len out.old + 3 }
    ensures bytes { out.new.items ≡ out.old.items ++ letters names.now k }
{
    let from = 4 * k;
    let end = from + 3;
    put(out, &names[from..end]);
}

// A letter, if the mode is on.
fn put_mode<const N: usize>(out: &mut ArrayVec<u8, N>, on: bool, letter: &[u8])
    requires { (length letter.now ≤ 1) × (array_vec_len out.old + 1 ≤ N) }
    ensures len { array_vec_len out.new ≤ array_vec_len out.old + 1 }
    ensures bytes { out.new.items ≡ out.old.items ++ mode on letter.now }
{
    if on {
        put(out, letter);
    }
}

// The name of an instruction byte; bit 5 is for 2, bit 7 for k, bit 6 for r.
#[tactic(auto, unfolding(crate::specs::Words::name, crate::specs::Words::joined, model::specs::Instruction::wide, model::specs::Instruction::keep_mode, model::specs::Instruction::return_mode))]
pub fn put_name<const N: usize>(out: &mut ArrayVec<u8, N>, byte: u8)
    requires { array_vec_len out.old + 6 ≤ N }
    ensures len { array_vec_len out.new ≤ array_vec_len out.old + 6 }
    ensures bytes { out.new.items ≡ out.old.items ++ name byte }
{
    let wide = byte / 32 % 2 == 1;
    let keep = byte / 128 % 2 == 1;
    let returns = byte / 64 % 2 == 1;
    if byte % 32 == 0 {
        put_letters(out, &EXCEPTIONS, (byte / 32) as usize);
        if byte < 128 {
            return;
        }
        put_mode(out, wide, b"2");
        return put_mode(out, returns, b"r");
    }
    put_letters(out, &OPERATIONS, (byte % 32) as usize);
    put_mode(out, wide, b"2");
    put_mode(out, keep, b"k");
    put_mode(out, returns, b"r");
}
