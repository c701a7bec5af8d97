// What the programs share: reading an input that may come in pieces, arguments and usage, output, and messages on standard error.
#![tactic(auto)]

ghost use Rattle.std.specs.Prelude.{◌≡◌, ◌≤◌, length, take, IfSome};
ghost use Rattle.std.specs.Result.{result_ok};
ghost use Rattle.input.specs.Filled.{FilledTo};

use arrayvec::ArrayVec;
use std::env::{Env, FillError};
use std::fs::File;
use std::io::{Print, Read, Write};
use std::{fs, io};
use text::put_refused;

// One byte more than admission takes, so that a longer program is seen and refused.
pub const PROGRAM_ROOM: usize = 4097;

// One read into the buffer from `at` on; what stands before `at` stays. The answer is up to where the buffer is filled now: `at` again
// where the input has ended.
pub fn read_more(source: &mut impl Read, buf: &mut [u8], at: usize) -> io::Result<usize>
    requires { at ≤ length buf.old }
    ensures { FilledTo at result buf.new × (take at buf.new ≡ take at buf.old) }
{
    let got = source.read(&mut buf[at..])?;
    Ok(at + got)
}

// Reads until the buffer is full or the input ends. No `for`: a read fills as much as it likes.
pub fn read_to_end(source: &mut impl Read, buf: &mut [u8]) -> io::Result<usize>
    ensures { FilledTo 0 result buf.new }
{
    let mut n = 0;
    while n < buf.len() {
        let filled = read_more(source, buf, n)?;
        if filled == n {
            break;
        }
        n = filled;
    }
    Ok(n)
}

// Zeros, as room for a block of a file.
pub fn zeros<const N: usize>() -> [u8; N]
    ensures { length result ≡ N }
{
    [0; N]
}

// ---- arguments

// How many arguments there are, with the program's name, which is the first.
pub fn argument_count(env: &impl Env) -> usize {
    let mut word = [0u8; 1];
    for i in 0..usize::MAX {
        if let Err(FillError::NotPresent) = env.arg(i, &mut word) {
            return i;
        }
    }
    usize::MAX
}

// The program has one argument, `--help`.
pub fn asks_for_help(env: &impl Env) -> bool {
    if argument_count(env) != 2 {
        return false;
    }
    let mut word = [0u8; 4096];
    match env.arg(1, &mut word) {
        Ok(n) => &word[..n] == b"--help".as_slice(),
        Err(_) => false,
    }
}

// The program has so many arguments, with its name. Else the usage is said: on standard output where it is asked for.
pub fn has_arguments(rt: &HostRuntime, count: usize, usage: &[u8]) -> bool {
    if asks_for_help(rt) {
        let _ = rt.stdout().write_all(usage);
        return false;
    }
    if argument_count(rt) != count {
        say(rt, usage);
        return false;
    }
    true
}

// The system's numbers of two errors.
const NAME_TOO_LONG: i32 = 36;

const NO_TEXT: i32 = 84;

// Argument i, at the start of the buffer. Where it is longer than the buffer, that is said, with the name that the argument has in the
// usage.
pub fn argument<'a>(rt: &HostRuntime, i: usize, name: &[u8], word: &'a mut [u8]) -> Option<&'a [u8]>
    ensures { IfSome result (λ text. length text.now ≤ length word.old) }
{
    match rt.arg(i, word) {
        Ok(n) => Some(&word[..n]),
        Err(_) => {
            say_failed(rt, name, &io::Error::from_raw_os_error(NAME_TOO_LONG));
            None
        }
    }
}

// The file of this name. A name that is no UTF-8 text opens none.
pub fn open(rt: &HostRuntime, path: &[u8]) -> io::Result<File> {
    match std::str::from_utf8(path) {
        Ok(text) => fs::open(rt, text),
        Err(_) => Err(io::Error::from_raw_os_error(NO_TEXT)),
    }
}

// ---- messages on standard error; where one can not be written, nothing else is done

pub fn say(rt: &HostRuntime, text: &[u8]) {
    let _ = rt.stderr().write_all(text);
}

// Behind the system's words an error has its number, from here on.
const NUMBER: &[u8] = b" (os error ";

fn without_number(text: &[u8]) -> &[u8] {
    match text.windows(NUMBER.len()).position(|part| part == NUMBER) {
        Some(i) => &text[..i],
        None => text,
    }
}

// What failed, and the system's words for why.
pub fn say_failed(rt: &HostRuntime, what: &[u8], error: &io::Error) {
    // What does not fit is left out.
    let mut words: ArrayVec<u8, 128> = ArrayVec::new();
    let _ = write!(words, "{error}");
    say(rt, what);
    say(rt, b": ");
    say(rt, without_number(words.as_slice()));
    say(rt, b"\n");
}

// What was done, or none where it failed, which is said.
pub fn or_say_failed<T: Drop>(rt: &HostRuntime, what: &[u8], done: io::Result<T>) -> Option<T>
    ensures { result ≡ result_ok done }
{
    match done {
        Ok(x) => Some(x),
        Err(error) => {
            say_failed(rt, what, &error);
            None
        }
    }
}

// The program's output, as far as it goes.
pub fn write_output(rt: &HostRuntime, bytes: &[u8]) -> Option<()> {
    or_say_failed(rt, b"standard output", rt.stdout().write_all(bytes))
}

// All that the source has, or as much as there is room for, at the start of the buffer; none where a read failed, which is said.
pub fn read_whole<'a>(
    rt: &HostRuntime,
    source: &mut impl Read,
    name: &[u8],
    buf: &'a mut [u8],
) -> Option<&'a [u8]>
    ensures { IfSome result (λ text. length text.now ≤ length buf.old) }
{
    let n = or_say_failed(rt, name, read_to_end(source, buf))?;
    Some(&buf[..n])
}

// "refused" with a space and the number, on standard error: where nothing is written on standard output. A number, as in `put_refused`.
pub fn say_refused(rt: &HostRuntime, number: u8) {
    let mut line: ArrayVec<u8, 12> = ArrayVec::new();
    put_refused(&mut line, number);
    say(rt, line.as_slice());
}
