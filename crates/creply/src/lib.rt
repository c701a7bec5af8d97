// The replies of the calls as C structs: include/uxn_filter.h declares them.
#![tactic(auto)]

ghost use Rattle.std.specs.Prelude.{◌≡◌, List, ℕ, Ok};
ghost use Rattle.model.specs.Machine.{state};
ghost use Rattle.model.specs.Run as run;
ghost use Rattle.model.specs.declared.StepEnd.{StepEnd};
ghost use Rattle.model.specs.Replies.{of_load, of_step, of_run_end, of_run, of_event, of_frame, of_admit, of_write};
ghost use Rattle.creply.specs.Exported.{watch_of, refused_struct, done_struct, went_on_struct, wrote_struct, returned, exported, admit_returned, exported_admit, write_returned, exported_write};
ghost use Rattle.creply.specs.Why.{nowhere_place, plain_struct, because_struct, reason_struct, why_struct};

use model::{EventEnd, FrameEnd, Machine, Place, Ports, Reason, Refusal, Refused, RunEnd, StepEnd};

// The answers, as the numbers that the C interface has.
pub const REFUSED: u8 = 0;

pub const LOADED: u8 = 1;

pub const WENT_ON: u8 = 2;

pub const BROKE: u8 = 3;

pub const SPENT: u8 = 4;

pub const IGNORED: u8 = 5;

pub const PAUSED: u8 = 6;

// The rules, as the numbers that the C interface has.
const CUT: u8 = 1;

const FORBIDDEN: u8 = 2;

const FEW_WORKING: u8 = 3;

const FEW_RETURN: u8 = 4;

const BELOW_FLOOR: u8 = 5;

const MANY_WORKING: u8 = 6;

const MANY_RETURN: u8 = 7;

const OUTSIDE: u8 = 8;

const WAYS_DIFFER: u8 = 9;

const RETURN_IN_0100: u8 = 10;

const RETURN_OFF_FLOOR: u8 = 11;

const RETURNS_DIFFER: u8 = 12;

// What a call replies: the machine record afterwards, the steps taken, the number of the refusal or 0, the answer, the verdict or 0, and
// how many ports a step wrote, and which.
#[repr(C)]
#[derive(Clone, Copy, Default)]
pub struct Reply {
    pub machine: Machine,
    pub steps: u32,
    pub number: u8,
    pub answer: u8,
    pub verdict: u8,
    pub sent: u8,
    pub ports: [u8; 2],
}

// What a call that writes to a lent output replies: how many bytes it wrote, a line, which is 0 here, and the number of the
// refusal or 0.
#[repr(C)]
#[derive(Clone, Copy)]
pub struct Written {
    pub length: usize,
    pub line: u32,
    pub number: u8,
}

// Why a program is refused: the number of the refusal or 0; with 11 the rule that fails, the number that it speaks of, the place of the
// instruction, where it goes on, and another place. What a rule does not have is 0.
#[repr(C)]
#[derive(Clone, Copy)]
pub struct Why {
    pub number: u8,
    pub rule: u8,
    pub count: u16,
    pub here: Place,
    pub next: Place,
    pub other: Place,
}

// A call on a machine that is refused with this number. Any number, as in `wrote` and `plain`: of a `Refusal` the functions below are.
pub fn refused(number: u8, machine: Machine) -> Reply
    ensures struct_of { result ≡ refused_struct number machine }
    ensures call { (p q w t : List ℕ) → returned result p q w t ≡ exported (run.reply (run.Answer.Refused number) 0 0 (state p q w t machine)) }
{
    Reply {
        machine,
        number,
        answer: REFUSED,
        ..Reply::default()
    }
}

fn done(answer: u8, machine: Machine, steps: u32, verdict: u8) -> Reply
    ensures { result ≡ done_struct answer machine steps verdict }
{
    Reply {
        machine,
        steps,
        answer,
        verdict,
        ..Reply::default()
    }
}

// A step that wrote so many ports.
fn went_on(machine: Machine, sent: u8, first: u8, second: u8) -> Reply
    ensures { result ≡ went_on_struct machine sent first second }
{
    Reply {
        machine,
        steps: 1,
        answer: WENT_ON,
        sent,
        ports: [first, second],
        ..Reply::default()
    }
}

fn of_went_on(machine: Machine, ports: Ports) -> Reply
    ensures { (p q w t : List ℕ) → returned result p q w t ≡ exported (of_step (state p q w t) (Ok (StepEnd.WentOn machine ports))) }
{
    match ports {
        Ports::None => went_on(machine, 0, 0, 0),
        Ports::One(p) => went_on(machine, 1, p, 0),
        Ports::Two(p, q) => went_on(machine, 2, p, q),
    }
}

pub fn wrote(length: usize, number: u8) -> Written
    ensures { result ≡ wrote_struct length number }
{
    Written {
        length,
        line: 0,
        number,
    }
}

// Functions, and no `From`: for that of an admission, a number from a `Result`, no impl can be written here, and all of them have one form:
// each has the name of a call, and its clause is the definition of that name, for any four buffers.

pub fn of_load(reply: Result<Machine, Refused>) -> Reply
    ensures { (p q w t : List ℕ) → returned result p q w t ≡ exported (of_load (state p q w t) reply) }
{
    match reply {
        Ok(m) => done(LOADED, m, 0, 0),
        Err(r) => refused(u8::from(r.refusal), r.machine),
    }
}

// A step that was not refused.
fn of_step_end(end: StepEnd) -> Reply
    ensures { (p q w t : List ℕ) → returned result p q w t ≡ exported (of_step (state p q w t) (Ok end)) }
{
    match end {
        StepEnd::WentOn(m, ports) => of_went_on(m, ports),
        StepEnd::Broke(m) => done(BROKE, m, 1, 0),
    }
}

pub fn of_step(reply: Result<StepEnd, Refused>) -> Reply
    ensures { (p q w t : List ℕ) → returned result p q w t ≡ exported (of_step (state p q w t) reply) }
{
    match reply {
        Ok(end) => of_step_end(end),
        Err(r) => refused(u8::from(r.refusal), r.machine),
    }
}

// A run that was not refused.
fn of_run_end(end: RunEnd) -> Reply
    ensures { (p q w t : List ℕ) → returned result p q w t ≡ exported (of_run_end (state p q w t) end) }
{
    match end {
        RunEnd::Broke(m, steps) => done(BROKE, m, steps, 0),
        RunEnd::Spent(m, steps) => done(SPENT, m, steps, 0),
        RunEnd::Paused(m, steps) => done(PAUSED, m, steps, 0),
    }
}

pub fn of_run(reply: Result<RunEnd, Refused>) -> Reply
    ensures { (p q w t : List ℕ) → returned result p q w t ≡ exported (of_run (state p q w t) reply) }
{
    match reply {
        Ok(end) => of_run_end(end),
        Err(r) => refused(u8::from(r.refusal), r.machine),
    }
}

pub fn of_event(reply: Result<EventEnd, Refused>) -> Reply
    ensures { (p q w t : List ℕ) → returned result p q w t ≡ exported (of_event (state p q w t) reply) }
{
    match reply {
        Ok(EventEnd::Ignored(m)) => done(IGNORED, m, 0, 0),
        Ok(EventEnd::Ran(end)) => of_run_end(end),
        Err(r) => refused(u8::from(r.refusal), r.machine),
    }
}

pub fn of_frame(reply: Result<FrameEnd, Refused>) -> Reply
    ensures { (p q w t : List ℕ) → returned result p q w t ≡ exported (of_frame (state p q w t) reply) }
{
    match reply {
        Ok(FrameEnd::Broke(m, steps, verdict)) => done(BROKE, m, steps, verdict),
        Ok(FrameEnd::Spent(m, steps)) => done(SPENT, m, steps, 0),
        Err(r) => refused(u8::from(r.refusal), r.machine),
    }
}

// What a call watches, from its number in C: a port, or nothing.
pub fn watch_of(watch: u16) -> Option<u8>
    ensures { result ≡ watch_of watch }
{
    u8::try_from(watch).ok()
}

// 0 for a program that is admitted.
pub fn of_admit(reply: Result<(), Refusal>) -> u8
    ensures { (sheet : List ℕ) → admit_returned result sheet ≡ exported_admit (of_admit sheet reply) }
{
    match reply {
        Ok(()) => 0,
        Err(refusal) => u8::from(refusal),
    }
}

pub fn of_write(reply: Result<usize, Refusal>) -> Written
    ensures { (output : List ℕ) → write_returned result output ≡ exported_write (of_write output reply) }
{
    match reply {
        Ok(length) => wrote(length, 0),
        Err(refusal) => wrote(0, u8::from(refusal)),
    }
}

// ---- why a program is refused

// No place; no `Default` of Place, for in `model` 0000 is an address like any other: only C takes zeros for none.
fn nowhere() -> Place
    ensures { result ≡ nowhere_place }
{
    Place {
        at: 0,
        work: 0,
        ret: 0,
        routine: 0,
    }
}

// No rule is told.
pub fn plain(number: u8) -> Why
    ensures { result ≡ plain_struct number }
{
    Why {
        number,
        rule: 0,
        count: 0,
        here: nowhere(),
        next: nowhere(),
        other: nowhere(),
    }
}

// A refused admission that has a reason: no depths and routines obey the rules.
fn because(rule: u8, count: u16, here: Place, next: Place, other: Place) -> Why
    ensures { result ≡ because_struct rule count here next other }
{
    Why {
        number: u8::from(Refusal::NoAssignment),
        rule,
        count,
        here,
        next,
        other,
    }
}

fn of_reason(reason: Reason) -> Why
    ensures { result ≡ reason_struct reason }
{
    match reason {
        Reason::Cut(p, n) => because(CUT, u16::from(n), p, nowhere(), nowhere()),
        Reason::Forbidden(p) => because(FORBIDDEN, 0, p, nowhere(), nowhere()),
        Reason::FewWorking(p, n) => because(FEW_WORKING, u16::from(n), p, nowhere(), nowhere()),
        Reason::FewReturn(p, n) => because(FEW_RETURN, u16::from(n), p, nowhere(), nowhere()),
        Reason::BelowFloor(p, n, entry) => because(BELOW_FLOOR, u16::from(n), p, nowhere(), entry),
        Reason::ManyWorking(p, n) => because(MANY_WORKING, n, p, nowhere(), nowhere()),
        Reason::ManyReturn(p, n) => because(MANY_RETURN, n, p, nowhere(), nowhere()),
        Reason::Outside(p, next) => because(OUTSIDE, 0, p, next, nowhere()),
        Reason::WaysDiffer(p, next, other) => because(WAYS_DIFFER, 0, p, next, other),
        Reason::ReturnIn0100(p) => because(RETURN_IN_0100, 0, p, nowhere(), nowhere()),
        Reason::ReturnOffFloor(p, entry) => because(RETURN_OFF_FLOOR, 0, p, nowhere(), entry),
        Reason::ReturnsDiffer(p, other) => because(RETURNS_DIFFER, 0, p, nowhere(), other),
    }
}

pub fn of_explain(reply: Result<Option<Reason>, Refusal>) -> Why
    ensures { result ≡ why_struct reply }
{
    match reply {
        Ok(None) => plain(0),
        Ok(Some(reason)) => of_reason(reason),
        Err(refusal) => plain(u8::from(refusal)),
    }
}
