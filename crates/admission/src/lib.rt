// Admission of a program: the addresses that are reached from 0100 are marked in the sheet, each once, by a worklist.
#![tactic(auto)]

ghost use Rattle.std.specs.Prelude.{◌≡◌, ◌||◌, ◌+◌, ◌-◌, ◌*◌, ◌≤◌, ◌<◌, eqb, ltb, length, get_or, replicate};
ghost use Rattle.model.specs.Machine.{start};
ghost use Rattle.model.specs.Instruction.{returning, taken_from};
ghost use Rattle.model.specs.Admission.{admit_most, sheet_record, sheet_of};
ghost use Rattle.model.specs.Admission.Mark.{unmarked};
ghost use Rattle.model.specs.Calls.{admit_call};
ghost use Rattle.model.specs.Replies.{of_admit};
ghost use Rattle.model.specs.Exactness.{Proper};
ghost use Rattle.model.specs.Reasons.{Explains};
ghost use Rattle.worklist.specs.Worklist.{ret_at, Marks, Obeyed, Same, IsListed, Ends, Visiting, VisitEnds};
ghost use Rattle.admission.specs.Explored.{Judged, OfRoutines, Going, Walked, Explored};

use buffers::clear;
use model::{Reason, Refusal, START};
use reasons::reason_of;
use rules::{below_floor, depth_by_table, forbidden, lacks};
use table::{Column, Table, WhichStack};
pub use worklist::SHEET_RECORD;
use worklist::{Fault, JSI, RETURN, Record, Routines, Rule, Worklist};

// "above 4,096 bytes" a program is not admitted. A number beside that of the arrays of the worklist, so that a limit above their room is
// refused by the check (`limit_4097`).
const ADMIT_MOST: usize = 4096;

// ---- the sheet

// A record for each program byte, none of them marked.
fn unmark(program: &[u8], sheet: &mut [u8])
    requires { length sheet.old ≡ sheet_record * length program.now }
    ensures { sheet.new ≡ sheet_of (replicate (length program.now) unmarked) program.now }
{
    clear(sheet);
    for (i, byte) in program.iter().enumerate() {
        sheet[SHEET_RECORD * i + 3] = *byte;
    }
}

// ---- the rules at one address

// The place after an instruction, and the depths after it.
#[derive(Clone, Copy)]
struct Depths {
    after: usize,
    work: u8,
    ret: u8,
}

// What the rules say of the instruction at place i by itself, with the depths of its record: one fails; or these are the depths after it.
// Written out for both stacks, as the rules are in `Rule` and in `Reason`, whose cases `True` and the edit `reason_other_stack` tell apart: a
// function for either would be passed the table, the byte, the stack and the depth, to stand for four lines.
fn depths_after(table: &Table, list: &Worklist<'_>, i: usize) -> Result<Depths, Fault>
    requires { (i < length list.now.program.now) × (length list.now.program.now ≤ admit_most) × (sheet_record * i + 7 < length list.now.sheet.now) }
    ensures { Judged list.now.program.now list.now.sheet.now i result }
{
    let byte = list.program[i];
    if forbidden(byte) {
        return Err(Fault::new(Rule::Forbidden, i, 0));
    }
    let after = i + usize::from(table.entry(byte, Column::Length));
    if list.program.len() < after {
        return Err(Fault::new(Rule::Cut, i, 0));
    }
    let place = SHEET_RECORD * i;
    let work = list.sheet[place + 1];
    if lacks(table, byte, WhichStack::Working, work) {
        return Err(Fault::new(Rule::FewWorking, i, 0));
    }
    let work_after = depth_by_table(table, byte, WhichStack::Working, work);
    if 255 < work_after {
        return Err(Fault::new(Rule::ManyWorking, i, 0));
    }
    let ret = list.sheet[place + 2];
    if lacks(table, byte, WhichStack::Returning, ret) {
        return Err(Fault::new(Rule::FewReturn, i, 0));
    }
    let ret_after = depth_by_table(table, byte, WhichStack::Returning, ret);
    if 255 < ret_after {
        return Err(Fault::new(Rule::ManyReturn, i, 0));
    }
    Ok(Depths {
        after,
        work: work_after as u8,
        ret: ret_after as u8,
    })
}

// The instruction at place i takes return bytes below the floor of this routine, which is not above the return depth: one that takes none
// does not.
fn sinks(table: &Table, list: &Worklist<'_>, i: usize, routine: u16) -> bool
    requires { (i < length list.now.program.now) × (sheet_record * i + 7 < length list.now.sheet.now) × (start ≤ routine)
        × (sheet_record * (routine - start) + 2 < length list.now.sheet.now)
        × (ret_at list.now.sheet.now (routine - start) ≤ ret_at list.now.sheet.now i) }
    ensures { result ≡ ltb (ret_at list.now.sheet.now i)
        (ret_at list.now.sheet.now (routine - start) + taken_from returning (get_or list.now.program.now i 0)) }
{
    let byte = list.program[i];
    if table.entry(byte, Column::Taken(WhichStack::Returning)) == 0 {
        return false;
    }
    below_floor(
        table,
        byte,
        list.floor(routine),
        list.sheet[SHEET_RECORD * i + 2],
    )
}

// ---- what is neither a call nor a return

// The instruction at place i.
fn visit(table: &Table, list: &mut Worklist<'_>, i: usize) -> Result<(), Fault>
    requires { IsListed list.old × Marks list.old.sheet.now (start + i)
        × (get_or list.old.program.now i 0 ≡ 0x60 → ⊥) × (get_or list.old.program.now i 0 ≡ 0x6C → ⊥) }
    ensures same { Same list.old list.new }
    ensures ends { Ends list.old list.new (Obeyed list.old.program.now list.new.sheet.now (start + i)) result }
{
    let depths = depths_after(table, list, i)?;
    let routine = list.routine(i);
    if sinks(table, list, i, routine) {
        return Err(Fault::new(Rule::BelowFloor, i, 0));
    }
    let record = Record {
        work: depths.work,
        ret: depths.ret,
        routine,
    };
    list.follow(i, depths.after, record)
}

// JSI and 6C.
fn of_routines(byte: u8) -> bool
    ensures { result ≡ (eqb byte 0x60 || eqb byte 0x6C) }
{
    (byte == JSI) | (byte == RETURN)
}

// Visits the addresses from place `first` of the queue on, up to a call or a return: its place, or the end of the queue. The queue grows
// while it is walked: no `for`.
fn walk(table: &Table, list: &mut Worklist<'_>, first: usize) -> Result<usize, Fault>
    requires { IsListed list.old × (first ≤ length list.old.queue.items) }
    ensures same { Same list.old list.new }
    ensures walked { Walked list.old.program.now list.old.sheet.now list.old.queue.items first list.new.sheet.now list.new.queue.items result }
{
    let mut head = first;
    while head < list.listed() {
        let i = list.place(head);
        if of_routines(list.program[i]) {
            return Ok(head);
        }
        visit(table, list, i)?;
        head += 1;
    }
    Ok(head)
}

// ---- calls and returns

// The call or return at place `head` of the queue.
fn visit_routine(
    table: &Table,
    list: &mut Worklist<'_>,
    head: usize,
    routines: &mut Routines,
) -> Result<(), Fault>
    requires { Visiting list.old head routines.old × OfRoutines (get_or list.old.program.now (get_or list.old.queue.items head 0) 0) }
    ensures same { Same list.old list.new }
    ensures ends { VisitEnds list.old list.new head routines.new result }
{
    let i = list.place(head);
    let depths = depths_after(table, list, i)?;
    if list.program[i] == RETURN {
        return list.leave(head, routines);
    }
    list.call(head, routines, i, depths.work, depths.ret)
}

// ---- from the first address on

// Visits each address that is reached from 0100, in the order in which they are found, until a rule fails; or all obey the rules. What is
// known of routines is kept from the first call or return on. As in `walk`, the queue grows.
fn visit_all(table: &Table, list: &mut Worklist<'_>) -> Result<(), Fault>
    requires { Going list.old.program.now list.old.sheet.now list.old.queue.items 0 (replicate admit_most 0) (replicate admit_most 0) }
    ensures same { Same list.old list.new }
    ensures explored { Explored list.old.program.now list.new.sheet.now result }
{
    let mut head = walk(table, list, 0)?;
    if head == list.listed() {
        return Ok(());
    }
    let mut routines = Routines::new();
    while head < list.listed() {
        visit_routine(table, list, head, &mut routines)?;
        head = walk(table, list, head + 1)?;
    }
    Ok(())
}

// The same of a sheet as admission asks for it.
fn explore(program: &[u8], sheet: &mut [u8]) -> Result<(), Fault>
    requires { Proper program.now sheet.old }
    ensures { Explored program.now sheet.new result }
{
    unmark(program, sheet);
    visit_all(&Table::new(), &mut Worklist::new(program, sheet))
}

// ---- the call

// "Admit a program into a sheet": 5 "program empty", 9 "above 4,096 bytes", 10 "not eight times the program length" leave the
// sheet as found; 11 "no assignment" leaves it all zero.
pub fn admit(program: &[u8], sheet: &mut [u8]) -> Result<(), Refusal>
    ensures { of_admit sheet.new result ≡ admit_call program.now sheet.old }
{
    if program.is_empty() {
        return Err(Refusal::Program);
    }
    if ADMIT_MOST < program.len() {
        return Err(Refusal::ProgramTooLong);
    }
    if sheet.len() != SHEET_RECORD * program.len() {
        return Err(Refusal::SheetLength);
    }
    match explore(program, sheet) {
        Ok(()) => Ok(()),
        Err(_) => {
            clear(sheet);
            Err(Refusal::NoAssignment)
        }
    }
}

// Why the program is not admitted, if it is not; the sheet is as admission asks for it.
fn tell(program: &[u8], sheet: &mut [u8]) -> Option<Reason>
    requires { Proper program.now sheet.old }
    ensures { Explains program.now (Ok result) }
{
    match explore(program, sheet) {
        Err(fault) => Some(reason_of(&Table::new(), program, sheet, &fault)),
        Ok(_) => None,
    }
}

// The same with a longer sheet, of which a part is as admission asks for it.
fn tell_in_part(program: &[u8], sheet: &mut [u8]) -> Option<Reason>
    requires { (1 ≤ length program.now) × (length program.now ≤ admit_most) × (sheet_record * length program.now ≤ length sheet.old) }
    ensures { Explains program.now (Ok result) }
{
    let n = SHEET_RECORD * program.len();
    tell(program, &mut sheet[..n])
}

// "refused with 5 or 9 as admission is; admitted, exactly when admission admits; else a reason": the first that the visits come upon.
pub fn explain(program: &[u8]) -> Result<Option<Reason>, Refusal>
    ensures { Explains program.now result }
{
    match program.len() {
        0 => Err(Refusal::Program),
        1..=ADMIT_MOST => {
            let mut sheet = [0u8; 32768];
            Ok(tell_in_part(program, &mut sheet))
        }
        _ => Err(Refusal::ProgramTooLong),
    }
}
