// Why a program is refused with 11: the reason, from the rule that fails and the place where it does, as the worklist left them.
#![tactic(auto)]

ghost use Rattle.std.specs.Prelude.{◌≡◌, ◌+◌, ◌*◌, ◌≤◌, ◌<◌, length};
ghost use Rattle.model.specs.Instruction.{working, returning, taken_from};
ghost use Rattle.model.specs.Admission.{admit_most, depth_after, sheet_record};
ghost use Rattle.model.specs.Reasons.{Stands, True};
ghost use Rattle.worklist.specs.Worklist.{place_at, Lost, Told, ToldIn};
ghost use Rattle.reasons.specs.Next.{next_place};

use model::{Place, Reason, START};
use rules::{depth_by_table, jump_target};
use table::{Column, Table, WhichStack};
use worklist::{Fault, JSI, RETURN, Rule, SHEET_RECORD, routine_of};

// Place i of the program, with the depths and the routine of its record.
fn place_of(sheet: &[u8], i: usize) -> Place
    requires { (i < admit_most) × (sheet_record * i + 7 < length sheet.now) }
    ensures { result ≡ place_at sheet.now i }
{
    let work = sheet[SHEET_RECORD * i + 1];
    let ret = sheet[SHEET_RECORD * i + 2];
    let routine = routine_of(sheet, i);
    Place {
        at: START + i as u16,
        work,
        ret,
        routine,
    }
}

// An address where an instruction with these depths goes on, in this routine.
fn next_of(table: &Table, byte: u8, work: u8, ret: u8, at: u16, routine: u16) -> Place
    requires { (taken_from working byte ≤ work) × (taken_from returning byte ≤ ret)
        × (depth_after working byte work ≤ 255) × (depth_after returning byte ret ≤ 255) }
    ensures { result ≡ next_place byte work ret at routine }
{
    Place {
        at,
        work: depth_by_table(table, byte, WhichStack::Working, work) as u8,
        ret: depth_by_table(table, byte, WhichStack::Returning, ret) as u8,
        routine,
    }
}

// The instruction here goes on there, which is outside the program or has another mark.
fn astray(program: &[u8], sheet: &[u8], here: Place, next: Place) -> Reason
    requires { (length program.now ≤ admit_most) × (length sheet.now ≡ sheet_record * length program.now) × Stands program.now here
        × Lost program.now sheet.now here next }
    ensures { True program.now result }
{
    let at = next.at;
    if at < START {
        return Reason::Outside(here, next);
    }
    let i = usize::from(at - START);
    if program.len() <= i {
        return Reason::Outside(here, next);
    }
    Reason::WaysDiffer(here, next, place_of(sheet, i))
}

// The rule fails at place i; j is the place of a return of which it speaks too.
fn reason(table: &Table, program: &[u8], sheet: &[u8], rule: Rule, i: usize, j: usize) -> Reason
    requires { Told program.now sheet.now rule i j }
    ensures { True program.now result }
{
    let here = place_of(sheet, i);
    let byte = program[i];
    let routine = here.routine;
    // Said first: at 0100 there are no bytes to return with, and that explains less.
    if (byte == RETURN) & (routine == START) {
        return Reason::ReturnIn0100(here);
    }
    let work = here.work;
    let ret = here.ret;
    match rule {
        Rule::Forbidden => Reason::Forbidden(here),
        Rule::Cut => Reason::Cut(here, table.entry(byte, Column::Length)),
        Rule::FewWorking => Reason::FewWorking(
            here,
            table.entry(byte, Column::Taken(WhichStack::Working)),
        ),
        Rule::ManyWorking => Reason::ManyWorking(
            here,
            depth_by_table(table, byte, WhichStack::Working, work),
        ),
        Rule::FewReturn => Reason::FewReturn(
            here,
            table.entry(byte, Column::Taken(WhichStack::Returning)),
        ),
        Rule::ManyReturn => Reason::ManyReturn(
            here,
            depth_by_table(table, byte, WhichStack::Returning, ret),
        ),
        Rule::BelowFloor => {
            let taken = table.entry(byte, Column::Taken(WhichStack::Returning));
            Reason::BelowFloor(here, taken, place_of(sheet, usize::from(routine - START)))
        }
        Rule::After => {
            let after = START + (i + usize::from(table.entry(byte, Column::Length))) as u16;
            astray(
                program,
                sheet,
                here,
                next_of(table, byte, work, ret, after, routine),
            )
        }
        Rule::Target => {
            let target = jump_target(program, i);
            let to = if byte == JSI { target } else { routine };
            astray(
                program,
                sheet,
                here,
                next_of(table, byte, work, ret, target, to),
            )
        }
        Rule::Back => {
            let after = START + (i + 3) as u16;
            let depth = place_of(sheet, j).work;
            let next = Place {
                at: after,
                work: depth,
                ret,
                routine,
            };
            astray(program, sheet, here, next)
        }
        Rule::ReturnOffFloor => {
            Reason::ReturnOffFloor(here, place_of(sheet, usize::from(routine - START)))
        }
        Rule::ReturnsDiffer => Reason::ReturnsDiffer(here, place_of(sheet, j)),
    }
}

// The reason of a rule that fails, and where.
pub fn reason_of(table: &Table, program: &[u8], sheet: &[u8], fault: &Fault) -> Reason
    requires { ToldIn program.now sheet.now fault.now }
    ensures { True program.now result }
{
    reason(
        table,
        program,
        sheet,
        fault.rule(),
        fault.at(),
        fault.other(),
    )
}
