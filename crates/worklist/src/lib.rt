// The worklist of an admission: an address that is reached is marked in the sheet and put into the queue; what a visit of a return,
// a call or another instruction does.
#![tactic(auto)]

ghost use Rattle.std.specs.Prelude.{◌≡◌, ℕ, ◌+◌, ◌*◌, ◌-◌, ◌/◌, ◌%◌, ◌≤◌, ◌<◌, length, get_or, replicate, [], ◌∷◌};
ghost use Rattle.model.specs.Machine.{start};
ghost use Rattle.model.specs.Instruction.{length_of};
ghost use Rattle.model.specs.Admission.{admit_most, byte_at, target_of, sheet_record};
ghost use Rattle.worklist.specs.Worklist.{routine_at, with_mark, Agrees, Led, Marks, Passing, Obeyed, Roots, Tested, Above, Back, AllBack, Left, Chain, Same, IsListed, Marked, Ends, Visiting, VisitEnds};

use arrayvec::ArrayVec;
pub use model::START;
pub use rules::RETURN;
use rules::jump_target;
pub use stack::SHEET_RECORD;
use stack::two_bytes;
use std::marker::Model;

const BRK: u8 = 0x00;

const JCI: u8 = 0x20;

const JMI: u8 = 0x40;

pub const JSI: u8 = 0x60;

// What `Routines` has for a routine whose first return stands at place 0 of the program: more than the number of any place in the queue.
const RETURNED: u16 = 4097;

// ---- a rule that fails

// The rules, by what is found where one fails: the instruction is not allowed; it is cut off; a stack holds too few bytes for it, or too
// many after it; it takes return bytes below the floor; the address after it, its target or, for a call, the address where its routine
// returns to is outside the program or has another mark; a return is not at the floor, or another one has another working depth.
#[derive(Clone, Copy)]
pub enum Rule {
    Forbidden,
    Cut,
    FewWorking,
    ManyWorking,
    FewReturn,
    ManyReturn,
    BelowFloor,
    After,
    Target,
    Back,
    ReturnOffFloor,
    ReturnsDiffer,
}

// There is room for 16 rules, and for two places of a program.
pub const RULES: usize = 16;

// A program "above 4,096 bytes" is not admitted.
pub const PLACES: usize = 4096;

// A number for each place of a program, or for each place of the queue, which has some of them.
pub type Places = [u16; PLACES];

// A rule that fails, the place of the program where it fails, and the place of a return of which it speaks too, or 0. They are one number,
// of which the edits `rules_exchanged` and `places_exchanged` speak; with three fields an admission takes a tenth more instructions.
#[derive(Clone, Copy)]
pub struct Fault(usize);

impl Model for Fault {
    ghost use Rattle.std.specs.Prelude.{◌%◌, ◌<◌};
    ghost use Rattle.worklist.specs.Worklist.{Failing, failing_of};
    ghost use Rattle.worklist.specs.Numbers.{number_of, number_is};

    ghost Value = { Failing };

    ghost view = { λ fault. failing_of fault.0 };

    // There are twelve rules.
    ghost invariant = { λ fault. fault.0 % 16 < 12 };

    ghost inverse = { λ f. record { 0 = number_of f } };

    ghost inverse_ok = { λ fault h i. record { 0 = number_is fault.0 h i } };
}

impl Fault {
    pub fn new(rule: Rule, at: usize, other: usize) -> Self
        requires { (at < admit_most) × (other < admit_most) }
        ensures { result ≡ record { rule = rule; at = at; other = other } }
    {
        let places = at + PLACES * other;
        Fault(rule as usize + RULES * places)
    }

    // From its number, by hand: no cast leads from a number to an enum.
    pub fn rule(&self) -> Rule
        ensures { result ≡ self.now.rule }
    {
        let number = self.0 % RULES;
        match number {
            0 => Rule::Forbidden,
            1 => Rule::Cut,
            2 => Rule::FewWorking,
            3 => Rule::ManyWorking,
            4 => Rule::FewReturn,
            5 => Rule::ManyReturn,
            6 => Rule::BelowFloor,
            7 => Rule::After,
            8 => Rule::Target,
            9 => Rule::Back,
            10 => Rule::ReturnOffFloor,
            _ => Rule::ReturnsDiffer,
        }
    }

    pub fn at(&self) -> usize
        ensures { result ≡ self.now.at }
    {
        self.0 / RULES % PLACES
    }

    pub fn other(&self) -> usize
        ensures { result ≡ self.now.other }
    {
        self.0 / RULES / PLACES
    }
}

// ---- the sheet. That a record lies in it stands in each contract: no type has the length of what is lent.

// What the record of a marked address has: the depths there, and the routine.
#[derive(Clone, Copy)]
pub struct Record {
    pub work: u8,
    pub ret: u8,
    pub routine: u16,
}

// The record of place i becomes marked, with these.
pub fn mark(sheet: &mut [u8], i: usize, r: Record)
    requires { sheet_record * i + 5 < length sheet.old }
    ensures { sheet.new ≡ with_mark sheet.old i r.work r.ret r.routine }
{
    let place = SHEET_RECORD * i;
    sheet[place] = 1;
    sheet[place + 1] = r.work;
    sheet[place + 2] = r.ret;
    let bytes = r.routine.to_be_bytes();
    sheet[place + 4] = bytes[0];
    sheet[place + 5] = bytes[1];
}

// The routine in the record of place i.
pub fn routine_of(sheet: &[u8], i: usize) -> u16
    requires { sheet_record * i + 5 < length sheet.now }
    ensures { result ≡ routine_at sheet.now i }
{
    let place = SHEET_RECORD * i;
    two_bytes(sheet[place + 4], sheet[place + 5])
}

// The floor of a routine: the return depth in the record of its own address.
pub fn floor_of(sheet: &[u8], routine: u16) -> u8
    requires { (start ≤ routine) × (sheet_record * (routine - start) + 2 < length sheet.now) }
    ensures { result ≡ get_or sheet.now (sheet_record * (routine - start) + 2) 0 }
{
    sheet[SHEET_RECORD * usize::from(routine - START) + 2]
}

// ---- what is known of routines

// `known` has, at a routine's place in the program, the number, from 1, of the place in the queue with its last call that was visited, or 0,
// if there is none; once a return of it was visited, RETURNED and the place of the first one. `before` has, for a place of the queue with a
// call, the number of the place with the call before it, as `known` has the last. Places of the program count the one, places of the queue
// the other, so they are no array of pairs; and numbers, for an enum of 16 bits with its kind takes twice the room on the stack.
#[derive(Clone, Copy)]
pub struct Routines {
    pub known: Places,
    pub before: Places,
}

impl Routines {
    pub fn new() -> Self
        ensures { (result.known ≡ replicate admit_most 0) × (result.before ≡ replicate admit_most 0) }
    {
        Routines {
            known: [0; PLACES],
            before: [0; PLACES],
        }
    }
}

// ---- the worklist

// A program, its sheet, and a queue of the places of the marked addresses, in the order in which they were found.
// That the queue has what the sheet marks stands in the clauses (`IsListed`). A fact on a struct with a `&mut` has to hold at each write
// through it, and this one does not between a mark and its place in the queue; behind a model, nothing is known of the sheet once the
// struct ends.
#[derive(Drop)]
pub struct Worklist<'a> {
    pub program: &'a [u8],
    pub sheet: &'a mut [u8],
    pub queue: ArrayVec<u16, PLACES>,
}

impl<'a> Worklist<'a> {
    // 0100 alone is marked.
    pub fn new(program: &'a [u8], sheet: &'a mut [u8]) -> Self
        requires { 5 < length sheet.old }
        ensures same { (result.sheet.ghost_name ≡ sheet.entry.ghost_name) × (result.program.now ≡ program.now) }
        ensures first { (result.sheet.now ≡ with_mark sheet.old 0 0 0 start) × (result.queue.items ≡ 0 ∷ []) }
    {
        let first = Record {
            work: 0,
            ret: 0,
            routine: START,
        };
        mark(sheet, 0, first);
        let mut queue = ArrayVec::new();
        queue.push(0);
        Worklist {
            program,
            sheet,
            queue,
        }
    }

    // How many places are in the queue.
    pub fn listed(&self) -> usize
        ensures { result ≡ length self.now.queue.items }
    {
        self.queue.len()
    }

    // The place of the program at place `head` of the queue.
    pub fn place(&self, head: usize) -> usize
        requires { head < length self.now.queue.items }
        ensures { result ≡ get_or self.now.queue.items head 0 }
    {
        usize::from(self.queue[head])
    }

    // The routine in the record of place i.
    pub fn routine(&self, i: usize) -> u16
        requires { sheet_record * i + 5 < length self.now.sheet.now }
        ensures { result ≡ routine_at self.now.sheet.now i }
    {
        routine_of(self.sheet, i)
    }

    // The floor of a routine.
    pub fn floor(&self, routine: u16) -> u8
        requires { (start ≤ routine) × (sheet_record * (routine - start) + 2 < length self.now.sheet.now) }
        ensures { result ≡ get_or self.now.sheet.now (sheet_record * (routine - start) + 2) 0 }
    {
        floor_of(self.sheet, routine)
    }

    // The record of place i has these depths and this routine.
    fn agrees(&self, i: usize, r: Record) -> bool
        requires { sheet_record * i + 5 < length self.now.sheet.now }
        ensures { Agrees self.now.sheet.now i r.work r.ret r.routine result }
    {
        let sheet = &*self.sheet;
        let place = SHEET_RECORD * i;
        let bytes = r.routine.to_be_bytes();
        sheet[place + 1] == r.work
            && sheet[place + 2] == r.ret
            && sheet[place + 4] == bytes[0]
            && sheet[place + 5] == bytes[1]
    }

    // Place i of the program is one where it goes on, with these depths and in this routine: it is marked and put into the queue, unless it
    // is marked.
    fn reach_place(&mut self, i: usize, r: Record) -> bool
        requires { IsListed self.old × Led self.old.program.now (start + i) r.work r.ret r.routine
            × Roots self.old.program.now self.old.sheet.now (start + i) r.ret r.routine }
        ensures same { Same self.old self.new }
        ensures marked { Marked self.old self.new (start + i) r.work r.ret r.routine result }
    {
        if self.program.len() <= i {
            return false;
        }
        if self.sheet[SHEET_RECORD * i] == 0 {
            mark(self.sheet, i, r);
            self.queue.push(i as u16);
            return true;
        }
        self.agrees(i, r)
    }

    // The same of an address.
    fn reach(&mut self, at: u16, r: Record) -> bool
        requires { IsListed self.old × Led self.old.program.now at r.work r.ret r.routine
            × Roots self.old.program.now self.old.sheet.now at r.ret r.routine }
        ensures same { Same self.old self.new }
        ensures marked { Marked self.old self.new at r.work r.ret r.routine result }
    {
        START <= at && self.reach_place(usize::from(at - START), r)
    }

    // "The address after the call" at place i: its routine has a return at place `from`, with this working depth.
    fn come_back(&mut self, i: usize, from: usize, work: u8) -> Result<(), Fault>
        requires { IsListed self.old × Marks self.old.sheet.now (start + i) × (byte_at self.old.program.now (start + i) ≡ 0x60)
            × Passing self.old.program.now self.old.sheet.now (start + i)
            × Left self.old.program.now self.old.sheet.now (target_of self.old.program.now (start + i)) from work }
        ensures same { Same self.old self.new }
        ensures ends { Ends self.old self.new (Back self.old.program.now self.new.sheet.now (start + i) work) result }
    {
        let ret = self.sheet[SHEET_RECORD * i + 2];
        let routine = self.routine(i);
        if !self.reach_place(i + 3, Record { work, ret, routine }) {
            return Err(Fault::new(Rule::Back, i, from));
        }
        Ok(())
    }

    // The first return of the routine at place `entry` of the program stands at place `from`, with this working depth: each call of the
    // routine that was visited goes on, the last one first. A chain: no `for`.
    fn release(
        &mut self,
        routines: &Routines,
        entry: usize,
        from: usize,
        work: u8,
    ) -> Result<(), Fault>
        requires { IsListed self.old × Chain self.old.program.now self.old.sheet.now self.old.queue.items routines.now.before
            (start + entry) (get_or routines.now.known entry 0)
            × Left self.old.program.now self.old.sheet.now (start + entry) from work × (entry < admit_most) }
        ensures same { Same self.old self.new }
        ensures ends { Ends self.old self.new (AllBack self.old.program.now self.new.sheet.now self.new.queue.items
            (start + entry) (get_or routines.now.known entry 0) work) result }
    {
        let mut j = usize::from(routines.known[entry]);
        while 0 < j {
            let k = j - 1;
            let i = self.place(k);
            self.come_back(i, from, work)?;
            j = usize::from(routines.before[k]);
        }
        Ok(())
    }

    // 6C at place `head` of the queue.
    pub fn leave(&mut self, head: usize, routines: &mut Routines) -> Result<(), Fault>
        requires { Visiting self.old head routines.old × (get_or self.old.program.now (get_or self.old.queue.items head 0) 0 ≡ 0x6C)
            × ((work : ℕ) × (ret : ℕ) × Tested self.old.program.now self.old.sheet.now (get_or self.old.queue.items head 0) work ret) }
        ensures same { Same self.old self.new }
        ensures ends { VisitEnds self.old self.new head routines.new result }
    {
        let i = self.place(head);
        let routine = self.routine(i);
        let entry = usize::from(routine - START);
        // "it stands only at the floor"
        if self.floor(routine) != self.sheet[SHEET_RECORD * i + 2] {
            return Err(Fault::new(Rule::ReturnOffFloor, i, 0));
        }
        // "and leaves with one working depth for the whole routine"
        let work = self.sheet[SHEET_RECORD * i + 1];
        let known = routines.known[entry];
        if RETURNED <= known {
            let other = usize::from(known - RETURNED);
            if self.sheet[SHEET_RECORD * other + 1] == work {
                return Ok(());
            }
            return Err(Fault::new(Rule::ReturnsDiffer, i, other));
        }
        let next = self.release(routines, entry, i, work);
        routines.known[entry] = RETURNED + i as u16;
        next
    }

    // JSI at place i, which is place `head` of the queue, with the depths after it.
    pub fn call(
        &mut self,
        head: usize,
        routines: &mut Routines,
        i: usize,
        work: u8,
        ret: u8,
    ) -> Result<(), Fault>
        requires { Visiting self.old head routines.old × (i ≡ get_or self.old.queue.items head 0)
            × Tested self.old.program.now self.old.sheet.now i work ret × Above self.old.program.now self.old.sheet.now i
            × (get_or self.old.program.now i 0 ≡ 0x60) }
        ensures same { Same self.old self.new }
        ensures ends { VisitEnds self.old self.new head routines.new result }
    {
        let target = jump_target(self.program, i);
        let routine = target;
        if !self.reach(target, Record { work, ret, routine }) {
            return Err(Fault::new(Rule::Target, i, 0));
        }
        let entry = usize::from(target - START);
        let known = routines.known[entry];
        if known < RETURNED {
            routines.before[head] = known;
            routines.known[entry] = (head + 1) as u16;
            return Ok(());
        }
        let from = usize::from(known - RETURNED);
        let back = self.sheet[SHEET_RECORD * from + 1];
        self.come_back(i, from, back)
    }

    // "each address where it may go on (after it; for JMI its target; for JCI both)" from place i, with these depths and in this
    // routine. "BRK goes nowhere."
    pub fn follow(&mut self, i: usize, after: usize, r: Record) -> Result<(), Fault>
        requires { IsListed self.old × Marks self.old.sheet.now (start + i) × Tested self.old.program.now self.old.sheet.now i r.work r.ret
            × Above self.old.program.now self.old.sheet.now i × (after ≡ i + length_of (get_or self.old.program.now i 0))
            × (r.routine ≡ routine_at self.old.sheet.now i)
            × (get_or self.old.program.now i 0 ≡ 0x60 → ⊥) × (get_or self.old.program.now i 0 ≡ 0x6C → ⊥) }
        ensures same { Same self.old self.new }
        ensures ends { Ends self.old self.new (Obeyed self.old.program.now self.new.sheet.now (start + i)) result }
    {
        let program = self.program;
        let byte = program[i];
        if byte == BRK {
            return Ok(());
        }
        if byte == JMI {
            let target = jump_target(program, i);
            if !self.reach(target, r) {
                return Err(Fault::new(Rule::Target, i, 0));
            }
            return Ok(());
        }
        if !self.reach_place(after, r) {
            return Err(Fault::new(Rule::After, i, 0));
        }
        if byte != JCI {
            return Ok(());
        }
        let target = jump_target(program, i);
        if !self.reach(target, r) {
            return Err(Fault::new(Rule::Target, i, 0));
        }
        Ok(())
    }
}
