// Admission's rules at one instruction: which are allowed, the depths after it, and where it jumps.
#![tactic(auto)]

ghost use Rattle.std.specs.Prelude.{◌≡◌, ◌+◌, ◌-◌, ◌<◌, ◌≤◌, not, length, if◌then◌else◌, nat_lt};
ghost use Rattle.model.specs.Machine.{start};
ghost use Rattle.model.specs.Instruction.{keep_mode, returning, taken_from, length_of};
ghost use Rattle.table.specs.Column.{stack_number};
ghost use Rattle.model.specs.Admission.{admit_most, byte_at, allowed, depth_after, target_of};

use model::START;
use table::{Column, Table, WhichStack};

// JMP in 16-bit return form without keep.
pub const RETURN: u8 = 0x6C;

// A bit for each operation, byte modulo 32: JMP (0C), JCN (0D), JSR (0E), STR (13), STA (15).
const FORBIDDEN: u32 = 0x0028_7000;

// Not "none of JMP, JCN, JSR, STR, STA in any mode", but for "byte 6C".
pub fn forbidden(byte: u8) -> bool
    ensures { result ≡ not (allowed byte) }
{
    if byte == RETURN {
        return false;
    }
    (FORBIDDEN >> (byte % 32)) % 2 == 1
}

// What is gone of the bytes that an instruction takes: under keep nothing.
fn lowered(byte: u8, taken: u8) -> u8
    ensures { (result ≡ (if keep_mode byte then 0 else taken)) × (result ≤ taken) }
{
    if 128 <= byte { 0 } else { taken }
}

// The stack does not hold "the bytes that it takes, keep or not".
pub fn lacks(table: &Table, byte: u8, stack: WhichStack, depth: u8) -> bool
    ensures { result ≡ nat_lt depth (taken_from (stack_number stack) byte) }
{
    depth < table.entry(byte, Column::Taken(stack))
}

// The depth of a stack after an instruction that takes bytes which it holds.
fn depth_after(depth: u8, byte: u8, taken: u8, pushed: u8) -> u16
    requires { taken ≤ depth }
    ensures { result ≡ depth - (if keep_mode byte then 0 else taken) + pushed }
{
    u16::from(depth - lowered(byte, taken)) + u16::from(pushed)
}

// The same by the table.
pub fn depth_by_table(table: &Table, byte: u8, stack: WhichStack, depth: u8) -> u16
    requires { taken_from (stack_number stack) byte ≤ depth }
    ensures { result ≡ depth_after (stack_number stack) byte depth }
{
    depth_after(
        depth,
        byte,
        table.entry(byte, Column::Taken(stack)),
        table.entry(byte, Column::Pushed(stack)),
    )
}

// It takes, keep or not, bytes of the return stack below this floor.
pub fn below_floor(table: &Table, byte: u8, floor: u8, depth: u8) -> bool
    ensures { result ≡ nat_lt depth (floor + taken_from returning byte) }
{
    let taken = table.entry(byte, Column::Taken(WhichStack::Returning));
    u16::from(depth) < u16::from(floor) + u16::from(taken)
}

// Where JMI and JSI, and JCI if it jumps, go on from place i of the program: the offset is counted from the address after it.
pub fn jump_target(program: &[u8], i: usize) -> u16
    requires { (length_of (byte_at program.now (start + i)) ≡ 3) × (i + 3 ≤ length program.now) × (length program.now ≤ admit_most) }
    ensures { result ≡ target_of program.now (start + i) }
{
    let offset = u16::from_be_bytes([program[i + 1], program[i + 2]]);
    (START + 3 + i as u16).wrapping_add(offset)
}
