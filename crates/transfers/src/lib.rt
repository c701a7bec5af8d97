// The operations that reach beyond their main stack: to memory, devices, the counter and the other stack; in both widths. Where a
// contract gives memory, device page or the next address as empty or 0, the operation does not use it.
#![tactic(auto)]

ghost use Rattle.std.specs.Prelude.{◌≡◌, ◌+◌, ◌%◌, true, false, []};
ghost use Rattle.model.specs.Bytes.{word, number, read_ring};
ghost use Rattle.model.specs.Machine.{memory_size, stack, pushed};
ghost use Rattle.model.specs.Instruction.{size};
ghost use Rattle.model.specs.Instruction.Op.{JCI, JMP, JCN, STH, LDZ, STZ, LDR, STR, LDA, STA, DEI, DEO};
ghost use Rattle.model.specs.Step.{effect_on, other_after, written};
ghost use Rattle.model.specs.Step as model;
ghost use Rattle.operations.specs.After.{main_with};

use alu::{address, relative};
use stack::{
    Memory, Page, Stack, input, load, load_zero_page, lower, operands, output, push, size_of,
    store, store_zero_page,
};

// ---- memory and devices

// LDZ addr8: value.
pub fn ldz(memory: &Memory, s: &mut Stack, p: u8, wide: bool, keep: bool) -> u8
    ensures { stack s.new result ≡ main_with memory.now [] 0 LDZ wide keep (stack s.old p) }
{
    let x = operands(s, p, 1, 0, 0);
    push(
        s,
        lower(p, keep, 1),
        wide,
        load_zero_page(memory, x[0], wide),
    )
}

// LDR rel8: value.
pub fn ldr(memory: &Memory, s: &mut Stack, next: u16, p: u8, wide: bool, keep: bool) -> u8
    ensures { stack s.new result ≡ main_with memory.now [] next LDR wide keep (stack s.old p) }
{
    let x = operands(s, p, 1, 0, 0);
    push(
        s,
        lower(p, keep, 1),
        wide,
        load(memory, relative(next, x[0]), wide),
    )
}

// LDA addr16: value.
pub fn lda(memory: &Memory, s: &mut Stack, p: u8, wide: bool, keep: bool) -> u8
    ensures { stack s.new result ≡ main_with memory.now [] 0 LDA wide keep (stack s.old p) }
{
    let x = operands(s, p, 2, 0, 0);
    push(s, lower(p, keep, 2), wide, load(memory, x[0], wide))
}

// DEI port8: value.
pub fn dei(devices: &Page, s: &mut Stack, p: u8, wide: bool, keep: bool) -> u8
    ensures { stack s.new result ≡ main_with [] devices.now 0 DEI wide keep (stack s.old p) }
{
    let x = operands(s, p, 1, 0, 0);
    push(s, lower(p, keep, 1), wide, input(devices, x[0], wide))
}

// STZ value addr8.
pub fn stz(memory: &mut Memory, s: &Stack, p: u8, wide: bool)
    ensures { memory.new ≡ written (effect_on [] [] 0 0 STZ wide (stack s.now p)) (size wide) memory.old }
{
    let x = operands(s, p, size_of(wide), 1, 0);
    store_zero_page(memory, x[1], wide, x[0]);
}

// STR value rel8.
pub fn str(memory: &mut Memory, s: &Stack, next: u16, p: u8, wide: bool)
    ensures { memory.new ≡ written (effect_on [] [] next 0 STR wide (stack s.now p)) (size wide) memory.old }
{
    let x = operands(s, p, size_of(wide), 1, 0);
    store(memory, relative(next, x[1]), wide, x[0]);
}

// STA value addr16.
pub fn sta(memory: &mut Memory, s: &Stack, p: u8, wide: bool)
    ensures { memory.new ≡ written (effect_on [] [] 0 0 STA wide (stack s.now p)) (size wide) memory.old }
{
    let x = operands(s, p, size_of(wide), 2, 0);
    store(memory, x[1], wide, x[0]);
}

// DEO value port8: the port.
pub fn port_of(s: &Stack, p: u8, wide: bool) -> u16
    ensures { result ≡ (effect_on [] [] 0 0 DEO wide (stack s.now p)).place }
{
    let x = operands(s, p, size_of(wide), 1, 0);
    x[1]
}

// DEO value port8.
pub fn deo(devices: &mut Page, s: &Stack, p: u8, wide: bool)
    ensures { devices.new ≡ written (effect_on [] [] 0 0 DEO wide (stack s.now p)) (size wide) devices.old }
{
    let x = operands(s, p, size_of(wide), 1, 0);
    output(devices, x[1], wide, x[0]);
}

// ---- jumps, and the other stack

// JMP addr, and JSR addr: where it jumps to.
pub fn jmp(s: &Stack, p: u8, next: u16, wide: bool) -> u16
    ensures { result ≡ (effect_on [] [] next 0 JMP wide (stack s.now p)).target }
{
    let x = operands(s, p, size_of(wide), 0, 0);
    address(next, wide, x[0])
}

// JCN cond8 addr: jump if cond is not 0, else go on.
pub fn jcn(s: &Stack, p: u8, next: u16, wide: bool) -> u16
    ensures { result ≡ (effect_on [] [] next 0 JCN wide (stack s.now p)).target }
{
    let x = operands(s, p, 1, size_of(wide), 0);
    if x[0] == 0 {
        next
    } else {
        address(next, wide, x[1])
    }
}

// STH a: a is pushed on the other stack.
pub fn sth(main: &Stack, p: u8, other: &mut Stack, q: u8, wide: bool) -> u8
    ensures { stack other.new result ≡ other_after STH wide (effect_on [] [] 0 0 STH wide (stack main.now p)) (stack other.old q) }
{
    let x = operands(main, p, size_of(wide), 0, 0);
    push(other, q, wide, x[0])
}

// ---- the bytes after the instruction byte, which stands at `at`

// The number that follows the instruction byte.
pub fn inline(memory: &Memory, at: u16, wide: bool) -> u16
    ensures { result ≡ number (read_ring memory_size memory.now (at + 1) (size wide)) }
{
    load(memory, at.wrapping_add(1), wide)
}

// JMI, JSI, and JCI that jumps: "a 16-bit offset after the instruction byte", counted "from the address after it".
pub fn offset(memory: &Memory, at: u16) -> u16
    ensures { result ≡ model.offset ((at + 3) % 65536) (number (read_ring memory_size memory.now (at + 1) (size true))) }
{
    at.wrapping_add(3).wrapping_add(inline(memory, at, true))
}

// JCI "pops a byte of the working stack and jumps if it is not 0".
pub fn jci(memory: &Memory, s: &Stack, at: u16, p: u8) -> u16
    ensures { result ≡ (effect_on [] [] ((at + 3) % 65536) (number (read_ring memory_size memory.now (at + 1) (size true))) JCI false (stack s.now p)).target }
{
    let x = operands(s, p, 1, 0, 0);
    if x[0] == 0 {
        at.wrapping_add(3)
    } else {
        offset(memory, at)
    }
}

// LIT "pushes the next one or two bytes on the main stack".
pub fn lit(memory: &Memory, s: &mut Stack, at: u16, p: u8, wide: bool) -> u8
    ensures { stack s.new result ≡ pushed (word (size wide) (number (read_ring memory_size memory.now (at + 1) (size wide)))) (stack s.old p) }
{
    push(s, p, wide, inline(memory, at, wide))
}
