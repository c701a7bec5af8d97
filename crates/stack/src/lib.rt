// Stacks, whose pointers go round, and numbers of one or two bytes in memory and device page. A stack's bytes are lent, and its pointer is a
// field of the machine record, which C lays out: so they are two arguments.
#![tactic(auto)]

ghost use Rattle.std.specs.Prelude.{◌≡◌, ◌+◌, ◌*◌, ◌/◌, ◌%◌, ◌<◌, ◌≤◌, [], ◌∷◌, length, if◌then◌else◌, slice_index, slice_set};
ghost use Rattle.model.specs.Bytes.{word, number, read_ring, write_ring};
ghost use Rattle.model.specs.Machine.{memory_size, page_size, stack_size, stack, pushed, operands, lowered};
ghost use Rattle.model.specs.Instruction.{size};
ghost use Rattle.model.specs.Step.{zero_page_ring};

// "Memory: a lent buffer of 65,536 bytes. Device page: 256. Working (data) stack and return stack: 256 each."
pub const MEMORY_SIZE: usize = 65536;

pub const PAGE_SIZE: usize = 256;

pub const STACK_SIZE: usize = 256;

// "The sheet record becomes 8 bytes: the old four", which are mark, working depth, return depth, the program byte, "the routine (two
// bytes), two zeros".
pub const SHEET_RECORD: usize = 8;

// C-12: "The second address of a 16-bit LDZ or STZ is now modulo 256".
pub const ZERO_PAGE: usize = 256;

pub type Memory = [u8; MEMORY_SIZE];

pub type Page = [u8; PAGE_SIZE];

pub type Stack = [u8; STACK_SIZE];

// "In 8-bit form n = 1 and in 16-bit form n = 2."
#[tactic(auto, unfolding(model::specs::Instruction::size))]
pub fn size_of(wide: bool) -> u8
    ensures { (result ≡ size wide) × (result ≤ 2) }
{
    if wide { 2 } else { 1 }
}

// ---- numbers in a buffer

pub fn two_bytes(high: u8, low: u8) -> u16
    ensures { result ≡ high * 256 + low }
{
    u16::from_be_bytes([high, low])
}

// The number of one byte at `first`, or of two bytes, the other at `second`.
pub fn read(buffer: &[u8], first: u16, second: u16, wide: bool) -> u16
    requires { (first < length buffer.now) × (second < length buffer.now) }
    ensures { result ≡ (if wide then slice_index buffer.now first * 256 + slice_index buffer.now second else slice_index buffer.now first) }
{
    if wide {
        two_bytes(buffer[first as usize], buffer[second as usize])
    } else {
        u16::from(buffer[first as usize])
    }
}

// The low one or two bytes of a number are stored there.
pub fn write(buffer: &mut [u8], first: u16, second: u16, wide: bool, value: u16)
    requires { (first < length buffer.old) × (second < length buffer.old) }
    ensures { buffer.new ≡ (if wide then slice_set (slice_set buffer.old first (value / 256 % 256)) second (value % 256) else slice_set buffer.old first (value % 256)) }
{
    let [high, low] = value.to_be_bytes();
    if wide {
        buffer[first as usize] = high;
        buffer[second as usize] = low;
    } else {
        buffer[first as usize] = low;
    }
}

// The second address of a 16-bit access: the next one, modulo RING. That a ring has 1 to 65,536 addresses no type of a const parameter says,
// so that the clauses do, here and below.
pub fn second<const RING: usize>(first: u16) -> u16
    requires { (0 < RING) × (RING ≤ 65536) }
    ensures { result ≡ (first + 1) % RING }
{
    ((first as usize + 1) % RING) as u16
}

// The number at an address, of a buffer whose addresses go round at RING.
#[tactic(auto, using(crate::proofs::Rings::read_is))]
fn read_in<const RING: usize>(buffer: &[u8], address: u16, wide: bool) -> u16
    requires { (0 < RING) × (RING ≤ 65536) × (RING ≤ length buffer.now) }
    ensures { result ≡ number (read_ring RING buffer.now address (size wide)) }
{
    read(
        buffer,
        (address as usize % RING) as u16,
        second::<RING>(address),
        wide,
    )
}

#[tactic(auto, using(crate::proofs::Rings::write_is))]
fn write_in<const RING: usize>(buffer: &mut [u8], address: u16, wide: bool, value: u16)
    requires { (0 < RING) × (RING ≤ 65536) × (RING ≤ length buffer.old) }
    ensures { buffer.new ≡ write_ring RING buffer.old address (word (size wide) value) }
{
    write(
        buffer,
        (address as usize % RING) as u16,
        second::<RING>(address),
        wide,
        value,
    );
}

// ---- memory and device page: a name for each, as the papers speak of them, and one function behind

// "A 16-bit memory access uses its address and the next one modulo 65,536."
pub fn load(memory: &Memory, address: u16, wide: bool) -> u16
    ensures { result ≡ number (read_ring memory_size memory.now address (size wide)) }
{
    read_in::<MEMORY_SIZE>(memory, address, wide)
}

pub fn store(memory: &mut Memory, address: u16, wide: bool, value: u16)
    ensures { memory.new ≡ write_ring memory_size memory.old address (word (size wide) value) }
{
    write_in::<MEMORY_SIZE>(memory, address, wide, value);
}

pub fn load_zero_page(memory: &Memory, address: u16, wide: bool) -> u16
    ensures { result ≡ number (read_ring zero_page_ring memory.now address (size wide)) }
{
    read_in::<ZERO_PAGE>(memory, address, wide)
}

pub fn store_zero_page(memory: &mut Memory, address: u16, wide: bool, value: u16)
    ensures { memory.new ≡ write_ring zero_page_ring memory.old address (word (size wide) value) }
{
    write_in::<ZERO_PAGE>(memory, address, wide, value);
}

// "A 16-bit device access uses its port and the next one modulo 256."
pub fn input(devices: &Page, port: u16, wide: bool) -> u16
    ensures { result ≡ number (read_ring page_size devices.now port (size wide)) }
{
    read_in::<PAGE_SIZE>(devices, port, wide)
}

pub fn output(devices: &mut Page, port: u16, wide: bool, value: u16)
    ensures { devices.new ≡ write_ring page_size devices.old port (word (size wide) value) }
{
    write_in::<PAGE_SIZE>(devices, port, wide, value);
}

// ---- pops

// The number of n bytes just below the pointer.
pub fn below(s: &Stack, p: u8, n: u8) -> u16
    requires { n ≤ 2 }
    ensures { result ≡ number (read_ring stack_size s.now (p + 255 * n) n) }
{
    if n == 0 {
        return 0;
    }
    read_in::<STACK_SIZE>(s, u16::from(p.wrapping_sub(n)), n == 2)
}

// The operands of an instruction, of a, b and c bytes, the one on top last; 0 bytes are no operand, and its number is 0: operands of any
// number would take a loop in each instruction.
pub fn operands(s: &Stack, p: u8, a: u8, b: u8, c: u8) -> [u16; 3]
    requires { (a ≤ 2) × (b ≤ 2) × (c ≤ 2) }
    ensures { result ≡ operands (a ∷ b ∷ c ∷ []) (stack s.now p) }
{
    let q = p.wrapping_sub(c);
    let o = q.wrapping_sub(b);
    [below(s, o, a), below(s, q, b), below(s, p, c)]
}

// The pointer after n operand bytes are read.
pub fn lower(p: u8, keep: bool, n: u8) -> u8
    ensures { result ≡ lowered keep n p }
{
    if keep { p } else { p.wrapping_sub(n) }
}

// ---- pushes

// "A push writes at the pointer, then adds one."
#[tactic(auto, unfolding(model::specs::Bytes::word, model::specs::Machine::pushed))]
pub fn push_byte(s: &mut Stack, p: u8, value: u16) -> u8
    ensures { stack s.new result ≡ pushed (word 1 value) (stack s.old p) }
{
    s[p as usize] = (value % 256) as u8;
    p.wrapping_add(1)
}

// "A 16-bit push puts the high byte first."
#[tactic(auto, using(crate::proofs::Rings::pushed_two), unfolding(model::specs::Instruction::size))]
pub fn push(s: &mut Stack, p: u8, wide: bool, value: u16) -> u8
    ensures { stack s.new result ≡ pushed (word (size wide) value) (stack s.old p) }
{
    if wide {
        let q = push_byte(s, p, value / 256);
        push_byte(s, q, value)
    } else {
        push_byte(s, p, value)
    }
}
