// One instruction, the high marks after it, the ports that it writes, and a run, on buffers of the right lengths.
#![tactic(auto)]

ghost use Rattle.std.specs.Prelude.{◌≡◌, ℕ, ◌≤◌, List};
ghost use Rattle.model.specs.Bytes.{places_ring};
ghost use Rattle.model.specs.Machine.{page_size, state};
ghost use Rattle.model.specs.Instruction.{size};
ghost use Rattle.model.specs.Step.{step_ports};
ghost use Rattle.model.specs.Run as model;
ghost use Rattle.model.specs.Replies.{ports_in};
ghost use Rattle.execute.specs.Stepped.{of_stepped};
ghost use Rattle.cpu.specs.Ended.{carried_out, raised_record, unspent, of_end, ended_by};

use execute::{Sent, Stepped, execute};
use model::{Machine, Ports};
use stack::{Memory, PAGE_SIZE, Page, Stack, second};
use transfers::port_of;

// How a run ended, with the machine record afterwards and the part of the budget that is not spent: the loop counts down, and its
// callers count the steps. Beside `RunEnd`, which has the steps, for `step_is`, `run_is` and `frame_is` of `machine` speak of both.
#[derive(Clone, Copy)]
pub enum End {
    Broke(Machine, u32),
    Spent(Machine),
    Paused(Machine, u32),
}

// The byte at the counter is carried out: a step, but for the high marks. It has one caller, the loop of `run`, and is inlined
// there.
pub fn carry_out(
    m: Machine,
    memory: &mut Memory,
    devices: &mut Page,
    work: &mut Stack,
    ret: &mut Stack,
) -> Stepped
    ensures { of_stepped (state memory.new devices.new work.new ret.new) result
        ≡ carried_out (state memory.old devices.old work.old ret.old m) }
{
    let at = m.pc;
    let byte = memory[at as usize];
    execute(m, memory, devices, work, ret, byte % 128, 128 <= byte)
}

// The high marks after a step. Hardly any step raises one, so it asks first: that branch costs less than the greater of two numbers
// twice.
fn raise(m: Machine) -> Machine
    ensures { result ≡ raised_record m }
{
    if m.wp_high < m.wp || m.rp_high < m.rp {
        return Machine {
            wp_high: m.wp_high.max(m.wp),
            rp_high: m.rp_high.max(m.rp),
            ..m
        };
    }
    m
}

// ---- the ports that a step writes

// DEO, by the low five bits of its byte.
const DEO: u8 = 0x17;

// One port, or this one and the next.
fn ports_from(port: u16, wide: bool) -> Ports
    ensures { ports_in result ≡ places_ring page_size port (size wide) }
{
    let first = (port % 256) as u8;
    if wide {
        Ports::Two(first, second::<PAGE_SIZE>(port) as u8)
    } else {
        Ports::One(first)
    }
}

// The ports that the next step writes, whatever the device page has.
pub fn ports(m: Machine, memory: &Memory, work: &Stack, ret: &Stack) -> Ports
    ensures { (devices : List ℕ) → ports_in result ≡ step_ports (state memory.now devices work.now ret.now m) }
{
    let at = m.pc;
    let byte = memory[at as usize];
    if byte % 32 != DEO {
        return Ports::None;
    }
    // The bits of an instruction byte are tested where they are asked for, here, in `rules` and in `words`: a function would say no more.
    let wide = byte / 32 % 2 == 1;
    if byte / 64 % 2 == 1 {
        return ports_from(port_of(ret, m.rp, wide), wide);
    }
    ports_from(port_of(work, m.wp, wide), wide)
}

// ---- a run

// What is watched is one of so many ports from this one on: counted from it, modulo 256, it is below that number.
fn pauses(watch: Option<u8>, sent: Sent) -> bool
    ensures { result ≡ model.pauses watch (places_ring page_size sent.first sent.count) }
{
    match watch {
        None => false,
        Some(port) => port.wrapping_sub((sent.first % 256) as u8) < sent.count,
    }
}

// The end of a run whose last instruction answered this.
fn ended(reply: Stepped, left: u32) -> End
    ensures { result ≡ ended_by reply left }
{
    match reply {
        Stepped::WentOn(m, _) => End::Spent(raise(m)),
        Stepped::Broke(m) => End::Broke(raise(m), left),
    }
}

// "A run takes each step's answer apart and goes on only after Went on."
pub fn run(
    m: Machine,
    memory: &mut Memory,
    devices: &mut Page,
    work: &mut Stack,
    ret: &mut Stack,
    budget: u32,
    watch: Option<u8>,
) -> End
    ensures { (of_end budget (state memory.new devices.new work.new ret.new) result
        ≡ model.run watch budget (state memory.old devices.old work.old ret.old m))
        × (unspent result ≤ budget) }
{
    let mut machine = m;
    let mut left = budget;
    // counted by hand: `for left in (0..budget).rev()` says no more, and takes an instruction more a step
    while 0 < left {
        let reply = carry_out(machine, memory, devices, work, ret);
        let Stepped::WentOn(next, sent) = reply else {
            return ended(reply, left - 1);
        };
        if pauses(watch, sent) {
            return End::Paused(raise(next), left - 1);
        }
        machine = raise(next);
        left -= 1;
    }
    End::Spent(machine)
}
