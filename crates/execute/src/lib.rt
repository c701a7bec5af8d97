// One instruction, by the low seven bits of its byte: below 40 its main stack is the working stack, from 40 on the return
// stack; bit 7 is keep.
#![tactic(auto)]

ghost use Rattle.std.specs.Prelude.{◌≡◌, ◌<◌};
ghost use Rattle.model.specs.Machine.{state};
ghost use Rattle.operations.specs.After.{executed, byte_of};
ghost use Rattle.execute.specs.Stepped.{of_stepped};

use model::Machine;
use operations::{compare, compute, dup, inc, nip, ovr, pop, rot, sft, swp};
use stack::{Memory, Page, Stack, lower, push};
use transfers::{dei, deo, jci, jcn, jmp, lda, ldr, ldz, lit, offset, port_of, sta, sth, str, stz};

// The ports that a step wrote: so many from the first one on, modulo 256. Beside `Ports` of `model`: with both numbers in one a step takes a
// quarter more instructions.
#[derive(Clone, Copy)]
pub struct Sent {
    pub first: u16,
    pub count: u8,
}

// What a step answers: it went on, or it was BRK, which writes no port.
#[derive(Clone, Copy)]
pub enum Stepped {
    WentOn(Machine, Sent),
    Broke(Machine),
}

// Each arm is an operation in 8-bit or 16-bit form; the arms 00, 20, 40 and 60 are the exceptions, LIT where keep is set and else
// BRK, JCI, JMI and JSI. The high marks are handed through: the run raises them after each step. The arms are written out for both stacks: with
// one function of 64 arms that is passed the stacks, a step takes 3.99 of the instructions of the best C peer in the mean, and 1.45 is the bar.
pub fn execute(
    m: Machine,
    memory: &mut Memory,
    devices: &mut Page,
    work: &mut Stack,
    ret: &mut Stack,
    key: u8,
    keep: bool,
) -> Stepped
    requires { key < 128 }
    ensures { of_stepped (state memory.new devices.new work.new ret.new) result
        ≡ executed (byte_of key keep) (state memory.old devices.old work.old ret.old m) }
{
    let at = m.pc;
    let mut pc = at.wrapping_add(1);
    let mut wp = m.wp;
    let mut rp = m.rp;
    let wp_high = m.wp_high;
    let rp_high = m.rp_high;
    let mut sent = Sent { first: 0, count: 0 };
    match key {
        0x00 => {
            if keep {
                pc = at.wrapping_add(2);
                wp = lit(memory, work, at, wp, false);
            } else {
                return Stepped::Broke(Machine {
                    pc,
                    wp,
                    rp,
                    wp_high,
                    rp_high,
                });
            }
        }
        0x01 => wp = inc(work, wp, false, keep),
        0x02 => wp = pop(work, wp, false, keep),
        0x03 => wp = nip(work, wp, false, keep),
        0x04 => wp = swp(work, wp, false, keep),
        0x05 => wp = rot(work, wp, false, keep),
        0x06 => wp = dup(work, wp, false, keep),
        0x07 => wp = ovr(work, wp, false, keep),
        0x08 => wp = compare(work, wp, false, keep, 0),
        0x09 => wp = compare(work, wp, false, keep, 1),
        0x0a => wp = compare(work, wp, false, keep, 2),
        0x0b => wp = compare(work, wp, false, keep, 3),
        0x0c => {
            pc = jmp(work, wp, pc, false);
            wp = lower(wp, keep, 1);
        }
        0x0d => {
            pc = jcn(work, wp, pc, false);
            wp = lower(wp, keep, 2);
        }
        0x0e => {
            let target = jmp(work, wp, pc, false);
            rp = push(ret, rp, true, pc);
            pc = target;
            wp = lower(wp, keep, 1);
        }
        0x0f => {
            rp = sth(work, wp, ret, rp, false);
            wp = lower(wp, keep, 1);
        }
        0x10 => wp = ldz(memory, work, wp, false, keep),
        0x11 => {
            stz(memory, work, wp, false);
            wp = lower(wp, keep, 2);
        }
        0x12 => wp = ldr(memory, work, pc, wp, false, keep),
        0x13 => {
            str(memory, work, pc, wp, false);
            wp = lower(wp, keep, 2);
        }
        0x14 => wp = lda(memory, work, wp, false, keep),
        0x15 => {
            sta(memory, work, wp, false);
            wp = lower(wp, keep, 3);
        }
        0x16 => wp = dei(devices, work, wp, false, keep),
        0x17 => {
            deo(devices, work, wp, false);
            sent = Sent {
                first: port_of(work, wp, false),
                count: 1,
            };
            wp = lower(wp, keep, 2);
        }
        0x18 => wp = compute(work, wp, false, keep, 0),
        0x19 => wp = compute(work, wp, false, keep, 1),
        0x1a => wp = compute(work, wp, false, keep, 2),
        0x1b => wp = compute(work, wp, false, keep, 3),
        0x1c => wp = compute(work, wp, false, keep, 4),
        0x1d => wp = compute(work, wp, false, keep, 5),
        0x1e => wp = compute(work, wp, false, keep, 6),
        0x1f => wp = sft(work, wp, false, keep),
        0x20 => {
            if keep {
                pc = at.wrapping_add(3);
                wp = lit(memory, work, at, wp, true);
            } else {
                pc = jci(memory, work, at, wp);
                wp = lower(wp, false, 1);
            }
        }
        0x21 => wp = inc(work, wp, true, keep),
        0x22 => wp = pop(work, wp, true, keep),
        0x23 => wp = nip(work, wp, true, keep),
        0x24 => wp = swp(work, wp, true, keep),
        0x25 => wp = rot(work, wp, true, keep),
        0x26 => wp = dup(work, wp, true, keep),
        0x27 => wp = ovr(work, wp, true, keep),
        0x28 => wp = compare(work, wp, true, keep, 0),
        0x29 => wp = compare(work, wp, true, keep, 1),
        0x2a => wp = compare(work, wp, true, keep, 2),
        0x2b => wp = compare(work, wp, true, keep, 3),
        0x2c => {
            pc = jmp(work, wp, pc, true);
            wp = lower(wp, keep, 2);
        }
        0x2d => {
            pc = jcn(work, wp, pc, true);
            wp = lower(wp, keep, 3);
        }
        0x2e => {
            let target = jmp(work, wp, pc, true);
            rp = push(ret, rp, true, pc);
            pc = target;
            wp = lower(wp, keep, 2);
        }
        0x2f => {
            rp = sth(work, wp, ret, rp, true);
            wp = lower(wp, keep, 2);
        }
        0x30 => wp = ldz(memory, work, wp, true, keep),
        0x31 => {
            stz(memory, work, wp, true);
            wp = lower(wp, keep, 3);
        }
        0x32 => wp = ldr(memory, work, pc, wp, true, keep),
        0x33 => {
            str(memory, work, pc, wp, true);
            wp = lower(wp, keep, 3);
        }
        0x34 => wp = lda(memory, work, wp, true, keep),
        0x35 => {
            sta(memory, work, wp, true);
            wp = lower(wp, keep, 4);
        }
        0x36 => wp = dei(devices, work, wp, true, keep),
        0x37 => {
            deo(devices, work, wp, true);
            sent = Sent {
                first: port_of(work, wp, true),
                count: 2,
            };
            wp = lower(wp, keep, 3);
        }
        0x38 => wp = compute(work, wp, true, keep, 0),
        0x39 => wp = compute(work, wp, true, keep, 1),
        0x3a => wp = compute(work, wp, true, keep, 2),
        0x3b => wp = compute(work, wp, true, keep, 3),
        0x3c => wp = compute(work, wp, true, keep, 4),
        0x3d => wp = compute(work, wp, true, keep, 5),
        0x3e => wp = compute(work, wp, true, keep, 6),
        0x3f => wp = sft(work, wp, true, keep),
        0x40 => {
            if keep {
                pc = at.wrapping_add(2);
                rp = lit(memory, ret, at, rp, false);
            } else {
                pc = offset(memory, at);
            }
        }
        0x41 => rp = inc(ret, rp, false, keep),
        0x42 => rp = pop(ret, rp, false, keep),
        0x43 => rp = nip(ret, rp, false, keep),
        0x44 => rp = swp(ret, rp, false, keep),
        0x45 => rp = rot(ret, rp, false, keep),
        0x46 => rp = dup(ret, rp, false, keep),
        0x47 => rp = ovr(ret, rp, false, keep),
        0x48 => rp = compare(ret, rp, false, keep, 0),
        0x49 => rp = compare(ret, rp, false, keep, 1),
        0x4a => rp = compare(ret, rp, false, keep, 2),
        0x4b => rp = compare(ret, rp, false, keep, 3),
        0x4c => {
            pc = jmp(ret, rp, pc, false);
            rp = lower(rp, keep, 1);
        }
        0x4d => {
            pc = jcn(ret, rp, pc, false);
            rp = lower(rp, keep, 2);
        }
        0x4e => {
            let target = jmp(ret, rp, pc, false);
            wp = push(work, wp, true, pc);
            pc = target;
            rp = lower(rp, keep, 1);
        }
        0x4f => {
            wp = sth(ret, rp, work, wp, false);
            rp = lower(rp, keep, 1);
        }
        0x50 => rp = ldz(memory, ret, rp, false, keep),
        0x51 => {
            stz(memory, ret, rp, false);
            rp = lower(rp, keep, 2);
        }
        0x52 => rp = ldr(memory, ret, pc, rp, false, keep),
        0x53 => {
            str(memory, ret, pc, rp, false);
            rp = lower(rp, keep, 2);
        }
        0x54 => rp = lda(memory, ret, rp, false, keep),
        0x55 => {
            sta(memory, ret, rp, false);
            rp = lower(rp, keep, 3);
        }
        0x56 => rp = dei(devices, ret, rp, false, keep),
        0x57 => {
            deo(devices, ret, rp, false);
            sent = Sent {
                first: port_of(ret, rp, false),
                count: 1,
            };
            rp = lower(rp, keep, 2);
        }
        0x58 => rp = compute(ret, rp, false, keep, 0),
        0x59 => rp = compute(ret, rp, false, keep, 1),
        0x5a => rp = compute(ret, rp, false, keep, 2),
        0x5b => rp = compute(ret, rp, false, keep, 3),
        0x5c => rp = compute(ret, rp, false, keep, 4),
        0x5d => rp = compute(ret, rp, false, keep, 5),
        0x5e => rp = compute(ret, rp, false, keep, 6),
        0x5f => rp = sft(ret, rp, false, keep),
        0x60 => {
            if keep {
                pc = at.wrapping_add(3);
                rp = lit(memory, ret, at, rp, true);
            } else {
                pc = offset(memory, at);
                rp = push(ret, rp, true, at.wrapping_add(3));
            }
        }
        0x61 => rp = inc(ret, rp, true, keep),
        0x62 => rp = pop(ret, rp, true, keep),
        0x63 => rp = nip(ret, rp, true, keep),
        0x64 => rp = swp(ret, rp, true, keep),
        0x65 => rp = rot(ret, rp, true, keep),
        0x66 => rp = dup(ret, rp, true, keep),
        0x67 => rp = ovr(ret, rp, true, keep),
        0x68 => rp = compare(ret, rp, true, keep, 0),
        0x69 => rp = compare(ret, rp, true, keep, 1),
        0x6a => rp = compare(ret, rp, true, keep, 2),
        0x6b => rp = compare(ret, rp, true, keep, 3),
        0x6c => {
            pc = jmp(ret, rp, pc, true);
            rp = lower(rp, keep, 2);
        }
        0x6d => {
            pc = jcn(ret, rp, pc, true);
            rp = lower(rp, keep, 3);
        }
        0x6e => {
            let target = jmp(ret, rp, pc, true);
            wp = push(work, wp, true, pc);
            pc = target;
            rp = lower(rp, keep, 2);
        }
        0x6f => {
            wp = sth(ret, rp, work, wp, true);
            rp = lower(rp, keep, 2);
        }
        0x70 => rp = ldz(memory, ret, rp, true, keep),
        0x71 => {
            stz(memory, ret, rp, true);
            rp = lower(rp, keep, 3);
        }
        0x72 => rp = ldr(memory, ret, pc, rp, true, keep),
        0x73 => {
            str(memory, ret, pc, rp, true);
            rp = lower(rp, keep, 3);
        }
        0x74 => rp = lda(memory, ret, rp, true, keep),
        0x75 => {
            sta(memory, ret, rp, true);
            rp = lower(rp, keep, 4);
        }
        0x76 => rp = dei(devices, ret, rp, true, keep),
        0x77 => {
            deo(devices, ret, rp, true);
            sent = Sent {
                first: port_of(ret, rp, true),
                count: 2,
            };
            rp = lower(rp, keep, 3);
        }
        0x78 => rp = compute(ret, rp, true, keep, 0),
        0x79 => rp = compute(ret, rp, true, keep, 1),
        0x7a => rp = compute(ret, rp, true, keep, 2),
        0x7b => rp = compute(ret, rp, true, keep, 3),
        0x7c => rp = compute(ret, rp, true, keep, 4),
        0x7d => rp = compute(ret, rp, true, keep, 5),
        0x7e => rp = compute(ret, rp, true, keep, 6),
        _ => rp = sft(ret, rp, true, keep),
    }
    Stepped::WentOn(
        Machine {
            pc,
            wp,
            rp,
            wp_high,
            rp_high,
        },
        sent,
    )
}
