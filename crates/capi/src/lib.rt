// The calls as a static library for C: include/uxn_filter.h declares them, and says what each number means; include/uxn_bench.h declares
// the plain load. C calls each by its name, with each buffer for itself.
#![tactic(auto)]

ghost use Rattle.std.specs.Prelude.{◌≡◌};
ghost use Rattle.model.specs.Machine.{state};
ghost use Rattle.model.specs.Calls.{load_call, step_call, run_call, event_call, frame_call, admit_call, install_call};
ghost use Rattle.model.specs.Moves.{widen_call, narrow_call};
ghost use Rattle.model.specs.RecordMoves.{widen_records, narrow_records};
ghost use Rattle.creply.specs.Exported.{watch_of, returned, exported, admit_returned, exported_admit, install_returned, exported_install, write_returned, exported_write};
ghost use Rattle.creply.specs.Why.{WhyOf};

use creply::{
    Reply, Why, Written, of_admit, of_event, of_explain, of_frame, of_load, of_run, of_step,
    of_write, watch_of,
};
use model::Machine;

#[unsafe(no_mangle)]
pub extern "C" fn uxn_load(
    machine: Machine,
    memory: &mut [u8],
    devices: &mut [u8],
    work: &mut [u8],
    ret: &mut [u8],
    program: &[u8],
) -> Reply
    ensures { returned result memory.new devices.new work.new ret.new
        ≡ exported (load_call program.now (state memory.old devices.old work.old ret.old machine)) }
{
    of_load(load::load(machine, memory, devices, work, ret, program))
}

#[unsafe(no_mangle)]
pub extern "C" fn uxn_install(
    machine: Machine,
    memory: &mut [u8],
    devices: &mut [u8],
    work: &mut [u8],
    ret: &mut [u8],
    program: &[u8],
    sheet: &mut [u8],
) -> Reply
    ensures { install_returned (returned result memory.new devices.new work.new ret.new) sheet.new
        ≡ exported_install (install_call program.now sheet.old (state memory.old devices.old work.old ret.old machine)) }
{
    of_load(install::install(machine, memory, devices, work, ret, program, sheet))
}

#[unsafe(no_mangle)]
pub extern "C" fn uxn_step(
    machine: Machine,
    memory: &mut [u8],
    devices: &mut [u8],
    work: &mut [u8],
    ret: &mut [u8],
) -> Reply
    ensures { returned result memory.new devices.new work.new ret.new
        ≡ exported (step_call (state memory.old devices.old work.old ret.old machine)) }
{
    of_step(machine::step(machine, memory, devices, work, ret))
}

#[unsafe(no_mangle)]
pub extern "C" fn uxn_run(
    machine: Machine,
    memory: &mut [u8],
    devices: &mut [u8],
    work: &mut [u8],
    ret: &mut [u8],
    budget: u32,
    watch: u16,
) -> Reply
    ensures { returned result memory.new devices.new work.new ret.new
        ≡ exported (run_call (watch_of watch) budget (state memory.old devices.old work.old ret.old machine)) }
{
    of_run(machine::run(machine, memory, devices, work, ret, budget, watch_of(watch)))
}

#[unsafe(no_mangle)]
pub extern "C" fn uxn_event(
    machine: Machine,
    memory: &mut [u8],
    devices: &mut [u8],
    work: &mut [u8],
    ret: &mut [u8],
    device: u32,
    budget: u32,
    watch: u16,
) -> Reply
    ensures { returned result memory.new devices.new work.new ret.new
        ≡ exported (event_call (watch_of watch) device budget (state memory.old devices.old work.old ret.old machine)) }
{
    of_event(machine::event(
        machine,
        memory,
        devices,
        work,
        ret,
        device,
        budget,
        watch_of(watch),
    ))
}

#[unsafe(no_mangle)]
pub extern "C" fn uxn_frame(
    machine: Machine,
    memory: &mut [u8],
    devices: &mut [u8],
    work: &mut [u8],
    ret: &mut [u8],
    frame: &[u8],
    budget: u32,
) -> Reply
    ensures { returned result memory.new devices.new work.new ret.new
        ≡ exported (frame_call frame.now budget (state memory.old devices.old work.old ret.old machine)) }
{
    of_frame(machine::frame(machine, memory, devices, work, ret, frame, budget))
}

#[unsafe(no_mangle)]
pub extern "C" fn uxn_admit(program: &[u8], sheet: &mut [u8]) -> u8
    ensures { admit_returned result sheet.new ≡ exported_admit (admit_call program.now sheet.old) }
{
    of_admit(admission::admit(program, sheet))
}

#[unsafe(no_mangle)]
pub extern "C" fn uxn_explain(program: &[u8]) -> Why
    ensures { WhyOf program.now result }
{
    of_explain(admission::explain(program))
}

#[unsafe(no_mangle)]
pub extern "C" fn uxn_widen_sheet(sheet: &[u8], output: &mut [u8]) -> Written
    ensures { write_returned result output.new ≡ exported_write (widen_call sheet.now output.old) }
{
    of_write(moves::widen_sheet(sheet, output))
}

#[unsafe(no_mangle)]
pub extern "C" fn uxn_narrow_sheet(sheet: &[u8], output: &mut [u8]) -> Written
    ensures { write_returned result output.new ≡ exported_write (narrow_call sheet.now output.old) }
{
    of_write(moves::narrow_sheet(sheet, output))
}

#[unsafe(no_mangle)]
pub extern "C" fn uxn_widen_records(records: &[u8], output: &mut [u8]) -> Written
    ensures { write_returned result output.new ≡ exported_write (widen_records records.now output.old) }
{
    of_write(records::widen_records(records, output))
}

#[unsafe(no_mangle)]
pub extern "C" fn uxn_narrow_records(records: &[u8], output: &mut [u8]) -> Written
    ensures { write_returned result output.new ≡ exported_write (narrow_records records.now output.old) }
{
    of_write(records::narrow_records(records, output))
}
