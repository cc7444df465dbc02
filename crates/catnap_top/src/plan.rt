//! `plan SRC DEVICE`: the least harvest with which a device serves a source's events, none of them degraded.

ghost use Rattle.std.specs.Prelude.{◌≡◌, IfOk};
ghost use Rattle.cn_base.specs.Causes.{HasCause};
ghost use Rattle.cn_base.specs.Writing.{Writes};
ghost use Rattle.cn_plan.specs.Least.{SuitsLeast};
ghost use Rattle.catnap_top.specs.Look.{Looks, LooksAs};
ghost use Rattle.catnap_top.specs.Plan.{plan_in, planned, planning, stop_of_plan};
ghost use Rattle.catnap_top.specs.Reply.{CanBeWritten, reply_answer};

use crate::fault::{Fault, NoChoice};
use crate::planned::Planned;
use crate::profile::device_of;
use crate::reply::Reply;
use crate::source::program_of;
use crate::stop::Stop;
use cat_program::Program;
use cn_base::{Sink, WriteFail};
use cn_plan::{Least, LeastFault, least, write_plan};
use degradation::{bounds_of, layout_of};
use nv_memory::Device;
use std::alloc::Global;

/// Writes the plan. Takes no memory.
pub fn write_planned<K: Sink>(sink: &mut K, given: Planned) -> Result<(), WriteFail>
    ensures text { Writes (K.written sink.old) (K.written sink.new) (planned given.program given.plan).text result }
    ensures cause { HasCause (K.faults sink.old) (K.faults sink.new) result }
{
    write_plan(&given.program, &given.plan, sink)
}

fn stop_for_plan(fault: LeastFault) -> Stop
    ensures { result ≡ stop_of_plan fault }
{
    match fault {
        LeastFault::WindowTooLong(spacing) => {
            Stop::Refused(Fault::Choice(None, NoChoice::Window(spacing)))
        }
        LeastFault::NoMemory => Stop::NoMemory,
    }
}

/// The least harvest with which a device serves a program's events, none of them degraded, or why there is no plan.
fn plan_of(alloc: Global, program: &Program, device: &Device) -> Result<Least, Stop>
    ensures plan { Looks (plan_in program.now device.now) result }
    ensures suits { IfOk result (SuitsLeast program.now) }
{
    let layout = layout_of(program, device);
    let lines = layout.lines();
    let bounds = bounds_of(alloc, program, device, lines)?;
    match least(alloc, program, &bounds, device, lines) {
        Ok(plan) => Ok(plan),
        Err(fault) => Err(stop_for_plan(fault)),
    }
}

/// Prepares the plan. It takes all memory of the command.
pub fn prepare_plan(alloc: Global, source: &[u8], profile: &[u8]) -> Result<Reply, Stop>
    ensures looks { LooksAs reply_answer (planning source.now profile.now) result }
    ensures written { IfOk result CanBeWritten }
{
    let program = program_of(alloc, source)?;
    let device = device_of(alloc, profile)?;
    let plan = plan_of(alloc, &program, &device)?;
    Ok(Reply::Plan(Planned { program, plan }))
}
