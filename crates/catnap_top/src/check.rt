//! `check SRC DEVICE` and `check SRC DEVICE FORECAST`: the versions in which a device can serve a source's events.

ghost use Rattle.std.specs.Prelude.{IfOk};
ghost use Rattle.cn_base.specs.Causes.{HasCause};
ghost use Rattle.cn_base.specs.Writing.{Writes};
ghost use Rattle.catnap_top.specs.Check.{checking, checking_rows, choosing};
ghost use Rattle.catnap_top.specs.Look.{LooksAs};
ghost use Rattle.catnap_top.specs.Reply.{CanBeWritten, reply_answer, selected_answer};

use crate::forecast::{forecast_of, steady_for};
use crate::profile::device_of;
use crate::reply::Reply;
use crate::selected::Selected;
use crate::source::program_of;
use crate::stop::Stop;
use crate::versions::versions_of;
use cat_program::Program;
use cn_base::{Sink, WriteFail};
use cn_report::write_chosen;
use forecast_table::Forecast;
use nv_memory::Device;
use std::alloc::Global;

/// Writes the choices. Takes no memory.
pub fn write_check<K: Sink>(sink: &mut K, selected: &Selected) -> Result<(), WriteFail>
    ensures text { Writes (K.written sink.old) (K.written sink.new) (selected_answer selected.now).text result }
    ensures cause { HasCause (K.faults sink.old) (K.faults sink.new) result }
{
    write_chosen(
        &selected.program,
        selected.chosen.as_slice(),
        &selected.forecast,
        selected.given,
        sink,
    )
}

/// Chooses versions for each row of a forecast.
fn select(
    alloc: Global,
    program: Program,
    device: &Device,
    forecast: Forecast,
    given: bool,
) -> Result<Selected, Stop>
    ensures { LooksAs selected_answer (choosing program device.now given forecast) result }
{
    match versions_of(alloc, &program, device, &forecast, given) {
        Ok(chosen) => Ok(Selected {
            program,
            given,
            forecast,
            chosen,
        }),
        Err(stop) => Err(stop),
    }
}

/// Prepares the choice of versions with the harvest that the profile guarantees. It takes all memory of the command.
pub fn prepare_check(alloc: Global, source: &[u8], profile: &[u8]) -> Result<Reply, Stop>
    ensures looks { LooksAs reply_answer (checking source.now profile.now) result }
    ensures written { IfOk result CanBeWritten }
{
    let program = program_of(alloc, source)?;
    let device = device_of(alloc, profile)?;
    let forecast = steady_for(alloc, &device)?;
    match select(alloc, program, &device, forecast, false) {
        Ok(selected) => Ok(Reply::Check(selected)),
        Err(stop) => Err(stop),
    }
}

/// Prepares the choice of versions for each row of a forecast. It takes all memory of the command.
pub fn prepare_check_rows(
    alloc: Global,
    source: &[u8],
    profile: &[u8],
    forecast: &[u8],
) -> Result<Reply, Stop>
    ensures looks { LooksAs reply_answer (checking_rows source.now profile.now forecast.now) result }
    ensures written { IfOk result CanBeWritten }
{
    let program = program_of(alloc, source)?;
    let device = device_of(alloc, profile)?;
    let forecast = forecast_of(alloc, forecast)?;
    match select(alloc, program, &device, forecast, true) {
        Ok(selected) => Ok(Reply::Check(selected)),
        Err(stop) => Err(stop),
    }
}
