//! The versions in which a device can serve a program's events.

ghost use Rattle.std.specs.Prelude.{◌≡◌, length, All, IfOk};
ghost use Rattle.degradation.specs.Choice.{Suits};
ghost use Rattle.catnap_top.specs.Look.{LooksAs};
ghost use Rattle.catnap_top.specs.Served.{versions_in, stop_of_rows, told_row};

use crate::fault::{Fault, NoChoice};
use crate::stop::Stop;
use cat_program::Program;
use degradation::{Chosen, bounds_of, layout_of};
use forecast_choice::{RowFault, choose_rows};
use forecast_table::Forecast;
use nv_memory::Device;
use std::alloc::Global;

pub fn told_row(given: bool, number: u32) -> Option<u32>
    ensures { result ≡ told_row given number }
{
    if given { Some(number) } else { None }
}

fn stop_for_rows(given: bool, fault: RowFault) -> Stop
    ensures { result ≡ stop_of_rows given fault }
{
    match fault {
        RowFault::WindowTooLong { row, spacing } => Stop::Refused(Fault::Choice(
            told_row(given, row),
            NoChoice::Window(spacing),
        )),
        RowFault::Rejected { row, verdict } => Stop::Refused(Fault::Choice(
            told_row(given, row),
            NoChoice::Rejected(verdict),
        )),
        RowFault::NoMemory => Stop::NoMemory,
    }
}

/// For each row of a forecast the versions of least degradation in which a device can serve a program's events, or the first row that
/// has none, which is told where a file gave the forecast.
pub fn versions_of(
    alloc: Global,
    program: &Program,
    device: &Device,
    forecast: &Forecast,
    given: bool,
) -> Result<Vec<Chosen>, Stop>
    ensures versions { LooksAs (λ found. found.items) (versions_in program.now device.now given forecast.now) result }
    ensures suits { IfOk result (λ found. All (Suits program.now) found.items) }
    ensures count { IfOk result (λ found. length found.items ≡ length forecast.now) }
{
    let layout = layout_of(program, device);
    let lines = layout.lines();
    let bounds = bounds_of(alloc, program, device, lines)?;
    match choose_rows(alloc, program, &bounds, device, lines, forecast) {
        Ok(found) => Ok(found),
        Err(fault) => Err(stop_for_rows(given, fault)),
    }
}
