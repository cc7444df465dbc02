//! From the bytes of a replay's tables to what they tell.

ghost use Rattle.std.specs.Prelude.{◌≡◌, length, IfOk};
ghost use Rattle.catnap_top.specs.Files.{arrivals_in, failures_in, trace_in};
ghost use Rattle.catnap_top.specs.Look.{Looks};

use crate::fault::{Fault, Table};
use crate::stop::Stop;
use cat_program::Program;
use event_arrivals::{Arrivals, ArrivalsFault, arrivals, told_arrivals_are_sound};
use harvest_trace::{Fails, FailsFault, Trace, TraceFault, fails, trace};
use std::alloc::Global;

/// The trace of a table, or its first row with a fault.
pub fn trace_of(alloc: Global, bytes: &[u8]) -> Result<Trace, Stop>
    ensures { Looks (trace_in bytes.now) result }
{
    match trace(alloc, bytes) {
        Ok(trace) => Ok(trace),
        Err(TraceFault::BadTrace(row, kind)) => {
            Err(Stop::Refused(Fault::Table(Table::Trace, row, kind)))
        }
        Err(TraceFault::NoMemory) => Err(Stop::NoMemory),
    }
}

/// The arrivals of a program's events on a trace, or the first row of their table with a fault.
pub fn arrivals_of(
    alloc: Global,
    program: &Program,
    trace: &Trace,
    bytes: &[u8],
) -> Result<Arrivals, Stop>
    ensures looks { Looks (arrivals_in program.now trace.now bytes.now) result }
    ensures events { IfOk result (λ found. length found.timings ≡ length program.now.events) }
{
    let _checked = program.bodies();
    told_arrivals_are_sound();
    match arrivals(alloc, program, trace, bytes) {
        Ok(arrivals) => Ok(arrivals),
        Err(ArrivalsFault::BadArrivals(row, kind)) => {
            Err(Stop::Refused(Fault::Table(Table::Arrivals, row, kind)))
        }
        Err(ArrivalsFault::NoMemory) => Err(Stop::NoMemory),
    }
}

/// The failures of a table, or its first row with a fault.
pub fn failures_of(alloc: Global, bytes: &[u8]) -> Result<Fails, Stop>
    ensures { Looks (failures_in bytes.now) result }
{
    match fails(alloc, bytes) {
        Ok(failures) => Ok(failures),
        Err(FailsFault::BadFails(row, kind)) => {
            Err(Stop::Refused(Fault::Table(Table::Fails, row, kind)))
        }
        Err(FailsFault::NoMemory) => Err(Stop::NoMemory),
    }
}
