//! The files of a replay.

ghost use Rattle.std.specs.Prelude.{◌≡◌, length, None, option_map, IfOk};
ghost use Rattle.catnap_top.specs.Files.{files_in};
ghost use Rattle.catnap_top.specs.Look.{Looks};
ghost use Rattle.cn_runtime.specs.Steady.{steady_rows};
ghost use Rattle.std.specs.Option.{is_some};

use crate::forecast::foreseen_of;
use crate::profile::device_of;
use crate::source::program_of;
use crate::stop::Stop;
use crate::tables::{arrivals_of, failures_of, trace_of};
use cat_program::Program;
use event_arrivals::Arrivals;
use forecast_table::Forecast;
use harvest_trace::{Fails, Trace};
use nv_memory::Device;
use std::alloc::Global;

/// What the files of a replay tell.
#[derive(Drop)]
pub struct ReplayFiles {
    pub program: Program,
    pub device: Device,
    pub trace: Trace,
    pub arrivals: Arrivals,
    pub failures: Fails,
    /// Whether a file gave the forecast.
    pub given: bool,
    pub forecast: Forecast,
}

/// Looks at the files of a replay, in this order, up to the first fault. Without a forecast's file the device's profile says what is sure
/// to be harvested.
pub fn replay_files<'a>(
    alloc: Global,
    source: &[u8],
    profile: &[u8],
    trace: &[u8],
    arrivals: &[u8],
    failures: &[u8],
    forecast: Option<&'a [u8]>,
) -> Result<ReplayFiles, Stop>
    ensures looks { Looks (files_in source.now profile.now trace.now arrivals.now failures.now (option_map (λ file. file.now) forecast.entry)) result }
    ensures events { IfOk result (λ files. length files.arrivals.timings ≡ length files.program.events) }
    ensures given { IfOk result (λ files. files.given ≡ is_some forecast.entry) }
    ensures steady { IfOk result (λ files. forecast.entry ≡ None → files.forecast ≡ steady_rows files.device) }
{
    let program = program_of(alloc, source)?;
    let device = device_of(alloc, profile)?;
    let trace = trace_of(alloc, trace)?;
    let arrivals = arrivals_of(alloc, &program, &trace, arrivals)?;
    let failures = failures_of(alloc, failures)?;
    let given = forecast.is_some();
    let forecast = foreseen_of(alloc, &device, forecast)?;
    Ok(ReplayFiles {
        program,
        device,
        trace,
        arrivals,
        failures,
        given,
        forecast,
    })
}
