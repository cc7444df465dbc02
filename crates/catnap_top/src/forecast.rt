//! From the bytes of a forecast to its rows, and the forecast that a profile gives.

ghost use Rattle.std.specs.Prelude.{◌≡◌, None, IfOk, option_map};
ghost use Rattle.catnap_top.specs.Files.{forecast_in, foreseen_in};
ghost use Rattle.catnap_top.specs.Look.{Looks, LooksAs};
ghost use Rattle.cn_runtime.specs.Steady.{steady_rows};
ghost use Rattle.std.specs.Option.{is_some};

use crate::fault::{Fault, Table};
use crate::stop::Stop;
use cn_base::NoMemory;
use forecast_table::{Forecast, ForecastFault, forecast};
use nv_memory::Device;
use std::alloc::Global;

/// The forecast of a table, or its first row with a fault.
pub fn forecast_of(alloc: Global, bytes: &[u8]) -> Result<Forecast, Stop>
    ensures { Looks (forecast_in bytes.now) result }
{
    match forecast(alloc, bytes) {
        Ok(rows) => Ok(rows),
        Err(ForecastFault::BadForecast(row, kind)) => {
            Err(Stop::Refused(Fault::Table(Table::Forecast, row, kind)))
        }
        Err(ForecastFault::NoMemory) => Err(Stop::NoMemory),
    }
}

/// The forecast of what a device's profile guarantees.
pub fn steady_for(alloc: Global, device: &Device) -> Result<Forecast, NoMemory>
    ensures { IfOk result (λ forecast. forecast ≡ steady_rows device.now) }
{
    let _device = device.copy();
    Forecast::steady(alloc, device.p, device.q)
}

/// What is sure to be harvested: what a forecast's file says, or what a device's profile guarantees where there is none.
pub fn foreseen_of<'a>(
    alloc: Global,
    device: &Device,
    forecast: Option<&'a [u8]>,
) -> Result<Forecast, Stop>
    ensures looks { LooksAs (λ rows. record { given = is_some forecast.entry; rows = rows }) (foreseen_in device.now (option_map (λ file. file.now) forecast.entry)) result }
    ensures steady { IfOk result (λ rows. forecast.entry ≡ None → rows ≡ steady_rows device.now) }
{
    match forecast {
        Some(file) => forecast_of(alloc, file),
        None => match steady_for(alloc, device) {
            Ok(steady) => Ok(steady),
            Err(_) => Err(Stop::NoMemory),
        },
    }
}
