ghost use Rattle.std.specs.Prelude.{◌≡◌, ◌<◌, ◌≤◌, length, All, IfOk, IfErr};
ghost use Rattle.degradation.specs.Choice.{HasBounds, Suits};
ghost use Rattle.forecast_choice.specs.Rows.{fault_at, supply_in, AreChoices, IsRowFault};

use cat_program::Program;
use cost_bounds::Bounds;
use degradation::{Chosen, Supply, choose_with};
use feasibility::{ChooseFault, Verdict};
use forecast_table::{Epoch, Forecast};
use nv_memory::Device;
use std::alloc::Global;

/// Why some row has no choice of versions. Rows are counted from 1.
#[derive(Debug, PartialEq, Eq, Drop)]
pub enum RowFault {
    /// Demand and the row's supply repeat only after more than 1,000,000 ticks; with this spacing the window exceeds them.
    WindowTooLong { row: u32, spacing: u32 },
    /// With the row's supply no versions are feasible; the verdict is that on the last ones.
    Rejected { row: u32, verdict: Verdict },
    NoMemory,
}

/// What a row says of the harvest.
pub fn supply_of(row: &Epoch) -> Supply
    ensures { result ≡ supply_in row.now }
{
    Supply { p: row.p, q: row.q }
}

fn at_row(row: u32, fault: ChooseFault) -> RowFault
    ensures { result ≡ fault_at row fault }
{
    match fault {
        ChooseFault::WindowTooLong(spacing) => RowFault::WindowTooLong { row, spacing },
        ChooseFault::Rejected(verdict) => RowFault::Rejected { row, verdict },
        ChooseFault::NoMemory => RowFault::NoMemory,
    }
}

/// For each row of a forecast the feasible versions of least degradation with the row's `p` and `q` in place of the device's.
/// `bounds` are those of the program's code on this device, where a slot has this many lines.
///
/// # Errors
///
/// `WindowTooLong` or `Rejected` comes exactly where some row has no such versions, with the first such row and with what
/// `choose_with` says of it.
pub fn choose_rows(
    alloc: Global,
    program: &Program,
    bounds: &Bounds,
    device: &Device,
    lines: u32,
    forecast: &Forecast,
) -> Result<Vec<Chosen>, RowFault>
    requires { HasBounds program.now bounds.now }
    ensures chosen { IfOk result (λ found. AreChoices program.now bounds.now device.now lines forecast.now found.items) }
    ensures suits { IfOk result (λ found. All (Suits program.now) found.items) }
    ensures refused { IfErr result (IsRowFault program.now bounds.now device.now lines forecast.now) }
{
    let rows = forecast.rows();
    let mut found = Vec::new(alloc);
    let mut number: u32 = 1;
    for row in rows {
        let supply = supply_of(row);
        match choose_with(alloc, program, bounds, device, supply, lines) {
            Ok(chosen) => {
                if found.push(chosen).is_err() {
                    return Err(RowFault::NoMemory);
                }
            }
            Err(fault) => return Err(at_row(number, fault)),
        }
        number += 1;
    }
    Ok(found)
}
