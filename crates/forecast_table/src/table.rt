ghost use Rattle.std.specs.Prelude.{◌≡◌, [], Ok, IfOk, IfErr};
ghost use Rattle.cn_tables.specs.Fault.{IsTableFault};
ghost use Rattle.cn_tables.specs.Table.{read_rows};
ghost use Rattle.forecast_table.specs.Fault.{IsForecastFault};
ghost use Rattle.forecast_table.specs.Table as spec;

use crate::epoch::{Epoch, row_of};
use crate::epochs::{Forecast, MOST_EPOCHS};
use cn_tables::{RowKind, Rows, TableFault, open_table, rows_are_read};
use std::alloc::Global;

/// Why a text is no forecast.
#[derive(Clone, Copy, PartialEq, Eq, Debug)]
pub enum ForecastFault {
    /// The first row with a fault, the header being row 0, and what is wrong with it.
    BadForecast(u32, RowKind),
    NoMemory,
}

// Whether a row may begin at a tick where the one before it begins at `last`.
fn follows(last: Option<u32>, tick: u32) -> bool
    ensures { result ≡ spec.follows last tick }
{
    match last {
        Some(last) => last < tick,
        None => tick == 0,
    }
}

// The forecast of the rows that are left.
fn rows_of(alloc: Global, rows: &mut Rows<'_>) -> Result<Forecast, TableFault>
    ensures ok { IfOk result (λ found. spec.with_some (read_rows spec.forecast_step 1 [] rows.old.left) ≡ Ok found) }
    ensures fault { IfErr result (IsTableFault (spec.with_some (read_rows spec.forecast_step 1 [] rows.old.left))) }
{
    rows_are_read::<Epoch>();
    let mut kept = Vec::new(alloc);
    let mut last: Option<u32> = None;
    let mut row: u32 = 1;
    'rows: loop {
        let Ok(found) = rows.next_row() else {
            return Err(TableFault::NoMemory);
        };
        if !found {
            if row == 1 {
                return Err(TableFault::Bad(1, RowKind::Few));
            }
            return Ok(Forecast::of(kept));
        }
        if row > MOST_EPOCHS {
            return Err(TableFault::Bad(row, RowKind::Many));
        }
        let epoch = match row_of(rows) {
            Ok(epoch) => epoch,
            Err(kind) => return Err(TableFault::Bad(row, kind)),
        };
        if !follows(last, epoch.tick) {
            return Err(TableFault::Bad(row, RowKind::Order));
        }
        if kept.push(epoch).is_err() {
            return Err(TableFault::NoMemory);
        }
        last = Some(epoch.tick);
        row += 1;
    }
}

/// Reads a forecast: rows of a tick, `p` and `q` under their header. The fault is that of the first row that has one; a table without
/// rows has it in row 1.
pub fn forecast(alloc: Global, bytes: &[u8]) -> Result<Forecast, ForecastFault>
    ensures ok { IfOk result (λ found. spec.forecast_of bytes.now ≡ Ok found) }
    ensures fault { IfErr result (IsForecastFault (spec.forecast_of bytes.now)) }
{
    let header = [b"tick".as_slice(), b"p".as_slice(), b"q".as_slice()];
    let mut rows = match open_table(alloc, bytes, &header) {
        Ok(rows) => rows,
        Err(TableFault::Bad(row, kind)) => return Err(ForecastFault::BadForecast(row, kind)),
        Err(TableFault::NoMemory) => return Err(ForecastFault::NoMemory),
    };
    match rows_of(alloc, &mut rows) {
        Ok(found) => Ok(found),
        Err(TableFault::Bad(row, kind)) => Err(ForecastFault::BadForecast(row, kind)),
        Err(TableFault::NoMemory) => Err(ForecastFault::NoMemory),
    }
}
