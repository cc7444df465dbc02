ghost use Rattle.std.specs.Prelude.{◌≡◌, [], Ok, IfOk, IfErr};
ghost use Rattle.cn_tables.specs.Fault.{IsTableFault};
ghost use Rattle.cn_tables.specs.Table.{read_rows};
ghost use Rattle.harvest_trace.specs.Fault.{IsFailsFault};
ghost use Rattle.harvest_trace.specs.FailsTable as spec;

use crate::failures::{Fails, Failure};
use cn_base::MOST_TICKS;
use cn_tables::{RowKind, Rows, TableFault, fill_of, number, open_table, rows_are_read, within};
use std::alloc::Global;

/// Why a text is no table of failures.
#[derive(Clone, Copy, PartialEq, Eq, Debug)]
pub enum FailsFault {
    /// The first row with a fault, the header being row 0, and what is wrong with it.
    BadFails(u32, RowKind),
    NoMemory,
}

/// The greatest number of rows.
const MOST_ROWS: u32 = 100_000;

// What the row says that was read last.
fn row_of(rows: &Rows<'_>) -> Result<Failure, RowKind>
    ensures { result ≡ spec.fail_row rows.now.current }
{
    if rows.count() != 2 {
        return Err(RowKind::Fields);
    }
    let Some(tick) = number(rows.field(0)) else {
        return Err(RowKind::Number);
    };
    let Some(tick) = within(tick, 0, MOST_TICKS - 1) else {
        return Err(RowKind::Range);
    };
    let Some(fill) = fill_of(rows.field(1)) else {
        return Err(RowKind::Fill);
    };
    Ok(Failure { tick, fill })
}

// Whether a tick comes after the last one, if there is one.
fn is_after(last: Option<u32>, tick: u32) -> bool
    ensures { result ≡ spec.is_after last tick }
{
    match last {
        Some(last) => last < tick,
        None => true,
    }
}

// The failures of the rows that are left.
fn rows_of(alloc: Global, rows: &mut Rows<'_>) -> Result<Fails, TableFault>
    ensures ok { IfOk result (λ found. read_rows spec.fails_step 1 [] rows.old.left ≡ Ok found) }
    ensures fault { IfErr result (IsTableFault (read_rows spec.fails_step 1 [] rows.old.left)) }
{
    rows_are_read::<Failure>();
    let mut kept = Vec::new(alloc);
    let mut last: Option<u32> = None;
    let mut row: u32 = 1;
    'rows: loop {
        let Ok(found) = rows.next_row() else {
            return Err(TableFault::NoMemory);
        };
        if !found {
            return Ok(Fails::of(kept));
        }
        if row > MOST_ROWS {
            return Err(TableFault::Bad(row, RowKind::Many));
        }
        let failure = match row_of(rows) {
            Ok(failure) => failure,
            Err(kind) => return Err(TableFault::Bad(row, kind)),
        };
        let tick = failure.tick;
        if !is_after(last, tick) {
            return Err(TableFault::Bad(row, RowKind::Order));
        }
        if kept.push(failure).is_err() {
            return Err(TableFault::NoMemory);
        }
        last = Some(tick);
        row += 1;
    }
}

/// Reads failures: rows of a tick and a fill under their header. The fault is that of the first
/// row that has one.
pub fn fails(alloc: Global, bytes: &[u8]) -> Result<Fails, FailsFault>
    ensures ok { IfOk result (λ found. spec.fails_of bytes.now ≡ Ok found) }
    ensures fault { IfErr result (IsFailsFault (spec.fails_of bytes.now)) }
{
    let header = [b"tick".as_slice(), b"fill".as_slice()];
    let mut rows = match open_table(alloc, bytes, &header) {
        Ok(rows) => rows,
        Err(TableFault::Bad(row, kind)) => return Err(FailsFault::BadFails(row, kind)),
        Err(TableFault::NoMemory) => return Err(FailsFault::NoMemory),
    };
    match rows_of(alloc, &mut rows) {
        Ok(found) => Ok(found),
        Err(TableFault::Bad(row, kind)) => Err(FailsFault::BadFails(row, kind)),
        Err(TableFault::NoMemory) => Err(FailsFault::NoMemory),
    }
}
