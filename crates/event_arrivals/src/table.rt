ghost use Rattle.std.specs.Prelude.{◌≡◌, ◌≤◌, [], length, Ok, IfOk, IfErr, IfSome};
ghost use Rattle.cn_tables.specs.Fault.{IsTableFault};
ghost use Rattle.cn_tables.specs.Table.{read_rows};
ghost use Rattle.event_arrivals.specs.Arrivals.{arrivals_of, lists_of, timings_of};
ghost use Rattle.event_arrivals.specs.Fault.{IsArrivalsFault};
ghost use Rattle.event_arrivals.specs.Rows as spec;
ghost use Rattle.event_arrivals.specs.Spaced.{HaveSpacings};

use crate::lists::Arrivals;
use crate::row::{ArrivalRow, row_of};
use cat_program::{Program, Timing, events_have_headers};
use cn_tables::{RowKind, Rows, TableFault, open_table, rows_are_read};
use harvest_trace::Trace;
use std::alloc::{AllocError, Global};

/// Why a text is no table of arrivals.
#[derive(Clone, Copy, PartialEq, Eq, Debug)]
pub enum ArrivalsFault {
    /// The first row with a fault, the header being row 0, and what is wrong with it.
    BadArrivals(u32, RowKind),
    NoMemory,
}

/// The greatest number of rows.
const MOST_ROWS: u32 = 100_000;

// The rows that are left.
fn rows_of(
    alloc: Global,
    program: &Program,
    rows: &mut Rows<'_>,
) -> Result<Vec<ArrivalRow>, TableFault>
    ensures ok { IfOk result (λ found. read_rows (spec.arrivals_step program.now.headers) 1 [] rows.old.left ≡ Ok found.items) }
    ensures few { IfOk result (λ found. length found.items ≤ spec.most_rows) }
    ensures known { IfOk result (λ found. spec.AreRowsOf (length program.now.headers) found.items) }
    ensures fault { IfErr result (IsTableFault (read_rows (spec.arrivals_step program.now.headers) 1 [] rows.old.left)) }
{
    rows_are_read::<ArrivalRow>();
    let mut kept = Vec::new(alloc);
    let mut last: u32 = 0;
    let mut number: u32 = 1;
    'rows: loop {
        let Ok(found) = rows.next_row() else {
            return Err(TableFault::NoMemory);
        };
        if !found {
            return Ok(kept);
        }
        if number > MOST_ROWS {
            return Err(TableFault::Bad(number, RowKind::Many));
        }
        let row = match row_of(program, rows) {
            Ok(row) => row,
            Err(kind) => return Err(TableFault::Bad(number, kind)),
        };
        if row.tick < last {
            return Err(TableFault::Bad(number, RowKind::Order));
        }
        if kept.push(row).is_err() {
            return Err(TableFault::NoMemory);
        }
        last = row.tick;
        number += 1;
    }
}

// When each event comes by itself.
fn timings_of(alloc: Global, program: &Program) -> Result<Vec<Timing>, AllocError>
    ensures timings { IfOk result (λ found. found.items ≡ timings_of program.now.headers) }
    ensures few { IfOk result (λ found. length found.items ≤ 16) }
    ensures apart { IfOk result (λ found. HaveSpacings found.items) }
{
    let _versions = program.versions();
    events_have_headers();
    let mut found = Vec::new(alloc);
    'events: for number in 0..program.events() {
        found.push(program.event(number).timing)?;
    }
    Ok(found)
}

// The arrivals by the rows of a table.
fn arrivals_by(
    alloc: Global,
    program: &Program,
    trace: &Trace,
    rows: &[ArrivalRow],
) -> Option<Arrivals>
    requires few { length rows.now ≤ spec.most_rows }
    requires known { spec.AreRowsOf (length program.now.headers) rows.now }
    ensures { IfSome result (λ found. found ≡ lists_of (timings_of program.now.headers) trace.now rows.now) }
{
    let timings = timings_of(alloc, program).ok()?;
    let copy = trace.copy(alloc).ok()?;
    Arrivals::of(alloc, timings, copy, rows).ok()
}

/// Reads arrivals: rows of a tick, an event's name and a payload under their header. The fault is
/// that of the first row that has one.
pub fn arrivals(
    alloc: Global,
    program: &Program,
    trace: &Trace,
    bytes: &[u8],
) -> Result<Arrivals, ArrivalsFault>
    ensures ok { IfOk result (λ found. arrivals_of program.now.headers trace.now bytes.now ≡ Ok found) }
    ensures fault { IfErr result (IsArrivalsFault (arrivals_of program.now.headers trace.now bytes.now)) }
{
    let header = [
        b"tick".as_slice(),
        b"event".as_slice(),
        b"payload".as_slice(),
    ];
    let mut rows = match open_table(alloc, bytes, &header) {
        Ok(rows) => rows,
        Err(TableFault::Bad(row, kind)) => return Err(ArrivalsFault::BadArrivals(row, kind)),
        Err(TableFault::NoMemory) => return Err(ArrivalsFault::NoMemory),
    };
    let rows = match rows_of(alloc, program, &mut rows) {
        Ok(rows) => rows,
        Err(TableFault::Bad(row, kind)) => return Err(ArrivalsFault::BadArrivals(row, kind)),
        Err(TableFault::NoMemory) => return Err(ArrivalsFault::NoMemory),
    };
    match arrivals_by(alloc, program, trace, rows.as_slice()) {
        Some(found) => Ok(found),
        None => Err(ArrivalsFault::NoMemory),
    }
}
