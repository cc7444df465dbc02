ghost use Rattle.std.specs.Prelude.{◌≡◌, [], Ok, IfOk, IfErr};
ghost use Rattle.cn_tables.specs.Fault.{IsTableFault};
ghost use Rattle.cn_tables.specs.Table.{read_rows};
ghost use Rattle.harvest_trace.specs.Fault.{IsTraceFault};
ghost use Rattle.harvest_trace.specs.TraceTable.{trace_of, trace_step};

use crate::row::{TraceRow, row_of};
use crate::timeline::Trace;
use cn_base::MOST_TICKS;
use cn_tables::{RowKind, Rows, TableFault, open_table, rows_are_read};
use std::alloc::Global;

/// Why a text is no trace.
#[derive(Clone, Copy, PartialEq, Eq, Debug)]
pub enum TraceFault {
    /// The first row with a fault, the header being row 0, and what is wrong with it.
    BadTrace(u32, RowKind),
    NoMemory,
}

// The trace of the rows that are left.
fn rows_of(alloc: Global, rows: &mut Rows<'_>) -> Result<Trace, TableFault>
    ensures ok { IfOk result (λ trace. read_rows trace_step 1 [] rows.old.left ≡ Ok trace) }
    ensures fault { IfErr result (IsTableFault (read_rows trace_step 1 [] rows.old.left)) }
{
    rows_are_read::<TraceRow>();
    let mut kept = Vec::new(alloc);
    let mut ends = Vec::new(alloc);
    let mut life: u32 = 0;
    let mut number: u32 = 1;
    'rows: loop {
        let Ok(found) = rows.next_row() else {
            return Err(TableFault::NoMemory);
        };
        if !found {
            return Ok(Trace::of(kept, ends, life));
        }
        let row = match row_of(rows) {
            Ok(row) => row,
            Err(kind) => return Err(TableFault::Bad(number, kind)),
        };
        life += row.ticks;
        if life > MOST_TICKS {
            return Err(TableFault::Bad(number, RowKind::Total));
        }
        if kept.push(row).is_err() || ends.push(life).is_err() {
            return Err(TableFault::NoMemory);
        }
        number += 1;
    }
}

/// Reads a trace: rows of ticks, harvest, extra cost and sample under their header. The fault is
/// that of the first row that has one.
pub fn trace(alloc: Global, bytes: &[u8]) -> Result<Trace, TraceFault>
    ensures ok { IfOk result (λ trace. trace_of bytes.now ≡ Ok trace) }
    ensures fault { IfErr result (IsTraceFault (trace_of bytes.now)) }
{
    let header = [
        b"ticks".as_slice(),
        b"harvest".as_slice(),
        b"extra".as_slice(),
        b"sample".as_slice(),
    ];
    let mut rows = match open_table(alloc, bytes, &header) {
        Ok(rows) => rows,
        Err(TableFault::Bad(row, kind)) => return Err(TraceFault::BadTrace(row, kind)),
        Err(TableFault::NoMemory) => return Err(TraceFault::NoMemory),
    };
    match rows_of(alloc, &mut rows) {
        Ok(trace) => Ok(trace),
        Err(TableFault::Bad(row, kind)) => Err(TraceFault::BadTrace(row, kind)),
        Err(TableFault::NoMemory) => Err(TraceFault::NoMemory),
    }
}
