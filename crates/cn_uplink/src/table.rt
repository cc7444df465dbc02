ghost use Rattle.std.specs.Prelude.{◌≡◌, [], Ok, IfOk, IfErr};
ghost use Rattle.cn_tables.specs.Fault.{IsTableFault};
ghost use Rattle.cn_tables.specs.Table.{read_rows};
ghost use Rattle.cn_uplink.specs.Fault.{IsLinkFault};
ghost use Rattle.cn_uplink.specs.Table as spec;

use crate::link_step::{LinkKind, LinkStep};
use crate::link_steps::Links;
use cn_tables::{RowKind, Rows, TableFault, number, open_table, rows_are_read, within};
use std::alloc::Global;

/// Why a text is no link table.
#[derive(Clone, Copy, PartialEq, Eq, Debug)]
pub enum LinkFault {
    /// The first row with a fault, the header being row 0, and what is wrong with it.
    BadLink(u32, RowKind),
    NoMemory,
}

/// The greatest number of rows.
const MOST_ROWS: u32 = 100_000;

// The step of this name.
fn kind_named(name: &[u8]) -> Option<LinkKind>
    ensures { result ≡ spec.kind_named name.now }
{
    if name == b"grow".as_slice() {
        Some(LinkKind::Grow)
    } else if name == b"send".as_slice() {
        Some(LinkKind::Send)
    } else if name == b"again".as_slice() {
        Some(LinkKind::Again)
    } else if name == b"data".as_slice() {
        Some(LinkKind::Deliver)
    } else if name == b"ack".as_slice() {
        Some(LinkKind::Ack)
    } else if name == b"restart".as_slice() {
        Some(LinkKind::Restart)
    } else {
        None
    }
}

// The greatest number that a step may have.
fn most_of(kind: LinkKind) -> u32
    ensures { result ≡ spec.most_of kind }
{
    match kind {
        LinkKind::Send => 0,
        LinkKind::Restart => 0,
        _ => 999_999,
    }
}

// What the row says that was read last.
fn row_of(rows: &Rows<'_>) -> Result<LinkStep, RowKind>
    ensures { result ≡ spec.link_row rows.now.current }
{
    if rows.count() != 2 {
        return Err(RowKind::Fields);
    }
    let Some(n) = number(rows.field(1)) else {
        return Err(RowKind::Number);
    };
    let Some(kind) = kind_named(rows.field(0)) else {
        return Err(RowKind::Name);
    };
    let Some(n) = within(n, 0, most_of(kind)) else {
        return Err(RowKind::Range);
    };
    Ok(LinkStep { kind, n })
}

// The steps of the rows that are left.
fn rows_of(alloc: Global, rows: &mut Rows<'_>) -> Result<Links, TableFault>
    ensures ok { IfOk result (λ found. read_rows spec.links_step 1 [] rows.old.left ≡ Ok found) }
    ensures fault { IfErr result (IsTableFault (read_rows spec.links_step 1 [] rows.old.left)) }
{
    rows_are_read::<LinkStep>();
    let mut kept = Vec::new(alloc);
    let mut row: u32 = 1;
    'rows: loop {
        let Ok(found) = rows.next_row() else {
            return Err(TableFault::NoMemory);
        };
        if !found {
            return Ok(Links::of(kept));
        }
        if row > MOST_ROWS {
            return Err(TableFault::Bad(row, RowKind::Many));
        }
        let step = match row_of(rows) {
            Ok(step) => step,
            Err(kind) => return Err(TableFault::Bad(row, kind)),
        };
        if kept.push(step).is_err() {
            return Err(TableFault::NoMemory);
        }
        row += 1;
    }
}

/// Reads a link table: rows of a step's name and its number under their header. The fault is that of the first row that has one.
pub fn links(alloc: Global, bytes: &[u8]) -> Result<Links, LinkFault>
    ensures ok { IfOk result (λ found. spec.links_of bytes.now ≡ Ok found) }
    ensures fault { IfErr result (IsLinkFault (spec.links_of bytes.now)) }
{
    let header = [b"step".as_slice(), b"n".as_slice()];
    let mut rows = match open_table(alloc, bytes, &header) {
        Ok(rows) => rows,
        Err(TableFault::Bad(row, kind)) => return Err(LinkFault::BadLink(row, kind)),
        Err(TableFault::NoMemory) => return Err(LinkFault::NoMemory),
    };
    match rows_of(alloc, &mut rows) {
        Ok(found) => Ok(found),
        Err(TableFault::Bad(row, kind)) => Err(LinkFault::BadLink(row, kind)),
        Err(TableFault::NoMemory) => Err(LinkFault::NoMemory),
    }
}
