ghost use Rattle.std.specs.Prelude.{◌≡◌};
ghost use Rattle.event_arrivals.specs.Rows as spec;

use crate::names::reactive_named;
use cat_program::Program;
use cn_base::MOST_TICKS;
use cn_tables::{RowKind, Rows, number, within, word};

/// A row of the table: an event comes at a tick with a payload.
#[derive(Clone, Copy, Debug)]
pub(crate) struct ArrivalRow {
    pub tick: u32,
    pub event: u8,
    pub payload: i32,
}

fn from_ranges(
    program: &Program,
    name: &[u8],
    tick: Option<u32>,
    payload: Option<i32>,
) -> Result<ArrivalRow, RowKind>
    ensures { result ≡ spec.from_ranges program.now.headers name.now tick payload }
{
    let Some(tick) = tick else {
        return Err(RowKind::Range);
    };
    let Some(payload) = payload else {
        return Err(RowKind::Range);
    };
    let Some(event) = reactive_named(program, name) else {
        return Err(RowKind::Name);
    };
    Ok(ArrivalRow {
        tick,
        event,
        payload,
    })
}

fn from_numbers(
    program: &Program,
    name: &[u8],
    tick: Option<i64>,
    payload: Option<i64>,
) -> Result<ArrivalRow, RowKind>
    ensures { result ≡ spec.from_numbers program.now.headers name.now tick payload }
{
    let Some(tick) = tick else {
        return Err(RowKind::Number);
    };
    let Some(payload) = payload else {
        return Err(RowKind::Number);
    };
    from_ranges(
        program,
        name,
        within(tick, 0, MOST_TICKS - 1),
        word(payload),
    )
}

/// What the row says that was read last.
pub(crate) fn row_of(program: &Program, rows: &Rows<'_>) -> Result<ArrivalRow, RowKind>
    ensures { result ≡ spec.arrival_row program.now.headers rows.now.current }
{
    if rows.count() != 3 {
        return Err(RowKind::Fields);
    }
    from_numbers(
        program,
        rows.field(1),
        number(rows.field(0)),
        number(rows.field(2)),
    )
}
