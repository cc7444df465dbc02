ghost use Rattle.std.specs.Prelude.{◌≡◌, IfOk, Some};
ghost use Rattle.forecast_table.specs.Epochs.{IsEpoch};
ghost use Rattle.forecast_table.specs.Table as spec;

use cn_base::MOST_TICKS;
use cn_tables::{RowKind, Rows, number, within};

/// From a tick on, up to that of the next row, at least `q` units are harvested in every `p` ticks in a row.
#[derive(Clone, Copy, Debug, PartialEq, Eq)]
pub struct Epoch {
    pub tick: u32,
    pub p: u32,
    pub q: u32,
}

fn from_ranges(tick: Option<u32>, p: Option<u32>, q: Option<u32>) -> Result<Epoch, RowKind>
    ensures value { result ≡ spec.from_ranges tick p q }
    ensures tick { IfOk result (λ row. tick ≡ Some row.tick) }
    ensures p { IfOk result (λ row. p ≡ Some row.p) }
    ensures q { IfOk result (λ row. q ≡ Some row.q) }
{
    let Some(tick) = tick else {
        return Err(RowKind::Range);
    };
    let Some(p) = p else {
        return Err(RowKind::Range);
    };
    let Some(q) = q else {
        return Err(RowKind::Range);
    };
    Ok(Epoch { tick, p, q })
}

fn from_numbers(tick: Option<i64>, p: Option<i64>, q: Option<i64>) -> Result<Epoch, RowKind>
    ensures value { result ≡ spec.from_numbers tick p q }
    ensures in_range { IfOk result IsEpoch }
{
    let Some(tick) = tick else {
        return Err(RowKind::Number);
    };
    let Some(p) = p else {
        return Err(RowKind::Number);
    };
    let Some(q) = q else {
        return Err(RowKind::Number);
    };
    from_ranges(
        within(tick, 0, MOST_TICKS - 1),
        within(p, 1, 1_000_000),
        within(q, 0, 1_000_000),
    )
}

/// What the row says that was read last.
pub(crate) fn row_of(rows: &Rows<'_>) -> Result<Epoch, RowKind>
    ensures value { result ≡ spec.forecast_row rows.now.current }
    ensures in_range { IfOk result IsEpoch }
{
    if rows.count() != 3 {
        return Err(RowKind::Fields);
    }
    from_numbers(
        number(rows.field(0)),
        number(rows.field(1)),
        number(rows.field(2)),
    )
}
