ghost use Rattle.std.specs.Prelude.{◌≡◌, IfOk, Some};
ghost use Rattle.harvest_trace.specs.Timeline.{IsInRange};
ghost use Rattle.harvest_trace.specs.TraceTable as spec;

use cn_base::MOST_TICKS;
use cn_tables::{RowKind, Rows, number, within, word};

/// So many ticks, each with this harvest, this extra cost of each operation that starts in it, and
/// this sample.
#[derive(Clone, Copy, Debug, PartialEq, Eq)]
pub struct TraceRow {
    pub ticks: u32,
    pub harvest: u32,
    pub extra: u32,
    pub sample: i32,
}

fn from_ranges(
    ticks: Option<u32>,
    harvest: Option<u32>,
    extra: Option<u32>,
    sample: Option<i32>,
) -> Result<TraceRow, RowKind>
    ensures value { result ≡ spec.from_ranges ticks harvest extra sample }
    ensures ticks { IfOk result (λ row. ticks ≡ Some row.ticks) }
    ensures harvest { IfOk result (λ row. harvest ≡ Some row.harvest) }
    ensures extra { IfOk result (λ row. extra ≡ Some row.extra) }
{
    let Some(ticks) = ticks else {
        return Err(RowKind::Range);
    };
    let Some(harvest) = harvest else {
        return Err(RowKind::Range);
    };
    let Some(extra) = extra else {
        return Err(RowKind::Range);
    };
    let Some(sample) = sample else {
        return Err(RowKind::Range);
    };
    Ok(TraceRow {
        ticks,
        harvest,
        extra,
        sample,
    })
}

fn from_numbers(
    ticks: Option<i64>,
    harvest: Option<i64>,
    extra: Option<i64>,
    sample: Option<i64>,
) -> Result<TraceRow, RowKind>
    ensures value { result ≡ spec.from_numbers ticks harvest extra sample }
    ensures in_range { IfOk result IsInRange }
{
    let Some(ticks) = ticks else {
        return Err(RowKind::Number);
    };
    let Some(harvest) = harvest else {
        return Err(RowKind::Number);
    };
    let Some(extra) = extra else {
        return Err(RowKind::Number);
    };
    let Some(sample) = sample else {
        return Err(RowKind::Number);
    };
    from_ranges(
        within(ticks, 1, MOST_TICKS),
        within(harvest, 0, 1_000_000),
        within(extra, 0, 1_000_000),
        word(sample),
    )
}

/// What the row says that was read last.
pub(crate) fn row_of(rows: &Rows<'_>) -> Result<TraceRow, RowKind>
    ensures value { result ≡ spec.trace_row rows.now.current }
    ensures in_range { IfOk result IsInRange }
{
    if rows.count() != 4 {
        return Err(RowKind::Fields);
    }
    from_numbers(
        number(rows.field(0)),
        number(rows.field(1)),
        number(rows.field(2)),
        number(rows.field(3)),
    )
}
