ghost use Rattle.std.specs.Prelude.{◌≡◌, ◌≤◌, ◌<◌, [], length, map, slice_index_or, slice_set, if◌then◌else◌, Some, None, IfOk};
ghost use Rattle.event_arrivals.specs.Arrivals.{dropped_of, own_rows, rows_before};
ghost use Rattle.event_arrivals.specs.Kept as spec;

use crate::arrival::{Arrival, Dropped};
use crate::row::ArrivalRow;
use cat_program::Timing;
use std::alloc::{AllocError, Global};

/// The rows before the trace's end.
pub(crate) fn before_end(
    alloc: Global,
    rows: &[ArrivalRow],
    life: u32,
) -> Result<Vec<ArrivalRow>, AllocError>
    ensures { IfOk result (λ found. found.items ≡ rows_before life rows.now) }
{
    rows.iter()
        .filter(|row| row.tick < life)
        .copied()
        .collect(alloc)
}

/// The rows of an event.
pub(crate) fn own(
    alloc: Global,
    rows: &[ArrivalRow],
    event: usize,
) -> Result<Vec<Arrival>, AllocError>
    ensures { IfOk result (λ found. found.items ≡ own_rows event rows.now) }
{
    rows.iter()
        .filter(|row| usize::from(row.event) == event)
        .map(|row| Arrival {
            tick: row.tick,
            payload: row.payload,
        })
        .collect(alloc)
}

// The least time between two arrivals of an event.
fn spacing(timings: &[Timing], event: u8) -> u32
    ensures { result ≡ spec.spacing_at timings.now event }
{
    match timings.get(usize::from(event)) {
        Some(Timing::Every { period, .. }) => *period,
        Some(Timing::Spacing { least }) => *least,
        None => 0,
    }
}

// Whether a tick comes late enough after the last one, if there is one.
fn is_apart(least: u32, last: Option<u32>, tick: u32) -> bool
    ensures { result ≡ spec.is_apart least last tick }
{
    match last {
        Some(last) => u64::from(last) + u64::from(least) <= u64::from(tick),
        None => true,
    }
}

/// The rows that are kept, and those that are dropped.
#[derive(Drop)]
pub(crate) struct Parted {
    pub kept: Vec<ArrivalRow>,
    pub dropped: Vec<Dropped>,
}

// Whether a row comes late enough, which then is its event's last one.
fn is_taken(lasts: &mut [Option<u32>], timings: &[Timing], row: ArrivalRow) -> bool
    requires { 256 ≤ length lasts.old }
    ensures small { row.event < 256 }
    ensures taken { result ≡ spec.is_apart (spec.spacing_at timings.now row.event) (slice_index_or lasts.old row.event None) row.tick }
    ensures lasts { lasts.new ≡ (if result then slice_set lasts.old row.event (Some row.tick) else lasts.old) }
{
    let event = usize::from(row.event);
    let taken = is_apart(spacing(timings, row.event), lasts[event], row.tick);
    if taken {
        lasts[event] = Some(row.tick);
    }
    taken
}

/// Parts the rows by their events' spacings.
pub(crate) fn part(
    alloc: Global,
    timings: &[Timing],
    rows: &[ArrivalRow],
) -> Result<Parted, AllocError>
    ensures kept { IfOk result (λ found. found.kept.items ≡ spec.kept_rows timings.now [] rows.now) }
    ensures dropped { IfOk result (λ found. found.dropped.items ≡ map dropped_of (spec.dropped_rows timings.now [] rows.now)) }
{
    let mut kept = Vec::new(alloc);
    let mut dropped = Vec::new(alloc);
    // each event's last kept tick, by the event's number
    let mut lasts: [Option<u32>; 256] = [None; 256];
    'rows: for row in rows {
        if is_taken(&mut lasts, timings, *row) {
            kept.push(*row)?;
        } else {
            dropped.push(Dropped {
                tick: row.tick,
                event: row.event,
            })?;
        }
    }
    Ok(Parted { kept, dropped })
}
