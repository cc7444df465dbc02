ghost use Rattle.std.specs.Prelude.{◌≡◌, ◌<◌, ◌≤◌, length, IfOk};
ghost use Rattle.cn_base.specs.declared.TheConstants.{MOST_TICKS};
ghost use Rattle.harvest_trace.specs.Timeline.{life_of};
ghost use Rattle.event_arrivals.specs.Arrivals.{arrival_at, each_own, lists_of, periodic};
ghost use Rattle.event_arrivals.specs.Rows.{AreRowsOf, most_rows};
ghost use Rattle.event_arrivals.specs.Spaced.{AreSound, HaveSpacings};

use crate::arrival::{Arrival, Dropped};
use crate::row::ArrivalRow;
use crate::spacing::{before_end, own, part};
use cat_program::Timing;
use cn_base::List;
use harvest_trace::Trace;
use std::alloc::{AllocError, Global};
use std::marker::Model;

/// The arrivals of each event, and the rows of the table that are dropped.
#[derive(Drop)]
pub struct Arrivals {
    timings: Vec<Timing>,
    kept: Vec<List<Arrival>>,
    dropped: Vec<Dropped>,
    trace: Trace,
}

impl Model for Arrivals {
    ghost use Rattle.std.specs.Prelude.{◌≡◌, ◌≤◌, length};
    ghost use Rattle.event_arrivals.specs.Arrivals.{Lists};
    ghost use Rattle.event_arrivals.specs.Spaced.{AreSound};

    ghost Value = { Lists };

    ghost view = { λ a. record { timings = a.timings.items; kept = a.kept.items; dropped = a.dropped.items; trace = a.trace } };

    ghost invariant = { λ a. (length a.timings.items ≤ 16) × (length a.kept.items ≡ length a.timings.items) × AreSound (record { timings = a.timings.items; kept = a.kept.items; dropped = a.dropped.items; trace = a.trace }) };
}

// The own rows of each event.
fn each_own(
    alloc: Global,
    timings: &[Timing],
    rows: &[ArrivalRow],
) -> Result<Vec<List<Arrival>>, AllocError>
    ensures { IfOk result (λ found. found.items ≡ each_own 0 timings.now rows.now) }
{
    let mut found = Vec::new(alloc);
    'events: for (event, _timing) in timings.iter().enumerate() {
        found.push(List::of(own(alloc, rows, event)?))?;
    }
    Ok(found)
}

impl Arrivals {
    /// The arrivals of events with these timings, on a trace, by the rows of a table.
    pub(crate) fn of(
        alloc: Global,
        timings: Vec<Timing>,
        trace: Trace,
        rows: &[ArrivalRow],
    ) -> Result<Arrivals, AllocError>
        requires few { length timings.items ≤ 16 }
        requires apart { HaveSpacings timings.items }
        requires few_rows { length rows.now ≤ most_rows }
        requires known { AreRowsOf (length timings.items) rows.now }
        ensures { IfOk result (λ found. found ≡ lists_of timings.items trace rows.now) }
    {
        let rows = before_end(alloc, rows, trace.life())?;
        let parted = part(alloc, timings.as_slice(), rows.as_slice())?;
        let kept = each_own(alloc, timings.as_slice(), parted.kept.as_slice())?;
        Ok(Arrivals {
            timings,
            kept,
            dropped: parted.dropped,
            trace,
        })
    }

    /// What holds of all arrivals: those of an event follow each other by its spacing or period, in the order of their numbers,
    /// and come before the trace's end; and at most 100,000 rows are dropped, each of an event that there is.
    pub fn are_sound(&self)
        ensures sound { AreSound self.now }
        ensures bounded { life_of self.now.trace ≤ MOST_TICKS }
    {
        let _life = self.trace.life();
    }

    /// How many events there are, at most 16.
    pub fn events(&self) -> u8
        ensures count { result ≡ length self.now.timings }
        ensures few { result ≤ 16 }
    {
        self.timings.len() as u8
    }

    /// The rows that are dropped, in the order of the table.
    pub fn dropped(&self) -> &[Dropped]
        ensures { result.now ≡ self.now.dropped }
    {
        self.dropped.as_slice()
    }

    // A periodic arrival.
    fn periodic(&self, tick: u64) -> Option<Arrival>
        ensures { result ≡ periodic tick self.now.trace }
    {
        if tick < u64::from(self.trace.life()) {
            let tick = tick as u32;
            Some(Arrival {
                tick,
                payload: self.trace.sample(tick),
            })
        } else {
            None
        }
    }

    /// An event's arrival number `k`, or none where it has at most `k` arrivals.
    pub fn arrival(&self, event: u8, k: u32) -> Option<Arrival>
        requires { event < length self.now.timings }
        ensures { result ≡ arrival_at self.now event k }
    {
        match self.timings[usize::from(event)] {
            Timing::Every { period, offset } => {
                self.periodic(u64::from(offset) + u64::from(k) * u64::from(period))
            }
            Timing::Spacing { .. } => self.kept[usize::from(event)]
                .as_slice()
                .get(k as usize)
                .copied(),
        }
    }
}
