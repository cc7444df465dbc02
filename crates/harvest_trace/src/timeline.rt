ghost use Rattle.std.specs.Prelude.{◌≡◌, ◌≤◌, ◌<◌, ℕ, length, IfOk};
ghost use Rattle.std.specs.List.Sorted.{IsNonDecreasing, IsPartitionPoint};
ghost use Rattle.cn_base.specs.declared.TheConstants.{MOST_TICKS};
ghost use Rattle.harvest_trace.specs.Timeline.{IsInRange, IsTimeline, extra_at, harvest_at, life_of, row_at, sample_at};

use crate::row::TraceRow;
use cn_base::NoMemory;
use std::alloc::Global;
use std::marker::Model;

/// What the outside gives in each tick, in rows of ticks that are alike.
#[derive(Drop)]
pub struct Trace {
    rows: Vec<TraceRow>,
    /// the tick after each row's last one
    ends: Vec<u32>,
    life: u32,
}

impl Model for Trace {
    ghost use Rattle.std.specs.Prelude.{List};
    ghost use Rattle.harvest_trace.specs.declared.row.TraceRow.{TraceRow};
    ghost use Rattle.harvest_trace.specs.Timeline.{IsTimeline};

    ghost Value = { List TraceRow };

    ghost view = { λ a. a.rows.items };

    ghost invariant = { λ a. IsTimeline a.rows.items a.ends.items a.life };
}

// How many rows end at a tick or before it.
fn ended_by(ends: &[u32], tick: u32) -> usize
    requires { IsNonDecreasing ends.now }
    ensures most { result ≤ length ends.now }
    ensures point { IsPartitionPoint (λ end. end ≤ tick) (λ end. tick < end) ends.now result }
{
    ends.partition_point(|end| *end <= tick)
}

impl Trace {
    /// The trace of these rows, with the tick after each row's last one, and the sum of the ticks.
    pub(crate) fn of(rows: Vec<TraceRow>, ends: Vec<u32>, life: u32) -> Trace
        requires { IsTimeline rows.items ends.items life }
        ensures { result ≡ rows.items }
    {
        Trace { rows, ends, life }
    }

    /// An equal trace.
    pub fn copy(&self, alloc: Global) -> Result<Trace, NoMemory>
        ensures { IfOk result (λ copy. copy ≡ self.now) }
    {
        let Ok(rows) = self.rows.to_vec(alloc) else {
            return Err(NoMemory);
        };
        let Ok(ends) = self.ends.to_vec(alloc) else {
            return Err(NoMemory);
        };
        Ok(Trace::of(rows, ends, self.life))
    }

    /// How many ticks there are, at most `MOST_TICKS`.
    pub fn life(&self) -> u32
        ensures value { result ≡ life_of self.now }
        ensures most { result ≤ MOST_TICKS }
    {
        let _rows = &self.rows;
        self.life
    }

    // The row that holds at a tick.
    fn at(&self, tick: u32) -> TraceRow
        requires { tick < life_of self.now }
        ensures row { row_at self.now tick ≡ Some result }
        ensures in_range { IsInRange result }
    {
        let place = ended_by(self.ends.as_slice(), tick);
        self.rows[place]
    }

    /// The tick at which the row ends that holds at a tick: up to it nothing changes.
    pub fn until(&self, tick: u32) -> u32
        requires { tick < life_of self.now }
        ensures later { tick < result }
        ensures within { result ≤ life_of self.now }
        ensures alike { (t : ℕ) → tick ≤ t → t < result → row_at self.now t ≡ row_at self.now tick }
    {
        let _rows = &self.rows;
        let place = ended_by(self.ends.as_slice(), tick);
        self.ends[place]
    }

    /// The units that are harvested in a tick.
    pub fn harvest(&self, tick: u32) -> u32
        requires { tick < life_of self.now }
        ensures value { result ≡ harvest_at self.now tick }
        ensures most { result ≤ 1000000 }
    {
        self.at(tick).harvest
    }

    /// The units that each operation that starts in a tick draws beyond its own.
    pub fn extra(&self, tick: u32) -> u32
        requires { tick < life_of self.now }
        ensures value { result ≡ extra_at self.now tick }
        ensures most { result ≤ 1000000 }
    {
        self.at(tick).extra
    }

    /// What a sensor shows in a tick.
    pub fn sample(&self, tick: u32) -> i32
        requires { tick < life_of self.now }
        ensures { result ≡ sample_at self.now tick }
    {
        self.at(tick).sample
    }
}
