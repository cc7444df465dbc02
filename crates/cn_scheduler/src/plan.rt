//! What a program does on a device: its code, its arrivals, and the numbers that are in force at a tick.

ghost use Rattle.std.specs.Prelude.{◌≡◌, ◌+◌, ◌<◌, length, slice_get, None, MatchOption};

use cat_machine::Code;
use cn_base::List;
use demand_core::{Load, Numbers};
use event_queue::{Due, Queue};
use nv_memory::Layout;

/// What is in force from a tick on, up to the next row's: the version of each event, what each asks for in that version, and the
/// numbers that follow from these.
#[derive(Drop)]
pub struct PlanRow {
    pub from: u32,
    pub versions: List<u8>,
    pub loads: List<Load>,
    pub numbers: Numbers,
}

/// A program's code with its arrivals, what is in force at each tick, and the layout of its image.
#[derive(Drop)]
pub struct Plan {
    pub code: Code,
    pub rows: List<PlanRow>,
    /// The most units that a wake draws.
    pub wake_units: u64,
    pub queue: Queue,
    pub layout: Layout,
}

fn sum_of(first: u64, second: u64, third: u64) -> u128
    ensures { result ≡ first + second + third }
{
    u128::from(first) + u128::from(second) + u128::from(third)
}

impl Plan {
    ghost use Rattle.cn_scheduler.specs.InForce.{in_force, floor_at, need_at, level_at, version_of, units_of};

    // The place of the row in force at a tick.
    fn row_at(&self, tick: u32) -> Option<usize>
        ensures { MatchOption result (in_force self.now.rows tick ≡ None) (λ i. (i < length self.now.rows) × (slice_get self.now.rows i ≡ in_force self.now.rows tick)) }
    {
        let mut found = None;
        for (i, row) in self.rows.as_slice().iter().enumerate() {
            if tick < row.from {
                continue;
            }
            found = Some(i);
        }
        found
    }

    /// What an instruction of a task has to leave in store at a tick.
    pub(crate) fn floor_at(&self, tick: u32) -> u128
        ensures { result ≡ floor_at self.now.rows tick }
    {
        match self.row_at(tick) {
            None => 0,
            Some(i) => {
                let numbers = &self.rows.as_slice()[i].numbers;
                u128::from(numbers.reserve) + u128::from(numbers.checkpoint)
            }
        }
    }

    /// The units at which a section begins at a tick.
    pub(crate) fn need_at(&self, tick: u32) -> u128
        ensures { result ≡ need_at self.now.rows tick }
    {
        match self.row_at(tick) {
            None => 0,
            Some(i) => {
                let numbers = &self.rows.as_slice()[i].numbers;
                sum_of(numbers.reserve, numbers.checkpoint, numbers.section)
            }
        }
    }

    /// The units at which the board wakes for the tasks at a tick.
    pub(crate) fn level_at(&self, tick: u32) -> u64
        ensures { result ≡ level_at self.now.rows tick }
    {
        match self.row_at(tick) {
            None => 0,
            Some(i) => self.rows.as_slice()[i].numbers.level,
        }
    }

    /// The version in which an arrival is served.
    pub(crate) fn version_of(&self, due: &Due) -> u8
        ensures { result ≡ version_of self.now.rows due.now }
    {
        match self.row_at(due.arrived) {
            None => 0,
            Some(i) => match self.rows.as_slice()[i]
                .versions
                .as_slice()
                .get(due.event as usize)
            {
                None => 0,
                Some(version) => *version,
            },
        }
    }

    /// The most units that the job of an arrival draws.
    pub(crate) fn units_of(&self, due: &Due) -> u64
        ensures { result ≡ units_of self.now.rows due.now }
    {
        match self.row_at(due.arrived) {
            None => 0,
            Some(i) => match self.rows.as_slice()[i]
                .loads
                .as_slice()
                .get(due.event as usize)
            {
                None => 0,
                Some(load) => load.units,
            },
        }
    }
}
