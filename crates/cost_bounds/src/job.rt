ghost use Rattle.std.specs.Prelude.{◌≡◌, Some, slice_get};
ghost use Rattle.cost_bounds.specs.Pass.{dearer, nothing, plus_capped, times_capped};

use std::marker::Model;

/// What something takes at most: units of energy, and ticks. Each is the greatest by itself.
#[derive(Clone, Copy, Debug, PartialEq, Eq)]
pub struct Job {
    pub units: u64,
    pub ticks: u64,
}

impl Job {
    pub(crate) fn nothing() -> Job
        ensures { result ≡ nothing }
    {
        Job { units: 0, ticks: 0 }
    }

    /// The sums, which stand still at the greatest number.
    pub(crate) fn plus(self, other: Job) -> Job
        ensures { result ≡ plus_capped self other }
    {
        Job {
            units: self.units.saturating_add(other.units),
            ticks: self.ticks.saturating_add(other.ticks),
        }
    }

    /// Several times the same, likewise.
    pub(crate) fn times(self, n: u64) -> Job
        ensures { result ≡ times_capped self n }
    {
        Job {
            units: self.units.saturating_mul(n),
            ticks: self.ticks.saturating_mul(n),
        }
    }

    /// The greater units and the greater ticks.
    pub(crate) fn dearer(self, other: Job) -> Job
        ensures { result ≡ dearer self other }
    {
        Job {
            units: self.units.max(other.units),
            ticks: self.ticks.max(other.ticks),
        }
    }
}

/// What each version of each event takes at most, and a section of the tasks, a checkpoint and a wake.
#[derive(Drop)]
pub struct Bounds {
    jobs: Vec<Vec<Job>>,
    section: Job,
    checkpoint: Job,
    wake: Job,
}

impl Model for Bounds {
    ghost use Rattle.cost_bounds.specs.BoundsValue.{BoundsValue, bounds_by};

    ghost Value = { BoundsValue };

    ghost view = { λ b. bounds_by b.jobs.items b.section b.checkpoint b.wake };
}

impl Bounds {
    ghost use Rattle.cost_bounds.specs.BoundsValue.{HasJob, bounds_by, job_at, longest_of};

    /// The bounds with these jobs of each event's versions. It takes no memory.
    pub fn of(jobs: Vec<Vec<Job>>, section: Job, checkpoint: Job, wake: Job) -> Bounds
        ensures { result ≡ bounds_by jobs.items section checkpoint wake }
    {
        Bounds {
            jobs,
            section,
            checkpoint,
            wake,
        }
    }

    /// What a whole job of a version takes: a wake, its handler, and the writes that save its result.
    pub fn job(&self, event: u8, version: u8) -> Job
        requires { HasJob self.now event version }
        ensures { job_at self.now event version ≡ Some result }
    {
        let versions = self.jobs[event as usize].as_slice();
        versions[version as usize]
    }

    /// What a section takes, from any place of the tasks' code.
    pub fn section(&self) -> Job
        ensures { result ≡ self.now.section }
    {
        self.section
    }

    /// What a checkpoint takes.
    pub fn checkpoint(&self) -> Job
        ensures { result ≡ self.now.checkpoint }
    {
        self.checkpoint
    }

    /// What a wake takes.
    pub fn wake(&self) -> Job
        ensures { result ≡ self.now.wake }
    {
        self.wake
    }

    /// The most ticks for which an event may have to wait for what is not an event: a section, a checkpoint, a wake, or
    /// one tick of sleep.
    pub fn longest(&self) -> u64
        ensures { result ≡ longest_of self.now }
    {
        self.section
            .ticks
            .max(self.checkpoint.ticks)
            .max(self.wake.ticks)
            .max(1)
    }
}

#[cfg(test)]
impl Bounds {
    pub(crate) fn jobs(&self) -> &[Vec<Job>] {
        self.jobs.as_slice()
    }
}
