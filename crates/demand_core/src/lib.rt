//! What the events of a program can ask for in a length of time, what is sure to be harvested in it, and how long both take
//! to repeat. Energy is counted in units, time in ticks.
#![tactic(auto)]

ghost use Rattle.std.specs.Prelude.{◌≡◌, ℕ, ◌+◌, ◌-◌, ◌*◌, ◌/◌, ◌<◌, ◌≤◌, List, length, sum_by, All, Any};
ghost use Rattle.demand_core.specs.declared.Load.{Load};
ghost use Rattle.demand_core.specs.declared.Base.{Base};
ghost use Rattle.demand_core.specs.Demand.{sbf, rbf, dbf, block, reserve, least_deadline, CanRepeat, IsWindow, IsFeasible, FitsAt, IsDueAt, energy_use, time_use};

mod demand;
mod multiple;
mod repeat;
#[cfg(test)]
mod tests;

pub use demand::{block, dbf, rbf, sbf};
pub use multiple::lcm_to;
pub use repeat::{MOST_WINDOW, WindowTooLong, window};

/// One event in one version.
#[derive(Clone, Copy, Debug, PartialEq, Eq)]
pub struct Load {
    /// The least number of ticks from one arrival to the next, at least 1. The period, where the event has one.
    pub spacing: u32,
    /// The ticks within which a job is due after its arrival, at least 1 and at most the spacing.
    pub deadline: u32,
    /// The most units that one job draws.
    pub units: u64,
    /// The most ticks that one job takes.
    pub ticks: u64,
}

/// What the device gives, and what is needed beside the jobs.
#[derive(Clone, Copy, Debug, PartialEq, Eq)]
pub struct Base {
    /// The most units that the store holds.
    pub cap: u32,
    /// In every `p` ticks in a row at least `q` units are harvested. At least 1.
    pub p: u32,
    pub q: u32,
    /// The most units that a checkpoint draws.
    pub checkpoint: u64,
    /// The most units that a section of task code draws.
    pub section: u64,
    /// The most units that a wake draws.
    pub wake: u64,
    /// The most ticks that a checkpoint, a section or a wake takes, at least 1.
    pub longest: u64,
}

/// What the tests find for the events in their chosen versions.
#[derive(Clone, Copy, Debug, PartialEq, Eq)]
pub struct Numbers {
    /// The lines of memory that one slot has.
    pub lines: u32,
    /// The most units that a checkpoint draws.
    pub checkpoint: u64,
    /// The most units that a section of task code draws.
    pub section: u64,
    /// The units that are kept back for jobs.
    pub reserve: u64,
    /// The units from which on the board wakes for task code.
    pub level: u64,
    /// The ticks after which demand and supply repeat.
    pub window: u32,
}

/// Demand and supply repeat after a window, so where a set passes the tests of one window it stays within its supply and
/// its time at every length, however great.
pub fn closing_law()
    ensures energy { (base : Base) (loads : List Load) (window l : ℕ) → CanRepeat base loads → IsWindow base.p loads window →
        IsFeasible base loads window → rbf loads l ≤ reserve base loads window + sbf base l }
    ensures time { (base : Base) (loads : List Load) (window l : ℕ) → CanRepeat base loads → IsWindow base.p loads window →
        IsFeasible base loads window → 0 < length loads → least_deadline loads ≤ l → dbf loads l + block base loads l ≤ l }
{}

/// Where a window leaves supply or time over, no great length matters.
pub fn ample_law()
    // requests grow no faster than the jobs of a window ask for
    ensures grows { (base : Base) (loads : List Load) (window l : ℕ) → CanRepeat base loads → IsWindow base.p loads window →
        rbf loads l * window ≤ rbf loads 0 * window + l * energy_use loads window }
    // no difference is greater than that at length 0
    ensures energy { (base : Base) (loads : List Load) (window l : ℕ) → CanRepeat base loads → IsWindow base.p loads window →
        energy_use loads window ≤ base.q * (window / base.p) → base.q * window ≤ l * (base.q * (window / base.p) - energy_use loads window) →
        rbf loads l - sbf base l ≤ rbf loads 0 - sbf base 0 }
    ensures time { (base : Base) (loads : List Load) (window l : ℕ) → CanRepeat base loads → IsWindow base.p loads window →
        time_use loads window ≤ window → (sum_by (λ x. x.ticks) loads + block base loads 0) * window ≤ l * (window - time_use loads window) →
        FitsAt base loads l }
{}

/// Only the lengths where demand jumps matter, and more harvest needs no greater reserve.
pub fn points_law()
    // the reserve is the least number that is at least each difference
    ensures covers { (base : Base) (loads : List Load) (window l : ℕ) → l < window →
        rbf loads l - sbf base l ≤ reserve base loads window }
    // for which 0 and the multiples of the spacings are enough
    ensures kept { (base : Base) (loads : List Load) (window bound : ℕ) → CanRepeat base loads → rbf loads 0 - sbf base 0 ≤ bound →
        All (λ x. (k : ℕ) → k * x.spacing < window → rbf loads (k * x.spacing) - sbf base (k * x.spacing) ≤ bound) loads →
        reserve base loads window ≤ bound }
    // where the work fits at each deadline and each whole number of spacings after it, it fits at each length
    ensures fits { (base : Base) (loads : List Load) (upto l : ℕ) → CanRepeat base loads → 0 < length loads →
        All (λ x. (k : ℕ) → x.deadline + k * x.spacing < upto → FitsAt base loads (x.deadline + k * x.spacing)) loads →
        least_deadline loads ≤ l → l < upto → FitsAt base loads l }
    ensures least { (loads : List Load) → All (λ x. least_deadline loads ≤ x.deadline) loads }
    // the first length at which it does not fit is such a point
    ensures first { (base : Base) (loads : List Load) (at : ℕ) → CanRepeat base loads → 0 < length loads → least_deadline loads ≤ at →
        ((l : ℕ) → least_deadline loads ≤ l → l < at → FitsAt base loads l) → at < dbf loads at + block base loads at →
        Any (IsDueAt at) loads }
    ensures harvest { (base more : Base) (loads : List Load) (window : ℕ) → more.p ≡ base.p → base.q ≤ more.q →
        reserve more loads window ≤ reserve base loads window }
{}

/// How long a job that is due in l ticks may be kept waiting by what was chosen earlier.
pub fn blocking_law()
    // no longer where more time is left
    ensures falls { (base : Base) (loads : List Load) (l m : ℕ) → l ≤ m → block base loads m ≤ block base loads l }
    // a chunk of task code, or a job that is due later, may have begun in the tick before
    ensures chunk { (base : Base) (loads : List Load) (l : ℕ) → base.longest ≤ block base loads l + 1 }
    ensures job { (base : Base) (loads : List Load) (l : ℕ) → All (λ x. l < x.deadline → x.ticks ≤ block base loads l + 1) loads }
{}
