//! The first length at which the work that is due does not fit.

ghost use Rattle.std.specs.Prelude.{◌≡◌, ℕ, ◌+◌, ◌-◌, ◌*◌, ◌<◌, ◌≤◌, ◌^◌, length, All, sum_by, MatchOption};
ghost use Rattle.demand_core.specs.Demand.{CanRepeat, IsWindow, FitsAt, dbf as dbf_of, block as block_of, least_deadline as least_deadline_of, time_use as time_use_of};
ghost use Rattle.feasibility.specs.Verdicts.{IsFirstLate};

use crate::least::least_deadline;
use crate::sums::{ticks_of_each, time_use};
use demand_core::{Base, Load, ample_law, block, dbf, points_law};

/// The ticks of the work that is due in `l` ticks, with what may keep it waiting.
pub fn due_work(base: &Base, loads: &[Load], l: u32) -> u128
    requires longest { 0 < base.now.longest }
    requires few { length loads.now ≤ 16 }
    requires spacings { All (λ x. 0 < x.spacing) loads.now }
    requires within { All (λ x. x.deadline ≤ x.spacing) loads.now }
    ensures value { result ≡ dbf_of loads.now l + block_of base.now loads.now l }
    ensures bound { result < 2 ^ 102 }
{
    dbf(loads, l) + block(base, loads, l)
}

/// The length from which on the work fits, as far as the time that a window leaves over shows; at most `end`.
fn ample_from(base: &Base, loads: &[Load], window: u32, end: u32) -> u32
    requires few { length loads.now ≤ 16 }
    requires longest { 0 < base.now.longest }
    requires repeats { CanRepeat base.now loads.now }
    requires window { IsWindow base.now.p loads.now window }
    requires busy { time_use_of loads.now window ≤ window }
    ensures within { result ≤ end }
    ensures ample { (l : ℕ) → result ≤ l → l < end → FitsAt base.now loads.now l }
{
    ample_law();
    let left = u128::from(window) - time_use(loads, window);
    if left == 0 {
        return end;
    }
    let work = ticks_of_each(loads) + block(base, loads, 0);
    let far = work * u128::from(window) / left + 1;
    if far < u128::from(end) {
        far as u32
    } else {
        end
    }
}

/// The first length below `upto`, among a deadline and whole numbers of spacings after it, at which the work does not fit, or `upto`.
fn first_late_of(base: &Base, loads: &[Load], one: &Load, upto: u32) -> u32
    requires few { length loads.now ≤ 16 }
    requires longest { 0 < base.now.longest }
    requires repeats { CanRepeat base.now loads.now }
    requires deadline { one.now.deadline ≤ 1000000 }
    requires spacing { 0 < one.now.spacing }
    requires spacing_short { one.now.spacing ≤ 1000000 }
    requires upto_short { upto ≤ 2000000 }
    ensures within { result ≤ upto }
    ensures fits { (k : ℕ) → one.now.deadline + k * one.now.spacing < result → FitsAt base.now loads.now (one.now.deadline + k * one.now.spacing) }
    ensures from { result < upto → one.now.deadline ≤ result }
    ensures late { result < upto → result < dbf_of loads.now result + block_of base.now loads.now result }
{
    let mut l = one.deadline;
    while l < upto {
        if u128::from(l) < due_work(base, loads, l) {
            return l;
        }
        l += one.spacing;
    }
    upto
}

/// The first length from the least deadline on, within a window, at which the work that is due does not fit. What is due
/// grows only at each deadline and a whole number of spacings after it, so that these lengths alone are looked at.
pub fn first_late(base: &Base, loads: &[Load], window: u32) -> Option<u32>
    requires few { length loads.now ≤ 16 }
    requires longest { 0 < base.now.longest }
    requires repeats { CanRepeat base.now loads.now }
    requires window { IsWindow base.now.p loads.now window }
    requires short { window ≤ 1000000 }
    requires busy { time_use_of loads.now window ≤ window }
    ensures { MatchOption result
        ((l : ℕ) → 0 < length loads.now → least_deadline_of loads.now ≤ l → l < least_deadline_of loads.now + window → FitsAt base.now loads.now l)
        (IsFirstLate base.now loads.now window) }
{
    points_law();
    let least = least_deadline(loads)?;
    let end = ample_from(base, loads, window, least + window);
    let mut first = end;
    for x in loads {
        first = first_late_of(base, loads, x, first);
    }
    if first < end { Some(first) } else { None }
}
