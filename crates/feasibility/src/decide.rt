//! Whether a set of events is feasible.

ghost use Rattle.std.specs.Prelude.{◌≡◌, ℕ, ◌+◌, ◌<◌, ◌≤◌, ◌^◌, length};
ghost use Rattle.demand_core.specs.Demand.{least_deadline, room_use as room_use_of, CanRepeat, IsWindow, rbf, sbf, reserve as reserve_of, dbf, block};
ghost use Rattle.feasibility.specs.Verdicts.{IsVerdict, OnYes, SidesAreBelow};

use crate::kept::reserve;
use crate::late::{due_work, first_late};
use crate::sums::{energy_use, time_use, units_of_each};
use demand_core::{Base, Load, closing_law};

/// The first inequality that fails, with both sides, the left one being the greater, if one does.
#[derive(Clone, Copy, Debug, PartialEq, Eq)]
pub enum Verdict {
    Yes,
    /// The units that the jobs of a window draw, and those that are sure to be harvested in it.
    F1 {
        left: u128,
        right: u128,
    },
    /// The units that the store has to hold, and those that it can.
    F2 {
        left: u128,
        right: u128,
    },
    /// The ticks of the work that is due in a length of time, with what may keep it waiting, and that length. Or at length 0
    /// the ticks of the jobs of a window, and the window.
    F3 {
        length: u32,
        left: u128,
        right: u128,
    },
}

/// The units that the store has to hold: what is kept back, one job of each event, and what a section needs.
pub fn room_use(base: &Base, loads: &[Load], kept: u128) -> u128
    requires few { length loads.now ≤ 16 }
    requires kept { kept ≤ 2 ^ 101 }
    ensures value { (window : ℕ) → kept ≡ reserve_of base.now loads.now window → result ≡ room_use_of base.now loads.now window }
    ensures bound { result < 2 ^ 102 }
{
    kept + units_of_each(loads)
        + u128::from(base.checkpoint)
        + u128::from(base.section)
        + u128::from(base.wake)
}

/// The first inequality that fails.
fn first_failing(base: &Base, loads: &[Load], window: u32) -> Verdict
    requires few { length loads.now ≤ 16 }
    requires longest { 0 < base.now.longest }
    requires repeats { CanRepeat base.now loads.now }
    requires window { IsWindow base.now.p loads.now window }
    requires short { window ≤ 1000000 }
    ensures verdict { IsVerdict base.now loads.now window result }
    ensures sides { SidesAreBelow (2 ^ 110) result }
{
    let left = energy_use(loads, window);
    let right = u128::from(base.q) * u128::from(window / base.p);
    if right < left {
        return Verdict::F1 { left, right };
    }
    let left = room_use(base, loads, reserve(base, loads, window));
    let right = u128::from(base.cap);
    if right < left {
        return Verdict::F2 { left, right };
    }
    let left = time_use(loads, window);
    let right = u128::from(window);
    if right < left {
        return Verdict::F3 {
            length: 0,
            left,
            right,
        };
    }
    match first_late(base, loads, window) {
        Some(length) => Verdict::F3 {
            length,
            left: due_work(base, loads, length),
            right: u128::from(length),
        },
        None => Verdict::Yes,
    }
}

/// Whether the set is feasible, or the first inequality that fails. It takes no memory.
pub fn feasible(base: &Base, loads: &[Load], window: u32) -> Verdict
    requires few { length loads.now ≤ 16 }
    requires longest { 0 < base.now.longest }
    requires repeats { CanRepeat base.now loads.now }
    requires window { IsWindow base.now.p loads.now window }
    requires short { window ≤ 1000000 }
    ensures verdict { IsVerdict base.now loads.now window result }
    ensures sides { SidesAreBelow (2 ^ 110) result }
    // at every length, however great
    ensures energy { OnYes result ((l : ℕ) → rbf loads.now l ≤ reserve_of base.now loads.now window + sbf base.now l) }
    ensures time { OnYes result
        ((l : ℕ) → 0 < length loads.now → least_deadline loads.now ≤ l → dbf loads.now l + block base.now loads.now l ≤ l) }
{
    closing_law();
    first_failing(base, loads, window)
}
