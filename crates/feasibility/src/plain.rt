//! The same tests straight from their definitions, at every length. They are slow, and stand here to compare with.

ghost use Rattle.std.specs.Prelude.{◌≡◌, ℕ, ◌<◌, ◌≤◌, ◌^◌, length};
ghost use Rattle.demand_core.specs.Demand.{CanRepeat, IsWindow, reserve as reserve_of};
ghost use Rattle.feasibility.specs.Verdicts.{IsVerdict};

use crate::Verdict;
use crate::decide::room_use;
use crate::late::due_work;
use crate::least::least_deadline;
use crate::sums::{energy_use, time_use};
use demand_core::{Base, Load, rbf, sbf};

/// The units that have to be kept back.
#[tactic(auto, unfolding(demand_core::specs::Demand::reserve))]
pub fn reserve(base: &Base, loads: &[Load], window: u32) -> u128
    requires few { length loads.now ≤ 16 }
    requires repeats { CanRepeat base.now loads.now }
    ensures value { result ≡ reserve_of base.now loads.now window }
    ensures bound { result ≤ 2 ^ 101 }
{
    let mut most: u128 = 0;
    for l in 0..window {
        let asked = rbf(loads, l);
        let given = sbf(base, l);
        if given < asked && most < asked - given {
            most = asked - given;
        }
    }
    most
}

/// Whether the set is feasible, or the first inequality that fails.
pub fn feasible(base: &Base, loads: &[Load], window: u32) -> Verdict
    requires few { length loads.now ≤ 16 }
    requires longest { 0 < base.now.longest }
    requires repeats { CanRepeat base.now loads.now }
    requires window { IsWindow base.now.p loads.now window }
    requires short { window ≤ 1000000 }
    ensures { IsVerdict base.now loads.now window result }
{
    let left = energy_use(loads, window);
    let right = u128::from(base.q) * u128::from(window / base.p);
    if right < left {
        return Verdict::F1 { left, right };
    }
    let left = room_use(base, loads, reserve(base, loads, window));
    let right = u128::from(base.cap);
    if right < left {
        return Verdict::F2 { left, right };
    }
    let left = time_use(loads, window);
    let right = u128::from(window);
    if right < left {
        return Verdict::F3 {
            length: 0,
            left,
            right,
        };
    }
    if let Some(first) = least_deadline(loads) {
        for l in first..first + window {
            let left = due_work(base, loads, l);
            let right = u128::from(l);
            if right < left {
                return Verdict::F3 {
                    length: l,
                    left,
                    right,
                };
            }
        }
    }
    Verdict::Yes
}
