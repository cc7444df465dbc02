//! The search for the least harvest with which a set is feasible.

ghost use Rattle.std.specs.Prelude.{◌≡◌, ◌<◌, ◌≤◌, length, IfOk, IfErr, MatchResult};
ghost use Rattle.demand_core.specs.Demand.{CanRepeat, IsWindow};
ghost use Rattle.cn_plan.specs.Harvest.{with_harvest as base_with, IsEnough, IsVerdictAt, IsLeastHarvest, IsNoHarvest};

use crate::harvest::harvest_law;
use demand_core::{Base, Load};
use feasibility::{Verdict, feasible};

/// The greatest harvest that is looked at, in units.
pub const MOST_HARVEST: u32 = 1_000_000;

/// The least harvest, with the verdict on the next smaller one, if there is one.
#[derive(Clone, Copy)]
pub struct Harvest {
    pub q: u32,
    pub below: Option<Verdict>,
}

pub fn with_harvest(base: &Base, q: u32) -> Base
    ensures { result ≡ base_with base.now q }
{
    Base { q, ..*base }
}

/// Whether the set is feasible with this harvest, or the verdict that it is not.
fn test(base: &Base, loads: &[Load], window: u32, q: u32) -> Result<(), Verdict>
    requires few { length loads.now ≤ 16 }
    requires longest { 0 < base.now.longest }
    requires repeats { CanRepeat base.now loads.now }
    requires window { IsWindow base.now.p loads.now window }
    requires short { window ≤ 1000000 }
    ensures { MatchResult result (λ _. IsEnough base.now loads.now window q)
        (λ verdict. IsVerdictAt base.now loads.now window q verdict × (IsEnough base.now loads.now window q → ⊥)) }
{
    let base = with_harvest(base, q);
    match feasible(&base, loads, window) {
        Verdict::Yes => Ok(()),
        verdict => Err(verdict),
    }
}

/// The least harvest up to [`MOST_HARVEST`] with which the set is feasible, or the verdict on the greatest, with which it is not.
/// What the base has for its harvest is not looked at. The harvests that are enough are those from a least one on, so it is searched
/// for by halves: 21 tests at most. It takes no memory.
pub fn least_harvest(base: &Base, loads: &[Load], window: u32) -> Result<Harvest, Verdict>
    requires few { length loads.now ≤ 16 }
    requires longest { 0 < base.now.longest }
    requires repeats { CanRepeat base.now loads.now }
    requires window { IsWindow base.now.p loads.now window }
    requires short { window ≤ 1000000 }
    ensures least { IfOk result (λ found. IsLeastHarvest base.now loads.now window found.q found.below) }
    ensures none { IfErr result (IsNoHarvest base.now loads.now window) }
{
    harvest_law();
    if let Err(verdict) = test(base, loads, window, MOST_HARVEST) {
        return Err(verdict);
    }
    // `q` is enough, and nothing below `low` is, as `below` shows
    let mut q = MOST_HARVEST;
    let mut low = 0;
    let mut below = None;
    while low < q {
        let middle = low + (q - low) / 2;
        match test(base, loads, window, middle) {
            Ok(()) => q = middle,
            Err(verdict) => {
                below = Some(verdict);
                low = middle + 1;
            }
        }
    }
    Ok(Harvest { q, below })
}
