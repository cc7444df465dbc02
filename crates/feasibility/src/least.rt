//! The least deadline of a set.

ghost use Rattle.std.specs.Prelude.{◌≡◌, ◌<◌, ◌≤◌, length, All, MatchOption};
ghost use Rattle.demand_core.specs.Demand.{least_deadline as least_deadline_of};

use demand_core::Load;

/// The least deadline, where there are events.
#[tactic(auto, unfolding(demand_core::specs::Demand::least_deadline))]
pub fn least_deadline(loads: &[Load]) -> Option<u32>
    requires { All (λ x. x.deadline ≤ 1000000) loads.now }
    ensures { MatchOption result (length loads.now ≡ 0) (λ d. (0 < length loads.now) × (d ≡ least_deadline_of loads.now) × (d ≤ 1000000)) }
{
    if loads.is_empty() {
        return None;
    }
    let mut least = loads[0].deadline;
    for y in loads {
        if y.deadline < least {
            least = y.deadline;
        }
    }
    Some(least)
}
