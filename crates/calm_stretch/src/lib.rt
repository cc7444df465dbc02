//! Deadlines in calm stretches: where no operation draws more than its bound, none that has its bound stored is lost, and the
//! harvest is what it is said to be, each event that is due in the stretch is done in time.
#![tactic(auto)]

ghost use Rattle.calm_stretch.specs.Laws.{DeadlinesLaw};

use demand_core::{blocking_law, closing_law, points_law};
use event_arrivals::arrivals_are_counted;

/// In every timeline by the policy, over all arrivals, harvests and losses, with a row of numbers in force at each tick: every calm
/// stretch within one epoch loses no operation, has enough at each decision point, and does each job in time.
pub fn deadlines_law()
    ensures { DeadlinesLaw }
{
    closing_law();
    points_law();
    blocking_law();
    arrivals_are_counted();
}
