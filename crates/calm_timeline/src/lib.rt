//! Calm stretches of a run on a device: in each of them no operation is lost, and each event is served by its deadline.
#![tactic(auto)]

ghost use Rattle.calm_timeline.specs.Chosen.{VectorRows, ChosenRows};
ghost use Rattle.calm_timeline.specs.Laws.{CalmLaw, EntriesEnd};

use calm_stretch::deadlines_law;
use cat_machine::runs_are_in_code;
use cost_bounds::runs_within_law;
use degradation::degraded_loads_law;
use event_arrivals::{arrivals_are_counted, one_next};

/// In each stretch of a timeline within one epoch in which no operation draws more than its bound, none that has its bound stored is
/// lost, and the harvest is what the epoch counts on, no operation is lost, there is always enough for what is pending, and each
/// arrival is served by its deadline: over every board, all its losses and all arrivals.
pub fn calm_law()
    ensures { CalmLaw }
{
    deadlines_law();
    runs_within_law();
    runs_are_in_code();
    arrivals_are_counted();
    one_next();
}

/// No operation of a run ends after its last tick.
pub fn entries_end_law()
    ensures { EntriesEnd }
{
    runs_within_law();
    runs_are_in_code();
    arrivals_are_counted();
    one_next();
}

/// A row with what was chosen for a device has the numbers of its versions' jobs, and its events are feasible.
pub fn chosen_rows_law()
    ensures vector { VectorRows }
    ensures chosen { ChosenRows }
{
    degraded_loads_law();
}
