//! Laws of the plan of a forecast's choices.

ghost use Rattle.cn_runtime.specs.OnTime.{PlansArePlanned};
ghost use Rattle.cn_runtime.specs.Planned.{PlansAreSetUp};
ghost use Rattle.cn_runtime.specs.Steady.{SteadyChoices, SteadyRefusals};

use calm_timeline::chosen_rows_law;
use forecast_choice::one_row_law;

/// The plan of a forecast's choices for a checked program, with spaced arrivals of each of its events, is set up.
pub fn plans_are_set_up()
    ensures { PlansAreSetUp }
{}

/// The plan of a forecast's choices for a device has the numbers of the program's jobs, and each of its rows is feasible there.
pub fn plans_are_planned()
    ensures { PlansArePlanned }
{
    chosen_rows_law();
}

/// What a device's profile guarantees is a forecast of one row. What is chosen for it is the one choice by the profile's numbers, and
/// where nothing is chosen there is none.
pub fn steady_law()
    ensures choices { SteadyChoices }
    ensures refused { SteadyRefusals }
{
    one_row_law();
}
