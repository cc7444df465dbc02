//! Deadlines of whole runs: in every calm stretch each event is served by its deadline, and the log tells it once.
#![tactic(auto)]

ghost use Rattle.timely_commits.specs.InTime.{CommitsInTime};
ghost use Rattle.timely_commits.specs.Timely.{FreshRunsAreOnTime, ResumedRunsAreOnTime, TimelyLaw};

use calm_timeline::{calm_law, entries_end_law};
use event_arrivals::arrivals_are_counted;
use lawful_timeline::{lawful_timelines_hold, points_hold, starts_belong};
use logged_runs::{own_runs_go_on, own_runs_handle_arrivals};

/// In every calm stretch of a run from its beginning on no operation is lost, there is always enough for what is pending, and each
/// arrival that is due in it is served by its deadline and told by one committed entry: over every board, all its losses and all
/// arrivals.
pub fn timely_law()
    ensures { TimelyLaw }
{
    calm_law();
    entries_end_law();
    lawful_timelines_hold();
    points_hold();
    arrivals_are_counted();
    own_runs_go_on();
    own_runs_handle_arrivals();
}

/// In every calm stretch of a run from a fresh image each arrival that comes and is due in it is served by its deadline, and told by one
/// committed entry from then on up to the run's end.
pub fn fresh_runs_are_on_time()
    ensures { FreshRunsAreOnTime }
{
    starts_belong();
    calm_law();
    entries_end_law();
    lawful_timelines_hold();
    points_hold();
    arrivals_are_counted();
    own_runs_go_on();
    own_runs_handle_arrivals();
}

/// In every calm stretch of a run that goes on from a saved image each arrival that comes and is due in it is served by its deadline,
/// and told by one committed entry from then on up to the run's end.
pub fn resumed_runs_are_on_time()
    ensures { ResumedRunsAreOnTime }
{
    starts_belong();
    calm_law();
    entries_end_law();
    lawful_timelines_hold();
    points_hold();
    arrivals_are_counted();
    own_runs_go_on();
    own_runs_handle_arrivals();
}

/// A record that is committed after some entries, all of which ended by a tick, was committed by that tick.
pub fn commits_in_time()
    ensures { CommitsInTime }
{}
