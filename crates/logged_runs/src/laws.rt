ghost use Rattle.std.specs.Prelude.{List, ℕ};
ghost use Rattle.cat_program.specs.Checked.{Checked};
ghost use Rattle.event_arrivals.specs.Arrivals.{Lists};
ghost use Rattle.logged_runs.specs.Reference.{Setting};
ghost use Rattle.logged_runs.specs.Laws.{AgreesWithOne, EarlierRunsAreOrdered, EntriesTell, OwnRunsGoOn, OwnRunsHandleArrivals, RunsAreOne};

use event_arrivals::arrivals_are_counted;

/// A run that is its own reference is that again after a step and after the next arrival, and it handles no arrival twice.
pub fn own_runs_go_on()
    ensures { (s : Setting) → OwnRunsGoOn s }
{}

/// A moment is an earlier one of its own run, and of each run that goes on from one of which it is an earlier one.
pub fn earlier_runs_are_ordered()
    ensures { (s : Setting) → EarlierRunsAreOrdered s }
{}

/// A schedule has one run at most, and this has one moment at most with so many entries and steps.
pub fn runs_are_one()
    ensures { (s : Setting) → RunsAreOne s }
{}

/// Where the versions are the same at all ticks, the run is the reference run of these versions.
pub fn agrees_with_one()
    ensures { (program : Checked) (versions : List ℕ) (arrivals : Lists) → AgreesWithOne program versions arrivals }
{}

/// What a step and an arrival add to the counts that the entries tell, and to the last start.
pub fn entries_tell()
    ensures { EntriesTell }
{}

/// What a run that is its own reference has handled has come by its last start, and of each event its entries tell the first
/// arrivals, as many as they count.
pub fn own_runs_handle_arrivals()
    ensures { (s : Setting) → OwnRunsHandleArrivals s }
{
    arrivals_are_counted();
}
