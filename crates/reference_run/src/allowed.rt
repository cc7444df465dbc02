//! What an item of a schedule may be.

ghost use Rattle.std.specs.Prelude.{◌≡◌, length, slice_index, MatchOption};
ghost use Rattle.event_arrivals.specs.declared.arrival.Arrival.{Arrival};
ghost use Rattle.reference_run.specs.Reference.{AreFor, MayHandle, setting_of};

use crate::next::next_at;
use crate::run::Run;
use crate::schedule::Item;
use cat_program::Program;
use event_arrivals::{Arrival, Arrivals};

/// The arrival that the item handles, where it is the next one, in its event's version, and not before the last item.
pub(crate) fn allowed(
    program: &Program,
    versions: &[u8],
    arrivals: &Arrivals,
    run: &Run,
    item: &Item,
) -> Option<Arrival>
    requires belong { AreFor (setting_of program.now versions.now arrivals.now) }
    requires counts { length run.now.done.items ≡ length program.now.events }
    ensures { let may = MayHandle (setting_of program.now versions.now arrivals.now) run.now.start (slice_index run.now.done.items) item.now in
        MatchOption result ((arrival : Arrival) → ¬ (may arrival)) may }
{
    if item.start < run.start || item.event >= program.events() {
        return None;
    }
    if versions[item.event as usize] != item.version {
        return None;
    }
    next_at(
        program,
        arrivals,
        run.done.as_slice(),
        item.start,
        item.event,
    )
}
