//! Whether an event's arrival is the next one.

ghost use Rattle.std.specs.Prelude.{◌≡◌, ◌<◌, ◌≤◌, ◌+◌, true, false, length, slice_index, MatchOption};
ghost use Rattle.event_arrivals.specs.Next.{IsNext};
ghost use Rattle.event_arrivals.specs.declared.arrival.Arrival.{Arrival};
ghost use Rattle.reference_run.specs.Reference.{deadlines_of};
ghost use Rattle.reference_run.specs.Held.{IsSooner, IsNoSooner};

use cat_program::Program;
use event_arrivals::{Arrival, Arrivals};

// How many ticks an event has to be done.
fn deadline(program: &Program, event: u8) -> u32
    requires { event < length program.now.events }
    ensures { result ≡ slice_index (deadlines_of program.now) event }
{
    program.event(event).deadline
}

// Whether an event's arrival of this index has come and is to be done before another event's that is due at `due`.
fn is_sooner(
    program: &Program,
    arrivals: &Arrivals,
    now: u32,
    event: u8,
    index: u32,
    due: u64,
    than: u8,
) -> bool
    requires event { event < length program.now.events }
    requires each { length arrivals.now.timings ≡ length program.now.events }
    ensures yes { result ≡ true → IsSooner arrivals.now (deadlines_of program.now) now event index due than }
    ensures no { result ≡ false → IsNoSooner arrivals.now (deadlines_of program.now) now event index due than }
{
    let Some(arrival) = arrivals.arrival(event, index) else {
        return false;
    };
    if now < arrival.tick {
        return false;
    }
    let own = u64::from(arrival.tick) + u64::from(deadline(program, event));
    if own < due {
        return true;
    }
    own == due && event < than
}

/// The event's arrival at its done count, where it is the next one at this tick.
pub(crate) fn next_at(
    program: &Program,
    arrivals: &Arrivals,
    done: &[u32],
    now: u32,
    event: u8,
) -> Option<Arrival>
    requires event { event < length program.now.events }
    requires each { length arrivals.now.timings ≡ length program.now.events }
    requires counts { length done.now ≡ length program.now.events }
    ensures { MatchOption result
        ((arrival : Arrival) → ¬ (IsNext arrivals.now (deadlines_of program.now) (slice_index done.now) now event (slice_index done.now event) arrival))
        (IsNext arrivals.now (deadlines_of program.now) (slice_index done.now) now event (slice_index done.now event)) }
{
    arrivals.are_sound();
    let Some(arrival) = arrivals.arrival(event, done[event as usize]) else {
        return None;
    };
    if now < arrival.tick {
        return None;
    }
    let due = u64::from(arrival.tick) + u64::from(deadline(program, event));
    'others: for other in 0..program.events() {
        if is_sooner(
            program,
            arrivals,
            now,
            other,
            done[other as usize],
            due,
            event,
        ) {
            return None;
        }
    }
    Some(arrival)
}
