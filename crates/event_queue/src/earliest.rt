//! The arrival that is next.

ghost use Rattle.std.specs.Prelude.{◌≡◌, ◌<◌, ◌+◌, ℕ, length, slice_index, IfSome, IfNone};
ghost use Rattle.event_arrivals.specs.Next.{IsPending};
ghost use Rattle.event_arrivals.specs.declared.arrival.Arrival.{Arrival};
ghost use Rattle.event_queue.specs.Queue.{IsDue, IsFirst, IsHeadOf, IsInBounds};

use crate::queue::{Due, Queue};
use checkpoint_slots::Slot;
use event_arrivals::one_next;

impl Queue {
    // The event's arrival of this index, where it waits.
    fn head(&self, now: u32, event: u8, index: u32) -> Option<Due>
        requires { event < length self.now.arrivals.timings }
        ensures { IsHeadOf self.now now event index result }
    {
        self.arrivals.are_sound();
        let Some(arrival) = self.arrivals.arrival(event, index) else {
            return None;
        };
        if now < arrival.tick {
            return None;
        }
        Some(Due {
            event,
            index,
            arrived: arrival.tick,
            deadline: arrival.tick + self.deadlines.as_slice()[event as usize],
            payload: arrival.payload,
        })
    }

    // The next arrival of the events up to this one, where `best` is that of the events before it.
    fn first_to(&self, now: u32, slot: &Slot, event: u8, best: Option<Due>) -> Option<Due>
        requires known { event < length self.now.arrivals.timings }
        requires slot { length slot.now.done ≡ length self.now.arrivals.timings }
        requires best { IsFirst self.now (slice_index slot.now.done) now event best }
        ensures { IsFirst self.now (slice_index slot.now.done) now (event + 1) result }
    {
        let Some(due) = self.head(now, event, slot.done(event)) else {
            return best;
        };
        match best {
            None => Some(due),
            Some(best) => {
                if due.deadline < best.deadline {
                    Some(due)
                } else {
                    Some(best)
                }
            }
        }
    }

    /// The pending arrival with the least deadline tick, then the least event, then the least index: none exactly where nothing is
    /// pending. The slot tells how many arrivals of each event are done. It takes no memory, and time in proportion to the events.
    pub fn earliest(&self, now: u32, slot: &Slot) -> Option<Due>
        requires { length slot.now.done ≡ length self.now.arrivals.timings }
        ensures next { IfSome result (IsDue self.now (slice_index slot.now.done) now) }
        ensures bounds { IfSome result (IsInBounds self.now (slice_index slot.now.done)) }
        ensures none { IfNone result ((event k : ℕ) (arrival : Arrival) → ¬ (IsPending self.now.arrivals (slice_index slot.now.done) now event k arrival)) }
    {
        self.arrivals.are_sound();
        one_next();
        let mut best = None;
        'events: for event in 0..self.arrivals.events() {
            best = self.first_to(now, slot, event, best);
        }
        best
    }
}
