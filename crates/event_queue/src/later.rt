//! The tick of the arrival that comes after a tick.

ghost use Rattle.std.specs.Prelude.{◌≡◌, ◌≤◌, ◌<◌, ◌+◌, ℕ, length, slice_index, Some, IfSome, IfNone};
ghost use Rattle.event_arrivals.specs.Arrivals.{arrival_at};
ghost use Rattle.event_arrivals.specs.Next.{IsNextTick, IsToCome};
ghost use Rattle.event_arrivals.specs.declared.arrival.Arrival.{Arrival};
ghost use Rattle.event_queue.specs.Queue.{has_come_by, IsFirstTick, IsTickOf};

use crate::queue::Queue;
use checkpoint_slots::Slot;

impl Queue {
    // Whether the event has an arrival of this index that has come by a tick.
    fn has_come(&self, now: u32, event: u8, index: u32) -> bool
        requires { event < length self.now.arrivals.timings }
        ensures { result ≡ has_come_by self.now.arrivals now event index }
    {
        match self.arrivals.arrival(event, index) {
            None => false,
            Some(arrival) => arrival.tick <= now,
        }
    }

    // An index, from the first that is to do on, whose arrival comes after `now` if there is one: the first itself, or else one past
    // `now`, since no arrival has a tick below its index.
    fn index_to_come(&self, now: u32, event: u8, done: u32) -> u32
        requires { event < length self.now.arrivals.timings }
        ensures from { done ≤ result }
        ensures later { (arrival : Arrival) → arrival_at self.now.arrivals event result ≡ Some arrival → now < arrival.tick }
    {
        self.arrivals.are_sound();
        if self.has_come(now, event, done) {
            done.max(now.saturating_add(1))
        } else {
            done
        }
    }

    // The least tick after `now` of the event's arrivals from one on.
    fn event_after(&self, now: u32, event: u8, done: u32) -> Option<u32>
        requires { event < length self.now.arrivals.timings }
        ensures { IsTickOf self.now.arrivals now event done result }
    {
        self.arrivals.are_sound();
        let mut low = done;
        let mut high = self.index_to_come(now, event, done);
        'halves: while low < high {
            let middle = low + (high - low) / 2;
            if self.has_come(now, event, middle) {
                low = middle + 1;
            } else {
                high = middle;
            }
        }
        match self.arrivals.arrival(event, low) {
            None => None,
            Some(arrival) => Some(arrival.tick),
        }
    }

    // The least such tick of the events up to this one, where `best` is that of the events before it.
    fn first_after(&self, now: u32, slot: &Slot, event: u8, best: Option<u32>) -> Option<u32>
        requires known { event < length self.now.arrivals.timings }
        requires slot { length slot.now.done ≡ length self.now.arrivals.timings }
        requires best { IsFirstTick self.now.arrivals (slice_index slot.now.done) now event best }
        ensures { IsFirstTick self.now.arrivals (slice_index slot.now.done) now (event + 1) result }
    {
        let Some(tick) = self.event_after(now, event, slot.done(event)) else {
            return best;
        };
        match best {
            None => Some(tick),
            Some(best) => { if tick < best { Some(tick) } else { Some(best) } }
        }
    }

    /// The least tick after `now` at which an arrival comes that is not done: none exactly where there is no such arrival. The slot
    /// tells how many arrivals of each event are done. It takes no memory, and time in proportion to the events, with the number of
    /// digits of `now` for each event of which an arrival waits.
    pub fn next_after(&self, now: u32, slot: &Slot) -> Option<u32>
        requires { length slot.now.done ≡ length self.now.arrivals.timings }
        ensures next { IfSome result (IsNextTick self.now.arrivals (slice_index slot.now.done) now) }
        ensures none { IfNone result ((event k : ℕ) (arrival : Arrival) → ¬ (IsToCome self.now.arrivals (slice_index slot.now.done) now event k arrival)) }
    {
        self.arrivals.are_sound();
        let mut best = None;
        'events: for event in 0..self.arrivals.events() {
            best = self.first_after(now, slot, event, best);
        }
        best
    }
}
