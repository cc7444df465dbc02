ghost use Rattle.std.specs.Prelude.{◌≡◌, ◌≤◌, ℕ, length, slice_index};

use cn_base::List;
use event_arrivals::Arrivals;
use std::marker::Model;

/// An arrival that waits: its event, its index among the event's arrivals, the tick at which it came, the tick by which it is to be
/// done, and its payload.
#[derive(Clone, Copy, Debug, PartialEq, Eq)]
pub struct Due {
    pub event: u8,
    pub index: u32,
    pub arrived: u32,
    pub deadline: u32,
    pub payload: i32,
}

/// The arrivals of each event, and how many ticks each event has to be done.
#[derive(Drop)]
pub struct Queue {
    pub(crate) arrivals: Arrivals,
    pub(crate) deadlines: List<u32>,
}

impl Model for Queue {
    ghost use Rattle.event_queue.specs.Queue.{QueueValue, IsQueue};

    ghost Value = { QueueValue };

    ghost view = { λ q. record { arrivals = q.arrivals; deadlines = q.deadlines } };

    ghost invariant = { λ q. IsQueue (record { arrivals = q.arrivals; deadlines = q.deadlines }) };
}

impl Queue {
    /// The queue of these arrivals, where each event has a deadline of at most 1,000,000 ticks. It takes no memory.
    pub fn start(arrivals: Arrivals, deadlines: Vec<u32>) -> Queue
        requires each { length deadlines.items ≡ length arrivals.timings }
        requires few { (event : ℕ) → slice_index deadlines.items event ≤ 1000000 }
        ensures { result ≡ record { arrivals = arrivals; deadlines = deadlines.items } }
    {
        Queue {
            arrivals,
            deadlines: List::of(deadlines),
        }
    }

    pub fn arrivals(&self) -> &Arrivals
        ensures { result.now ≡ self.now.arrivals }
    {
        &self.arrivals
    }
}
