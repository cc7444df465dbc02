//! Which arrival is next. The arrivals of an event come in the order of their indices, so that the one at the event's done count
//! stands for all of them that wait: a look at one arrival for each event is enough.
#![tactic(auto)]

mod earliest;
mod later;
mod queue;

pub use queue::{Due, Queue};
