//! A replay: what it needs, and how it runs to its end, over any board.
#![tactic(auto)]

mod by_engine;
mod plans;
mod prepared;
mod preparing;
mod refused;
mod replaying;
mod resumed;

pub use plans::{plans_are_planned, plans_are_set_up, steady_law};
pub use prepared::{Prepared, replay};
pub use preparing::prepare;
pub use refused::PrepareFault;
pub use replaying::{Turns, replay_by};
pub use resumed::resume;
