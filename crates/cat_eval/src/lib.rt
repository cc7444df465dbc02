//! The interpreter of sources.
#![tactic(auto)]

mod events;
mod places;
mod rest;
mod settle;
mod simple;
mod sizes;
mod standing;
mod state;
mod tasks;
mod value;

pub use events::run_event;
pub use places::has_rest;
pub use state::{Frame, State};
pub use tasks::task_step;
pub use value::value as value_in;
