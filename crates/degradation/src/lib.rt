//! The choice of versions: the least degradation of a program's events with which a device can serve them.
//! Energy is counted in units, time in ticks.
#![tactic(auto)]

mod choice;
mod chosen;
mod law;
mod placed;
mod supply;
mod tables;

pub use choice::{base_of, choose, choose_with, numbers_of};
pub use chosen::Chosen;
pub use law::{choices_suit, chosen_law, degraded_loads_law};
pub use placed::{bounds_of, layout_of};
pub use supply::Supply;
pub use tables::load_of;
