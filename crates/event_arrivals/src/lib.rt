//! When events come: periodic ones by their period, reactive ones as a table of arrivals tells them,
//! of which those that come too soon after the last one are dropped.
#![tactic(auto)]

mod arrival;
mod laws;
mod lists;
mod names;
mod row;
mod spacing;
mod table;

pub use arrival::{Arrival, Dropped};
pub use laws::{arrivals_are_counted, one_next, told_arrivals_are_sound};
pub use lists::Arrivals;
pub use table::{ArrivalsFault, arrivals};
