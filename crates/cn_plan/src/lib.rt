//! The least harvest with which a device serves a program's events, none of them degraded, with a certificate. Energy is counted
//! in units, time in ticks.
#![tactic(auto)]

mod answer;
mod halves;
mod harvest;
mod law;
mod search;
mod served;
mod text;
mod whole;

pub use answer::{Least, LeastFault};
pub use halves::MOST_HARVEST;
pub use harvest::harvest_law;
pub use law::one_plan_law;
pub use search::least;
pub use text::write_plan;
