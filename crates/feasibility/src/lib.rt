//! Whether a set of events is feasible: whether what is sure to be harvested pays for all jobs, the store holds what has to be
//! kept back for them, and each job can end within its deadline. Energy is counted in units, time in ticks.
#![tactic(auto)]

mod choose;
mod decide;
mod kept;
mod late;
mod least;
pub mod plain;
mod sums;
#[cfg(test)]
mod tests;

pub use choose::{ChooseFault, Vector, choose_vector};
pub use decide::{Verdict, feasible};
pub use kept::reserve;
