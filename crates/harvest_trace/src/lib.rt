//! What the outside does to a board, as two tables tell it: the harvest, the extra cost and the
//! sample of each tick, and the ticks at which power is lost.
#![tactic(auto)]

mod failures;
mod failures_table;
mod row;
#[cfg(test)]
mod tests;
mod timeline;
mod trace_table;

pub use failures::{Fails, Failure};
pub use failures_table::{FailsFault, fails};
pub use row::TraceRow;
pub use timeline::Trace;
pub use trace_table::{TraceFault, trace};
