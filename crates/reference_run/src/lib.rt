//! The reference run: what the source says for a schedule of task steps and arrivals. It has no power, no code, no queue, and no
//! bytes of memory.
#![tactic(auto)]

mod allowed;
mod handling;
mod laws;
mod next;
mod run;
mod schedule;
mod steps;
mod whole;

pub use laws::one_reference;
pub use schedule::{Item, Schedule};
pub use whole::{RefEnd, RefFault, reference};
