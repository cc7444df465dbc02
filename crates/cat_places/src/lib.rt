//! Where the pieces of a source begin.
#![tactic(auto)]

mod cursor;
mod places;

pub use places::{one_starts, starts};
