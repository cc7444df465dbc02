//! The move of an image from the first format to the second one, in place, which power may fail at any of its writes.
#![tactic(auto)]

mod laws;
mod moving;
mod stretch;

pub use laws::{moves_are_safe, stretches_are_safe};
pub use moving::migrate;
pub use stretch::move_on;
