//! Whether a source meets the conditions, and its program.
#![tactic(auto)]

mod checks;
mod code;
mod counts;
mod degrade;
mod names;
mod pieces;
mod program;
mod rules;
mod sizes;
mod types;
mod uses;

pub use checks::verdict;
pub use program::check;
