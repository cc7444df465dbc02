//! The log behind the slots of an image: a record of fixed length for each output and each event that ran.
#![tactic(auto)]

mod laws;
mod log;
#[cfg(test)]
mod tests;

pub use laws::{appends_are_safe, entries_are_spelled_once, records_are_read_again};
pub use log::{By, Put, append, entry_at, moved_record};
