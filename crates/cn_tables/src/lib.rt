//! The rows of a table, one after the other, with the first fault among them, and the fields that
//! several tables share: numbers, their ranges and fills.
#![tactic(auto)]

mod fault;
mod fill_text;
mod laws;
mod ranges;
mod reading;
mod spelled;
#[cfg(test)]
mod tests;

pub use fault::{RowKind, TableFault};
pub use fill_text::fill_of;
pub use laws::rows_are_read;
pub use ranges::{within, word};
pub use reading::{MOST_BYTES, Rows, open_table};
pub use spelled::number;
