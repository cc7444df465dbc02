//! The choice of versions for each row of a forecast: that of least degradation with what the row says of the harvest.
#![tactic(auto)]

mod law;
mod rows;

pub use law::{one_row_law, one_rows_law};
pub use rows::{RowFault, choose_rows, supply_of};
