//! What is sure to be harvested as time goes on: the rows of a forecast, each in force up to the next one's tick.
#![tactic(auto)]

mod epoch;
mod epochs;
mod laws;
mod table;
#[cfg(test)]
mod tests;

pub use epoch::Epoch;
pub use epochs::{Forecast, MOST_EPOCHS};
pub use laws::{epochs_law, told_forecasts_are_sound};
pub use table::{ForecastFault, forecast};
