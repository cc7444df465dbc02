//! A board that replays a trace: harvest, extra costs and losses of power are those of the trace and the failures.
#![tactic(auto)]

mod fate;
mod first_image;
mod laws;
mod model_board;
mod origin;
mod outlook;
#[cfg(test)]
mod plain_tests;
mod record;
mod sure;
#[cfg(test)]
mod tests;
mod timeline;

pub use first_image::FirstImage;
pub use laws::{rules_decide, same_rules};
pub use model_board::ModelBoard;
pub use origin::ModelOrigin;
