//! What a board that comes back on finds in its memory: the committed slot, and with the log the committed value. And the
//! image that a device starts with.
#![tactic(auto)]

mod fresh;
mod laws;
mod recovering;
#[cfg(test)]
mod tests;

pub use fresh::fresh_image;
pub use laws::{commits_last, first_image_is_one};
pub use recovering::recover;
