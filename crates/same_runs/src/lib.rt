//! Two programs of one source have the same reference runs, and the same saved images are fit for both: laws of the definitions,
//! with no code.
#![tactic(auto)]

mod laws;

pub use laws::{same_images_law, same_runs_law};
