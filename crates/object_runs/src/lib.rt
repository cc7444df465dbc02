//! Runs of objects that the verifier accepts: none is stuck, each section and each handler ends, and none takes more than the bounds
//! of the object.
#![tactic(auto)]

mod bounds;
mod laws;
mod running;

pub use bounds::object_bounds;
pub use laws::{costs_within_law, fits_on_law, objects_run_law, one_run_law, runs_well_law};
pub use running::{first, section};
