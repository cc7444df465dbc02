//! The greatest units and ticks of the sections, the handlers and the checkpoints of a program's code.
#![tactic(auto)]

mod job;
mod laws;
mod pass;
mod place;
#[cfg(test)]
mod tests;
mod total;

pub use job::{Bounds, Job};
pub use laws::{
    compiled_bounds_law, handler_paths_law, one_bounds_law, runs_within_law, sections_are_paths,
    versions_have_jobs_law,
};
pub use total::{bounds, code_bounds};
