//! Saved images: what a device holds when a life ends, as a file from which it can go on.
#![tactic(auto)]

mod accepting;
mod fault;
mod head;
mod laws;
mod records;
mod runs;
mod saved;
mod saving;
mod schedules;
mod slots;

pub use accepting::accept;
pub use fault::{ImageFault, ImageKind};
pub use laws::{fit_files_are_accepted, one_verdict};
pub use saved::Saved;
pub use saving::write_saved;
