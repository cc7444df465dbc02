//! What is written of a program on a device: its chosen versions and numbers, or why there are none, and the report of a run.
#![tactic(auto)]

mod chosen;
mod counts;
mod cursor;
mod fault;
mod heads;
mod log;
mod report;
mod shadow;
mod silent;
mod story;
mod tallying;
mod variables;
mod window;

pub use chosen::{add_chosen, write_chosen};
pub use cn_scheduler::End;
pub use counts::Tally;
pub use fault::{write_rejected, write_window_fault};
pub use report::{write_report, write_resumed};
pub use shadow::Shadow;
pub use tallying::tally;
