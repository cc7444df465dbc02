//! What an image stands for in a run, and what each operation of a board leaves of it, done or lost: laws alone.
#![tactic(auto)]

mod laws;

pub use laws::{commits_are_kept, images_stand_for_one, operations_are_safe};
