//! What a device does from one moment to the next: the policy that names a chunk at each decision point, and the engine that asks the
//! board for its operations.
#![tactic(auto)]

mod choice;
mod chunks;
mod engine;
mod laws;
mod path;
mod plan;
mod saving;
mod sleeping;

pub use choice::Choice;
pub use engine::{Chunk, End, Engine};
pub use laws::{choices_are_warranted, chunks_are_lawful, first_belongs};
pub use plan::{Plan, PlanRow};
