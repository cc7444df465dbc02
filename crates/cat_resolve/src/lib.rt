//! The program of a checked source: names become numbers, and blocks get theirs. `specs/Program.antt` says
//! what each part of it is, by the items of the source alone.
#![tactic(auto)]

mod blocks;
mod bodies;
mod declarations;
mod expression;
mod laws;
mod names;
mod program;

pub use laws::checked_law;
pub use program::{checked, resolve};
