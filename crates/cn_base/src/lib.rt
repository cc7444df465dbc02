//! What every crate stands on: the inputs and the sink that a command is handed, with their fakes,
//! texts and lists as contracts see them, the tree of a source, and the limits that several crates share.
#![tactic(auto)]

mod fill;
mod inputs;
mod laws;
mod lines;
mod list;
mod memory;
mod page;
mod putting;
mod sink;
#[cfg(test)]
mod tests;
mod text;
pub mod tree;

pub use fill::Fill;
pub use inputs::{Inputs, ReadFail};
pub use laws::nests_law;
pub use lines::{Piece, put_line};
pub use list::List;
pub use memory::{AskedRead, File, MemInputs, MemSink, SilentInputs, SilentSink};
pub use page::Page;
pub use putting::{put, put_num};
pub use sink::{Sink, WriteFail};
use std::alloc::AllocError;
pub use text::Text;

/// The greatest number of ticks of a trace, and so of a board's life, in ticks.
pub const MOST_TICKS: u32 = 1_000_000;

/// Want of memory: the refusal of a call that can fail for nothing else.
#[derive(Clone, Copy, Debug, PartialEq, Eq)]
pub struct NoMemory;

impl From<AllocError> for NoMemory {
    fn from(_: AllocError) -> NoMemory {
        NoMemory
    }
}
