//! The sixteen conditions that a source must meet besides its grammar. `specs/` states each of them on
//! the whole tree, by its own name, and which pieces offend against it.
#![tactic(auto)]

mod fault;
mod laws;
mod sort;

pub use fault::TypeFault;
pub use laws::plain_law;
pub use sort::{Sort, ValueType};
