//! Object files, and the verifier of untrusted code: an object that it accepts can be run without being stuck.
#![tactic(auto)]

mod depth;
mod depths;
mod entries;
mod laws;
mod lengths;
mod loops;
mod object;
mod operands;
mod parts;
mod reading;
mod regions;
mod verifying;
mod writing;

pub use laws::{
    first_fits_law, handler_sums_law, never_stuck_law, one_object_law, one_verdict_law,
};
pub use object::{Kind, Object, ObjectFault};
pub use verifying::verify;
pub use writing::object_of;
