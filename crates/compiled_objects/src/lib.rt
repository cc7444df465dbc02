//! The code of every checked program keeps what the verifier asks of code, and its object file is accepted: laws alone.
#![tactic(auto)]

mod laws;

pub use laws::{
    compiled_code_is_verified, objects_have_program_bounds, objects_of_programs_are_accepted,
};
