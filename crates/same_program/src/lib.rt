//! Two programs of one source say the same, and so do their bounds on one device and the choices of their versions: laws of the
//! definitions, with no code.
#![tactic(auto)]

mod laws;

pub use laws::{
    alike_law, one_bounds_law, one_choice_law, own_lists_law, same_code_law, same_places_law,
    same_program_law, same_steps_law,
};
