//! Runs that are the reference run of what they tell themselves: laws alone. The versions of events may change from tick to
//! tick, and each arrival is handled in the version in force at its own.
#![tactic(auto)]

mod laws;

pub use laws::{
    agrees_with_one, earlier_runs_are_ordered, entries_tell, own_runs_go_on,
    own_runs_handle_arrivals, runs_are_one,
};
