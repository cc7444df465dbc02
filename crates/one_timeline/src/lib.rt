//! On a board whose trace, failures and device are known a plan has one lawful timeline: a law alone.
#![tactic(auto)]

mod laws;

pub use laws::timelines_end_alike;
