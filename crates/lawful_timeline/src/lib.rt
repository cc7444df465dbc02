//! What holds of every lawful timeline, whatever the board does: laws alone.
#![tactic(auto)]

mod laws;

pub use laws::{ends_hold, lawful_timelines_hold, points_hold, starts_belong, timelines_grow};
