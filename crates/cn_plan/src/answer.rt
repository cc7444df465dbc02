//! What the search for the least harvest answers.

use degradation::Chosen;
use feasibility::Verdict;

/// The least harvest with which no event is degraded.
#[derive(Debug, Drop)]
pub enum Least {
    /// In every `p` ticks in a row `q` units have to be harvested.
    Found {
        q: u32,
        /// Version 0 of every event, with the numbers at that harvest.
        chosen: Chosen,
        /// The verdict on the harvest `q - 1`, which fails; none where `q` is 0.
        below: Option<Verdict>,
    },
    /// No harvest is enough; the verdict is that on the greatest.
    Never {
        verdict: Verdict,
    },
}

/// Why no harvest was looked for.
#[derive(Clone, Copy, Debug, PartialEq, Eq)]
pub enum LeastFault {
    /// With this spacing the window exceeds its limit.
    WindowTooLong(u32),
    NoMemory,
}
