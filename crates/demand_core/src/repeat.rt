//! The window after which demand and supply repeat.

ghost use Rattle.std.specs.Prelude.{◌<◌, ◌≤◌, All, MatchResult};
ghost use Rattle.demand_core.specs.Demand.{IsWindow};
ghost use Rattle.demand_core.specs.Multiples.{IsTooLong};

use crate::{Load, lcm_to};

/// The greatest window, in ticks.
pub const MOST_WINDOW: u32 = 1_000_000;

/// The first spacing in order with which the window grows too long.
#[derive(Clone, Copy, Debug, PartialEq, Eq)]
pub struct WindowTooLong(pub u32);

/// The least common multiple of `p` and all spacings, in ticks, where it is at most [`MOST_WINDOW`].
pub fn window(p: u32, loads: &[Load]) -> Result<u32, WindowTooLong>
    requires p { 0 < p }
    requires short { p ≤ MOST_WINDOW }
    requires spacings { All (λ x. 0 < x.spacing) loads.now }
    ensures { MatchResult result (λ h. IsWindow p loads.now h × (h ≤ MOST_WINDOW)) (λ e. IsTooLong p loads.now MOST_WINDOW e.0) }
{
    let mut whole = p;
    for x in loads {
        match lcm_to(whole, x.spacing, MOST_WINDOW) {
            Some(next) => whole = next,
            None => return Err(WindowTooLong(x.spacing)),
        }
    }
    Ok(whole)
}
