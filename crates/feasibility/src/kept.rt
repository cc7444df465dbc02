//! The units that have to be kept back for jobs.

ghost use Rattle.std.specs.Prelude.{◌≡◌, ℕ, ◌+◌, ◌-◌, ◌*◌, ◌<◌, ◌≤◌, ◌^◌, length, All, max, IsTrue};
ghost use Rattle.demand_core.specs.Demand.{CanRepeat, IsWindow, rbf as rbf_of, sbf as sbf_of, reserve as reserve_of, energy_use as energy_use_of};

use crate::sums::energy_use;
use demand_core::{Base, Load, ample_law, points_law, rbf, sbf};

/// By how many units the jobs that can arrive in a closed interval of length `l` exceed what is sure to be harvested in it.
fn shortfall(base: &Base, loads: &[Load], l: u32) -> u128
    requires p { 0 < base.now.p }
    requires few { length loads.now ≤ 16 }
    requires spacings { All (λ x. 0 < x.spacing) loads.now }
    ensures value { result ≡ rbf_of loads.now l - sbf_of base.now l }
    ensures bound { result ≤ 2 ^ 101 }
{
    rbf(loads, l).saturating_sub(sbf(base, l))
}

/// The length from which on no shortfall exceeds that at length 0, as far as the harvest of a window shows.
fn ample_from(base: &Base, loads: &[Load], window: u32) -> u32
    requires few { length loads.now ≤ 16 }
    requires repeats { CanRepeat base.now loads.now }
    requires window { IsWindow base.now.p loads.now window }
    ensures within { result ≤ window }
    ensures ample { (l : ℕ) → result ≤ l → l < window →
        rbf_of loads.now l - sbf_of base.now l ≤ rbf_of loads.now 0 - sbf_of base.now 0 }
{
    ample_law();
    let used = energy_use(loads, window);
    let supplied = u128::from(base.q) * u128::from(window / base.p);
    if supplied <= used {
        return window;
    }
    let far = u128::from(base.q) * u128::from(window) / (supplied - used) + 1;
    if far < u128::from(window) {
        far as u32
    } else {
        window
    }
}

/// What bounds the requests of every length: those at length 0, and what the jobs of a window ask for.
#[derive(Clone, Copy)]
struct Growth {
    first: u128,
    used: u128,
    window: u32,
}

/// Whether the growth of requests alone shows that the shortfall at `l` is at most `most`. It looks at no event.
fn is_covered(base: &Base, growth: &Growth, l: u32, most: u128) -> bool
    requires p { 0 < base.now.p }
    requires first { growth.now.first ≤ 2 ^ 101 }
    requires used { growth.now.used ≤ 2 ^ 101 }
    requires window { 0 < growth.now.window }
    requires window_short { growth.now.window ≤ 1000000 }
    requires short { l ≤ 1000000 }
    requires most { most ≤ 2 ^ 101 }
    ensures { (requests : ℕ) → IsTrue result → requests * growth.now.window ≤ growth.now.first * growth.now.window + l * growth.now.used →
        requests - sbf_of base.now l ≤ most }
{
    let supply = u64::from(base.q) * u64::from(l / base.p);
    let asked = growth.first * u128::from(growth.window) + growth.used * u128::from(l);
    let given = (most + u128::from(supply)) * u128::from(growth.window);
    asked <= given
}

/// The greatest of `floor` and the shortfalls at the multiples of a spacing below `upto`.
fn most_at_multiples(
    base: &Base,
    loads: &[Load],
    growth: &Growth,
    spacing: u32,
    upto: u32,
    floor: u128,
) -> u128
    requires few { length loads.now ≤ 16 }
    requires repeats { CanRepeat base.now loads.now }
    requires window { IsWindow base.now.p loads.now growth.now.window }
    requires window_short { growth.now.window ≤ 1000000 }
    requires first { growth.now.first ≡ rbf_of loads.now 0 }
    requires first_bound { growth.now.first ≤ 2 ^ 101 }
    requires used { growth.now.used ≡ energy_use_of loads.now growth.now.window }
    requires used_bound { growth.now.used ≤ 2 ^ 101 }
    requires spacing { 0 < spacing }
    requires spacing_short { spacing ≤ 1000000 }
    requires upto_short { upto ≤ 1000000 }
    requires floor_bound { floor ≤ 2 ^ 101 }
    ensures floor { floor ≤ result }
    ensures bound { result ≤ 2 ^ 101 }
    ensures each { (k : ℕ) → k * spacing < upto → rbf_of loads.now (k * spacing) - sbf_of base.now (k * spacing) ≤ result }
    ensures least { (bound : ℕ) → floor ≤ bound →
        ((l : ℕ) → l < upto → rbf_of loads.now l - sbf_of base.now l ≤ bound) → result ≤ bound }
{
    let mut most = floor;
    let mut l = 0;
    while l < upto {
        most = most_with(base, loads, growth, l, most);
        l += spacing;
    }
    most
}

/// The greater of `most` and the shortfall at `l`.
fn most_with(base: &Base, loads: &[Load], growth: &Growth, l: u32, most: u128) -> u128
    requires few { length loads.now ≤ 16 }
    requires repeats { CanRepeat base.now loads.now }
    requires window { IsWindow base.now.p loads.now growth.now.window }
    requires window_short { growth.now.window ≤ 1000000 }
    requires first { growth.now.first ≡ rbf_of loads.now 0 }
    requires first_bound { growth.now.first ≤ 2 ^ 101 }
    requires used { growth.now.used ≡ energy_use_of loads.now growth.now.window }
    requires used_bound { growth.now.used ≤ 2 ^ 101 }
    requires short { l ≤ 1000000 }
    requires bound { most ≤ 2 ^ 101 }
    ensures value { result ≡ max most (rbf_of loads.now l - sbf_of base.now l) }
    ensures bound { result ≤ 2 ^ 101 }
{
    ample_law();
    if is_covered(base, growth, l, most) {
        return most;
    }
    most.max(shortfall(base, loads, l))
}

/// The units that have to be kept back: the greatest shortfall over all lengths below the window. The shortfall grows only at
/// the multiples of the spacings, so that it is looked at there alone.
pub fn reserve(base: &Base, loads: &[Load], window: u32) -> u128
    requires few { length loads.now ≤ 16 }
    requires repeats { CanRepeat base.now loads.now }
    requires window { IsWindow base.now.p loads.now window }
    requires short { window ≤ 1000000 }
    ensures value { result ≡ reserve_of base.now loads.now window }
    ensures bound { result ≤ 2 ^ 101 }
{
    points_law();
    let upto = ample_from(base, loads, window);
    let growth = Growth {
        first: rbf(loads, 0),
        used: energy_use(loads, window),
        window,
    };
    let mut most = shortfall(base, loads, 0);
    for x in loads {
        most = most_at_multiples(base, loads, &growth, x.spacing, upto, most);
    }
    most
}
