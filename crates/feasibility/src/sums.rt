//! Sums over the events of a set.

ghost use Rattle.std.specs.Prelude.{◌≡◌, ◌*◌, ◌/◌, ◌+◌, ◌<◌, ◌≤◌, ◌^◌, length, All, sum_by};
ghost use Rattle.demand_core.specs.Demand.{energy_use as energy_use_of, time_use as time_use_of};

use demand_core::Load;

/// The units of the jobs of a window.
pub fn energy_use(loads: &[Load], window: u32) -> u128
    requires few { length loads.now ≤ 16 }
    requires spacings { All (λ x. 0 < x.spacing) loads.now }
    ensures value { result ≡ energy_use_of loads.now window }
    ensures bound { result ≤ 2 ^ 101 }
{
    let mut sum: u128 = 0;
    for x in loads {
        sum += u128::from(window / x.spacing) * u128::from(x.units);
    }
    sum
}

/// The ticks of the jobs of a window.
pub fn time_use(loads: &[Load], window: u32) -> u128
    requires few { length loads.now ≤ 16 }
    requires spacings { All (λ x. 0 < x.spacing) loads.now }
    ensures value { result ≡ time_use_of loads.now window }
    ensures bound { result ≤ 2 ^ 101 }
{
    let mut sum: u128 = 0;
    for x in loads {
        sum += u128::from(window / x.spacing) * u128::from(x.ticks);
    }
    sum
}

/// The units of one job of each event.
pub fn units_of_each(loads: &[Load]) -> u128
    requires few { length loads.now ≤ 16 }
    ensures value { result ≡ sum_by (λ x. x.units) loads.now }
    ensures bound { result ≤ 2 ^ 69 }
{
    let mut sum: u128 = 0;
    for x in loads {
        sum += u128::from(x.units);
    }
    sum
}

/// The ticks of one job of each event.
pub fn ticks_of_each(loads: &[Load]) -> u128
    requires few { length loads.now ≤ 16 }
    ensures value { result ≡ sum_by (λ x. x.ticks) loads.now }
    ensures bound { result ≤ 2 ^ 69 }
{
    let mut sum: u128 = 0;
    for x in loads {
        sum += u128::from(x.ticks);
    }
    sum
}
