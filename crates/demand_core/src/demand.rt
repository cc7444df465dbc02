//! The counts of demand and supply.

ghost use Rattle.std.specs.Prelude.{◌≡◌, ℕ, ◌+◌, ◌<◌, ◌≤◌, ◌^◌, length, All};
ghost use Rattle.demand_core.specs.Demand.{sbf as sbf_of, rbf as rbf_of, dbf as dbf_of, block as block_of};

use crate::{Base, Load};

/// The units that are sure to be harvested in l ticks.
#[tactic(auto, unfolding(crate::specs::Demand::sbf))]
pub fn sbf(base: &Base, l: u32) -> u128
    requires { 0 < base.now.p }
    ensures { result ≡ sbf_of base.now l }
{
    u128::from(base.q) * u128::from(l / base.p)
}

/// The most units of the jobs that arrive in a closed interval of length l.
#[tactic(auto, unfolding(crate::specs::Demand::rbf))]
pub fn rbf(loads: &[Load], l: u32) -> u128
    requires few { length loads.now ≤ 16 }
    requires spacings { All (λ x. 0 < x.spacing) loads.now }
    ensures value { result ≡ rbf_of loads.now l }
    ensures bound { result ≤ 2 ^ 101 }
{
    let mut sum: u128 = 0;
    for x in loads {
        let jobs = u64::from(l / x.spacing) + 1;
        sum += u128::from(jobs) * u128::from(x.units);
    }
    sum
}

/// The most ticks of the jobs that arrive and are due in a closed interval of length l.
#[tactic(auto, unfolding(crate::specs::Demand::dbf))]
pub fn dbf(loads: &[Load], l: u32) -> u128
    requires few { length loads.now ≤ 16 }
    requires spacings { All (λ x. 0 < x.spacing) loads.now }
    requires within { All (λ x. x.deadline ≤ x.spacing) loads.now }
    ensures value { result ≡ dbf_of loads.now l }
    ensures bound { result ≤ 2 ^ 101 }
{
    let mut sum: u128 = 0;
    for x in loads {
        let room = u64::from(l) + u64::from(x.spacing - x.deadline);
        sum += u128::from(room / u64::from(x.spacing)) * u128::from(x.ticks);
    }
    sum
}

/// How long a chunk that was chosen earlier may keep a job waiting that is due in l ticks.
#[tactic(auto, unfolding(crate::specs::Demand::block))]
pub fn block(base: &Base, loads: &[Load], l: u32) -> u128
    requires { 0 < base.now.longest }
    ensures value { result ≡ block_of base.now loads.now l }
    ensures bound { result < 2 ^ 64 }
{
    let mut longest = base.longest;
    for x in loads {
        if l < x.deadline && longest < x.ticks {
            longest = x.ticks;
        }
    }
    u128::from(longest - 1)
}
