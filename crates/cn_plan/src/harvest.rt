//! What a greater harvest changes in the tests.

ghost use Rattle.std.specs.Prelude.{ℕ, ◌*◌, ◌/◌, ◌≤◌, List};
ghost use Rattle.demand_core.specs.declared.Load.{Load};
ghost use Rattle.demand_core.specs.declared.Base.{Base};
ghost use Rattle.demand_core.specs.Demand.{sbf, reserve, energy_use, room_use};
ghost use Rattle.cn_plan.specs.Harvest.{with_harvest, HasTime, IsEnough};

use demand_core::points_law;

/// Where the harvest grows, each test that holds goes on to hold: so the harvests with which a set is feasible are those from a
/// least one on, which can be searched for by halves.
pub fn harvest_law()
    // the supply does not fall, and no more has to be kept back
    ensures supply { (base : Base) (q more l : ℕ) → q ≤ more → sbf (with_harvest base q) l ≤ sbf (with_harvest base more) l }
    ensures kept { (base : Base) (loads : List Load) (window q more : ℕ) → q ≤ more →
        reserve (with_harvest base more) loads window ≤ reserve (with_harvest base q) loads window }
    // the harvest of a window goes on to pay for its jobs, and the store to have room
    ensures energy { (base : Base) (loads : List Load) (window q more : ℕ) → q ≤ more →
        energy_use loads window ≤ q * (window / base.p) → energy_use loads window ≤ more * (window / base.p) }
    ensures room { (base : Base) (loads : List Load) (window q more : ℕ) → q ≤ more →
        room_use (with_harvest base q) loads window ≤ base.cap → room_use (with_harvest base more) loads window ≤ base.cap }
    // the test of time is the same with every harvest, a smaller one too
    ensures time { (base : Base) (loads : List Load) (window q other : ℕ) → HasTime (with_harvest base q) loads window → HasTime (with_harvest base other) loads window }
    ensures feasible { (base : Base) (loads : List Load) (window q more : ℕ) → q ≤ more → IsEnough base loads window q → IsEnough base loads window more }
{
    points_law();
}
