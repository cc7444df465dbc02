//! What a program's events ask for with none of them degraded.

ghost use Rattle.std.specs.Prelude.{◌≡◌, ◌<◌, ◌≤◌, [], length, All, IfOk};
ghost use Rattle.degradation.specs.Choice.{HasBounds};
ghost use Rattle.feasibility.specs.Chosen.{versions_of};
ghost use Rattle.cn_plan.specs.Whole.{whole_loads as loads_in};

use cat_program::{Program, events_have_headers};
use cost_bounds::Bounds;
use degradation::load_of;
use demand_core::Load;
use std::alloc::{AllocError, Global};

/// What each event asks for in its version 0.
pub fn whole_loads(
    alloc: Global,
    program: &Program,
    bounds: &Bounds,
) -> Result<Vec<Load>, AllocError>
    requires { HasBounds program.now bounds.now }
    ensures loads { IfOk result (λ loads. loads.items ≡ loads_in program.now bounds.now) }
    ensures few { IfOk result (λ loads. length loads.items ≤ 16) }
    ensures spacings { IfOk result (λ loads. All (λ x. 0 < x.spacing) loads.items) }
    ensures within { IfOk result (λ loads. All (λ x. x.deadline ≤ x.spacing) loads.items) }
{
    let _checked = program.bodies();
    events_have_headers();
    let mut loads = Vec::new(alloc);
    for e in 0..program.events() {
        loads.push(load_of(program.event(e), bounds.job(e, 0)))?;
    }
    Ok(loads)
}

/// The versions of whole events.
pub fn whole_versions(alloc: Global, events: u8) -> Result<Vec<u8>, AllocError>
    ensures { IfOk result (λ versions. versions.items ≡ versions_of [] events) }
{
    let mut versions = Vec::new(alloc);
    for _event in 0..events {
        versions.push(0)?;
    }
    Ok(versions)
}
