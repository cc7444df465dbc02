//! What each event asks for, version by version.

ghost use Rattle.std.specs.Prelude.{◌≡◌, ◌<◌, length, map, IfOk};
ghost use Rattle.cat_program.specs.Declares.{spacing_of};
ghost use Rattle.cost_bounds.specs.BoundsValue.{versions_in};
ghost use Rattle.degradation.specs.Choice.{load_of as load_in, tables_of, HasBounds};

use cat_program::{Event, Program, Timing, events_have_headers};
use cn_base::List;
use cost_bounds::{Bounds, Job};
use demand_core::Load;
use std::alloc::{AllocError, Global};

fn spacing(timing: Timing) -> u32
    ensures { result ≡ spacing_of timing }
{
    match timing {
        Timing::Every { period, .. } => period,
        Timing::Spacing { least } => least,
    }
}

/// What an event asks for in a version that takes this at most.
pub fn load_of(event: &Event, job: Job) -> Load
    ensures { result ≡ load_in event.now job }
{
    Load {
        spacing: spacing(event.timing),
        deadline: event.deadline,
        units: job.units,
        ticks: job.ticks,
    }
}

/// What event `e` asks for in each of its versions.
fn loads(alloc: Global, event: &Event, bounds: &Bounds, e: u8) -> Result<Vec<Load>, AllocError>
    requires event { e < length bounds.now.jobs }
    requires versions { event.now.versions ≡ length (versions_in bounds.now e) }
    ensures { IfOk result (λ table. table.items ≡ map (load_in event.now) (versions_in bounds.now e)) }
{
    let mut table = Vec::new(alloc);
    for v in 0..event.versions {
        table.push(load_of(event, bounds.job(e, v)))?;
    }
    Ok(table)
}

/// What each event asks for in each of its versions.
pub fn tables(
    alloc: Global,
    program: &Program,
    bounds: &Bounds,
) -> Result<Vec<List<Load>>, AllocError>
    requires { HasBounds program.now bounds.now }
    ensures { IfOk result (λ tables. tables.items ≡ tables_of program.now.headers bounds.now.jobs) }
{
    let _checked = program.bodies();
    events_have_headers();
    let mut tables = Vec::new(alloc);
    for e in 0..program.events() {
        let table = loads(alloc, program.event(e), bounds, e)?;
        tables.push(List::of(table))?;
    }
    Ok(tables)
}
