//! The least harvest for a program on a device.

ghost use Rattle.std.specs.Prelude.{IfOk, IfErr};
ghost use Rattle.degradation.specs.Choice.{HasBounds};
ghost use Rattle.cn_plan.specs.Least.{IsLeast, IsLeastFault, SuitsLeast};

use crate::answer::{Least, LeastFault};
use crate::halves::{least_harvest, with_harvest};
use crate::served::{base, chosen_with};
use crate::whole::{whole_loads, whole_versions};
use cat_program::{Program, events_have_headers};
use cn_base::List;
use cost_bounds::Bounds;
use degradation::choices_suit;
use demand_core::window;
use feasibility::{Vector, reserve};
use nv_memory::Device;
use std::alloc::Global;

/// The least harvest in every `p` ticks, up to 1,000,000 units, with which the device serves the program's events, each in its
/// version 0, or that there is none. The device's own `q` is not looked at. `bounds` are those of the program's code on this device,
/// where a slot has this many lines. It is searched for by halves, with 21 tests at most, which take no memory.
///
/// # Errors
///
/// `WindowTooLong` comes exactly as for the choice of versions, with the same spacing.
pub fn least(
    alloc: Global,
    program: &Program,
    bounds: &Bounds,
    device: &Device,
    lines: u32,
) -> Result<Least, LeastFault>
    requires { HasBounds program.now bounds.now }
    ensures least { IfOk result (IsLeast program.now bounds.now device.now lines) }
    ensures suits { IfOk result (SuitsLeast program.now) }
    ensures refused { IfErr result (IsLeastFault program.now bounds.now device.now) }
{
    let _checked = program.bodies();
    events_have_headers();
    choices_suit();
    let Ok(loads) = whole_loads(alloc, program, bounds) else {
        return Err(LeastFault::NoMemory);
    };
    let Ok(versions) = whole_versions(alloc, program.events()) else {
        return Err(LeastFault::NoMemory);
    };
    let window = match window(device.p, loads.as_slice()) {
        Ok(window) => window,
        Err(long) => return Err(LeastFault::WindowTooLong(long.0)),
    };
    let base = base(bounds, device);
    match least_harvest(&base, loads.as_slice(), window) {
        Ok(found) => {
            let kept = reserve(&with_harvest(&base, found.q), loads.as_slice(), window);
            let vector = Vector {
                versions: List::of(versions),
                loads: List::of(loads),
                window,
                reserve: kept,
            };
            let chosen = chosen_with(bounds, device, lines, vector);
            Ok(Least::Found {
                q: found.q,
                chosen,
                below: found.below,
            })
        }
        Err(verdict) => Ok(Least::Never { verdict }),
    }
}
