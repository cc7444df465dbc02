//! What the code of an object takes on a device.

ghost use Rattle.std.specs.Prelude.{IfOk};
ghost use Rattle.cost_bounds.specs.Pass.{AreMade, tasks_in};
ghost use Rattle.object_runs.specs.Bounds.{AreBoundsOf, lines_for};
ghost use Rattle.object_runs.specs.Resting.{IsRunnable};

use cn_base::NoMemory;
use cn_object::{Object, handler_sums_law};
use cost_bounds::{Bounds, code_bounds};
use nv_memory::{Device, Layout};
use std::alloc::Global;

/// The greatest units and the greatest ticks over the paths of an object that the verifier has accepted, on a device where a slot
/// holds its words, tasks and events. They are what one pass over the code works out.
pub fn object_bounds(alloc: Global, object: &Object, device: &Device) -> Result<Bounds, NoMemory>
    requires { IsRunnable object.now }
    ensures greatest { IfOk result (AreBoundsOf object.now device.now) }
    ensures made { IfOk result (λ b. AreMade object.now.code device.now (lines_for object.now) (tasks_in object.now.code) b) }
{
    handler_sums_law();
    let layout = Layout {
        words: object.words.len() as u16,
        tasks: object.code.tasks().len() as u8,
        events: object.code.events(),
        log: device.log,
        format: 1,
        base: 64,
    };
    code_bounds(alloc, &object.code, device, layout.lines())
}
