//! A program on a device: where its parts lie, and what its code takes there.

ghost use Rattle.std.specs.Prelude.{IfOk};
ghost use Rattle.cost_bounds.specs.Greatest.{AreBounds};
ghost use Rattle.degradation.specs.Placed.{IsLayoutOf};

use cat_compile::compile;
use cat_program::Program;
use cn_base::NoMemory;
use cost_bounds::{Bounds, bounds};
use nv_memory::{Device, Layout};
use std::alloc::Global;

/// The layout of the image for a program on a device.
pub fn layout_of(program: &Program, device: &Device) -> Layout
    ensures { IsLayoutOf program.now device.now result }
{
    let _checked = program.bodies();
    Layout {
        words: program.words(),
        tasks: program.tasks(),
        events: program.events(),
        log: device.log,
        format: 1,
        base: 64,
    }
}

/// The bounds of a program's code, where a slot takes this many lines.
pub fn bounds_of(
    alloc: Global,
    program: &Program,
    device: &Device,
    lines: u32,
) -> Result<Bounds, NoMemory>
    ensures { IfOk result (λ b. AreBounds program.now device.now lines b) }
{
    let code = compile(alloc, program)?;
    bounds(alloc, program, &code, device, lines)
}
