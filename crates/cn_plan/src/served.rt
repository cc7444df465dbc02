//! What a device does with a harvest that is enough for a program's whole events.

ghost use Rattle.std.specs.Prelude.{◌≡◌, ◌+◌, ◌≤◌};
ghost use Rattle.degradation.specs.Choice.{numbers_of as numbers_in};
ghost use Rattle.cn_plan.specs.Whole.{device_base};

use cost_bounds::Bounds;
use degradation::{Chosen, Supply, base_of, numbers_of};
use demand_core::Base;
use feasibility::Vector;
use nv_memory::Device;

pub fn base(bounds: &Bounds, device: &Device) -> Base
    ensures { result ≡ device_base bounds.now device.now }
{
    base_of(bounds, device, Supply::of(device))
}

/// The choice of a vector that the store has room for.
pub fn chosen_with(bounds: &Bounds, device: &Device, lines: u32, vector: Vector) -> Chosen
    requires { vector.reserve + bounds.now.checkpoint.units + bounds.now.section.units + bounds.now.wake.units ≤ device.now.cap }
    ensures versions { result.versions ≡ vector.versions }
    ensures loads { result.loads ≡ vector.loads }
    ensures numbers { result.numbers ≡ numbers_in bounds.now device.now lines vector }
{
    let numbers = numbers_of(bounds, device, lines, &vector);
    Chosen {
        versions: vector.versions,
        loads: vector.loads,
        numbers,
    }
}
