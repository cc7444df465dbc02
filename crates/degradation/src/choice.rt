//! The versions of least degradation with which a device can serve a program's events.

ghost use Rattle.std.specs.Prelude.{◌≡◌, ◌+◌, ◌<◌, ◌≤◌, IfOk, IfErr};
ghost use Rattle.demand_core.specs.Demand.{room_use, reserve};
ghost use Rattle.feasibility.specs.Chosen.{AreTables};
ghost use Rattle.degradation.specs.Choice.{base_of as base_in, level_of, numbers_of as numbers_in, supply_of, tables_of, HasBounds, IsChoice, IsNoChoice, Suits};

use crate::chosen::Chosen;
use crate::supply::Supply;
use crate::tables::tables;
use cat_program::{Program, events_have_headers};
use cost_bounds::Bounds;
use demand_core::{Base, Numbers};
use feasibility::{ChooseFault, Vector, choose_vector};
use nv_memory::Device;
use std::alloc::Global;

/// What the device gives with a supply, and what is needed beside the jobs of events.
pub fn base_of(bounds: &Bounds, device: &Device, supply: Supply) -> Base
    ensures { result ≡ base_in bounds.now device.now supply }
{
    Base {
        cap: device.cap,
        p: supply.p,
        q: supply.q,
        checkpoint: bounds.checkpoint().units,
        section: bounds.section().units,
        wake: bounds.wake().units,
        longest: bounds.longest(),
    }
}

/// The numbers of a choice for which the store has room.
pub fn numbers_of(bounds: &Bounds, device: &Device, lines: u32, vector: &Vector) -> Numbers
    requires { vector.now.reserve + bounds.now.checkpoint.units + bounds.now.section.units + bounds.now.wake.units ≤ device.now.cap }
    ensures { result ≡ numbers_in bounds.now device.now lines vector.now }
{
    let reserve = vector.reserve as u64;
    let checkpoint = bounds.checkpoint().units;
    let section = bounds.section().units;
    let needed = reserve + checkpoint + section + bounds.wake().units;
    Numbers {
        lines,
        checkpoint,
        section,
        reserve,
        level: needed.max(u64::from(device.resume)),
        window: vector.window,
    }
}

/// The feasible versions of least degradation with any supply: with the first k mentions of the degrade order taken up, each event
/// runs in the version whose number is how often it was mentioned, and k is the least with which the events are feasible on the
/// device. `bounds` are those of the program's code on this device, where a slot has this many lines.
///
/// # Errors
///
/// `WindowTooLong` comes exactly where demand and supply repeat only after more than 1,000,000 ticks, with the first spacing in
/// order at which they do. Otherwise `Rejected` comes exactly where the events are feasible in no such versions, with the verdict
/// on the last.
pub fn choose_with(
    alloc: Global,
    program: &Program,
    bounds: &Bounds,
    device: &Device,
    supply: Supply,
    lines: u32,
) -> Result<Chosen, ChooseFault>
    requires bounds { HasBounds program.now bounds.now }
    requires some { 0 < supply.p }
    requires short { supply.p ≤ 1000000 }
    ensures chosen { IfOk result (IsChoice program.now bounds.now device.now supply lines) }
    ensures suits { IfOk result (Suits program.now) }
    ensures refused { IfErr result (IsNoChoice program.now bounds.now device.now supply) }
{
    let _checked = program.bodies();
    events_have_headers();
    let Ok(tables) = tables(alloc, program, bounds) else {
        return Err(ChooseFault::NoMemory);
    };
    let base = base_of(bounds, device, supply);
    let vector = choose_vector(alloc, &base, tables.as_slice(), program.mentions())?;
    let numbers = numbers_of(bounds, device, lines, &vector);
    Ok(Chosen {
        versions: vector.versions,
        loads: vector.loads,
        numbers,
    })
}

/// The choice with the supply that the device's profile guarantees.
pub fn choose(
    alloc: Global,
    program: &Program,
    bounds: &Bounds,
    device: &Device,
    lines: u32,
) -> Result<Chosen, ChooseFault>
    requires { HasBounds program.now bounds.now }
    ensures chosen { IfOk result (IsChoice program.now bounds.now device.now (supply_of device.now) lines) }
    ensures suits { IfOk result (Suits program.now) }
    ensures refused { IfErr result (IsNoChoice program.now bounds.now device.now (supply_of device.now)) }
{
    let supply = Supply::of(device);
    choose_with(alloc, program, bounds, device, supply, lines)
}
