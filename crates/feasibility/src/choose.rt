//! Which versions the events run in.

ghost use Rattle.std.specs.Prelude.{◌≡◌, ℕ, ◌<◌, ◌≤◌, [], length, slice_index_or, IfOk, IfErr};
ghost use Rattle.demand_core.specs.Demand.{CanRepeat, IsWindow};
ghost use Rattle.feasibility.specs.Chosen.{versions_of as versions_of_front, loads_of as loads_of_front, version_of, AreTables, IsChosen};
ghost use Rattle.feasibility.specs.Outcomes.{IsTried, IsFault};

use crate::{Verdict, feasible, reserve};
use cn_base::{List, NoMemory};
use demand_core::{Base, Load, window};
use std::alloc::{AllocError, Global};

/// The versions that the events run in, and what the tests find for them.
#[derive(Debug, Drop)]
pub struct Vector {
    /// The version of each event, 0 being the whole one.
    pub versions: List<u8>,
    /// What each event asks for in that version.
    pub loads: List<Load>,
    /// The ticks after which demand and supply repeat.
    pub window: u32,
    /// The units that are kept back for jobs.
    pub reserve: u128,
}

/// Why no versions were chosen.
#[derive(Debug, PartialEq, Eq, Drop)]
pub enum ChooseFault {
    /// With this spacing the window exceeds its limit.
    WindowTooLong(u32),
    /// No vector is feasible; the verdict is that on the last one.
    Rejected(Verdict),
    NoMemory,
}

/// How often an event is mentioned.
fn mentions(front: &[u8], event: u8) -> usize
    ensures { result ≡ version_of front.now event }
{
    front.iter().filter(|m| **m == event).count()
}

fn versions_of(alloc: Global, front: &[u8], events: u8) -> Result<Vec<u8>, AllocError>
    requires { length front.now < 256 }
    ensures { IfOk result (λ v. v.items ≡ versions_of_front front.now events) }
{
    let mut versions = Vec::new(alloc);
    for event in 0..events {
        versions.push(mentions(front, event) as u8)?;
    }
    Ok(versions)
}

fn loads_of(
    alloc: Global,
    tables: &[List<Load>],
    front: &[u8],
    events: u8,
) -> Result<Vec<Load>, AllocError>
    requires events { events ≤ length tables.now }
    requires short { length front.now < 256 }
    requires enough { (event : ℕ) → event < length tables.now → version_of front.now event < length (slice_index_or tables.now event []) }
    ensures { IfOk result (λ v. v.items ≡ loads_of_front tables.now front.now events) }
{
    let mut loads = Vec::new(alloc);
    for event in 0..events {
        let table = tables[usize::from(event)].as_slice();
        loads.push(table[mentions(front, event)])?;
    }
    Ok(loads)
}

/// One vector after its test.
#[derive(Drop)]
enum Tried {
    Fits(Vector),
    Fails(Verdict),
}

/// The vector that this front of the degrade order gives, if it is feasible.
fn try_vector(
    alloc: Global,
    base: &Base,
    tables: &[List<Load>],
    front: &[u8],
    window: u32,
) -> Result<Tried, NoMemory>
    requires few { length tables.now ≤ 16 }
    requires short { length front.now < 256 }
    requires enough { (event : ℕ) → event < length tables.now → version_of front.now event < length (slice_index_or tables.now event []) }
    requires longest { 0 < base.now.longest }
    requires repeats { CanRepeat base.now (loads_of_front tables.now front.now (length tables.now)) }
    requires window { IsWindow base.now.p (loads_of_front tables.now front.now (length tables.now)) window }
    requires window_short { window ≤ 1000000 }
    ensures { IfOk result (IsTried base.now tables.now front.now window) }
{
    let events = tables.len() as u8;
    let Ok(loads) = loads_of(alloc, tables, front, events) else {
        return Err(NoMemory);
    };
    let verdict = feasible(base, loads.as_slice(), window);
    let Verdict::Yes = verdict else {
        return Ok(Tried::Fails(verdict));
    };
    let Ok(versions) = versions_of(alloc, front, events) else {
        return Err(NoMemory);
    };
    let kept = reserve(base, loads.as_slice(), window);
    Ok(Tried::Fits(Vector {
        versions: List::of(versions),
        loads: List::of(loads),
        window,
        reserve: kept,
    }))
}

/// The feasible vector of least k: with the first k mentions of the degrade order taken up, each event runs in the version
/// whose number is how often it was mentioned. `tables` has the loads of each event, version by version.
pub fn choose_vector(
    alloc: Global,
    base: &Base,
    tables: &[List<Load>],
    order: &[u8],
) -> Result<Vector, ChooseFault>
    requires p { 0 < base.now.p }
    requires p_short { base.now.p ≤ 1000000 }
    requires longest { 0 < base.now.longest }
    requires tables { AreTables tables.now order.now }
    ensures chosen { IfOk result (IsChosen base.now tables.now order.now) }
    // the window is looked at first
    ensures refused { IfErr result (IsFault base.now tables.now order.now) }
{
    let events = tables.len() as u8;
    let Ok(whole) = loads_of(alloc, tables, &order[..0], events) else {
        return Err(ChooseFault::NoMemory);
    };
    let span = match window(base.p, whole.as_slice()) {
        Ok(span) => span,
        Err(long) => return Err(ChooseFault::WindowTooLong(long.0)),
    };
    for k in 0..order.len() {
        match try_vector(alloc, base, tables, &order[..k], span) {
            Ok(Tried::Fits(vector)) => return Ok(vector),
            Ok(Tried::Fails(_)) => {}
            Err(NoMemory) => return Err(ChooseFault::NoMemory),
        }
    }
    match try_vector(alloc, base, tables, &order[..order.len()], span) {
        Ok(Tried::Fits(vector)) => Ok(vector),
        Ok(Tried::Fails(verdict)) => Err(ChooseFault::Rejected(verdict)),
        Err(NoMemory) => Err(ChooseFault::NoMemory),
    }
}
