//! The pass over a program's code, from its last place to its first.

ghost use Rattle.std.specs.Prelude.{◌≡◌, ◌≤◌, ◌<◌, ◌+◌, IfOk, length, slice_get};
ghost use Rattle.cat_machine.specs.CodeValue.{versions_at};
ghost use Rattle.cost_bounds.specs.Pass.{AllKnown, PlaceKnown, tasks_in};

use crate::job::Job;
use crate::place::{handler_from, section_from};
use cat_machine::Code;
use nv_memory::Device;
use std::alloc::{AllocError, Global};

// The entry of the first event's first version.
fn first_entry(code: &Code) -> Option<u32>
    requires { 0 < length code.now.versions }
    ensures { result ≡ slice_get (versions_at code.now 0) 0 }
{
    code.versions(0).first().copied()
}

/// How many places the tasks' code has. The events' code comes after it.
pub(crate) fn tasks_end(code: &Code) -> u32
    ensures within { result ≤ length code.now.instrs }
    ensures is { result ≡ tasks_in code.now }
{
    let len = code.len();
    if code.events() == 0 {
        return len;
    }
    match first_entry(code) {
        Some(entry) => len.min(entry),
        None => len,
    }
}

// What is taken from a place, in a section or in a handler.
fn place_from(code: &Code, device: &Device, tasks: u32, pc: u32, most: &[Job]) -> Job
    requires short { tasks ≤ length code.now.instrs }
    requires within { pc < length code.now.instrs }
    requires later { AllKnown device.now code.now tasks (pc + 1) most.now }
    ensures { PlaceKnown device.now code.now tasks pc result }
{
    if pc < tasks {
        section_from(code, device, tasks, pc, most)
    } else {
        handler_from(code, device, pc, most)
    }
}

/// What is taken from each place of the code, where this many places are the tasks'.
pub(crate) fn pass(
    alloc: Global,
    code: &Code,
    device: &Device,
    tasks: u32,
) -> Result<Vec<Job>, AllocError>
    requires { tasks ≤ length code.now.instrs }
    ensures known { IfOk result (λ most. AllKnown device.now code.now tasks 0 most.items) }
    ensures all { IfOk result (λ most. length most.items ≡ length code.now.instrs) }
{
    let len = code.len();
    let mut most = vec![in alloc; Job::nothing(); len as usize]?;
    for done in 0..len {
        let pc = len - 1 - done;
        let job = place_from(code, device, tasks, pc, &most);
        most[pc as usize] = job;
    }
    Ok(most)
}
