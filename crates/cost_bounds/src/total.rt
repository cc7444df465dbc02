//! The bounds of a whole program.

ghost use Rattle.std.specs.Prelude.{◌≡◌, [], None, IfOk, map};
ghost use Rattle.cat_machine.specs.Held.{Held};
ghost use Rattle.cat_machine.specs.Code.{code_of};
ghost use Rattle.cost_bounds.specs.BoundsValue.{jobs_of};
ghost use Rattle.cat_machine.specs.Fits.{Fits};
ghost use Rattle.cost_bounds.specs.Greatest.{AreBounds, RunsWithin};
ghost use Rattle.cost_bounds.specs.Pass.{AreMade, IsDearest, around_job, cost_job, entry_job, entry_jobs, tasks_in};

use crate::job::{Bounds, Job};
use crate::pass::{pass, tasks_end};
use cat_machine::{Code, code_is_laid_out, spending_law};
use cat_program::Program;
use cn_base::NoMemory;
use nv_memory::{Cost, Device};
use std::alloc::{AllocError, Global};

// What one operation of a class takes.
fn cost_job(cost: Cost) -> Job
    ensures { result ≡ cost_job cost }
{
    Job {
        units: u64::from(cost.bound),
        ticks: u64::from(cost.ticks),
    }
}

// The greatest units and the greatest ticks of several jobs.
fn dearest(jobs: &[Job]) -> Job
    ensures { IsDearest jobs.now result }
{
    let mut most = Job::nothing();
    for job in jobs {
        most = most.dearer(*job);
    }
    most
}

// What is taken from an entry, and what stands around it.
fn entry_job(around: Job, most: &[Job], entry: u32) -> Job
    ensures { result ≡ entry_job around most.now entry }
{
    match most.get(entry as usize) {
        Some(job) => around.plus(*job),
        None => around.plus(Job::nothing()),
    }
}

// The jobs of an event's versions.
fn event_jobs(
    alloc: Global,
    entries: &[u32],
    most: &[Job],
    around: Job,
) -> Result<Vec<Job>, AllocError>
    ensures { IfOk result (λ jobs. jobs.items ≡ map (entry_job around most.now) entries.now) }
{
    let mut jobs = Vec::new(alloc);
    for entry in entries {
        jobs.push(entry_job(around, most, *entry))?;
    }
    Ok(jobs)
}

// The jobs of all events' versions.
fn all_jobs(
    alloc: Global,
    code: &Code,
    most: &[Job],
    around: Job,
) -> Result<Vec<Vec<Job>>, AllocError>
    ensures { IfOk result (λ jobs. jobs_of jobs.items ≡ entry_jobs around most.now code.now.versions) }
{
    let mut all = Vec::new(alloc);
    for event in 0..code.events() {
        let entries = code.versions(event);
        let jobs = event_jobs(alloc, entries, most, around)?;
        all.push(jobs)?;
    }
    Ok(all)
}

/// The bounds of code, where only memory may be wanting.
pub(crate) fn made(
    alloc: Global,
    code: &Code,
    device: &Device,
    lines: u32,
) -> Result<Bounds, AllocError>
    ensures { IfOk result (λ b. AreMade code.now device.now lines (tasks_in code.now) b) }
{
    let tasks = tasks_end(code);
    let most = pass(alloc, code, device, tasks)?;
    let write = cost_job(device.write);
    let wake = cost_job(device.wake);
    let around = wake.plus(write.times(u64::from(lines) + 2));
    let jobs = all_jobs(alloc, code, &most, around)?;
    let section = dearest(&most[..tasks as usize]);
    let checkpoint = write.times(u64::from(lines) + 1);
    Ok(Bounds::of(jobs, section, checkpoint, wake))
}

/// What one pass over any code works out on a device, where a slot takes this many lines of 64 bytes. For code whose jumps
/// and loops are sound these are the greatest sums over its paths.
pub fn code_bounds(
    alloc: Global,
    code: &Code,
    device: &Device,
    lines: u32,
) -> Result<Bounds, NoMemory>
    ensures { IfOk result (λ b. AreMade code.now device.now lines (tasks_in code.now) b) }
{
    match made(alloc, code, device, lines) {
        Ok(bounds) => Ok(bounds),
        Err(_) => Err(NoMemory),
    }
}

/// The bounds of a program's code on a device, where a slot takes this many lines of 64 bytes.
pub fn bounds(
    alloc: Global,
    program: &Program,
    code: &Code,
    device: &Device,
    lines: u32,
) -> Result<Bounds, NoMemory>
    requires { code.now ≡ code_of program.now }
    ensures greatest { IfOk result (λ b. AreBounds program.now device.now lines b) }
    ensures runs { IfOk result (λ b. (h : Held) → Fits program.now code.now h → h.kept ≡ None → h.stack ≡ [] → RunsWithin program.now device.now lines b h) }
{
    code_is_laid_out();
    spending_law();
    let _checked = program.bodies();
    match made(alloc, code, device, lines) {
        Ok(bounds) => Ok(bounds),
        Err(_) => Err(NoMemory),
    }
}
