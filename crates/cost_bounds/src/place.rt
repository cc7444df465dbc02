//! What is taken from one place of code on, where that from later places is known.

ghost use Rattle.std.specs.Prelude.{◌≡◌, ◌≤◌, ◌<◌, ◌+◌, ℕ, Some, length, pos, slice_get};
ghost use Rattle.cat_machine.specs.declared.instr.Instr.TheVariants as i;
ghost use Rattle.cost_bounds.specs.Paths.{acts, place_after};
ghost use Rattle.cost_bounds.specs.Pass.{class_job, front_of, job_in, HandlerKnown, SectionKnown};

use crate::job::Job;
use cat_machine::{Code, Instr, class};
use nv_memory::{Class, Device};

// What one instruction of a class takes.
fn class_job(device: &Device, class: Class) -> Job
    ensures { result ≡ class_job device.now class }
{
    let cost = device.cost(class);
    Job {
        units: u64::from(cost.bound),
        ticks: u64::from(cost.ticks),
    }
}

fn acts(instr: &Instr) -> bool
    ensures { result ≡ acts instr.now }
{
    match instr {
        Instr::JumpZero(_)
        | Instr::Begin(_)
        | Instr::End
        | Instr::Store(_)
        | Instr::StoreAt { .. }
        | Instr::Post(_)
        | Instr::Out(_) => true,
        _ => false,
    }
}

// Where a section goes on after an instruction that doesn't act.
fn place_after(instr: &Instr, pc: u32) -> u32
    requires { pc < 4294967295 }
    ensures { result ≡ place_after instr.now pc }
{
    match instr {
        Instr::Jump(to) => *to,
        _ => pc + 1,
    }
}

fn job_in(jobs: &[Job], pc: u32) -> Job
    ensures { result ≡ job_in jobs.now pc }
{
    match jobs.get(pc as usize) {
        Some(job) => *job,
        None => Job::nothing(),
    }
}

// The turns of a repeat whose turn stands at this place.
fn turns(code: &Code, pc: u32) -> u64
    requires { pc < length code.now.instrs }
    ensures { (n before : ℕ) → pc ≡ before + 1 → slice_get code.now.instrs before ≡ Some (i.Push (pos n)) → result ≡ n }
{
    if pc == 0 {
        return 0;
    }
    match code.instr(pc - 1) {
        Instr::Push(n) => n.max(0) as u64,
        _ => 0,
    }
}

/// What a handler takes at most from a place on: up to its end, or up to the jump back of the innermost repeat around the
/// place.
pub(crate) fn handler_from(code: &Code, device: &Device, pc: u32, most: &[Job]) -> Job
    requires within { pc < length code.now.instrs }
    requires later { (j : ℕ) → pc < j → HandlerKnown device.now code.now j (job_in most.now j) }
    ensures { HandlerKnown device.now code.now pc result }
{
    let instr = code.instr(pc);
    let first = class_job(device, class(&instr));
    let _len = code.len();
    let next = pc + 1;
    match instr {
        Instr::End => first,
        Instr::Jump(to) => {
            if pc < to {
                first.plus(job_in(most, to))
            } else {
                first
            }
        }
        Instr::JumpZero(to) => first.plus(job_in(most, next).dearer(job_in(most, to))),
        Instr::Turn(to) => first
            .plus(job_in(most, next))
            .times(turns(code, pc))
            .plus(first)
            .plus(job_in(most, to)),
        _ => first.plus(job_in(most, next)),
    }
}

/// What the section from a place takes, where no later place is known.
pub(crate) fn section_walk(code: &Code, device: &Device, tasks: u32, from: u32) -> Job
    requires { tasks ≤ length code.now.instrs }
    ensures { SectionKnown device.now (front_of tasks code.now) from result }
{
    let mut sum = Job::nothing();
    let mut pc = from;
    'steps: for _ in 0..tasks {
        if pc >= tasks {
            return sum;
        }
        let instr = code.instr(pc);
        sum = sum.plus(class_job(device, class(&instr)));
        if acts(&instr) {
            return sum;
        }
        pc = place_after(&instr, pc);
    }
    sum
}

/// What the section from a place of the tasks' code takes. A jump goes back to the test of a loop alone, so what it leads
/// to is short.
pub(crate) fn section_from(code: &Code, device: &Device, tasks: u32, pc: u32, most: &[Job]) -> Job
    requires within { pc < tasks }
    requires short { tasks ≤ length code.now.instrs }
    requires later { (j : ℕ) → pc < j → SectionKnown device.now (front_of tasks code.now) j (job_in most.now j) }
    ensures { SectionKnown device.now (front_of tasks code.now) pc result }
{
    let instr = code.instr(pc);
    let first = class_job(device, class(&instr));
    if acts(&instr) {
        return first;
    }
    let next = place_after(&instr, pc);
    if pc < next {
        first.plus(job_in(most, next))
    } else {
        first.plus(section_walk(code, device, tasks, next))
    }
}
