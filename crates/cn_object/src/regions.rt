//! Tasks and versions are regions of code, from their entry to before the next.

ghost use Rattle.std.specs.Prelude.{◌≡◌, ◌≤◌, ◌<◌, ◌+◌, ◌≢◌, ◌↔◌, ◌⊎◌, ℕ, IsTrue, IfOk, MatchOption, length, slice_get};
ghost use Rattle.cat_machine.specs.declared.instr.Instr.TheVariants as i;
ghost use Rattle.cn_object.specs.Operands.{target_of, OperandsAt};
ghost use Rattle.cn_object.specs.Regions.{AreEntries, RegionAt, HasTargets, begun, IsSpan, SuitsSpan, SuitsSpanAt, HasBegin, HasEnd, StaysWithin, IsAllowed, all_entries};
ghost use Rattle.cn_object.specs.Verified.{Everywhere};
ghost use Rattle.cn_object.specs.Verdict.{BreaksRegion};

use crate::entries::{all_entries, are_entries};
use crate::operands::target_of;
use cat_machine::{Code, Instr};
use std::alloc::{AllocError, Global};

// One region: its entry, the place after its last one, and the task that it belongs to, if to any.
#[derive(Clone, Copy)]
pub struct Span {
    pub entry: u32,
    pub end: u32,
    pub task: Option<u8>,
}

// The task of which an instruction is the begin.
fn begun(instr: Instr) -> Option<u8>
    ensures { result ≡ begun instr }
{
    match instr {
        Instr::Begin(task) => Some(task),
        _ => None,
    }
}

fn same(a: Option<u8>, b: Option<u8>) -> bool
    ensures { IsTrue result ↔ (a ≡ b) }
{
    match (a, b) {
        (Some(a), Some(b)) => a == b,
        (None, None) => true,
        (Some(_), None) => false,
        (None, Some(_)) => false,
    }
}

// A task's begin stands at its entry, and nowhere else.
fn has_begin(span: Span, pc: u32, instr: Instr) -> bool
    ensures { IsTrue result ↔ HasBegin span pc instr }
{
    let own = if pc == span.entry { span.task } else { None };
    same(begun(instr), own)
}

// An end stands last, and nowhere else.
fn has_end(span: Span, pc: u32, instr: Instr) -> bool
    requires { pc < span.end }
    ensures { IsTrue result ↔ HasEnd span pc instr }
{
    match instr {
        Instr::End => pc + 1 == span.end,
        _ => pc + 1 != span.end,
    }
}

fn is_begin(code: &Code, pc: u32) -> bool
    requires { pc < length code.now.instrs }
    ensures { IsTrue result ↔ ((t : ℕ) × (slice_get code.now.instrs pc ≡ Some (i.Begin t))) }
{
    match code.instr(pc) {
        Instr::Begin(_) => true,
        _ => false,
    }
}

// A jump stays in its region and goes to no begin.
fn stays_within(code: &Code, span: Span, instr: Instr) -> bool
    requires { span.end ≤ length code.now.instrs }
    ensures { IsTrue result ↔ StaysWithin code.now span instr }
{
    match target_of(instr) {
        Some(to) => {
            if to < span.entry || span.end <= to {
                return false;
            }
            !is_begin(code, to)
        }
        None => true,
    }
}

// Only a jump goes backward, and payload and turn stand in versions alone.
fn is_allowed(span: Span, pc: u32, instr: Instr) -> bool
    ensures { IsTrue result ↔ IsAllowed span pc instr }
{
    match instr {
        Instr::JumpZero(to) => pc < to,
        Instr::Turn(to) => pc < to && span.task.is_none(),
        Instr::Payload => span.task.is_none(),
        _ => true,
    }
}

fn suits(code: &Code, span: Span, pc: u32, instr: Instr) -> bool
    requires within { span.end ≤ length code.now.instrs }
    requires before { pc < span.end }
    ensures { IsTrue result ↔ SuitsSpan code.now span pc instr }
{
    if !has_begin(span, pc, instr) || !has_end(span, pc, instr) {
        return false;
    }
    stays_within(code, span, instr) && is_allowed(span, pc, instr)
}

// The first place of a region, whose instruction doesn't suit it.
fn span_fault(code: &Code, span: Span) -> Option<u32>
    requires order { span.entry < span.end }
    requires within { span.end ≤ length code.now.instrs }
    ensures { MatchOption result ((pc : ℕ) → span.entry ≤ pc → pc < span.end → SuitsSpanAt code.now span pc) (λ place. (span.entry ≤ place) × (place < span.end) × (¬ SuitsSpanAt code.now span place) × ((pc : ℕ) → span.entry ≤ pc → pc < place → SuitsSpanAt code.now span pc)) }
{
    for pc in span.entry..span.end {
        let instr = code.instr(pc);
        if !suits(code, span, pc, instr) {
            return Some(pc);
        }
    }
    None
}

// The region that begins at entry k.
fn span_of(entries: &[u32], tasks: usize, count: u32, k: usize) -> Span
    requires within { k < length entries.now }
    requires few { tasks ≤ 16 }
    ensures { IsSpan entries.now tasks count k result }
{
    let end = match entries.get(k + 1) {
        Some(next) => *next,
        None => count,
    };
    let task = if k < tasks { Some(k as u8) } else { None };
    Span {
        entry: entries[k],
        end,
        task,
    }
}

/// The first instruction that doesn't suit its region, or 0 where the entries are wrong.
pub(crate) fn region_fault(alloc: Global, code: &Code) -> Result<Option<u32>, AllocError>
    requires tasks { length code.now.tasks ≤ 16 }
    requires targets { HasTargets code.now }
    ensures { IfOk result (λ fault. MatchOption fault (AreEntries code.now × Everywhere code.now (RegionAt code.now)) (λ place. BreaksRegion code.now place)) }
{
    let entries = all_entries(alloc, code)?;
    let count = code.len();
    if !are_entries(&entries, count) {
        return Ok(Some(0));
    }
    let tasks = code.tasks().len();
    for k in 0..entries.len() {
        let span = span_of(&entries, tasks, count, k);
        if let Some(place) = span_fault(code, span) {
            return Ok(Some(place));
        }
    }
    Ok(None)
}
