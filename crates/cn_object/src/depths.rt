//! One pass over code for the depth of the stack at each place.

ghost use Rattle.std.specs.Prelude.{◌≡◌, ◌≤◌, ◌<◌, ◌+◌, ◌-◌, ◌↔◌, ℕ, List, [], ◌∷◌, IsTrue, IfOk, MatchOption, MatchResult, length, slice_get, slice_set, slice_index};
ghost use Rattle.cost_bounds.specs.Paths.{acts};
ghost use Rattle.cn_object.specs.Depths.{taken, given, ways_of, StackAt, IsDepth};
ghost use Rattle.cn_object.specs.Passing.{brought_to, with_ways, first_brought, AreDepths, IsFitting, IsSummary};
ghost use Rattle.cn_object.specs.declared.depth.Brought.TheVariants as b;
ghost use Rattle.cn_object.specs.Verified.{Everywhere};
ghost use Rattle.cn_object.specs.Verdict.{FailsFirst};
ghost use Rattle.cn_object.specs.Regions.{all_entries, versions_begin};

use crate::depth::{Brought, Way};
use crate::entries::all_entries;
use cat_machine::{Code, Instr};
use std::alloc::{AllocError, Global};

/// How many operands an instruction takes.
pub(crate) fn taken(instr: Instr) -> u32
    ensures { result ≡ taken instr }
{
    match instr {
        Instr::Operate(_) | Instr::StoreAt { .. } => 2,
        Instr::Signed(_)
        | Instr::JumpZero(_)
        | Instr::Turn(_)
        | Instr::LoadAt { .. }
        | Instr::Store(_)
        | Instr::Out(_) => 1,
        _ => 0,
    }
}

fn given(instr: Instr) -> u32
    ensures { result ≡ given instr }
{
    match instr {
        Instr::Push(_)
        | Instr::Load(_)
        | Instr::Payload
        | Instr::Signed(_)
        | Instr::Operate(_)
        | Instr::LoadAt { .. }
        | Instr::Turn(_) => 1,
        _ => 0,
    }
}

/// Whether an instruction ends a section of a task.
pub(crate) fn acts(instr: Instr) -> bool
    ensures { result ≡ acts instr }
{
    match instr {
        Instr::JumpZero(_)
        | Instr::Begin(_)
        | Instr::End
        | Instr::Store(_)
        | Instr::StoreAt { .. }
        | Instr::Post(_)
        | Instr::Out(_) => true,
        _ => false,
    }
}

// The depth is brought to the place too.
pub(crate) fn join(brought: &mut [Brought], way: Way)
    ensures { brought.new ≡ brought_to brought.old way }
{
    let Some(old) = brought.get(way.to as usize) else {
        return;
    };
    let joined = match *old {
        Brought::Nothing => Brought::One(way.depth),
        Brought::One(depth) => {
            if depth == way.depth {
                Brought::One(depth)
            } else {
                Brought::Several
            }
        }
        Brought::Several => Brought::Several,
    };
    brought[way.to as usize] = joined;
}

// The places to which an instruction leads get its depth, but for the place of a backward jump.
fn lead(brought: &mut [Brought], instr: Instr, pc: u32, depth: u32)
    requires finds { taken instr ≤ depth }
    requires room { depth ≤ 32 }
    requires low { pc < 4294967295 }
    ensures { brought.new ≡ with_ways instr pc depth brought.old }
{
    let on = Way {
        to: pc + 1,
        depth: depth - taken(instr) + given(instr),
    };
    match instr {
        Instr::End => {}
        Instr::Jump(to) => {
            if pc < to {
                join(brought, Way { to, depth });
            }
        }
        Instr::JumpZero(to) | Instr::Turn(to) => {
            join(brought, on);
            if pc < to {
                join(
                    brought,
                    Way {
                        to,
                        depth: depth - 1,
                    },
                );
            }
        }
        _ => join(brought, on),
    }
}

// Whether an instruction suits the depth of its place.
fn fits(brought: &[Brought], instr: Instr, pc: u32, depth: u32, versions: u32) -> bool
    ensures { IsTrue result ↔ IsFitting brought.now versions pc depth instr }
{
    if depth > 32 || taken(instr) > depth {
        return false;
    }
    if pc < versions && acts(instr) && depth != taken(instr) {
        return false;
    }
    match instr {
        Instr::End => depth == 0,
        Instr::Jump(to) => pc < to || has_depth(brought, to, depth),
        _ => true,
    }
}

pub(crate) fn has_depth(brought: &[Brought], at: u32, depth: u32) -> bool
    ensures { IsTrue result ↔ (slice_get brought.now at ≡ Some (b.One depth)) }
{
    match brought.get(at as usize) {
        Some(Brought::One(other)) => *other == depth,
        _ => false,
    }
}

// An entry has depth 0.
fn at_entries(alloc: Global, entries: &[u32], count: u32) -> Result<Vec<Brought>, AllocError>
    ensures { IfOk result (λ brought. brought.items ≡ first_brought entries.now count) }
{
    let mut brought = vec![in alloc; Brought::Nothing; count as usize]?;
    for entry in entries {
        join(
            &mut brought,
            Way {
                to: *entry,
                depth: 0,
            },
        );
    }
    Ok(brought)
}

// Goes through all places in order. The first that has no one depth, or whose instruction doesn't suit it, is the answer.
fn pass(code: &Code, versions: u32, brought: &mut [Brought]) -> Option<u32>
    requires versions { versions ≡ versions_begin code.now }
    requires begun { IsSummary code.now 0 brought.old }
    ensures { MatchOption result (Everywhere code.now (StackAt code.now) × AreDepths code.now brought.new) (λ place. FailsFirst code.now (StackAt code.now) place) }
{
    for pc in 0..code.len() {
        let instr = code.instr(pc);
        let Brought::One(depth) = brought[pc as usize] else {
            return Some(pc);
        };
        if !fits(brought, instr, pc, depth, versions) {
            return Some(pc);
        }
        lead(brought, instr, pc, depth);
    }
    None
}

/// The depth of each place, or the first place that has none, or whose instruction doesn't suit it.
pub(crate) fn depths(
    alloc: Global,
    code: &Code,
    versions: u32,
) -> Result<Result<Vec<Brought>, u32>, AllocError>
    requires { versions ≡ versions_begin code.now }
    ensures { IfOk result (λ found. MatchResult found (λ depths. Everywhere code.now (StackAt code.now) × AreDepths code.now depths.items) (λ place. FailsFirst code.now (StackAt code.now) place)) }
{
    let entries = all_entries(alloc, code)?;
    let mut brought = at_entries(alloc, &entries, code.len())?;
    match pass(code, versions, &mut brought) {
        Some(place) => Ok(Err(place)),
        None => Ok(Ok(brought)),
    }
}

fn first(entries: &[u32]) -> Option<u32>
    ensures { result ≡ slice_get entries.now 0 }
{
    entries.first().copied()
}

/// Where the versions' code begins.
pub(crate) fn versions_begin(code: &Code) -> u32
    ensures { result ≡ versions_begin code.now }
{
    for event in 0..code.events() {
        let entries = code.versions(event);
        if let Some(entry) = first(entries) {
            return entry;
        }
    }
    code.len()
}
