//! The loops of tasks act in each turn, and those of versions count down.

ghost use Rattle.std.specs.Prelude.{◌≡◌, ◌≤◌, ◌<◌, ◌+◌, ◌↔◌, ℕ, pos, IsTrue, IfOk, MatchOption, length, slice_get, slice_index_or, replicate, false};
ghost use Rattle.cn_object.specs.Loops.{ActsSoon, GoesTo, IsRepeat, LoopsAt, TaskLoopsAt, TurnsAt, VersionLoopsAt};
ghost use Rattle.cn_object.specs.Looping.{AllJumpWell, AreActingSoon, AreComing, AreInner, InnerIs, IsLatest, JumpsWell, TakesAboveAt, TurnsWell, latest_of, noted};
ghost use Rattle.cn_object.specs.Passing.{AreDepths};
ghost use Rattle.cn_object.specs.declared.depth.Brought.TheVariants as b;
ghost use Rattle.cn_object.specs.Regions.{versions_begin, AreEntries, HasTargets, RegionAt};
ghost use Rattle.cn_object.specs.Verified.{Everywhere};
ghost use Rattle.cn_object.specs.Verdict.{FailsFirst};

use crate::depth::{Brought, Way};
use crate::depths::{acts, has_depth, join, taken};
use crate::operands::target_of;
use cat_machine::{Code, Instr};
use std::alloc::{AllocError, Global};

/// What a look at the whole code tells of its loops.
#[derive(Drop)]
pub struct Survey {
    // Whether from a place on, over instructions that neither jump nor act, the first other one acts.
    pub soon: Vec<bool>,
    // The turn of the innermost loop around each place.
    pub inner: Vec<Option<u32>>,
    // The places that go to each place.
    pub coming: Vec<Brought>,
}

fn is_soon(soon: &[bool], pc: u32) -> bool
    ensures { result ≡ slice_index_or soon.now pc false }
{
    match soon.get(pc as usize) {
        Some(soon) => *soon,
        None => false,
    }
}

// Whether an action comes soon from a place on, where this is known of the next place.
fn acts_soon_at(code: &Code, pc: u32, later: bool) -> bool
    requires within { pc < length code.now.instrs }
    requires later { IsTrue later ↔ ActsSoon code.now (pc + 1) }
    ensures { IsTrue result ↔ ActsSoon code.now pc }
{
    let instr = code.instr(pc);
    if acts(instr) {
        return true;
    }
    match target_of(instr) {
        Some(_) => false,
        None => later,
    }
}

fn acting_soon(alloc: Global, code: &Code) -> Result<Vec<bool>, AllocError>
    ensures { IfOk result (λ soon. AreActingSoon code.now soon.items) }
{
    let len = code.len();
    let mut soon = vec![in alloc; false; len as usize]?;
    for done in 0..len {
        let pc = len - 1 - done;
        let later = is_soon(&soon, pc + 1);
        let value = acts_soon_at(code, pc, later);
        soon[pc as usize] = value;
    }
    Ok(soon)
}

// The place to which a turn goes.
fn end_of(code: &Code, turn: u32) -> u32
    requires { turn < length code.now.instrs }
    ensures { (end : ℕ) → TurnsAt code.now turn end → result ≡ end }
{
    match code.instr(turn) {
        Instr::Turn(end) => end,
        _ => 0,
    }
}

// The turn of the innermost loop around a place.
fn inner_at(inner: &[Option<u32>], pc: u32) -> Option<u32>
    ensures { result ≡ slice_index_or inner.now pc None }
{
    match inner.get(pc as usize) {
        Some(turn) => *turn,
        None => None,
    }
}

// From the latest turn on outward, the first loop that reaches past a place.
fn still_around(code: &Code, inner: &[Option<u32>], latest: Option<u32>, pc: u32) -> Option<u32>
    requires within { pc ≤ length code.now.instrs }
    requires known { AreInner code.now pc inner.now }
    requires latest { IsLatest code.now pc latest }
    ensures { InnerIs code.now pc result }
{
    let mut around = latest;
    while let Some(turn) = around {
        if pc < end_of(code, turn) {
            return Some(turn);
        }
        around = inner_at(inner, turn);
    }
    None
}

fn latest_of(instr: Instr, pc: u32, around: Option<u32>) -> Option<u32>
    ensures { result ≡ latest_of instr pc around }
{
    match instr {
        Instr::Turn(_) => Some(pc),
        _ => around,
    }
}

// The turn of the innermost loop around each place.
fn inner_loops(alloc: Global, code: &Code) -> Result<Vec<Option<u32>>, AllocError>
    ensures { IfOk result (λ inner. AreInner code.now (length code.now.instrs) inner.items) }
{
    let mut inner = Vec::new(alloc);
    let mut latest = None;
    for pc in 0..code.len() {
        let around = still_around(code, &inner, latest, pc);
        inner.push(around)?;
        let instr = code.instr(pc);
        latest = latest_of(instr, pc, around);
    }
    Ok(inner)
}

fn nothing(alloc: Global, count: u32) -> Result<Vec<Brought>, AllocError>
    ensures { IfOk result (λ v. v.items ≡ replicate count b.Nothing) }
{
    let nothing = vec![in alloc; Brought::Nothing; count as usize]?;
    Ok(nothing)
}

// A place goes to this target, if to any.
fn note_target(coming: &mut Vec<Brought>, target: Option<u32>, pc: u32)
    ensures { coming.new.items ≡ noted coming.old.items target pc }
{
    if let Some(to) = target {
        join(coming, Way { to, depth: pc });
    }
}

// The places that go to each place: none, one, or several.
fn coming(alloc: Global, code: &Code) -> Result<Vec<Brought>, AllocError>
    ensures { IfOk result (λ coming. AreComing code.now coming.items) }
{
    let len = code.len();
    let mut coming = nothing(alloc, len)?;
    for pc in 0..len {
        let instr = code.instr(pc);
        let target = target_of(instr);
        note_target(&mut coming, target, pc);
    }
    Ok(coming)
}

pub(crate) fn look_over(alloc: Global, code: &Code) -> Result<Survey, AllocError>
    ensures { IfOk result (λ survey. AreActingSoon code.now survey.soon.items × AreInner code.now (length code.now.instrs) survey.inner.items × AreComing code.now survey.coming.items) }
{
    Ok(Survey {
        soon: acting_soon(alloc, code)?,
        inner: inner_loops(alloc, code)?,
        coming: coming(alloc, code)?,
    })
}

fn task_loops(code: &Code, soon: &[bool], pc: u32) -> bool
    requires within { pc < length code.now.instrs }
    requires soon { AreActingSoon code.now soon.now }
    ensures { IsTrue result ↔ TaskLoopsAt code.now pc }
{
    match code.instr(pc) {
        Instr::Jump(to) => pc < to || is_soon(soon, to),
        _ => true,
    }
}

// Whether an instruction pushes 0 to 1,000.
fn pushes_few(instr: Instr) -> bool
    ensures { IsTrue result ↔ ((n : ℕ) × (n ≤ 1000) × (instr ≡ Instr.Push (pos n))) }
{
    match instr {
        Instr::Push(n) => 0 <= n && n <= 1000,
        _ => false,
    }
}

fn is_jump_to(instr: Instr, place: u32) -> bool
    ensures { IsTrue result ↔ (instr ≡ Instr.Jump place) }
{
    match instr {
        Instr::Jump(to) => to == place,
        _ => false,
    }
}

// A push of 0 to 1,000 stands just before a turn, and the one jump that goes to it just before the place to which it goes.
fn is_repeat(code: &Code, coming: &[Brought], turn: u32, end: u32) -> bool
    requires within { turn < length code.now.instrs }
    requires coming { AreComing code.now coming.now }
    ensures { IsTrue result ↔ IsRepeat code.now turn end }
{
    if turn == 0 || end == 0 || code.len() < end {
        return false;
    }
    if !pushes_few(code.instr(turn - 1)) || !is_jump_to(code.instr(end - 1), turn) {
        return false;
    }
    has_depth(coming, turn, end - 1)
}

fn repeats(code: &Code, coming: &[Brought], pc: u32, instr: Instr) -> bool
    requires within { pc < length code.now.instrs }
    requires coming { AreComing code.now coming.now }
    ensures { IsTrue result ↔ TurnsWell code.now pc instr }
{
    match instr {
        Instr::Turn(end) => is_repeat(code, coming, pc, end),
        _ => true,
    }
}

fn is_turn(code: &Code, pc: u32) -> bool
    requires { pc < length code.now.instrs }
    ensures { IsTrue result ↔ ((end : ℕ) × TurnsAt code.now pc end) }
{
    match code.instr(pc) {
        Instr::Turn(_) => true,
        _ => false,
    }
}

fn is_same(a: Option<u32>, b: Option<u32>) -> bool
    ensures { IsTrue result ↔ (a ≡ b) }
{
    match (a, b) {
        (None, None) => true,
        (Some(a), Some(b)) => a == b,
        _ => false,
    }
}

// A jump goes back to a turn, or on to a place with the same loops around it. The loops before the place are sound, so the
// innermost one tells of all.
fn jumps_well(code: &Code, inner: &[Option<u32>], pc: u32, to: u32) -> bool
    requires within { to < length code.now.instrs }
    requires goes { GoesTo code.now pc to }
    requires inner { AreInner code.now (length code.now.instrs) inner.now }
    requires regions { Everywhere code.now (RegionAt code.now) }
    requires before { (q : ℕ) → q < pc → LoopsAt code.now q }
    ensures { IsTrue result ↔ JumpsWell code.now pc to }
{
    if to <= pc {
        return is_turn(code, to);
    }
    let there = inner_at(inner, to);
    let here = inner_at(inner, pc);
    is_same(there, here)
}

fn all_jump_well(code: &Code, inner: &[Option<u32>], pc: u32, instr: Instr) -> bool
    requires is { slice_get code.now.instrs pc ≡ Some instr }
    requires inner { AreInner code.now (length code.now.instrs) inner.now }
    requires regions { Everywhere code.now (RegionAt code.now) }
    requires targets { HasTargets code.now }
    requires before { (q : ℕ) → q < pc → LoopsAt code.now q }
    ensures { IsTrue result ↔ AllJumpWell code.now pc instr }
{
    match target_of(instr) {
        Some(to) => jumps_well(code, inner, pc, to),
        None => true,
    }
}

fn depth_at(depths: &[Brought], pc: u32) -> u32
    ensures { (depth : ℕ) → slice_get depths.now pc ≡ Some (b.One depth) → result ≡ depth }
{
    match depths.get(pc as usize) {
        Some(Brought::One(depth)) => *depth,
        _ => 0,
    }
}

// Within a loop, only operands above its counter are taken.
fn takes_above(code: &Code, inner: &[Option<u32>], depths: &[Brought], pc: u32) -> bool
    requires within { pc < length code.now.instrs }
    requires inner { AreInner code.now (length code.now.instrs) inner.now }
    requires depths { AreDepths code.now depths.now }
    requires regions { Everywhere code.now (RegionAt code.now) }
    requires before { (q : ℕ) → q < pc → LoopsAt code.now q }
    ensures { IsTrue result ↔ TakesAboveAt code.now pc }
{
    let Some(turn) = inner_at(inner, pc) else {
        return true;
    };
    let taken = taken(code.instr(pc));
    let under = depth_at(depths, turn);
    let depth = depth_at(depths, pc);
    u64::from(under) + u64::from(taken) <= u64::from(depth)
}

fn version_loops(code: &Code, survey: &Survey, depths: &[Brought], pc: u32) -> bool
    requires within { pc < length code.now.instrs }
    requires inner { AreInner code.now (length code.now.instrs) survey.now.inner.items }
    requires coming { AreComing code.now survey.now.coming.items }
    requires depths { AreDepths code.now depths.now }
    requires regions { Everywhere code.now (RegionAt code.now) }
    requires targets { HasTargets code.now }
    requires before { (q : ℕ) → q < pc → LoopsAt code.now q }
    ensures { IsTrue result ↔ VersionLoopsAt code.now pc }
{
    let instr = code.instr(pc);
    if !all_jump_well(code, &survey.inner, pc, instr) {
        return false;
    }
    if !repeats(code, &survey.coming, pc, instr) {
        return false;
    }
    takes_above(code, &survey.inner, depths, pc)
}

fn loops_at(code: &Code, survey: &Survey, depths: &[Brought], versions: u32, pc: u32) -> bool
    requires within { pc < length code.now.instrs }
    requires versions { versions ≡ versions_begin code.now }
    requires soon { AreActingSoon code.now survey.now.soon.items }
    requires inner { AreInner code.now (length code.now.instrs) survey.now.inner.items }
    requires coming { AreComing code.now survey.now.coming.items }
    requires depths { AreDepths code.now depths.now }
    requires regions { Everywhere code.now (RegionAt code.now) }
    requires targets { HasTargets code.now }
    requires before { (q : ℕ) → q < pc → LoopsAt code.now q }
    ensures { IsTrue result ↔ LoopsAt code.now pc }
{
    if pc < versions {
        return task_loops(code, &survey.soon, pc);
    }
    version_loops(code, survey, depths, pc)
}

/// The first place whose instruction breaks the rules of loops.
pub(crate) fn loop_fault(
    alloc: Global,
    code: &Code,
    versions: u32,
    depths: &[Brought],
) -> Result<Option<u32>, AllocError>
    requires versions { versions ≡ versions_begin code.now }
    requires depths { AreDepths code.now depths.now }
    requires entries { AreEntries code.now }
    requires regions { Everywhere code.now (RegionAt code.now) }
    requires targets { HasTargets code.now }
    ensures { IfOk result (λ fault. MatchOption fault (Everywhere code.now (LoopsAt code.now)) (λ place. FailsFirst code.now (LoopsAt code.now) place)) }
{
    let survey = look_over(alloc, code)?;
    for pc in 0..code.len() {
        if !loops_at(code, &survey, depths, versions, pc) {
            return Ok(Some(pc));
        }
    }
    Ok(None)
}
