//! How many instructions a version executes at most.

ghost use Rattle.std.specs.Prelude.{◌≡◌, ◌≤◌, ◌<◌, ◌+◌, ℕ, pos, IfOk, MatchOption, length, slice_get, slice_index};
ghost use Rattle.cn_object.specs.Lengths.{AreLengths, AreShort, HasSoundLoops, IsFirstLong, LengthIs, cut_off, length_of, length_to, repeated};
ghost use Rattle.cn_object.specs.Regions.{AreEntries, versions_begin};
ghost use Rattle.cn_object.specs.Verdict.{FailsFirst};
ghost use Rattle.cn_object.specs.Verified.{Everywhere, ShortAt};

use crate::entries::version_entries;
use crate::operands::target_of;
use cat_machine::{Code, Instr};
use std::alloc::{AllocError, Global};

/// No version may execute more.
const MOST: u32 = 1_000_000;

fn length_at(lengths: &[u32], pc: u32) -> u32
    ensures { result ≡ slice_index lengths.now pc }
{
    match lengths.get(pc as usize) {
        Some(length) => *length,
        None => 0,
    }
}

fn length_to(lengths: &[u32], target: Option<u32>) -> u32
    ensures { result ≡ length_to lengths.now target }
{
    match target {
        Some(to) => length_at(lengths, to),
        None => 0,
    }
}

// How many turns the repeat makes whose turn stands here.
fn turns_at(code: &Code, turn: u32) -> u32
    requires { turn < length code.now.instrs }
    ensures few { result ≤ 1000 }
    ensures pushed { (before n : ℕ) → n ≤ 1000 → turn ≡ before + 1 → slice_get code.now.instrs before ≡ Some (Instr.Push (pos n)) → result ≡ n }
{
    if turn == 0 {
        return 0;
    }
    match code.instr(turn - 1) {
        Instr::Push(n) if 0 <= n && n <= 1000 => n as u32,
        _ => 0,
    }
}

// The turns of a repeat, each with its test, and the test that ends it.
fn repeated(turns: u32, inside: u32, later: u32) -> u64
    requires { turns ≤ 1000 }
    ensures { result ≡ repeated turns inside later }
{
    u64::from(turns) * (1 + u64::from(inside)) + 1 + u64::from(later)
}

fn length_of(instr: Instr, pc: u32, turns: u32, next: u32, there: u32) -> u64
    requires { turns ≤ 1000 }
    ensures { result ≡ length_of instr pc turns next there }
{
    match instr {
        Instr::End => 1,
        Instr::Jump(to) => { if pc < to { 1 + u64::from(there) } else { 1 } }
        Instr::JumpZero(_) => 1 + u64::from(next.max(there)),
        Instr::Turn(_) => repeated(turns, next, there),
        _ => 1 + u64::from(next),
    }
}

fn cut_off(length: u64) -> u32
    ensures { result ≡ cut_off length }
{
    length.min(u64::from(MOST) + 1) as u32
}

// The greatest count of instructions from a place up to the end, or up to the jump back of the innermost repeat around it,
// where those of later places are known.
fn length_from(code: &Code, lengths: &[u32], pc: u32) -> u32
    requires within { pc < length code.now.instrs }
    requires sound { HasSoundLoops code.now }
    requires later { AreLengths code.now (pc + 1) lengths.now }
    ensures { versions_begin code.now ≤ pc → LengthIs code.now pc result }
{
    let _len = code.len();
    let instr = code.instr(pc);
    let turns = turns_at(code, pc);
    let next = length_at(lengths, pc + 1);
    let there = length_to(lengths, target_of(instr));
    let length = length_of(instr, pc, turns, next, there);
    cut_off(length)
}

// That of each place, but 1,000,001 for all that is more than 1,000,000.
fn lengths(alloc: Global, code: &Code) -> Result<Vec<u32>, AllocError>
    requires { HasSoundLoops code.now }
    ensures { IfOk result (λ lengths. AreLengths code.now 0 lengths.items) }
{
    let len = code.len();
    let mut lengths = vec![in alloc; 0u32; len as usize]?;
    for done in 0..len {
        let pc = len - 1 - done;
        let length = length_from(code, &lengths, pc);
        lengths[pc as usize] = length;
    }
    Ok(lengths)
}

// The first entry from which the count is too great.
fn first_long(entries: &[u32], lengths: &[u32]) -> Option<u32>
    ensures { MatchOption result (AreShort entries.now lengths.now (length entries.now)) (IsFirstLong entries.now lengths.now) }
{
    for (k, entry) in entries.iter().enumerate() {
        let place = *entry;
        if MOST < length_at(lengths, place) {
            return Some(place);
        }
    }
    None
}

/// The entry of the first version that executes more than 1,000,000 instructions.
pub(crate) fn length_fault(alloc: Global, code: &Code) -> Result<Option<u32>, AllocError>
    requires { HasSoundLoops code.now }
    ensures { IfOk result (λ fault. MatchOption fault (Everywhere code.now (ShortAt code.now)) (λ place. FailsFirst code.now (ShortAt code.now) place)) }
{
    let lengths = lengths(alloc, code)?;
    let entries = version_entries(alloc, code)?;
    Ok(first_long(&entries, &lengths))
}
