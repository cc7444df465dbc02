//! The records that a slot counts.

ghost use Rattle.std.specs.Prelude.{◌≡◌, ◌≤◌, ◌<◌, ◌↔◌, IsTrue, length, count_by, IfOk, IfErr, OnOk, MatchOption};
ghost use Rattle.nv_memory.specs.Layout.{size_of};
ghost use Rattle.nv_log.specs.Record.{IsFound, record_bytes};
ghost use Rattle.recovery.specs.Committed.{is_ran};
ghost use Rattle.cn_resume.specs.Records.{EachBelow, IsBadRecord, IsCounted, IsFirstWithout, IsRecord, StartsBefore, entries_in, entry_in};
ghost use Rattle.cn_resume.specs.Fit.{PartsAt};

use crate::fault::{ImageFault, ImageKind};
use cat_program::{LogEntry, Program};
use checkpoint_slots::Slot;
use nv_log::{entry_at, records_are_read_again};
use nv_memory::{Board, Layout};
use std::alloc::{AllocError, Global};

/// Whether an entry is no event that started at a tick or later.
fn starts_before(tick: u32, entry: &LogEntry) -> bool
    ensures { IsTrue result ↔ StartsBefore tick entry.now }
{
    match entry {
        LogEntry::Out { .. } => true,
        LogEntry::Ran { start, .. } => *start < tick,
    }
}

/// The entry of a record, where it spells one that is no later than a tick.
fn record<B: Board>(
    program: &Program,
    layout: &Layout,
    board: &B,
    tick: u32,
    place: u32,
) -> Option<LogEntry>
    requires image { size_of layout.now ≤ length (B.state board.now).image }
    requires place { place < layout.now.log }
    ensures { MatchOption result (¬ (IsRecord layout.now program.now tick (B.state board.now).image place))
        (λ entry. IsRecord layout.now program.now tick (B.state board.now).image place × (entry ≡ entry_in layout.now (B.state board.now).image place)) }
{
    records_are_read_again();
    match entry_at(board, layout, program, place) {
        Some(entry) => {
            if starts_before(tick, &entry) {
                Some(entry)
            } else {
                None
            }
        }
        None => None,
    }
}

/// The entries of the first records.
pub(crate) fn entries_of<B: Board>(
    alloc: Global,
    program: &Program,
    layout: &Layout,
    board: &B,
    tick: u32,
    many: u32,
) -> Result<Vec<LogEntry>, ImageFault>
    requires image { size_of layout.now ≤ length (B.state board.now).image }
    requires many { many ≤ layout.now.log }
    ensures entries { IfOk result (λ entries. entries.items ≡ entries_in layout.now (B.state board.now).image many) }
    ensures good { OnOk result (EachBelow (IsRecord layout.now program.now tick (B.state board.now).image) many) }
    ensures refused { IfErr result (IsBadRecord (IsRecord layout.now program.now tick (B.state board.now).image) many) }
{
    let mut entries = Vec::new(alloc);
    for place in 0..many {
        match record(program, layout, board, tick, place) {
            Some(entry) => match entries.push(entry) {
                Ok(()) => {}
                Err(_) => return Err(ImageFault::NoMemory),
            },
            None => return Err(ImageFault::BadImage(ImageKind::Record, u64::from(place))),
        }
    }
    Ok(entries)
}

fn is_ran(event: u8, entry: &LogEntry) -> bool
    ensures { result ≡ is_ran event entry.now }
{
    match entry {
        LogEntry::Out { .. } => false,
        LogEntry::Ran { event: own, .. } => event == *own,
    }
}

/// How many entries are an event's.
fn count(entries: &[LogEntry], event: u8) -> usize
    ensures { result ≡ count_by (is_ran event) entries.now }
{
    let mut many = 0;
    for entry in entries {
        if is_ran(event, entry) {
            many += 1;
        }
    }
    many
}

/// The first event whose done count in the slot is not the number of its entries.
pub(crate) fn miscounted(slot: &Slot, entries: &[LogEntry], events: u8) -> Option<u8>
    requires { events ≤ length slot.now.done }
    ensures { MatchOption result (EachBelow (IsCounted slot.now.done entries.now) events) (IsFirstWithout (IsCounted slot.now.done entries.now) events) }
{
    for event in 0..events {
        if slot.done(event) as usize != count(entries, event) {
            return Some(event);
        }
    }
    None
}

/// The first place at which two lists of entries are not the same.
pub(crate) fn difference(one: &[LogEntry], other: &[LogEntry]) -> Option<usize>
    ensures { MatchOption result (one.now ≡ other.now) (PartsAt one.now other.now) }
{
    let many = one.len().min(other.len());
    for at in 0..many {
        if one[at] != other[at] {
            return Some(at);
        }
    }
    if one.len() == other.len() {
        None
    } else {
        Some(many)
    }
}
