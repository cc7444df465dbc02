ghost use Rattle.std.specs.Prelude.{◌≡◌, ◌+◌, ◌*◌, ◌<◌, ◌≤◌, ◌++◌, ◌∷◌, [], length, false, slice_get, flat_map, replicate, ℕ, vec_capacity, vec_len, Some, IfOk};
ghost use Rattle.std.specs.List.Sorted.{IsNonDecreasing, IsPartitionPoint};
ghost use Rattle.cn_base.specs.declared.TheConstants.{MOST_TICKS};
ghost use Rattle.nv_memory.specs.Silent.{IsSilent};
ghost use Rattle.board_core.specs.Records.{IsKept, IsLast, IsMarked, IsNarrow, entries_by, sleeps};
ghost use Rattle.board_core.specs.Sure.{write_of};

use crate::record::{Record, What, laid, laid_write};
use crate::sure::Sure;
use cn_base::{MOST_TICKS, NoMemory};
use nv_memory::{Class, Entry};
use std::alloc::Global;

/// The entries of a board, in order, with room for as many as its life has ticks. What lies in memory is shorter: ticks
/// of sleep that follow one another with one harvest are one record, and bytes that were left are laid aside.
#[derive(Drop)]
pub struct Timeline {
    records: Vec<Record>,
    /// how many entries there are up to each record and with it
    ends: Vec<u32>,
    /// the record in which each 64th entry is
    marks: Vec<u32>,
    /// the bytes that were left, one after the other
    left: Vec<u8>,
    count: u32,
    most: u32,
    pub(crate) cap: u32,
    ghost kept: { IsKept cap records.items ends.items left.items count },
    ghost marked: { IsMarked marks.items ends.items count },
    ghost counted: { count ≡ length (flat_map (entries_by cap left.items) records.items) },
    ghost in_range: { most ≤ MOST_TICKS },
    ghost room: { count ≤ most },
    ghost room_for_records: { most ≤ vec_capacity records },
    ghost room_for_ends: { most ≤ vec_capacity ends },
    ghost room_for_marks: { most ≤ 64 * vec_capacity marks },
    ghost room_for_left: { 64 * most ≤ vec_capacity left },
}

// How many of some records end before a place of the timeline, or at it.
fn ended_in(ends: &[u32], place: u32) -> usize
    requires { IsNonDecreasing ends.now }
    ensures most { result ≤ length ends.now }
    ensures point { IsPartitionPoint (λ end. end ≤ place) (λ end. place < end) ends.now result }
{
    ends.partition_point(|end| *end <= place)
}

// How many of all records do, where those before `first` do and those from `last` on don't.
fn ended_by(ends: &[u32], first: usize, last: usize, place: u32) -> usize
    requires rising { IsNonDecreasing ends.now }
    requires narrow { IsNarrow ends.now place first last }
    ensures most { result ≤ length ends.now }
    ensures point { IsPartitionPoint (λ end. end ≤ place) (λ end. place < end) ends.now result }
{
    first + ended_in(&ends[first..last], place)
}

// Keeps an item where there is room.
fn keep<T: Drop>(items: &mut Vec<T>, item: T)
    requires { vec_len items.old < vec_capacity items.old }
    ensures items { items.new.items ≡ items.old.items ++ item ∷ [] }
    ensures capacity { vec_capacity items.old ≤ vec_capacity items.new }
{
    let _ = items.push(item);
}

// Marks the 64th places up to a count: they are in this record.
fn mark(marks: &mut Vec<u32>, nth: u32, count: u32)
    requires room { count ≤ 64 * vec_capacity marks.old }
    requires no_more { 64 * length marks.old.items < count + 64 }
    requires small { count ≤ MOST_TICKS }
    ensures items { (n : ℕ) × (marks.new.items ≡ marks.old.items ++ replicate n nth) }
    ensures covers { count ≤ 64 * length marks.new.items }
    ensures no_more { 64 * length marks.new.items < count + 64 }
    ensures capacity { vec_capacity marks.old ≤ vec_capacity marks.new }
{
    'marks: while 64 * marks.len() < count as usize {
        keep(marks, nth);
    }
}

impl Timeline {
    ghost use Rattle.board_core.specs.Kept.{entries_of, room_of};
    ghost use Rattle.nv_memory.specs.declared.entry.Op.TheVariants as op;

    pub(crate) fn with_room(alloc: Global, most: u32, cap: u32) -> Result<Timeline, NoMemory>
        requires { most ≤ MOST_TICKS }
        ensures entries { IfOk result (λ t. entries_of t ≡ []) }
        ensures room { IfOk result (λ t. room_of t ≡ most) }
        ensures cap { IfOk result (λ t. t.cap ≡ cap) }
    {
        let Ok(records) = Vec::with_capacity(alloc, most as usize) else {
            return Err(NoMemory);
        };
        let Ok(ends) = Vec::with_capacity(alloc, most as usize) else {
            return Err(NoMemory);
        };
        let Ok(marks) = Vec::with_capacity(alloc, most as usize / 64 + 1) else {
            return Err(NoMemory);
        };
        let Ok(left) = Vec::with_capacity(alloc, 64 * most as usize) else {
            return Err(NoMemory);
        };
        Ok(Timeline {
            records,
            ends,
            marks,
            left,
            count: 0,
            most,
            cap,
        })
    }

    pub(crate) fn len(&self) -> u32
        ensures { result ≡ length (entries_of self.now) }
    {
        self.count
    }

    // Where the search for a place under this mark ends: behind the record of the next mark.
    fn last_for(&self, mark: usize) -> usize
        requires { mark < length self.now.marks.items }
        ensures { IsLast self.now.marks.items self.now.ends.items mark result }
    {
        let next = mark + 1;
        if next < self.marks.len() {
            return self.marks[next] as usize + 1;
        }
        self.ends.len()
    }

    // The record in which a place is.
    fn record_at(&self, place: u32) -> usize
        requires { place < self.now.count }
        ensures most { result ≤ length self.now.ends.items }
        ensures point { IsPartitionPoint (λ end. end ≤ place) (λ end. place < end) self.now.ends.items result }
    {
        let mark = (place / 64) as usize;
        let first = self.marks[mark] as usize;
        let last = self.last_for(mark);
        ended_by(self.ends.as_slice(), first, last, place)
    }

    /// One entry, made without memory.
    pub(crate) fn entry(&self, place: u32) -> Entry
        requires { place < length (entries_of self.now) }
        ensures { slice_get (entries_of self.now) place ≡ Some result }
    {
        let nth = self.record_at(place);
        let record = &self.records[nth];
        let first = self.ends[nth] - record.width();
        record.entry(self.cap, self.left.as_slice(), place - first)
    }

    /// How many entries from a place on are silent: those of the records from there on of which all are.
    pub(crate) fn silent(&self, place: u32) -> u32
        requires { place < length (entries_of self.now) }
        ensures within { place + result ≤ length (entries_of self.now) }
        ensures silent { (k : ℕ) → place ≤ k → k < place + result → IsSilent (entries_of self.now) k }
    {
        let mut nth = self.record_at(place);
        let mut end = place;
        'records: while nth < self.records.len() && self.records[nth].is_silent() {
            end = self.ends[nth];
            nth += 1;
        }
        end - place
    }

    /// Keeps an entry where there is room.
    pub(crate) fn push(&mut self, entry: Entry)
        requires { length (entries_of self.old) < room_of self.old }
        ensures entries { entries_of self.new ≡ entries_of self.old ++ entry ∷ [] }
        ensures room { room_of self.new ≡ room_of self.old }
        ensures cap { self.new.cap ≡ self.old.cap }
    {
        let what = laid(&mut self.left, &entry.op);
        let record = Record::Did {
            tick: entry.tick,
            stored: entry.stored,
            drawn: entry.drawn,
            ticks: entry.ticks,
            lost: entry.lost,
            what,
        };
        keep(&mut self.records, record);
        self.count += 1;
        keep(&mut self.ends, self.count);
        mark(&mut self.marks, self.records.len() as u32 - 1, self.count);
    }

    /// Keeps the entry of an instruction that was done.
    pub(crate) fn push_instr(&mut self, tick: u32, stored: u32, sure: Sure, class: Class, pc: u32)
        requires { length (entries_of self.old) < room_of self.old }
        ensures entries { entries_of self.new ≡ entries_of self.old ++ record { tick = tick; stored = stored; drawn = sure.drawn; ticks = sure.ticks; op = op.Instr class pc; lost = false } ∷ [] }
        ensures room { room_of self.new ≡ room_of self.old }
        ensures cap { self.new.cap ≡ self.old.cap }
    {
        let record = Record::Did {
            tick,
            stored,
            drawn: sure.drawn,
            ticks: sure.ticks,
            lost: false,
            what: What::Instr { class, pc },
        };
        keep(&mut self.records, record);
        self.count += 1;
        keep(&mut self.ends, self.count);
        mark(&mut self.marks, self.records.len() as u32 - 1, self.count);
    }

    /// Keeps the entry of a write that was done, by the instruction at a place of the code or by none.
    pub(crate) fn push_write(
        &mut self,
        tick: u32,
        stored: u32,
        sure: Sure,
        pc: Option<u32>,
        at: u32,
        bytes: &[u8],
    )
        requires room { length (entries_of self.old) < room_of self.old }
        requires few { length bytes.now ≤ 64 }
        ensures entries { entries_of self.new ≡ entries_of self.old ++ record { tick = tick; stored = stored; drawn = sure.drawn; ticks = sure.ticks; op = write_of pc at bytes.now; lost = false } ∷ [] }
        ensures room { room_of self.new ≡ room_of self.old }
        ensures cap { self.new.cap ≡ self.old.cap }
    {
        let what = laid_write(&mut self.left, pc, at, bytes);
        let record = Record::Did {
            tick,
            stored,
            drawn: sure.drawn,
            ticks: sure.ticks,
            lost: false,
            what,
        };
        keep(&mut self.records, record);
        self.count += 1;
        keep(&mut self.ends, self.count);
        mark(&mut self.marks, self.records.len() as u32 - 1, self.count);
    }

    /// Keeps an entry for each of some ticks of sleep, in each of which so much is harvested.
    pub(crate) fn push_sleeps(&mut self, tick: u32, stored: u32, harvest: u32, ticks: u32)
        requires some { 1 ≤ ticks }
        requires in_cap { stored ≤ self.old.cap }
        requires in_time { tick + ticks ≤ MOST_TICKS }
        requires room { length (entries_of self.old) + ticks ≤ room_of self.old }
        ensures entries { entries_of self.new ≡ entries_of self.old ++ sleeps self.old.cap tick stored harvest ticks }
        ensures room { room_of self.new ≡ room_of self.old }
        ensures cap { self.new.cap ≡ self.old.cap }
    {
        let record = Record::Slept {
            tick,
            stored,
            harvest,
            ticks,
        };
        keep(&mut self.records, record);
        self.count += ticks;
        keep(&mut self.ends, self.count);
        mark(&mut self.marks, self.records.len() as u32 - 1, self.count);
    }
}
