ghost use Rattle.std.specs.Prelude.{◌≡◌, ◌≢◌, ◌+◌, ◌*◌, ◌^◌, ◌<◌, ◌≤◌, ◌↔◌, ◌==◌, IsTrue, length, true, false, Some};
ghost use Rattle.nv_memory.specs.Bytes.{bytes_at};
ghost use Rattle.nv_memory.specs.Layout.{size_of, record_len};
ghost use Rattle.cat_program.specs.Checked.{HasVersion};
ghost use Rattle.nv_memory.specs.Board.{Steps, IsSound};
ghost use Rattle.nv_log.specs.Record.{EntryFits, record_of, record_bytes, record_with, short_record, long_record, IsFound};
ghost use Rattle.std.specs.Int.{w32, w64, to_le_bytes};
ghost use Rattle.nv_log.specs.Append.{op_of, append_op, Puts, ChangesRecord};
ghost use Rattle.nv_log.specs.PutOf.{put_of_answer};
ghost use Rattle.cat_program.specs.declared.outs.LogEntry.{LogEntry as Recorded};

use arrayvec::ArrayVec;
use cat_program::{LogEntry, Program};
use nv_memory::{Answer, Board, Layout, Line, parts_are_apart, writes_are_local};

/// By which operation an entry is written: a write, or the instruction at a place of the code.
#[derive(Clone, Copy, Debug)]
pub enum By {
    Write,
    Instr { pc: u32 },
}

/// What came of an append: what the board answered, or `Full` where the log has no place left.
#[derive(Clone, Copy, Debug, PartialEq, Eq)]
pub enum Put {
    Done,
    Full,
    Lost,
    Over,
}

// A record in format 1.
fn short_record(head: (u8, u8, u8, u8), first: u32, second: u32, third: u32) -> Line
    ensures bytes { result ≡ short_record head.0 head.1 head.2 head.3 first second third }
{
    let (kind, a, b, c) = head;
    let mut bytes: ArrayVec<u8, 64> = ArrayVec::new();
    let _ = bytes.try_extend_from_slice(&[kind, a, b, c]);
    let _ = bytes.try_extend_from_slice(&first.to_le_bytes());
    let _ = bytes.try_extend_from_slice(&second.to_le_bytes());
    let _ = bytes.try_extend_from_slice(&third.to_le_bytes());
    Line::of(bytes.as_slice())
}

// A record in format 2.
fn long_record(head: (u8, u8, u8, u8), first: u32, second: u64, third: u32) -> Line
    ensures bytes { result ≡ long_record head.0 head.1 head.2 head.3 first second third 0 }
{
    let (kind, a, b, c) = head;
    let mut bytes: ArrayVec<u8, 64> = ArrayVec::new();
    let _ = bytes.try_extend_from_slice(&[kind, a, b, c]);
    let _ = bytes.try_extend_from_slice(&first.to_le_bytes());
    let _ = bytes.try_extend_from_slice(&second.to_le_bytes());
    let _ = bytes.try_extend_from_slice(&third.to_le_bytes());
    let _ = bytes.try_extend_from_slice(&[0, 0, 0, 0]);
    Line::of(bytes.as_slice())
}

// The spelling of an entry.
fn record(layout: &Layout, entry: &LogEntry) -> Line
    ensures bytes { result ≡ record_of layout.now entry.now }
{
    let (head, first, second, third) = match entry {
        LogEntry::Out { channel, value } => ((1, *channel, 0, 0), value.cast_unsigned(), 0, 0),
        LogEntry::Ran {
            event,
            version,
            steps,
            start,
            index,
        } => { ((2, *event, *version, 0), *steps, *start, *index) }
    };
    if layout.is_old() {
        short_record(head, first, second, third)
    } else {
        long_record(head, first, u64::from(second), third)
    }
}

fn put_of(answer: Answer) -> Put
    ensures { result ≡ put_of_answer answer }
{
    match answer {
        Answer::Done => Put::Done,
        Answer::Lost => Put::Lost,
        Answer::Over => Put::Over,
    }
}

// Writes the bytes by the operation that is named.
fn write_by<B: Board>(board: &mut B, at: u32, bytes: &[u8], by: By) -> Answer
    requires on { (B.state board.old).on ≡ true }
    requires some { 1 ≤ length bytes.now }
    requires few { length bytes.now ≤ 64 }
    requires in_image { at + length bytes.now ≤ length (B.state board.old).image }
    ensures step { Steps (B.state board.old) (op_of by at bytes.now) result (B.state board.new) }
    ensures origin { B.origin board.new ≡ B.origin board.old }
    ensures sound { IsSound (B.start (B.origin board.new)) (B.state board.new) }
{
    match by {
        By::Write => board.write(at, bytes),
        By::Instr { pc } => board.emit(pc, at, bytes),
    }
}

/// Appends an entry behind the first `len` records, by the one operation that `by` names. It answers `Full` exactly where
/// the log has `len` places, without calling the board, and otherwise as the board did. Whatever becomes of the operation,
/// the gate, the slots and all records but that at place `len` stay as they were. The start of a job is at most 4,000,000 where the
/// layout is in format 2. It takes no memory.
pub fn append<B: Board>(board: &mut B, layout: &Layout, len: u32, entry: &LogEntry, by: By) -> Put
    requires on { (B.state board.old).on ≡ true }
    requires image { size_of layout.now ≤ length (B.state board.old).image }
    requires len { len ≤ layout.now.log }
    requires fits { EntryFits layout.now entry.now }
    ensures full { (result ≡ Put.Full) ↔ (len ≡ layout.now.log) }
    ensures puts { Puts (B.state board.old) (append_op layout.now len entry.now by) result (B.state board.new) }
    ensures keeps { ChangesRecord layout.now len (B.state board.old).image (B.state board.new).image }
    ensures done { result ≡ Put.Done → record_bytes layout.now len (B.state board.new).image ≡ record_of layout.now entry.now }
    ensures origin { B.origin board.new ≡ B.origin board.old }
    ensures sound { result ≢ Put.Full → IsSound (B.start (B.origin board.new)) (B.state board.new) }
{
    writes_are_local();
    parts_are_apart();
    let line = record(layout, entry);
    if len == layout.log {
        return Put::Full;
    }
    let at = layout.log_at() + layout.record_len() * len;
    let answer = write_by(board, at, line.bytes(), by);
    put_of(answer)
}

// The number of four bytes of the image, which are its bytes again.
fn number<B: Board>(board: &B, at: u32) -> u32
    requires within { at + 4 ≤ length (B.state board.now).image }
    requires low { at < 4000000000 }
    ensures { to_le_bytes w32 result ≡ bytes_at at 4 (B.state board.now).image }
{
    u32::from_le_bytes([
        board.read(at),
        board.read(at + 1),
        board.read(at + 2),
        board.read(at + 3),
    ])
}

// The number of eight bytes of the image, likewise.
fn wide_number<B: Board>(board: &B, at: u32) -> u64
    requires within { at + 8 ≤ length (B.state board.now).image }
    requires low { at < 4000000000 }
    ensures { to_le_bytes w64 result ≡ bytes_at at 8 (B.state board.now).image }
{
    u64::from_le_bytes([
        board.read(at),
        board.read(at + 1),
        board.read(at + 2),
        board.read(at + 3),
        board.read(at + 4),
        board.read(at + 5),
        board.read(at + 6),
        board.read(at + 7),
    ])
}

// Whether the program has such an event and version.
fn has_version(program: &Program, event: u8, version: u8) -> bool
    ensures { IsTrue result ↔ HasVersion program.now event version }
{
    match program.versions().get(event as usize) {
        Some(blocks) => (version as usize) < blocks.len(),
        None => false,
    }
}

// The entry that four bytes and the numbers behind them spell. In format 1 there is no last one.
fn entry_of(
    layout: &Layout,
    program: &Program,
    head: (u8, u8, u8, u8),
    first: u32,
    second: u64,
    third: u32,
    last: u32,
) -> Option<LogEntry>
    requires short { (layout.now.format == 1) ≡ true → (second < 2 ^ 32) × (last ≡ 0) }
    requires wide { second < 2 ^ 64 }
    ensures { IsFound layout.now program.now (record_with layout.now.format head.0 head.1 head.2 head.3 first second third last) result }
{
    let (kind, a, b, c) = head;
    if last != 0 {
        return None;
    }
    if kind == 1 && b == 0 && c == 0 && second == 0 && third == 0 {
        return Some(LogEntry::Out {
            channel: a,
            value: first.cast_signed(),
        });
    }
    let most = if layout.is_old() {
        4_294_967_295
    } else {
        4_000_000
    };
    if kind == 2 && c == 0 && second <= most && has_version(program, a, b) {
        return Some(LogEntry::Ran {
            event: a,
            version: b,
            steps: first,
            start: second as u32,
            index: third,
        });
    }
    None
}

// The entry that a record in format 1 spells.
fn short_entry<B: Board>(board: &B, layout: &Layout, program: &Program, at: u32) -> Option<LogEntry>
    requires format { (layout.now.format == 1) ≡ true }
    requires within { at + 16 ≤ length (B.state board.now).image }
    requires low { at < 3000000000 }
    ensures { IsFound layout.now program.now (bytes_at at 16 (B.state board.now).image) result }
{
    let head = (
        board.read(at),
        board.read(at + 1),
        board.read(at + 2),
        board.read(at + 3),
    );
    let first = number(board, at + 4);
    let second = number(board, at + 8);
    let third = number(board, at + 12);
    entry_of(layout, program, head, first, u64::from(second), third, 0)
}

// The entry that a record in format 2 spells.
fn long_entry<B: Board>(board: &B, layout: &Layout, program: &Program, at: u32) -> Option<LogEntry>
    requires format { (layout.now.format == 1) ≡ false }
    requires within { at + 24 ≤ length (B.state board.now).image }
    requires low { at < 3000000000 }
    ensures { IsFound layout.now program.now (bytes_at at 24 (B.state board.now).image) result }
{
    let head = (
        board.read(at),
        board.read(at + 1),
        board.read(at + 2),
        board.read(at + 3),
    );
    let first = number(board, at + 4);
    let second = wide_number(board, at + 8);
    let third = number(board, at + 16);
    let last = number(board, at + 20);
    entry_of(layout, program, head, first, second, third, last)
}

/// The entry of the program that a record spells, `None` exactly where it spells none. It takes no memory.
pub fn entry_at<B: Board>(
    board: &B,
    layout: &Layout,
    program: &Program,
    place: u32,
) -> Option<LogEntry>
    requires image { size_of layout.now ≤ length (B.state board.now).image }
    requires place { place < layout.now.log }
    ensures { IsFound layout.now program.now (record_bytes layout.now place (B.state board.now).image) result }
{
    let at = layout.log_at() + layout.record_len() * place;
    if layout.is_old() {
        short_entry(board, layout, program, at)
    } else {
        long_entry(board, layout, program, at)
    }
}

/// The record at a place of a log in format 1, as format 2 spells it. It takes no memory.
pub fn moved_record<B: Board>(board: &B, old: &Layout, new: &Layout, place: u32) -> Line
    requires from { (old.now.format == 1) ≡ true }
    requires to { (new.now.format == 1) ≡ false }
    requires image { size_of old.now ≤ length (B.state board.now).image }
    requires place { place < old.now.log }
    ensures { (entry : Recorded) → EntryFits new.now entry → record_bytes old.now place (B.state board.now).image ≡ record_of old.now entry → result ≡ record_of new.now entry }
{
    parts_are_apart();
    let at = old.log_at() + old.record_len() * place;
    let head = (
        board.read(at),
        board.read(at + 1),
        board.read(at + 2),
        board.read(at + 3),
    );
    let first = number(board, at + 4);
    let second = number(board, at + 8);
    let third = number(board, at + 12);
    long_record(head, first, u64::from(second), third)
}
