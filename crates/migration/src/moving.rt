ghost use Rattle.std.specs.Prelude.{◌≡◌, ◌+◌, ◌*◌, ◌≤◌, ◌<◌, length, take, true};
ghost use Rattle.std.specs.Int.{w32, from_le_bytes};
ghost use Rattle.nv_memory.specs.Board.{Runs};
ghost use Rattle.nv_memory.specs.Bytes.{bytes_at, written};
ghost use Rattle.nv_memory.specs.Layout.{log_at, size_of};
ghost use Rattle.checkpoint_slots.specs.Image.{selected_of};
ghost use Rattle.migration.specs.Moves.{AreOfMove, CanMove, len_in, lines_in, missing, move_writes, records_of, writes_of};

use arrayvec::ArrayVec;
use checkpoint_slots::{selected, stands};
use nv_log::{entries_are_spelled_once, moved_record, records_are_read_again};
use nv_memory::{Answer, Board, Layout, Line, parts_are_apart, runs_are_joined, writes_are_local};

// Writes bytes at a place, where other ones stand there.
fn bring<B: Board>(board: &mut B, at: u32, bytes: &[u8]) -> Answer
    requires on { (B.state board.old).on ≡ true }
    requires some { 1 ≤ length bytes.now }
    requires few { length bytes.now ≤ 64 }
    requires low { at < 4100000000 }
    requires within { at + length bytes.now ≤ length (B.state board.old).image }
    ensures runs { Runs (B.state board.old) (missing (B.state board.old).image (record { at = at; bytes = bytes.now })) result (B.state board.new) }
    ensures image { result ≡ Answer.Done → (B.state board.new).image ≡ written at bytes.now (B.state board.old).image }
    ensures on { result ≡ Answer.Done → (B.state board.new).on ≡ true }
    ensures origin { B.origin board.new ≡ B.origin board.old }
{
    writes_are_local();
    runs_are_joined();
    if stands(board, at, bytes) {
        return Answer::Done;
    }
    board.write(at, bytes)
}

// The 64 bytes from a place on.
fn line_at<B: Board>(board: &B, at: u32) -> Line
    requires within { at + 64 ≤ length (B.state board.now).image }
    requires low { at < 4100000000 }
    ensures { result ≡ bytes_at at 64 (B.state board.now).image }
{
    let mut bytes: ArrayVec<u8, 64> = ArrayVec::new();
    for i in 0..64 {
        let _ = bytes.try_push(board.read(at + i));
    }
    Line::of(bytes.as_slice())
}

// The number of four bytes from a place on.
fn number_at<B: Board>(board: &B, at: u32) -> u32
    requires within { at + 4 ≤ length (B.state board.now).image }
    requires low { at < 4100000000 }
    ensures { result ≡ from_le_bytes w32 (bytes_at at 4 (B.state board.now).image) }
{
    u32::from_le_bytes([
        board.read(at),
        board.read(at + 1),
        board.read(at + 2),
        board.read(at + 3),
    ])
}

// Brings over the committed records.
fn bring_records<B: Board>(board: &mut B, old: &Layout, new: &Layout, len: u32) -> Answer
    requires on { (B.state board.old).on ≡ true }
    requires can { CanMove old.now new.now (B.state board.old).image }
    requires all { len ≡ len_in old.now (B.state board.old).image }
    ensures runs { Runs (B.state board.old) (writes_of (B.state board.old).image (records_of old.now new.now (B.state board.old).image)) result (B.state board.new) }
    ensures front { result ≡ Answer.Done → take (log_at new.now) (B.state board.new).image ≡ take (log_at new.now) (B.state board.old).image }
    ensures size { result ≡ Answer.Done → length (B.state board.new).image ≡ length (B.state board.old).image }
    ensures on { result ≡ Answer.Done → (B.state board.new).on ≡ true }
    ensures origin { B.origin board.new ≡ B.origin board.old }
{
    writes_are_local();
    runs_are_joined();
    parts_are_apart();
    entries_are_spelled_once();
    records_are_read_again();
    for k in 0..len {
        let record = moved_record(board, old, new, k);
        let at = new.log_at() + new.record_len() * k;
        match bring(board, at, record.bytes()) {
            Answer::Done => {}
            Answer::Lost => return Answer::Lost,
            Answer::Over => return Answer::Over,
        }
    }
    Answer::Done
}

// Brings over the selected slot.
fn bring_lines<B: Board>(board: &mut B, old: &Layout, new: &Layout, s: u8) -> Answer
    requires on { (B.state board.old).on ≡ true }
    requires layouts { AreOfMove old.now new.now }
    requires image { size_of new.now ≤ length (B.state board.old).image }
    requires selected { s ≡ selected_of (B.state board.old).image }
    requires slot { s ≤ 1 }
    ensures runs { Runs (B.state board.old) (writes_of (B.state board.old).image (lines_in old.now new.now (B.state board.old).image)) result (B.state board.new) }
    ensures size { result ≡ Answer.Done → length (B.state board.new).image ≡ length (B.state board.old).image }
    ensures on { result ≡ Answer.Done → (B.state board.new).on ≡ true }
    ensures origin { B.origin board.new ≡ B.origin board.old }
{
    writes_are_local();
    runs_are_joined();
    parts_are_apart();
    for i in 0..old.lines() {
        let line = line_at(board, old.slot_at(s) + 64 * i);
        match bring(board, new.slot_at(s) + 64 * i, line.bytes()) {
            Answer::Done => {}
            Answer::Lost => return Answer::Lost,
            Answer::Over => return Answer::Over,
        }
    }
    Answer::Done
}

/// Moves an image of format 1 to format 2: it writes each committed record and each line of the selected slot at its new place where it doesn't
/// stand there yet, in ascending order, and then the format byte. It answers as the board does, `Done` where the image is in format 2 then.
/// After a loss the image stands for what it stood for, and a move that begins anew ends in the same (`moves_are_safe`). It takes no memory.
pub fn migrate<B: Board>(board: &mut B, old: &Layout, new: &Layout) -> Answer
    requires on { (B.state board.old).on ≡ true }
    requires can { CanMove old.now new.now (B.state board.old).image }
    ensures runs { Runs (B.state board.old) (move_writes old.now new.now (B.state board.old).image) result (B.state board.new) }
    ensures origin { B.origin board.new ≡ B.origin board.old }
{
    writes_are_local();
    runs_are_joined();
    parts_are_apart();
    let s = selected(board);
    let len = number_at(board, old.slot_at(s));
    match bring_records(board, old, new, len) {
        Answer::Done => {}
        Answer::Lost => return Answer::Lost,
        Answer::Over => return Answer::Over,
    }
    match bring_lines(board, old, new, s) {
        Answer::Done => {}
        Answer::Lost => return Answer::Lost,
        Answer::Over => return Answer::Over,
    }
    board.write(1, &[1])
}
