//! Writing a saved image.

ghost use Rattle.std.specs.Prelude.{◌≡◌, ◌≤◌, ◌+◌, length};
ghost use Rattle.cn_base.specs.Causes.{HasCause};
ghost use Rattle.cn_base.specs.PageWords.{AddsTo, sink_in, sink_name};
ghost use Rattle.cn_base.specs.Writing.{Writes};
ghost use Rattle.cn_resume.specs.Saved.{head_bytes, saved_bytes};
ghost use Rattle.nv_memory.specs.Bytes.{bytes_at};

use cn_base::{Page, Piece, Sink, WriteFail};
use nv_memory::Board;

/// Adds the head.
fn add_head<K: Sink>(page: &mut Page<'_, K>, tick: u32, stored: u32) -> Result<(), WriteFail>
    ensures same_sink { sink_name page.new ≡ sink_name page.old }
    ensures text { AddsTo K.written page.old page.new (head_bytes tick stored) result }
    ensures cause { HasCause (K.faults (sink_in page.old)) (K.faults (sink_in page.new)) result }
{
    page.line(&[
        Piece::Text(b"CNI1"),
        Piece::Text(&tick.to_le_bytes()),
        Piece::Text(&stored.to_le_bytes()),
        Piece::Text(&[0, 0, 0, 0]),
    ])
}

// How many bytes of the memory go to the page at once.
const PART: u32 = 512;

// Adds so many bytes of the board's memory from a place on, as many as a part has at most.
fn add_part<B: Board, K: Sink>(
    page: &mut Page<'_, K>,
    board: &B,
    from: u32,
    count: u32,
) -> Result<(), WriteFail>
    requires few { count ≤ 512 }
    requires within { from + count ≤ length (B.state board.now).image }
    ensures same_sink { sink_name page.new ≡ sink_name page.old }
    ensures text { AddsTo K.written page.old page.new (bytes_at from count (B.state board.now).image) result }
    ensures cause { HasCause (K.faults (sink_in page.old)) (K.faults (sink_in page.new)) result }
{
    let _sound = board.size();
    let mut part = [0; 512];
    for k in 0..count {
        part[k as usize] = board.read(from + k);
    }
    page.text(&part[..count as usize])
}

/// Adds the bytes of the board's memory.
fn add_image<B: Board, K: Sink>(page: &mut Page<'_, K>, board: &B) -> Result<(), WriteFail>
    ensures same_sink { sink_name page.new ≡ sink_name page.old }
    ensures text { AddsTo K.written page.old page.new (B.state board.now).image result }
    ensures cause { HasCause (K.faults (sink_in page.old)) (K.faults (sink_in page.new)) result }
{
    let size = board.size();
    let mut from = 0;
    while from < size {
        let count = PART.min(size - from);
        match add_part(page, board, from, count) {
            Ok(()) => {}
            Err(fail) => return Err(fail),
        }
        from += count;
    }
    Ok(())
}

fn add_saved<B: Board, K: Sink>(page: &mut Page<'_, K>, board: &B) -> Result<(), WriteFail>
    ensures same_sink { sink_name page.new ≡ sink_name page.old }
    ensures text { AddsTo K.written page.old page.new (saved_bytes (B.state board.now)) result }
    ensures cause { HasCause (K.faults (sink_in page.old)) (K.faults (sink_in page.new)) result }
{
    match add_head(page, board.tick(), board.stored()) {
        Ok(()) => add_image(page, board),
        Err(fail) => Err(fail),
    }
}

/// Writes the file of a board as it is now: `CNI1`, its tick and its stored units as numbers of four bytes, the lowest byte first,
/// four zeros, and the bytes of its memory; or a proper prefix of that where a write fails. Takes no memory.
pub fn write_saved<B: Board, K: Sink>(board: &B, sink: &mut K) -> Result<(), WriteFail>
    ensures text { Writes (K.written sink.old) (K.written sink.new) (saved_bytes (B.state board.now)) result }
    ensures cause { HasCause (K.faults sink.old) (K.faults sink.new) result }
{
    let mut page = Page::on(sink);
    match add_saved(&mut page, board) {
        Ok(()) => page.close(),
        Err(fail) => Err(fail),
    }
}
