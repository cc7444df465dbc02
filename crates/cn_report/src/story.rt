//! The lines of what happened on a board.

ghost use Rattle.std.specs.Prelude.{◌≡◌, ◌∷◌, [], codes, decimal, slice_get};
ghost use Rattle.cn_base.specs.Causes.{HasCause};
ghost use Rattle.cn_base.specs.PageWords.{AddsTo, sink_in, sink_name};
ghost use Rattle.cn_base.specs.Texts.{line};
ghost use Rattle.cn_report.specs.Report.{name_of};
ghost use Rattle.cn_report.specs.Story.{dropped_line, dropped_text, lost_line, done_line, entry_line, story_text};
ghost use Rattle.recovery.specs.Past.{end_of, past_of};
ghost use Rattle.cn_report.specs.Windows.{AreHeads};
ghost use Rattle.checkpoint_slots.specs.declared.slot.Slot.{Slot as Kept};

use crate::heads::Heads;
use crate::silent::last_silent;
use cat_program::Program;
use cn_base::{Page, Piece, Sink, WriteFail};
use event_arrivals::{Arrivals, Dropped};
use nv_memory::{Board, Entry, Layout, Op};

/// The name of an event, or nothing where there is none.
pub(crate) fn event_name(program: &Program, event: u8) -> &[u8]
    ensures { result.now ≡ name_of (slice_get program.now.headers event) }
{
    let _checked = program.bodies();
    if event < program.events() {
        program.event(event).name.as_str().as_bytes()
    } else {
        b""
    }
}

fn add_dropped_line<K: Sink>(
    page: &mut Page<'_, K>,
    tick: u32,
    name: &[u8],
) -> Result<(), WriteFail>
    ensures same_sink { sink_name page.new ≡ sink_name page.old }
    ensures text { AddsTo K.written page.old page.new (line (codes "dropped" ∷ decimal tick ∷ name.now ∷ [])) result }
    ensures cause { HasCause (K.faults (sink_in page.old)) (K.faults (sink_in page.new)) result }
{
    page.line(&[
        Piece::Text(b"dropped "),
        Piece::Number(i128::from(tick)),
        Piece::Text(b" "),
        Piece::Text(name),
        Piece::Text(b"\n"),
    ])
}

fn add_dropped_one<K: Sink>(
    page: &mut Page<'_, K>,
    program: &Program,
    dropped: Dropped,
) -> Result<(), WriteFail>
    ensures same_sink { sink_name page.new ≡ sink_name page.old }
    ensures text { AddsTo K.written page.old page.new (dropped_line program.now.headers dropped) result }
    ensures cause { HasCause (K.faults (sink_in page.old)) (K.faults (sink_in page.new)) result }
{
    add_dropped_line(page, dropped.tick, event_name(program, dropped.event))
}

/// The line of each arrival that was dropped.
pub(crate) fn add_dropped<K: Sink>(
    page: &mut Page<'_, K>,
    program: &Program,
    arrivals: &Arrivals,
) -> Result<(), WriteFail>
    ensures same_sink { sink_name page.new ≡ sink_name page.old }
    ensures text { AddsTo K.written page.old page.new (dropped_text program.now.headers arrivals.now.dropped) result }
    ensures cause { HasCause (K.faults (sink_in page.old)) (K.faults (sink_in page.new)) result }
{
    for dropped in arrivals.dropped() {
        add_dropped_one(page, program, *dropped)?;
    }
    Ok(())
}

// The tick at which an operation ended.
pub(crate) fn ended(entry: &Entry) -> u64
    ensures { result ≡ end_of entry.now }
{
    u64::from(entry.tick) + u64::from(entry.ticks)
}

fn add_lost<K: Sink>(page: &mut Page<'_, K>, tick: u64) -> Result<(), WriteFail>
    ensures same_sink { sink_name page.new ≡ sink_name page.old }
    ensures text { AddsTo K.written page.old page.new (lost_line tick) result }
    ensures cause { HasCause (K.faults (sink_in page.old)) (K.faults (sink_in page.new)) result }
{
    page.line(&[
        Piece::Text(b"lost "),
        Piece::Number(i128::from(tick)),
        Piece::Text(b"\n"),
    ])
}

// A word, a tick, and how many records and steps are committed.
fn add_slot<'a, K: Sink>(
    page: &mut Page<'_, K>,
    word: &'a [u8],
    tick: u64,
    len: u32,
    steps: u32,
) -> Result<(), WriteFail>
    ensures same_sink { sink_name page.new ≡ sink_name page.old }
    ensures text { AddsTo K.written page.old page.new (line (word.now ∷ decimal tick ∷ decimal len ∷ decimal steps ∷ [])) result }
    ensures cause { HasCause (K.faults (sink_in page.old)) (K.faults (sink_in page.new)) result }
{
    page.line(&[
        Piece::Text(word),
        Piece::Text(b" "),
        Piece::Number(i128::from(tick)),
        Piece::Text(b" "),
        Piece::Number(i128::from(len)),
        Piece::Text(b" "),
        Piece::Number(i128::from(steps)),
        Piece::Text(b"\n"),
    ])
}

// The line of an operation that was done, where it has one.
fn add_done<K: Sink>(
    page: &mut Page<'_, K>,
    op: &Op,
    tick: u64,
    len: u32,
    steps: u32,
) -> Result<(), WriteFail>
    ensures same_sink { sink_name page.new ≡ sink_name page.old }
    ensures text { (slot : Kept) → slot.len ≡ len → slot.steps ≡ steps → AddsTo K.written page.old page.new (done_line op.now tick slot) result }
    ensures cause { HasCause (K.faults (sink_in page.old)) (K.faults (sink_in page.new)) result }
{
    match op {
        Op::Wake => add_slot(page, b"boot", tick, len, steps),
        Op::Write { at: 0, .. } => add_slot(page, b"commit", tick, len, steps),
        _ => Ok(()),
    }
}

// The line of an entry, where it has one.
fn add_entry<K: Sink>(
    page: &mut Page<'_, K>,
    entry: &Entry,
    len: u32,
    steps: u32,
) -> Result<(), WriteFail>
    ensures same_sink { sink_name page.new ≡ sink_name page.old }
    ensures text { (slot : Kept) → slot.len ≡ len → slot.steps ≡ steps → AddsTo K.written page.old page.new (entry_line slot entry.now) result }
    ensures cause { HasCause (K.faults (sink_in page.old)) (K.faults (sink_in page.new)) result }
{
    if entry.lost {
        add_lost(page, ended(entry))
    } else {
        add_done(page, &entry.op, ended(entry), len, steps)
    }
}

/// The line of each entry that has one, in order. Silent entries have none, and a run of them is passed at once. The heads are those
/// of the board's first image.
pub(crate) fn add_story<B: Board, K: Sink>(
    page: &mut Page<'_, K>,
    layout: &Layout,
    board: &B,
    mut heads: Heads,
) -> Result<(), WriteFail>
    requires { AreHeads layout.now (B.start (B.origin board.now)).image heads }
    ensures same_sink { sink_name page.new ≡ sink_name page.old }
    ensures text { AddsTo K.written page.old page.new (story_text (past_of layout.now (B.start (B.origin board.now)) (B.state board.now))) result }
    ensures cause { HasCause (K.faults (sink_in page.old)) (K.faults (sink_in page.new)) result }
{
    let entries = board.entries();
    let mut place = 0;
    while place < entries {
        let last = last_silent(board, place);
        let entry = board.entry(last);
        heads.follow(layout, &entry.op);
        add_entry(page, &entry, heads.len(), heads.steps())?;
        place = last + 1;
    }
    Ok(())
}
