//! The lines of the committed log.

ghost use Rattle.std.specs.Prelude.{◌≡◌, ◌<◌, ◌≤◌, length};
ghost use Rattle.cn_base.specs.Causes.{HasCause};
ghost use Rattle.cn_base.specs.PageWords.{AddsTo, sink_in, sink_name};
ghost use Rattle.nv_memory.specs.Board.{IsSound};
ghost use Rattle.nv_memory.specs.Layout.{size_of};
ghost use Rattle.nv_log.specs.Record.{IsOf};
ghost use Rattle.recovery.specs.Past.{past_of, committed_at, last_slot, entry_in};
ghost use Rattle.cn_report.specs.Passed.{HasPassed, IsBefore};
ghost use Rattle.cn_report.specs.Outcome.{arrived_at, due_at, out_line, ran_line, before_line, word_of, log_line, known_at, log_text};
ghost use Rattle.cn_report.specs.Windows.{AreHeads};
ghost use Rattle.cn_report.specs.Whole.{IsReplayed};

use crate::cursor::Cursor;
use crate::heads::Heads;
use crate::story::event_name;
use cat_program::{LogEntry, Program};
use cn_base::{Page, Piece, Sink, WriteFail};
use event_arrivals::Arrivals;
use nv_log::{entry_at, records_are_read_again};
use nv_memory::{Board, Layout};

fn add_out<K: Sink>(page: &mut Page<'_, K>, channel: u8, value: i32) -> Result<(), WriteFail>
    ensures same_sink { sink_name page.new ≡ sink_name page.old }
    ensures text { AddsTo K.written page.old page.new (out_line channel value) result }
    ensures cause { HasCause (K.faults (sink_in page.old)) (K.faults (sink_in page.new)) result }
{
    page.line(&[
        Piece::Text(b"out "),
        Piece::Number(i128::from(channel)),
        Piece::Text(b" "),
        Piece::Number(i128::from(value)),
        Piece::Text(b"\n"),
    ])
}

/// An event that ran: which arrival of it in which version, and when it arrived and started.
#[derive(Clone, Copy, Debug)]
pub(crate) struct Run {
    pub(crate) index: u32,
    pub(crate) version: u8,
    pub(crate) arrived: u32,
    pub(crate) started: u32,
}

// The word for a run that was done by the tick at which it was due, or not.
fn word(met: bool) -> &'static [u8]
    ensures { result.now ≡ word_of met }
{
    if met { b"met" } else { b"late" }
}

fn add_ran_line<'a, K: Sink>(
    page: &mut Page<'_, K>,
    name: &'a [u8],
    run: Run,
    done: u64,
    word: &'a [u8],
) -> Result<(), WriteFail>
    ensures same_sink { sink_name page.new ≡ sink_name page.old }
    ensures text { AddsTo K.written page.old page.new (ran_line name.now run.index run.version run.arrived run.started done word.now) result }
    ensures cause { HasCause (K.faults (sink_in page.old)) (K.faults (sink_in page.new)) result }
{
    page.line(&[
        Piece::Text(b"ran "),
        Piece::Text(name),
        Piece::Text(b" "),
        Piece::Number(i128::from(run.index)),
        Piece::Text(b" "),
        Piece::Number(i128::from(run.version)),
        Piece::Text(b" "),
        Piece::Number(i128::from(run.arrived)),
        Piece::Text(b" "),
        Piece::Number(i128::from(run.started)),
        Piece::Text(b" "),
        Piece::Number(i128::from(done)),
        Piece::Text(b" "),
        Piece::Text(word),
        Piece::Text(b"\n"),
    ])
}

// The line of an event that had run before.
fn add_before_line<K: Sink>(page: &mut Page<'_, K>, name: &[u8], run: Run) -> Result<(), WriteFail>
    ensures same_sink { sink_name page.new ≡ sink_name page.old }
    ensures text { AddsTo K.written page.old page.new (before_line name.now run.index run.version run.arrived run.started) result }
    ensures cause { HasCause (K.faults (sink_in page.old)) (K.faults (sink_in page.new)) result }
{
    page.line(&[
        Piece::Text(b"ran "),
        Piece::Text(name),
        Piece::Text(b" "),
        Piece::Number(i128::from(run.index)),
        Piece::Text(b" "),
        Piece::Number(i128::from(run.version)),
        Piece::Text(b" "),
        Piece::Number(i128::from(run.arrived)),
        Piece::Text(b" "),
        Piece::Number(i128::from(run.started)),
        Piece::Text(b" - before\n"),
    ])
}

// The tick of an arrival.
pub(crate) fn arrived(arrivals: &Arrivals, event: u8, index: u32) -> u32
    requires { event < length arrivals.now.timings }
    ensures { result ≡ arrived_at arrivals.now event index }
{
    match arrivals.arrival(event, index) {
        Some(arrival) => arrival.tick,
        None => 0,
    }
}

// The tick by which an arrival is to be done.
pub(crate) fn due(program: &Program, arrivals: &Arrivals, event: u8, index: u32) -> u64
    requires arrivals { event < length arrivals.now.timings }
    requires event { event < length program.now.events }
    ensures { result ≡ due_at program.now.headers arrivals.now event index }
{
    u64::from(arrived(arrivals, event, index)) + u64::from(program.event(event).deadline)
}

// The line of a record, by the tick at which it was committed, where that is known.
fn add_record<K: Sink>(
    page: &mut Page<'_, K>,
    program: &Program,
    arrivals: &Arrivals,
    done: Option<u64>,
    entry: LogEntry,
) -> Result<(), WriteFail>
    requires events { length arrivals.now.timings ≡ length program.now.events }
    requires entry { IsOf program.now entry }
    ensures same_sink { sink_name page.new ≡ sink_name page.old }
    ensures text { AddsTo K.written page.old page.new (log_line program.now.headers arrivals.now done entry) result }
    ensures cause { HasCause (K.faults (sink_in page.old)) (K.faults (sink_in page.new)) result }
{
    match entry {
        LogEntry::Out { channel, value } => add_out(page, channel, value),
        LogEntry::Ran {
            event,
            version,
            start,
            index,
            ..
        } => {
            let name = event_name(program, event);
            let run = Run {
                index,
                version,
                arrived: arrived(arrivals, event, index),
                started: start,
            };
            match done {
                Some(done) => {
                    let met = done <= due(program, arrivals, event, index);
                    add_ran_line(page, name, run, done, word(met))
                }
                None => add_before_line(page, name, run),
            }
        }
    }
}

/// The entry of the log at a place of a committed record.
pub(crate) fn committed_entry<B: Board>(
    program: &Program,
    layout: &Layout,
    board: &B,
    place: u32,
) -> LogEntry
    requires sound { IsSound (B.start (B.origin board.now)) (B.state board.now) }
    requires large { size_of layout.now ≤ length (B.start (B.origin board.now)).image }
    requires replayed { IsReplayed program.now (past_of layout.now (B.start (B.origin board.now)) (B.state board.now)) }
    requires committed { place < (last_slot (past_of layout.now (B.start (B.origin board.now)) (B.state board.now))).len }
    ensures entry { result ≡ entry_in (past_of layout.now (B.start (B.origin board.now)) (B.state board.now)) place }
    ensures exists { IsOf program.now result }
{
    records_are_read_again();
    let Some(entry) = entry_at(board, layout, program, place) else {
        unreachable!();
    };
    entry
}

// When the record at a place was committed, for which the cursor goes on. The first `from` ones were there at the beginning.
fn known_at<B: Board>(
    layout: &Layout,
    board: &B,
    cursor: &mut Cursor,
    from: u32,
    place: u32,
) -> Option<u64>
    requires from { from ≡ (committed_at (past_of layout.now (B.start (B.origin board.now)) (B.state board.now)) 0).len }
    requires passed { HasPassed (past_of layout.now (B.start (B.origin board.now)) (B.state board.now)) cursor.old }
    requires before { IsBefore (past_of layout.now (B.start (B.origin board.now)) (B.state board.now)) place cursor.old }
    requires committed { place < (last_slot (past_of layout.now (B.start (B.origin board.now)) (B.state board.now))).len }
    ensures known { result ≡ known_at (past_of layout.now (B.start (B.origin board.now)) (B.state board.now)) from place }
    ensures passed { HasPassed (past_of layout.now (B.start (B.origin board.now)) (B.state board.now)) cursor.new }
    ensures before { IsBefore (past_of layout.now (B.start (B.origin board.now)) (B.state board.now)) place cursor.new }
{
    if place < from {
        None
    } else {
        Some(cursor.done(layout, board, place))
    }
}

/// The line of each committed record, in order. The heads are those of the board's first image, which has `from` records.
pub(crate) fn add_log<B: Board, K: Sink>(
    page: &mut Page<'_, K>,
    program: &Program,
    arrivals: &Arrivals,
    layout: &Layout,
    board: &B,
    heads: Heads,
    from: u32,
    len: u32,
) -> Result<(), WriteFail>
    requires events { length arrivals.now.timings ≡ length program.now.events }
    requires sound { IsSound (B.start (B.origin board.now)) (B.state board.now) }
    requires large { size_of layout.now ≤ length (B.start (B.origin board.now)).image }
    requires replayed { IsReplayed program.now (past_of layout.now (B.start (B.origin board.now)) (B.state board.now)) }
    requires heads { AreHeads layout.now (B.start (B.origin board.now)).image heads }
    requires from { from ≡ (committed_at (past_of layout.now (B.start (B.origin board.now)) (B.state board.now)) 0).len }
    requires len { len ≡ (last_slot (past_of layout.now (B.start (B.origin board.now)) (B.state board.now))).len }
    ensures same_sink { sink_name page.new ≡ sink_name page.old }
    ensures text { AddsTo K.written page.old page.new (log_text program.now.headers arrivals.now (past_of layout.now (B.start (B.origin board.now)) (B.state board.now)) from) result }
    ensures cause { HasCause (K.faults (sink_in page.old)) (K.faults (sink_in page.new)) result }
{
    let mut cursor = Cursor::at(heads);
    for place in 0..len {
        let entry = committed_entry(program, layout, board, place);
        let done = known_at(layout, board, &mut cursor, from, place);
        add_record(page, program, arrivals, done, entry)?;
    }
    Ok(())
}
