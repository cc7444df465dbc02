//! How many lines of each kind a report has.

ghost use Rattle.std.specs.Prelude.{◌≡◌, ◌<◌, ◌≤◌, if◌then◌else◌, count_by, length};
ghost use Rattle.nv_memory.specs.Board.{IsSound};
ghost use Rattle.nv_memory.specs.Layout.{size_of};
ghost use Rattle.nv_log.specs.Record.{IsOf};
ghost use Rattle.checkpoint_slots.specs.Slot.{IsMadeFor};
ghost use Rattle.recovery.specs.First.{IsFresh};
ghost use Rattle.recovery.specs.Past.{past_of, committed_at, last_slot, entry_in, done_at};
ghost use Rattle.cn_report.specs.Counts.{is_out, is_ran, is_met, records, outs_in, ran_in, met_in};
ghost use Rattle.cn_report.specs.Tallied.{tally_of};
ghost use Rattle.cn_report.specs.Whole.{IsReplayed};
ghost use Rattle.cn_report.specs.Windows.{AreHeads};

use crate::counts::Tally;
use crate::cursor::Cursor;
use crate::heads::Heads;
use crate::log::{committed_entry, due};
use crate::shadow::Shadow;
use cat_program::{LogEntry, Program};
use event_arrivals::Arrivals;
use nv_memory::{Board, Layout};
use recovery::recover;

/// How many records of the log are of each kind.
#[derive(Clone, Copy, Debug)]
pub(crate) struct Counts {
    pub(crate) ran: u32,
    pub(crate) met: u32,
    pub(crate) outs: u32,
}

fn one_if(test: bool) -> u32
    ensures { result ≡ (if test then 1 else 0) }
{
    if test { 1 } else { 0 }
}

fn is_out(entry: LogEntry) -> bool
    ensures { result ≡ is_out entry }
{
    match entry {
        LogEntry::Out { .. } => true,
        LogEntry::Ran { .. } => false,
    }
}

fn is_met(program: &Program, arrivals: &Arrivals, done: u64, entry: LogEntry) -> bool
    requires events { length arrivals.now.timings ≡ length program.now.events }
    requires entry { IsOf program.now entry }
    ensures { result ≡ is_met program.now.headers arrivals.now done entry }
{
    match entry {
        LogEntry::Out { .. } => false,
        LogEntry::Ran { event, index, .. } => done <= due(program, arrivals, event, index),
    }
}

// How many committed records are of each kind. The heads are those of the board's first image, which has no records.
fn count_log<B: Board>(
    program: &Program,
    arrivals: &Arrivals,
    layout: &Layout,
    board: &B,
    heads: Heads,
    len: u32,
) -> Counts
    requires events { length arrivals.now.timings ≡ length program.now.events }
    requires sound { IsSound (B.start (B.origin board.now)) (B.state board.now) }
    requires large { size_of layout.now ≤ length (B.start (B.origin board.now)).image }
    requires replayed { IsReplayed program.now (past_of layout.now (B.start (B.origin board.now)) (B.state board.now)) }
    requires none { (committed_at (past_of layout.now (B.start (B.origin board.now)) (B.state board.now)) 0).len ≡ 0 }
    requires heads { AreHeads layout.now (B.start (B.origin board.now)).image heads }
    requires len { len ≡ (last_slot (past_of layout.now (B.start (B.origin board.now)) (B.state board.now))).len }
    ensures ran { result.ran ≡ ran_in (past_of layout.now (B.start (B.origin board.now)) (B.state board.now)) }
    ensures met { result.met ≡ met_in program.now.headers arrivals.now (past_of layout.now (B.start (B.origin board.now)) (B.state board.now)) }
    ensures outs { result.outs ≡ outs_in (past_of layout.now (B.start (B.origin board.now)) (B.state board.now)) }
{
    let mut cursor = Cursor::at(heads);
    let mut ran = 0;
    let mut met = 0;
    let mut outs = 0;
    for place in 0..len {
        let entry = committed_entry(program, layout, board, place);
        let done = cursor.done(layout, board, place);
        let out = is_out(entry);
        ran += one_if(!out);
        met += one_if(is_met(program, arrivals, done, entry));
        outs += one_if(out);
    }
    Counts { ran, met, outs }
}

/// Counts the lines of the report of a replay: the events that ran, those of them that were done in time, the operations that were
/// lost, the arrivals that were dropped, and the values that were put out. The board is as for the report of a replay. Takes no memory.
/// Afterwards the shadow may hold other slots.
pub fn tally<B: Board>(
    program: &Program,
    arrivals: &Arrivals,
    layout: &Layout,
    board: &B,
    shadow: &mut Shadow,
) -> Tally
    requires events { length arrivals.now.timings ≡ length program.now.events }
    requires fresh { IsFresh program.now layout.now (B.start (B.origin board.now)).image }
    requires replayed { IsReplayed program.now (past_of layout.now (B.start (B.origin board.now)) (B.state board.now)) }
    requires made { IsMadeFor layout.now shadow.old.slot }
    ensures tally { result ≡ tally_of program.now.headers arrivals.now (past_of layout.now (B.start (B.origin board.now)) (B.state board.now)) }
    ensures made { IsMadeFor layout.now shadow.new.slot }
{
    let lost = board.losses();
    arrivals.are_sound();
    recover(board, layout, &mut shadow.slot);
    let counts = count_log(
        program,
        arrivals,
        layout,
        board,
        Heads::fresh(),
        shadow.slot.len,
    );
    Tally {
        ran: counts.ran,
        met: counts.met,
        lost,
        dropped: arrivals.dropped().len() as u32,
        outs: counts.outs,
    }
}
