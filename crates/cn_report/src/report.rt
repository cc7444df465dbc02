//! The report of a run, from the first image of a program on or from one that was saved.

ghost use Rattle.std.specs.Prelude.{◌≡◌, ◌≤◌, ◌∷◌, [], codes, decimal, length, All};
ghost use Rattle.cn_base.specs.Causes.{HasCause};
ghost use Rattle.cn_base.specs.PageWords.{AddsTo, sink_in, sink_name};
ghost use Rattle.cn_base.specs.Writing.{Writes};
ghost use Rattle.nv_memory.specs.Board.{IsSound};
ghost use Rattle.nv_memory.specs.Layout.{size_of};
ghost use Rattle.checkpoint_slots.specs.Slot.{IsMadeFor};
ghost use Rattle.degradation.specs.Choice.{Suits};
ghost use Rattle.cn_base.specs.Texts.{line};
ghost use Rattle.recovery.specs.First.{IsFresh};
ghost use Rattle.recovery.specs.Past.{past_of, committed_at};
ghost use Rattle.cn_report.specs.Outcome.{end_word};
ghost use Rattle.cn_report.specs.Whole.{outcome_text, resumed_text, report_text, IsReplayed};
ghost use Rattle.cn_report.specs.Kept.{HasKept};

use crate::chosen::add_rows;
use crate::heads::Heads;
use crate::log::add_log;
use crate::shadow::Shadow;
use crate::story::{add_dropped, add_story};
use crate::variables::add_variables;
use cat_program::Program;
use cn_base::{Page, Piece, Sink, WriteFail};
use cn_scheduler::End;
use degradation::Chosen;
use event_arrivals::Arrivals;
use forecast_table::Forecast;
use nv_memory::{Board, Layout};
use recovery::recover;

fn word(end: End) -> &'static [u8]
    ensures { result.now ≡ end_word end }
{
    match end {
        End::TraceEnded => b"trace",
        End::LogFull => b"log",
    }
}

// When all ended, what is stored then, how many steps are committed, and why.
fn add_end<'a, K: Sink>(
    page: &mut Page<'_, K>,
    tick: u32,
    stored: u32,
    steps: u32,
    word: &'a [u8],
) -> Result<(), WriteFail>
    ensures same_sink { sink_name page.new ≡ sink_name page.old }
    ensures text { AddsTo K.written page.old page.new (line (codes "end" ∷ decimal tick ∷ decimal stored ∷ decimal steps ∷ word.now ∷ [])) result }
    ensures cause { HasCause (K.faults (sink_in page.old)) (K.faults (sink_in page.new)) result }
{
    page.line(&[
        Piece::Text(b"end "),
        Piece::Number(i128::from(tick)),
        Piece::Text(b" "),
        Piece::Number(i128::from(stored)),
        Piece::Text(b" "),
        Piece::Number(i128::from(steps)),
        Piece::Text(b" "),
        Piece::Text(word),
        Piece::Text(b"\n"),
    ])
}

// The lines from the first one of the log on.
fn add_outcome<B: Board, K: Sink>(
    page: &mut Page<'_, K>,
    program: &Program,
    arrivals: &Arrivals,
    layout: &Layout,
    board: &B,
    end: End,
    from: u32,
    shadow: &mut Shadow,
) -> Result<(), WriteFail>
    requires events { length arrivals.now.timings ≡ length program.now.events }
    requires sound { IsSound (B.start (B.origin board.now)) (B.state board.now) }
    requires words { layout.now.words ≡ length program.now.words }
    requires large { size_of layout.now ≤ length (B.start (B.origin board.now)).image }
    requires replayed { IsReplayed program.now (past_of layout.now (B.start (B.origin board.now)) (B.state board.now)) }
    requires from { from ≡ (committed_at (past_of layout.now (B.start (B.origin board.now)) (B.state board.now)) 0).len }
    requires kept { HasKept layout.now (B.start (B.origin board.now)).image shadow.old }
    requires made { IsMadeFor layout.now shadow.old.slot }
    ensures same_sink { sink_name page.new ≡ sink_name page.old }
    ensures text { AddsTo K.written page.old page.new (outcome_text program.now.headers program.now.variables arrivals.now (past_of layout.now (B.start (B.origin board.now)) (B.state board.now)) from (B.state board.now).tick (B.state board.now).stored end) result }
    ensures made { IsMadeFor layout.now shadow.new.slot }
    ensures cause { HasCause (K.faults (sink_in page.old)) (K.faults (sink_in page.new)) result }
{
    let heads = shadow.heads;
    recover(board, layout, &mut shadow.slot);
    add_log(
        page,
        program,
        arrivals,
        layout,
        board,
        heads,
        from,
        shadow.slot.len,
    )?;
    add_end(
        page,
        board.tick(),
        board.stored(),
        shadow.slot.steps,
        word(end),
    )?;
    add_variables(page, program, &shadow.slot)
}

// The lines of the report.
fn add_report<B: Board, K: Sink>(
    page: &mut Page<'_, K>,
    program: &Program,
    chosen: &[Chosen],
    forecast: &Forecast,
    shown: bool,
    arrivals: &Arrivals,
    layout: &Layout,
    board: &B,
    end: End,
    from: u32,
    shadow: &mut Shadow,
) -> Result<(), WriteFail>
    requires count { length chosen.now ≡ length forecast.now }
    requires suits { All (Suits program.now) chosen.now }
    requires events { length arrivals.now.timings ≡ length program.now.events }
    requires words { layout.now.words ≡ length program.now.words }
    requires large { size_of layout.now ≤ length (B.start (B.origin board.now)).image }
    requires replayed { IsReplayed program.now (past_of layout.now (B.start (B.origin board.now)) (B.state board.now)) }
    requires from { from ≡ (committed_at (past_of layout.now (B.start (B.origin board.now)) (B.state board.now)) 0).len }
    requires kept { HasKept layout.now (B.start (B.origin board.now)).image shadow.old }
    requires made { IsMadeFor layout.now shadow.old.slot }
    ensures same_sink { sink_name page.new ≡ sink_name page.old }
    ensures text { AddsTo K.written page.old page.new (resumed_text program.now.headers program.now.variables shown forecast.now chosen.now arrivals.now (past_of layout.now (B.start (B.origin board.now)) (B.state board.now)) from (B.state board.now).tick (B.state board.now).stored end) result }
    ensures made { IsMadeFor layout.now shadow.new.slot }
    ensures cause { HasCause (K.faults (sink_in page.old)) (K.faults (sink_in page.new)) result }
{
    let _sound = board.entries();
    let _checked = program.bodies();
    add_rows(page, program, chosen, forecast, shown)?;
    add_dropped(page, program, arrivals)?;
    add_story(page, layout, board, shadow.heads)?;
    add_outcome(page, program, arrivals, layout, board, end, from, shadow)
}

/// Writes the report of a run that went on from a saved image, or a proper prefix of it where a write fails: the chosen versions and
/// numbers for each row of the forecast, behind the row itself where it is shown; the arrivals that were dropped; what happened on the board, in order; the committed outputs and events, each event with the
/// tick at which it was done, but for those among the first `from` records: they were there before the run, and it doesn't know their
/// ticks; how it ended; and the committed variables. The board began with that image, whose committed value has `from` records, and
/// the shadow kept it. It goes to the sink some thousands of bytes at once, and takes no memory. Afterwards the shadow may hold other
/// slots.
pub fn write_resumed<B: Board, K: Sink>(
    program: &Program,
    chosen: &[Chosen],
    forecast: &Forecast,
    shown: bool,
    arrivals: &Arrivals,
    layout: &Layout,
    board: &B,
    end: End,
    from: u32,
    shadow: &mut Shadow,
    sink: &mut K,
) -> Result<(), WriteFail>
    requires count { length chosen.now ≡ length forecast.now }
    requires suits { All (Suits program.now) chosen.now }
    requires events { length arrivals.now.timings ≡ length program.now.events }
    requires words { layout.now.words ≡ length program.now.words }
    requires large { size_of layout.now ≤ length (B.start (B.origin board.now)).image }
    requires replayed { IsReplayed program.now (past_of layout.now (B.start (B.origin board.now)) (B.state board.now)) }
    requires from { from ≡ (committed_at (past_of layout.now (B.start (B.origin board.now)) (B.state board.now)) 0).len }
    requires kept { HasKept layout.now (B.start (B.origin board.now)).image shadow.old }
    requires made { IsMadeFor layout.now shadow.old.slot }
    ensures text { Writes (K.written sink.old) (K.written sink.new) (resumed_text program.now.headers program.now.variables shown forecast.now chosen.now arrivals.now (past_of layout.now (B.start (B.origin board.now)) (B.state board.now)) from (B.state board.now).tick (B.state board.now).stored end) result }
    ensures made { IsMadeFor layout.now shadow.new.slot }
    ensures cause { HasCause (K.faults sink.old) (K.faults sink.new) result }
{
    let mut page = Page::on(sink);
    match add_report(
        &mut page, program, chosen, forecast, shown, arrivals, layout, board, end, from, shadow,
    ) {
        Ok(()) => page.close(),
        Err(fail) => Err(fail),
    }
}

/// Writes the report of a replay, or a proper prefix of it where a write fails: the chosen versions and numbers for each row of the
/// forecast, behind the row itself where it is shown; the arrivals that
/// were dropped; what happened on the board, in order; the committed outputs and events, each event with the tick at which it was
/// done; how it ended; and the committed variables. The board is as a replay leaves it that began with the program's first image.
/// It goes to the sink some thousands of bytes at once, and takes no memory. Afterwards the shadow may hold other slots.
pub fn write_report<B: Board, K: Sink>(
    program: &Program,
    chosen: &[Chosen],
    forecast: &Forecast,
    shown: bool,
    arrivals: &Arrivals,
    layout: &Layout,
    board: &B,
    end: End,
    shadow: &mut Shadow,
    sink: &mut K,
) -> Result<(), WriteFail>
    requires count { length chosen.now ≡ length forecast.now }
    requires suits { All (Suits program.now) chosen.now }
    requires events { length arrivals.now.timings ≡ length program.now.events }
    requires fresh { IsFresh program.now layout.now (B.start (B.origin board.now)).image }
    requires replayed { IsReplayed program.now (past_of layout.now (B.start (B.origin board.now)) (B.state board.now)) }
    requires made { IsMadeFor layout.now shadow.old.slot }
    ensures text { Writes (K.written sink.old) (K.written sink.new) (report_text program.now.headers program.now.variables shown forecast.now chosen.now arrivals.now (past_of layout.now (B.start (B.origin board.now)) (B.state board.now)) (B.state board.now).tick (B.state board.now).stored end) result }
    ensures made { IsMadeFor layout.now shadow.new.slot }
    ensures cause { HasCause (K.faults sink.old) (K.faults sink.new) result }
{
    shadow.heads = Heads::fresh();
    write_resumed(
        program, chosen, forecast, shown, arrivals, layout, board, end, 0, shadow, sink,
    )
}
