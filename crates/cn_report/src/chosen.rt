//! The lines of the choices of versions for the rows of a forecast.

ghost use Rattle.std.specs.Prelude.{◌≡◌, length, All};
ghost use Rattle.cn_base.specs.Causes.{HasCause};
ghost use Rattle.cn_base.specs.PageWords.{AddsTo, sink_in, sink_name};
ghost use Rattle.cn_base.specs.Writing.{Writes};
ghost use Rattle.degradation.specs.Choice.{Suits};
ghost use Rattle.cn_base.specs.Texts.{in_turn};
ghost use Rattle.cn_report.specs.Report.{version_line, numbers_line, event_line, chosen_text, forecast_line, row_head, row_text, rows_text};

use cat_program::Program;
use cn_base::{Page, Piece, Sink, WriteFail};
use degradation::Chosen;
use demand_core::{Load, Numbers};
use forecast_table::{Epoch, Forecast};
use itoa::Buffer;

/// Adds the line of an event in its version.
fn add_version<K: Sink>(
    page: &mut Page<'_, K>,
    name: &str,
    version: u8,
    load: Load,
) -> Result<(), WriteFail>
    ensures same_sink { sink_name page.new ≡ sink_name page.old }
    ensures text { AddsTo K.written page.old page.new (version_line name.now version load) result }
    ensures cause { HasCause (K.faults (sink_in page.old)) (K.faults (sink_in page.new)) result }
{
    page.line(&[
        Piece::Text(b"version "),
        Piece::Text(name.as_bytes()),
        Piece::Text(b" "),
        Piece::Number(i128::from(version)),
        Piece::Text(b" units "),
        Piece::Number(i128::from(load.units)),
        Piece::Text(b" ticks "),
        Piece::Number(i128::from(load.ticks)),
        Piece::Text(b"\n"),
    ])
}

/// Adds the line of the numbers.
fn add_numbers<K: Sink>(page: &mut Page<'_, K>, numbers: Numbers) -> Result<(), WriteFail>
    ensures same_sink { sink_name page.new ≡ sink_name page.old }
    ensures text { AddsTo K.written page.old page.new (numbers_line numbers) result }
    ensures cause { HasCause (K.faults (sink_in page.old)) (K.faults (sink_in page.new)) result }
{
    let mut lines = Buffer::new();
    let mut checkpoint = Buffer::new();
    let mut section = Buffer::new();
    let mut reserve = Buffer::new();
    let mut level = Buffer::new();
    let mut window = Buffer::new();
    page.line(&[
        Piece::Text(b"numbers lines "),
        Piece::Text(lines.format(numbers.lines).as_bytes()),
        Piece::Text(b" checkpoint "),
        Piece::Text(checkpoint.format(numbers.checkpoint).as_bytes()),
        Piece::Text(b" section "),
        Piece::Text(section.format(numbers.section).as_bytes()),
        Piece::Text(b" reserve "),
        Piece::Text(reserve.format(numbers.reserve).as_bytes()),
        Piece::Text(b" level "),
        Piece::Text(level.format(numbers.level).as_bytes()),
        Piece::Text(b" window "),
        Piece::Text(window.format(numbers.window).as_bytes()),
        Piece::Text(b"\n"),
    ])
}

/// Adds the line of each event.
fn add_versions<K: Sink>(
    page: &mut Page<'_, K>,
    program: &Program,
    chosen: &Chosen,
) -> Result<(), WriteFail>
    requires { Suits program.now chosen.now }
    ensures same_sink { sink_name page.new ≡ sink_name page.old }
    ensures text { AddsTo K.written page.old page.new (in_turn (event_line program.now chosen.now) (length program.now.events)) result }
    ensures cause { HasCause (K.faults (sink_in page.old)) (K.faults (sink_in page.new)) result }
{
    let versions = chosen.versions.as_slice();
    let loads = chosen.loads.as_slice();
    for e in 0..program.events() {
        let name = program.event(e).name.as_str();
        match add_version(page, name, versions[e as usize], loads[e as usize]) {
            Ok(()) => {}
            Err(fail) => return Err(fail),
        }
    }
    Ok(())
}

/// Adds the lines of a choice to a page: the chosen version of each event, with the most units and ticks that a job in it takes,
/// and then the numbers. For a text in which more follows.
pub fn add_chosen<K: Sink>(
    page: &mut Page<'_, K>,
    program: &Program,
    chosen: &Chosen,
) -> Result<(), WriteFail>
    requires { Suits program.now chosen.now }
    ensures same_sink { sink_name page.new ≡ sink_name page.old }
    ensures text { AddsTo K.written page.old page.new (chosen_text program.now chosen.now) result }
    ensures cause { HasCause (K.faults (sink_in page.old)) (K.faults (sink_in page.new)) result }
{
    match add_versions(page, program, chosen) {
        Ok(()) => add_numbers(page, chosen.numbers),
        Err(fail) => Err(fail),
    }
}

/// Adds the line of a row of a forecast.
fn add_forecast<K: Sink>(page: &mut Page<'_, K>, row: &Epoch) -> Result<(), WriteFail>
    ensures same_sink { sink_name page.new ≡ sink_name page.old }
    ensures text { AddsTo K.written page.old page.new (forecast_line row.now) result }
    ensures cause { HasCause (K.faults (sink_in page.old)) (K.faults (sink_in page.new)) result }
{
    page.line(&[
        Piece::Text(b"forecast "),
        Piece::Number(i128::from(row.tick)),
        Piece::Text(b" "),
        Piece::Number(i128::from(row.p)),
        Piece::Text(b" "),
        Piece::Number(i128::from(row.q)),
        Piece::Text(b"\n"),
    ])
}

/// Adds what stands before a row's choice.
fn add_head<K: Sink>(page: &mut Page<'_, K>, row: &Epoch, shown: bool) -> Result<(), WriteFail>
    ensures same_sink { sink_name page.new ≡ sink_name page.old }
    ensures text { AddsTo K.written page.old page.new (row_head shown row.now) result }
    ensures cause { HasCause (K.faults (sink_in page.old)) (K.faults (sink_in page.new)) result }
{
    if shown {
        add_forecast(page, row)
    } else {
        Ok(())
    }
}

/// Adds the lines of a row.
fn add_row<K: Sink>(
    page: &mut Page<'_, K>,
    program: &Program,
    row: &Epoch,
    chosen: &Chosen,
    shown: bool,
) -> Result<(), WriteFail>
    requires { Suits program.now chosen.now }
    ensures same_sink { sink_name page.new ≡ sink_name page.old }
    ensures text { AddsTo K.written page.old page.new (row_text program.now.headers shown (row.now, chosen.now)) result }
    ensures cause { HasCause (K.faults (sink_in page.old)) (K.faults (sink_in page.new)) result }
{
    let _checked = program.bodies();
    match add_head(page, row, shown) {
        Ok(()) => add_chosen(page, program, chosen),
        Err(fail) => Err(fail),
    }
}

/// Adds the lines of each row of a forecast: where it is shown, a line that tells it, and then those of the choice for it. For a text
/// in which more follows.
pub(crate) fn add_rows<K: Sink>(
    page: &mut Page<'_, K>,
    program: &Program,
    chosen: &[Chosen],
    forecast: &Forecast,
    shown: bool,
) -> Result<(), WriteFail>
    requires count { length chosen.now ≡ length forecast.now }
    requires suits { All (Suits program.now) chosen.now }
    ensures same_sink { sink_name page.new ≡ sink_name page.old }
    ensures text { AddsTo K.written page.old page.new (rows_text program.now.headers shown forecast.now chosen.now) result }
    ensures cause { HasCause (K.faults (sink_in page.old)) (K.faults (sink_in page.new)) result }
{
    for (i, row) in forecast.rows().iter().enumerate() {
        match add_row(page, program, row, &chosen[i], shown) {
            Ok(()) => {}
            Err(fail) => return Err(fail),
        }
    }
    Ok(())
}

/// Writes for each row of a forecast the chosen version of each event, with the most units and ticks that a job in it takes, and then
/// the numbers: a line for each. Where the forecast is shown, a line before them tells the row. A proper prefix of the text is written
/// where a write fails. Takes no memory.
pub fn write_chosen<K: Sink>(
    program: &Program,
    chosen: &[Chosen],
    forecast: &Forecast,
    shown: bool,
    sink: &mut K,
) -> Result<(), WriteFail>
    requires count { length chosen.now ≡ length forecast.now }
    requires suits { All (Suits program.now) chosen.now }
    ensures text { Writes (K.written sink.old) (K.written sink.new) (rows_text program.now.headers shown forecast.now chosen.now) result }
    ensures cause { HasCause (K.faults sink.old) (K.faults sink.new) result }
{
    let mut page = Page::on(sink);
    match add_rows(&mut page, program, chosen, forecast, shown) {
        Ok(()) => page.close(),
        Err(fail) => Err(fail),
    }
}
