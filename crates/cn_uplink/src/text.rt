//! The lines of a link.

ghost use Rattle.std.specs.Prelude.{◌≡◌};
ghost use Rattle.cn_base.specs.Causes.{HasCause};
ghost use Rattle.cn_base.specs.PageWords.{AddsTo, sink_in, sink_name};
ghost use Rattle.cn_base.specs.Writing.{Writes};
ghost use Rattle.cn_uplink.specs.Text.{name_in, record_line, records_text, counts_text, uplink_text};

use crate::counts::Counts;
use cat_program::{LogEntry, Program, events_have_headers};
use cn_base::{Page, Piece, Sink, WriteFail};

// The name of an event, or nothing where there is none.
fn event_name(program: &Program, event: u8) -> &[u8]
    ensures { result.now ≡ name_in program.now.headers event }
{
    events_have_headers();
    let _checked = program.bodies();
    if event < program.events() {
        program.event(event).name.as_str().as_bytes()
    } else {
        b""
    }
}

// The line of a record.
fn add_record<K: Sink>(
    page: &mut Page<'_, K>,
    program: &Program,
    entry: LogEntry,
) -> Result<(), WriteFail>
    ensures same_sink { sink_name page.new ≡ sink_name page.old }
    ensures text { AddsTo K.written page.old page.new (record_line program.now.headers entry) result }
    ensures cause { HasCause (K.faults (sink_in page.old)) (K.faults (sink_in page.new)) result }
{
    match entry {
        LogEntry::Out { channel, value } => page.line(&[
            Piece::Text(b"out "),
            Piece::Number(i128::from(channel)),
            Piece::Text(b" "),
            Piece::Number(i128::from(value)),
            Piece::Text(b"\n"),
        ]),
        LogEntry::Ran {
            event,
            version,
            start,
            index,
            ..
        } => page.line(&[
            Piece::Text(b"ran "),
            Piece::Text(event_name(program, event)),
            Piece::Text(b" "),
            Piece::Number(i128::from(index)),
            Piece::Text(b" "),
            Piece::Number(i128::from(version)),
            Piece::Text(b" "),
            Piece::Number(i128::from(start)),
            Piece::Text(b"\n"),
        ]),
    }
}

// The line of each record.
fn add_records<K: Sink>(
    page: &mut Page<'_, K>,
    program: &Program,
    records: &[LogEntry],
) -> Result<(), WriteFail>
    ensures same_sink { sink_name page.new ≡ sink_name page.old }
    ensures text { AddsTo K.written page.old page.new (records_text program.now.headers records.now) result }
    ensures cause { HasCause (K.faults (sink_in page.old)) (K.faults (sink_in page.new)) result }
{
    for entry in records {
        add_record(page, program, *entry)?;
    }
    Ok(())
}

// The lines of the numbers.
fn add_counts<K: Sink>(page: &mut Page<'_, K>, counts: Counts) -> Result<(), WriteFail>
    ensures same_sink { sink_name page.new ≡ sink_name page.old }
    ensures text { AddsTo K.written page.old page.new (counts_text counts) result }
    ensures cause { HasCause (K.faults (sink_in page.old)) (K.faults (sink_in page.new)) result }
{
    page.line(&[
        Piece::Text(b"link "),
        Piece::Number(i128::from(counts.sent)),
        Piece::Text(b" "),
        Piece::Number(i128::from(counts.host)),
        Piece::Text(b" "),
        Piece::Number(i128::from(counts.base)),
        Piece::Text(b"\nrounds "),
        Piece::Number(i128::from(counts.rounds)),
        Piece::Text(b"\n"),
    ])
}

// The numbers, and then the records.
fn add_uplink<K: Sink>(
    page: &mut Page<'_, K>,
    program: &Program,
    counts: Counts,
    host: &[LogEntry],
) -> Result<(), WriteFail>
    ensures same_sink { sink_name page.new ≡ sink_name page.old }
    ensures text { AddsTo K.written page.old page.new (uplink_text program.now.headers counts host.now) result }
    ensures cause { HasCause (K.faults (sink_in page.old)) (K.faults (sink_in page.new)) result }
{
    match add_counts(page, counts) {
        Ok(()) => add_records(page, program, host),
        Err(fail) => Err(fail),
    }
}

/// Writes the numbers of a link, and a line for each record that the host holds in the end: all of it, or a proper prefix of the
/// text where a write fails. It goes to the sink some thousands of bytes at once, and takes no memory.
pub fn write_uplink<K: Sink>(
    program: &Program,
    counts: Counts,
    host: &[LogEntry],
    sink: &mut K,
) -> Result<(), WriteFail>
    ensures text { Writes (K.written sink.old) (K.written sink.new) (uplink_text program.now.headers counts host.now) result }
    ensures cause { HasCause (K.faults sink.old) (K.faults sink.new) result }
{
    let mut page = Page::on(sink);
    match add_uplink(&mut page, program, counts, host) {
        Ok(()) => page.close(),
        Err(fail) => Err(fail),
    }
}
