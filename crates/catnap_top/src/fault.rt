//! What words, files and inputs are refused for once they are read, and the line of each fault.

ghost use Rattle.std.specs.Prelude.{◌≡◌, ◌∷◌, [], codes};
ghost use Rattle.cn_base.specs.Causes.{HasCause};
ghost use Rattle.cn_base.specs.Writing.{Writes};
ghost use Rattle.catnap_top.specs.Faults.{fault_answer, no_choice_line, no_choice_status, profile_line, row_kind_name, table_line, table_name, table_status};
ghost use Rattle.catnap_top.specs.Answer.{line};
ghost use Rattle.device_profile.specs.Keys.{text_of};

use crate::Status;
use crate::file_fault::{BadImage, BadObject, put_image_fault, put_object_fault};
use crate::refusal::SourceFault;
use cn_base::{Piece, Sink, WriteFail, put, put_line};
use cn_report::{write_rejected, write_window_fault};
use cn_tables::RowKind;
use device_profile::Key;
use feasibility::Verdict;

/// Why a profile is refused.
#[derive(Clone, Copy, Debug, PartialEq, Eq)]
pub enum ProfileFault {
    /// It has more than 16,777,216 bytes.
    Long,
    /// It is not UTF-8, or no TOML.
    Syntax,
    /// The first key that is missing.
    Missing(Key),
    /// A further key stands somewhere.
    Extra,
    /// The first key whose value is of another kind or out of its range.
    Range(Key),
}

/// The files that are tables.
#[derive(Clone, Copy, Debug, PartialEq, Eq)]
pub enum Table {
    Trace,
    Arrivals,
    Fails,
    Link,
    Forecast,
}

/// Why no versions are chosen.
#[derive(Clone, Copy, Debug, PartialEq, Eq)]
pub enum NoChoice {
    /// With this spacing demand and supply repeat only after more than 1,000,000 ticks.
    Window(u32),
    /// The events are feasible in no versions of the degrade order; the verdict is that on the last.
    Rejected(Verdict),
}

/// Why there is no answer of a command's own: the first that a look finds. Each kind of file, and each
/// test, has one variant.
#[derive(Clone, Copy, Debug, PartialEq, Eq)]
pub enum Fault {
    Source(SourceFault),
    Device(ProfileFault),
    /// The first row with a fault, the header being row 0, and what is wrong with it.
    Table(Table, u32, RowKind),
    /// The first row of the forecast without a choice, counted from 1, where a file gave the forecast, and why it has none.
    Choice(Option<u32>, NoChoice),
    Image(BadImage),
    Object(BadObject),
}

fn put_key<K: Sink>(sink: &mut K, kind: &[u8], key: Key) -> Result<(), WriteFail>
    ensures text { Writes (K.written sink.old) (K.written sink.new) (line (codes "fault device " ∷ kind.now ∷ codes " " ∷ text_of key ∷ codes "\n" ∷ [])) result }
    ensures cause { HasCause (K.faults sink.old) (K.faults sink.new) result }
{
    put_line(
        sink,
        &[
            Piece::Text(b"fault device "),
            Piece::Text(kind),
            Piece::Text(b" "),
            Piece::Text(key.text().as_bytes()),
            Piece::Text(b"\n"),
        ],
    )
}

fn put_profile_fault<K: Sink>(sink: &mut K, fault: ProfileFault) -> Result<(), WriteFail>
    ensures text { Writes (K.written sink.old) (K.written sink.new) (profile_line fault) result }
    ensures cause { HasCause (K.faults sink.old) (K.faults sink.new) result }
{
    match fault {
        ProfileFault::Long => put(sink, b"fault device long\n"),
        ProfileFault::Syntax => put(sink, b"fault device syntax\n"),
        ProfileFault::Missing(key) => put_key(sink, b"key", key),
        ProfileFault::Extra => put(sink, b"fault device extra\n"),
        ProfileFault::Range(key) => put_key(sink, b"range", key),
    }
}

impl Table {
    fn name(self) -> &'static str
        ensures { result.now ≡ table_name self }
    {
        match self {
            Table::Trace => "trace",
            Table::Arrivals => "arrivals",
            Table::Fails => "fails",
            Table::Link => "link",
            Table::Forecast => "forecast",
        }
    }

    fn status(self) -> Status
        ensures { result ≡ table_status self }
    {
        match self {
            Table::Trace => Status::BadTrace,
            Table::Arrivals => Status::BadArrivals,
            Table::Fails => Status::BadFails,
            Table::Link => Status::BadLink,
            Table::Forecast => Status::BadForecast,
        }
    }
}

fn row_kind_name(kind: RowKind) -> &'static str
    ensures { result.now ≡ row_kind_name kind }
{
    match kind {
        RowKind::Long => "Long",
        RowKind::Header => "Header",
        RowKind::Many => "Many",
        RowKind::Fields => "Fields",
        RowKind::Number => "Number",
        RowKind::Range => "Range",
        RowKind::Name => "Name",
        RowKind::Fill => "Fill",
        RowKind::Order => "Order",
        RowKind::Total => "Total",
        RowKind::Few => "Few",
    }
}

fn put_row_fault<K: Sink>(
    sink: &mut K,
    table: Table,
    row: u32,
    kind: RowKind,
) -> Result<(), WriteFail>
    ensures text { Writes (K.written sink.old) (K.written sink.new) (table_line table row kind) result }
    ensures cause { HasCause (K.faults sink.old) (K.faults sink.new) result }
{
    put_line(
        sink,
        &[
            Piece::Text(b"fault "),
            Piece::Text(table.name().as_bytes()),
            Piece::Text(b" "),
            Piece::Number(i128::from(row)),
            Piece::Text(b" "),
            Piece::Text(row_kind_name(kind).as_bytes()),
            Piece::Text(b"\n"),
        ],
    )
}

impl NoChoice {
    fn status(self) -> Status
        ensures { result ≡ no_choice_status self }
    {
        match self {
            NoChoice::Window(_) => Status::WindowTooLong,
            NoChoice::Rejected(_) => Status::Rejected,
        }
    }

    fn write<K: Sink>(self, row: Option<u32>, sink: &mut K) -> Result<(), WriteFail>
        ensures text { Writes (K.written sink.old) (K.written sink.new) (no_choice_line row self) result }
        ensures cause { HasCause (K.faults sink.old) (K.faults sink.new) result }
    {
        match self {
            NoChoice::Window(spacing) => write_window_fault(row, spacing, sink),
            NoChoice::Rejected(verdict) => write_rejected(row, verdict, sink),
        }
    }
}

impl Fault {
    pub fn status(self) -> Status
        ensures { result ≡ (fault_answer self).status }
    {
        match self {
            Fault::Source(_) => Status::BadSource,
            Fault::Device(_) => Status::BadDevice,
            Fault::Table(table, _, _) => table.status(),
            Fault::Choice(_, why) => why.status(),
            Fault::Image(_) => Status::BadImage,
            Fault::Object(_) => Status::BadObject,
        }
    }

    /// Writes the line of the fault.
    pub fn write<K: Sink>(self, sink: &mut K) -> Result<(), WriteFail>
        ensures text { Writes (K.written sink.old) (K.written sink.new) (fault_answer self).text result }
        ensures cause { HasCause (K.faults sink.old) (K.faults sink.new) result }
    {
        match self {
            Fault::Source(kind) => kind.write(sink),
            Fault::Device(fault) => put_profile_fault(sink, fault),
            Fault::Table(table, row, kind) => put_row_fault(sink, table, row, kind),
            Fault::Choice(row, why) => why.write(row, sink),
            Fault::Image(bad) => put_image_fault(sink, bad.kind, bad.at),
            Fault::Object(bad) => put_object_fault(sink, bad.kind, bad.place),
        }
    }
}
