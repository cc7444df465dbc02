//! Why no versions were chosen.

ghost use Rattle.std.specs.Prelude.{◌∷◌, [], ◌++◌, codes};
ghost use Rattle.cn_base.specs.Causes.{HasCause};
ghost use Rattle.cn_base.specs.Writing.{Writes};
ghost use Rattle.cn_base.specs.Texts.{line};
ghost use Rattle.cn_report.specs.Report.{window_line, rejected_line, row_words};

use cn_base::{Piece, Sink, WriteFail, put, put_line};
use feasibility::Verdict;
use itoa::Buffer;

/// Writes with which spacing the window is too long, and for which row of the forecast, where that is told, or a proper prefix of the
/// line where a write fails. Takes no memory.
pub fn write_window_fault<K: Sink>(
    row: Option<u32>,
    spacing: u32,
    sink: &mut K,
) -> Result<(), WriteFail>
    ensures text { Writes (K.written sink.old) (K.written sink.new) (window_line row spacing) result }
    ensures cause { HasCause (K.faults sink.old) (K.faults sink.new) result }
{
    let spacing = i128::from(spacing);
    match row {
        None => put_line(
            sink,
            &[
                Piece::Text(b"fault window "),
                Piece::Number(spacing),
                Piece::Text(b"\n"),
            ],
        ),
        Some(row) => put_line(
            sink,
            &[
                Piece::Text(b"fault window "),
                Piece::Number(i128::from(row)),
                Piece::Text(b" "),
                Piece::Number(spacing),
                Piece::Text(b"\n"),
            ],
        ),
    }
}

/// The line without an inequality.
fn put_rejected<K: Sink>(sink: &mut K, row: Option<u32>) -> Result<(), WriteFail>
    ensures text { Writes (K.written sink.old) (K.written sink.new) (line (codes "fault" ∷ codes "rejected" ∷ (row_words row ++ []))) result }
    ensures cause { HasCause (K.faults sink.old) (K.faults sink.new) result }
{
    match row {
        None => put(sink, b"fault rejected\n"),
        Some(row) => put_line(
            sink,
            &[
                Piece::Text(b"fault rejected "),
                Piece::Number(i128::from(row)),
                Piece::Text(b"\n"),
            ],
        ),
    }
}

/// The line of an inequality that is named, with both its sides. These three are spelled already.
fn put_sides<'a, K: Sink>(
    sink: &mut K,
    row: Option<u32>,
    name: &'a [u8],
    left: &'a [u8],
    right: &'a [u8],
) -> Result<(), WriteFail>
    ensures text { Writes (K.written sink.old) (K.written sink.new) (line (codes "fault" ∷ codes "rejected" ∷ (row_words row ++ name.now ∷ left.now ∷ right.now ∷ []))) result }
    ensures cause { HasCause (K.faults sink.old) (K.faults sink.new) result }
{
    match row {
        None => put_line(
            sink,
            &[
                Piece::Text(b"fault rejected "),
                Piece::Text(name),
                Piece::Text(b" "),
                Piece::Text(left),
                Piece::Text(b" "),
                Piece::Text(right),
                Piece::Text(b"\n"),
            ],
        ),
        Some(row) => put_line(
            sink,
            &[
                Piece::Text(b"fault rejected "),
                Piece::Number(i128::from(row)),
                Piece::Text(b" "),
                Piece::Text(name),
                Piece::Text(b" "),
                Piece::Text(left),
                Piece::Text(b" "),
                Piece::Text(right),
                Piece::Text(b"\n"),
            ],
        ),
    }
}

/// The line of the inequality on time. Its length and both sides are spelled already.
fn put_late<'a, K: Sink>(
    sink: &mut K,
    row: Option<u32>,
    length: &'a [u8],
    left: &'a [u8],
    right: &'a [u8],
) -> Result<(), WriteFail>
    ensures text { Writes (K.written sink.old) (K.written sink.new) (line (codes "fault" ∷ codes "rejected" ∷ (row_words row ++ codes "F3" ∷ length.now ∷ left.now ∷ right.now ∷ []))) result }
    ensures cause { HasCause (K.faults sink.old) (K.faults sink.new) result }
{
    match row {
        None => put_line(
            sink,
            &[
                Piece::Text(b"fault rejected F3 "),
                Piece::Text(length),
                Piece::Text(b" "),
                Piece::Text(left),
                Piece::Text(b" "),
                Piece::Text(right),
                Piece::Text(b"\n"),
            ],
        ),
        Some(row) => put_line(
            sink,
            &[
                Piece::Text(b"fault rejected "),
                Piece::Number(i128::from(row)),
                Piece::Text(b" F3 "),
                Piece::Text(length),
                Piece::Text(b" "),
                Piece::Text(left),
                Piece::Text(b" "),
                Piece::Text(right),
                Piece::Text(b"\n"),
            ],
        ),
    }
}

/// Writes which inequality fails, with both sides, and for which row of the forecast, where that is told, or a proper prefix of the
/// line where a write fails. Takes no memory. A set that is feasible is not rejected, so its verdict has no words.
pub fn write_rejected<K: Sink>(
    row: Option<u32>,
    verdict: Verdict,
    sink: &mut K,
) -> Result<(), WriteFail>
    ensures text { Writes (K.written sink.old) (K.written sink.new) (rejected_line row verdict) result }
    ensures cause { HasCause (K.faults sink.old) (K.faults sink.new) result }
{
    let mut first = Buffer::new();
    let mut second = Buffer::new();
    let mut third = Buffer::new();
    match verdict {
        Verdict::Yes => put_rejected(sink, row),
        Verdict::F1 { left, right } => put_sides(
            sink,
            row,
            b"F1",
            first.format(left).as_bytes(),
            second.format(right).as_bytes(),
        ),
        Verdict::F2 { left, right } => put_sides(
            sink,
            row,
            b"F2",
            first.format(left).as_bytes(),
            second.format(right).as_bytes(),
        ),
        Verdict::F3 {
            length,
            left,
            right,
        } => put_late(
            sink,
            row,
            third.format(length).as_bytes(),
            first.format(left).as_bytes(),
            second.format(right).as_bytes(),
        ),
    }
}
