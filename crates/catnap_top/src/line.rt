//! Lines that are written by themselves.

ghost use Rattle.std.specs.Prelude.{◌∷◌, [], codes, decimal};
ghost use Rattle.cn_base.specs.Causes.{HasCause};
ghost use Rattle.cn_base.specs.Writing.{Writes};
ghost use Rattle.catnap_top.specs.Answer.{line, read_fault};

use cn_base::{Piece, Sink, WriteFail, put_line};

/// Writes which word's file could not be read. Takes no memory.
pub fn put_read_fault<K: Sink>(sink: &mut K, place: u32) -> Result<(), WriteFail>
    ensures text { Writes (K.written sink.old) (K.written sink.new) (read_fault place).text result }
    ensures cause { HasCause (K.faults sink.old) (K.faults sink.new) result }
{
    put_line(
        sink,
        &[
            Piece::Text(b"fault read "),
            Piece::Number(i128::from(place)),
            Piece::Text(b"\n"),
        ],
    )
}

/// Writes why a file is refused: what begins the line, the name of the kind, and the number that tells where. Takes no memory.
pub fn put_refusal<'x, K: Sink>(
    sink: &mut K,
    head: &'x [u8],
    name: &'x [u8],
    at: u64,
) -> Result<(), WriteFail>
    ensures text { Writes (K.written sink.old) (K.written sink.new) (line (head.now ∷ name.now ∷ codes " " ∷ decimal at ∷ codes "\n" ∷ [])) result }
    ensures cause { HasCause (K.faults sink.old) (K.faults sink.new) result }
{
    put_line(
        sink,
        &[
            Piece::Text(head),
            Piece::Text(name),
            Piece::Text(b" "),
            Piece::Number(i128::from(at)),
            Piece::Text(b"\n"),
        ],
    )
}
