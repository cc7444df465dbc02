//! Pages: text on its way to a sink, to which it goes some thousands of bytes at once.

ghost use Rattle.std.specs.Prelude.{◌≡◌, []};
ghost use Rattle.cn_base.specs.Causes.{HasCause};
ghost use Rattle.cn_base.specs.Lines.{line_text, piece_text};
ghost use Rattle.cn_base.specs.PageWords.{AddsTo, held_in, sink_in, sink_name};
ghost use Rattle.cn_base.specs.Writing.{Writes};

use crate::{Piece, Sink, WriteFail, put};
use arrayvec::ArrayVec;
use itoa::Buffer;

/// How many bytes a page holds.
const PAGE: usize = 4096;

/// Text on its way to a sink. It is held until a piece finds no room behind it, or the page is closed.
#[derive(Drop)]
pub struct Page<'a, K: Sink> {
    sink: &'a mut K,
    held: ArrayVec<u8, PAGE>,
}

impl<'a, K: Sink> Page<'a, K> {
    /// An empty page in front of a sink. Takes no memory.
    pub fn on(sink: &'a mut K) -> Page<'a, K>
        ensures same_sink { sink_name result ≡ sink.entry.ghost_name }
        ensures sink { sink_in result ≡ sink.old }
        ensures held { held_in result ≡ [] }
    {
        Page {
            sink,
            held: ArrayVec::new(),
        }
    }

    /// Adds some bytes.
    pub fn text(&mut self, bytes: &[u8]) -> Result<(), WriteFail>
        ensures same_sink { sink_name self.new ≡ sink_name self.old }
        ensures text { AddsTo K.written self.old self.new bytes.now result }
        ensures cause { HasCause (K.faults (sink_in self.old)) (K.faults (sink_in self.new)) result }
    {
        if self.held.try_extend_from_slice(bytes).is_ok() {
            return Ok(());
        }
        match put(self.sink, self.held.as_slice()) {
            Ok(()) => {}
            Err(fail) => return Err(fail),
        }
        self.held.clear();
        if self.held.try_extend_from_slice(bytes).is_ok() {
            return Ok(());
        }
        put(self.sink, bytes)
    }

    /// Adds a piece of a line.
    pub fn piece(&mut self, piece: Piece<'_>) -> Result<(), WriteFail>
        ensures same_sink { sink_name self.new ≡ sink_name self.old }
        ensures text { AddsTo K.written self.old self.new (piece_text piece.entry) result }
        ensures cause { HasCause (K.faults (sink_in self.old)) (K.faults (sink_in self.new)) result }
    {
        match piece {
            Piece::Text(bytes) => self.text(bytes),
            Piece::Number(number) => {
                let mut buffer = Buffer::new();
                self.text(buffer.format(number).as_bytes())
            }
        }
    }

    /// Adds the pieces of a line, one after the other.
    pub fn line(&mut self, pieces: &[Piece<'_>]) -> Result<(), WriteFail>
        ensures same_sink { sink_name self.new ≡ sink_name self.old }
        ensures text { AddsTo K.written self.old self.new (line_text pieces.now) result }
        ensures cause { HasCause (K.faults (sink_in self.old)) (K.faults (sink_in self.new)) result }
    {
        for piece in pieces {
            match self.piece(*piece) {
                Ok(()) => {}
                Err(fail) => return Err(fail),
            }
        }
        Ok(())
    }

    /// Writes what is held.
    pub fn close(self) -> Result<(), WriteFail>
        ensures text { Writes (K.written (sink_in self.entry)) (K.written self.exit.0.now) (held_in self.entry) result }
        ensures cause { HasCause (K.faults (sink_in self.entry)) (K.faults self.exit.0.now) result }
    {
        let Page { sink, held } = self;
        put(sink, held.as_slice())
    }
}
