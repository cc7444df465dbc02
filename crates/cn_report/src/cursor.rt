//! When the records of the log were committed.

ghost use Rattle.std.specs.Prelude.{◌≡◌, ◌<◌, ◌≤◌, ℕ, length};
ghost use Rattle.recovery.specs.Past.{past_of, committed_at, last_slot, done_at};

use crate::heads::Heads;
use crate::silent::last_silent;
use crate::story::ended;
use nv_memory::{Board, Layout};

/// A place in a timeline: how many entries lie before it, the heads of the image there, and the tick at which the last entry
/// before it ended.
#[derive(Drop)]
pub(crate) struct Cursor {
    pub(crate) passed: u32,
    pub(crate) heads: Heads,
    pub(crate) ended: u64,
}

impl Cursor {
    ghost use Rattle.cn_report.specs.Windows.{AreHeads};
    ghost use Rattle.cn_report.specs.Passed.{HasPassed, IsBefore};

    /// Before all entries, with the heads of the first image.
    pub(crate) fn at(heads: Heads) -> Cursor
        ensures { result ≡ record { passed = 0; heads = heads; ended = 0 } }
    {
        Cursor {
            passed: 0,
            heads,
            ended: 0,
        }
    }

    // Passes one entry, and before it a run of silent ones, in which nothing is committed.
    fn pass<B: Board>(&mut self, layout: &Layout, board: &B)
        requires more { self.old.passed < length (B.state board.now).timeline }
        requires passed { HasPassed (past_of layout.now (B.start (B.origin board.now)) (B.state board.now)) self.old }
        ensures later { self.old.passed < self.new.passed }
        ensures quiet { (n : ℕ) → self.old.passed ≤ n → n < self.new.passed → committed_at (past_of layout.now (B.start (B.origin board.now)) (B.state board.now)) n ≡ committed_at (past_of layout.now (B.start (B.origin board.now)) (B.state board.now)) self.old.passed }
        ensures passed { HasPassed (past_of layout.now (B.start (B.origin board.now)) (B.state board.now)) self.new }
    {
        let last = last_silent(board, self.passed);
        let entry = board.entry(last);
        self.heads.follow(layout, &entry.op);
        self.ended = ended(&entry);
        self.passed = last + 1;
    }

    /// The tick at which the first entry ended after which the record at a place is committed. Nothing that lies before the
    /// cursor has committed it, so later records may be asked for afterwards.
    pub(crate) fn done<B: Board>(&mut self, layout: &Layout, board: &B, place: u32) -> u64
        requires passed { HasPassed (past_of layout.now (B.start (B.origin board.now)) (B.state board.now)) self.old }
        requires before { IsBefore (past_of layout.now (B.start (B.origin board.now)) (B.state board.now)) place self.old }
        requires later { (committed_at (past_of layout.now (B.start (B.origin board.now)) (B.state board.now)) 0).len ≤ place }
        requires committed { place < (last_slot (past_of layout.now (B.start (B.origin board.now)) (B.state board.now))).len }
        ensures done { result ≡ done_at (past_of layout.now (B.start (B.origin board.now)) (B.state board.now)) place }
        ensures passed { HasPassed (past_of layout.now (B.start (B.origin board.now)) (B.state board.now)) self.new }
        ensures before { IsBefore (past_of layout.now (B.start (B.origin board.now)) (B.state board.now)) place self.new }
    {
        while self.heads.len() <= place {
            self.pass(layout, board);
        }
        self.ended
    }
}
