ghost use Rattle.std.specs.Prelude.{◌≡◌, ◌%◌, ◌≤◌, length};
ghost use Rattle.nv_memory.specs.Board.{Runs};
ghost use Rattle.nv_memory.specs.Layout.{size_of};
ghost use Rattle.migration.specs.Moves.{CanMove, IsInOld};
ghost use Rattle.migration.specs.Stretch.{CanBegin, Moves, asked_next};

use crate::laws::moves_are_safe;
use crate::moving::migrate;
use nv_memory::{Answer, Board, Layout, operations_are_bounded, parts_are_apart, runs_are_joined};

// Asks a board whose image is in the first format for what comes next.
fn ask_next<B: Board>(board: &mut B, old: &Layout, new: &Layout, enough: u32) -> Answer
    requires { CanMove old.now new.now (B.state board.old).image }
    ensures runs { Runs (B.state board.old) (asked_next old.now new.now enough (B.state board.old)) result (B.state board.new) }
    ensures origin { B.origin board.new ≡ B.origin board.old }
{
    runs_are_joined();
    if board.on() {
        return migrate(board, old, new);
    }
    if enough <= board.stored() {
        return board.wake();
    }
    board.sleep()
}

/// Goes on with a board until its image is in format 2: it sleeps until so many units are stored, wakes the board, and moves the image,
/// anew after each loss. It answers `true` with the image in format 2, at once where it is so already, and the board on or off; and `false`
/// where something had no room in the board's life, with the image still in format 1. `enough` is in energy units: with less than the
/// greatest costs of a wake and one write a move might never get on. Whatever is lost, the image stands for what it stood for
/// (`stretches_are_safe`). It takes no memory.
pub fn move_on<B: Board>(board: &mut B, old: &Layout, new: &Layout, enough: u32) -> bool
    requires can { CanBegin old.now new.now (B.state board.old).image }
    requires size { size_of new.now ≤ length (B.state board.old).image }
    ensures moves { Moves old.now new.now enough (B.state board.old) result (B.state board.new) }
    ensures origin { B.origin board.new ≡ B.origin board.old }
{
    moves_are_safe();
    operations_are_bounded();
    parts_are_apart();
    let mut _tick = board.tick();
    'moving: loop {
        if board.read(1) % 2 == 1 {
            return true;
        }
        let answer = ask_next(board, old, new, enough);
        _tick = board.tick();
        match answer {
            Answer::Done => {}
            Answer::Lost => {}
            Answer::Over => return false,
        }
    }
}
