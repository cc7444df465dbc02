//! A whole replay, over whatever takes turns at decision points.

ghost use Rattle.std.specs.Prelude.{◌≡◌, false};
ghost use Rattle.cat_program.specs.Checked.{Checked};
ghost use Rattle.lawful_timeline.specs.Working.{IsSetUp};
ghost use Rattle.lawful_timeline.specs.Claims.{Begins, IsReplayed};

use cn_scheduler::{Chunk, End, Plan};
use lawful_timeline::{lawful_timelines_hold, timelines_grow};
use nv_memory::Board;

/// What takes turns with a board: at each decision point the chunk that the policy names, or ticks of sleep one after the other. The
/// scheduler's engine does so by its `choice` and its chunk calls.
pub trait Turns {
    ghost use Rattle.nv_memory.specs.Board.{State};
    ghost use Rattle.cn_scheduler.specs.declared.plan.Plan.{Plan as Planned};
    ghost use Rattle.cn_scheduler.specs.Point.{Point};
    ghost use Rattle.cn_scheduler.specs.Chunks.{is_last};
    ghost use Rattle.lawful_timeline.specs.Lines.{Turned};

    /// The decision point at which it stands with a board.
    ghost point: { Self → State → Point };

    /// It belongs together with a plan and a board.
    ghost belongs: { Self → Planned → State → Type 0 };

    /// Takes one turn.
    fn turn<B: Board>(&mut self, plan: &Plan, board: &mut B) -> Chunk
        requires { belongs self.old plan.now (B.state board.old) }
        ensures turned { Turned plan.now (point self.old (B.state board.old)) result (point self.new (B.state board.new)) }
        ensures belongs { is_last result ≡ false → belongs self.new plan.now (B.state board.new) }
        ensures origin { B.origin board.new ≡ B.origin board.old };

    ghost stands: { (turns : Self) (board : State) → (point turns board).board ≡ board };
}

/// Takes turns up to the end of the board's life, or to a record that has no place in the log. The timeline is lawful, and after each
/// of its entries the image stands for the reference run of its own entries and steps.
pub fn replay_by<T: Turns, B: Board>(turns: &mut T, plan: &Plan, board: &mut B) -> End
    requires { T.belongs turns.old plan.now (B.state board.old) }
    ensures replayed { (program : Checked) → IsSetUp program plan.now → Begins program plan.now (T.point turns.old (B.state board.old))
        → IsReplayed program plan.now (T.point turns.old (B.state board.old)) result (B.state board.new) }
    ensures origin { B.origin board.new ≡ B.origin board.old }
{
    lawful_timelines_hold();
    timelines_grow();
    let mut _tick = board.tick();
    'turns: loop {
        let outcome = turns.turn(plan, board);
        _tick = board.tick();
        match outcome {
            Chunk::Ended => {}
            Chunk::Dropped => {}
            Chunk::Lost => {}
            Chunk::Over => return End::TraceEnded,
            Chunk::Full => return End::LogFull,
        }
    }
}
