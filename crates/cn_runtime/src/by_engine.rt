//! The scheduler's engine takes turns.

ghost use Rattle.std.specs.Prelude.{refl};

use crate::replaying::Turns;
use cn_scheduler::{Choice, Chunk, Engine, Plan};
use nv_memory::Board;

impl Turns for Engine {
    ghost use Rattle.cat_program.specs.Checked.{Checked};
    ghost use Rattle.cn_scheduler.specs.EnginePoint.{point_of, IsAtRest};
    ghost use Rattle.cn_scheduler.specs.Belongs.{BelongTogether};

    ghost point = { point_of };

    ghost belongs = { λ engine plan board. IsAtRest plan.layout engine × ((program : Checked) × BelongTogether program plan (point_of engine board)) };

    fn turn<B: Board>(&mut self, plan: &Plan, board: &mut B) -> Chunk {
        match self.choice(plan, board) {
            Choice::Job { due } => self.run_job(plan, board, &due),
            Choice::Section => self.run_section(plan, board),
            Choice::Checkpoint => self.run_checkpoint(plan, board),
            Choice::Wake => self.run_wake(plan, board),
            Choice::Sleep => self.run_sleep(plan, board),
        }
    }

    ghost stands = { λ turns board. refl };
}
