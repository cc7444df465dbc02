//! Commits of the working state.

ghost use Rattle.std.specs.Prelude.{◌≡◌, ◌≢◌, ◌≤◌, length, true, Some};
ghost use Rattle.nv_memory.specs.Layout.{size_of};
ghost use Rattle.checkpoint_slots.specs.Slot.{read_slot, spelling, variables_of};
ghost use Rattle.checkpoint_slots.specs.Image.{committed_bytes, IsWellFormed};

use crate::engine::{Chunk, Engine, keep_in};
use crate::plan::Plan;
use checkpoint_slots::save;
use nv_memory::{Answer, Board};

impl Engine {
    ghost use Rattle.cn_scheduler.specs.Point.{slot_of};
    ghost use Rattle.cn_scheduler.specs.EnginePoint.{work_in, IsAtRest};
    ghost use Rattle.cn_scheduler.specs.Parts.{CommitLeaves};

    // Commits the working state, and takes up what is committed where power goes.
    pub(crate) fn commit<B: Board>(&mut self, plan: &Plan, board: &mut B) -> Chunk
        requires rest { IsAtRest plan.now.layout self.old }
        requires words { length self.old.working.words ≡ plan.now.layout.words }
        requires posts { length self.old.working.posts ≡ plan.now.layout.tasks }
        requires on { (B.state board.old).on ≡ true }
        requires image { size_of plan.now.layout ≤ length (B.state board.old).image }
        requires formed { IsWellFormed plan.now.layout (committed_bytes plan.now.layout (B.state board.old).image) }
        requires len { self.old.slot.len ≤ plan.now.layout.log }
        requires place { self.old.working.place ≢ Some 4294967295 }
        ensures leaves { CommitLeaves plan.now self.old (B.state board.old) result self.new (B.state board.new) }
        ensures again { read_slot plan.now.layout (spelling plan.now.layout (slot_of (work_in self.old))) ≡ slot_of (work_in self.old) }
        ensures formed { IsWellFormed plan.now.layout (spelling plan.now.layout (slot_of (work_in self.old))) }
        ensures variables { variables_of (slot_of (work_in self.old)) ≡ self.old.working.words }
        ensures origin { B.origin board.new ≡ B.origin board.old }
    {
        keep_in(&mut self.slot, &self.working, &plan.layout);
        match save(board, &plan.layout, &self.slot) {
            Answer::Done => {
                self.dirty = false;
                Chunk::Ended
            }
            Answer::Lost => {
                self.restore(plan, board);
                Chunk::Lost
            }
            Answer::Over => Chunk::Over,
        }
    }
}
