//! The policy.

ghost use Rattle.std.specs.Prelude.{◌≡◌};
ghost use Rattle.cat_program.specs.Checked.{Checked};

use crate::engine::Engine;
use crate::plan::Plan;
use cat_machine::next;
use event_queue::Due;
use nv_memory::Board;

/// What is done at a decision point: the job of an arrival, a section of the tasks, a checkpoint, a wake for the tasks, or sleep.
#[derive(Clone, Copy, Debug, PartialEq, Eq)]
pub enum Choice {
    Job { due: Due },
    Section,
    Checkpoint,
    Wake,
    Sleep,
}

impl Engine {
    ghost use Rattle.cn_scheduler.specs.Policy.{Chooses, has_step, if_dirty, job_choice, task_choice};
    ghost use Rattle.cn_scheduler.specs.Belongs.{BelongTogether};
    ghost use Rattle.cn_scheduler.specs.EnginePoint.{work_in, point_of, IsAtRest};

    // What is done where nothing else can be: what is not saved yet is saved before the board sleeps.
    fn save_or_sleep(&self) -> Choice
        ensures { result ≡ if_dirty self.now.dirty }
    {
        if self.dirty {
            Choice::Checkpoint
        } else {
            Choice::Sleep
        }
    }

    fn job_choice<B: Board>(&self, plan: &Plan, board: &B, due: Due) -> Choice
        ensures { result ≡ job_choice plan.now (point_of self.now (B.state board.now)) due }
    {
        if plan.units_of(&due) <= u64::from(board.stored()) {
            Choice::Job { due }
        } else {
            self.save_or_sleep()
        }
    }

    // Whether the tasks have a step to take.
    pub(crate) fn has_step(&self, plan: &Plan) -> bool
        ensures { result ≡ has_step plan.now (work_in self.now) }
    {
        next(&plan.code, &self.working).is_some()
    }

    fn task_choice<B: Board>(&self, plan: &Plan, board: &B) -> Choice
        requires rest { IsAtRest plan.now.layout self.now }
        requires belongs { (program : Checked) × BelongTogether program plan.now (point_of self.now (B.state board.now)) }
        ensures { result ≡ task_choice plan.now (point_of self.now (B.state board.now)) }
    {
        if !self.has_step(plan) {
            return self.save_or_sleep();
        }
        let tick = board.tick();
        let stored = board.stored();
        if board.on() {
            if plan.need_at(tick) <= u128::from(stored) {
                return Choice::Section;
            }
        } else if plan.level_at(tick) <= u64::from(stored) {
            return Choice::Wake;
        }
        self.save_or_sleep()
    }

    /// What the policy names at this decision point. It takes no memory.
    pub fn choice<B: Board>(&self, plan: &Plan, board: &B) -> Choice
        requires rest { IsAtRest plan.now.layout self.now }
        requires belongs { (program : Checked) × BelongTogether program plan.now (point_of self.now (B.state board.now)) }
        ensures { Chooses plan.now (point_of self.now (B.state board.now)) result }
    {
        match plan.queue.earliest(board.tick(), &self.slot) {
            Some(due) => self.job_choice(plan, board, due),
            None => self.task_choice(plan, board),
        }
    }
}
