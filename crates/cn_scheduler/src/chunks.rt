//! The chunks of a timeline.

ghost use Rattle.std.specs.Prelude.{◌≡◌, ◌≤◌, true};
ghost use Rattle.cat_program.specs.Checked.{Checked};
ghost use Rattle.cat_machine.specs.Fits.{Fits};
ghost use Rattle.cn_scheduler.specs.declared.plan.Plan.{Plan as Planned};
ghost use Rattle.cn_scheduler.specs.Asked.{Asked};
ghost use Rattle.cn_scheduler.specs.Chunks.{no_floor, wake_asks};
ghost use Rattle.cn_scheduler.specs.Steps.{chunk_of};
ghost use Rattle.nv_memory.specs.declared.layout.Layout.{Layout as Places};
ghost use Rattle.nv_log.specs.Record.{EntryFits};

use crate::choice::Choice;
use crate::engine::{Chunk, Engine};
use crate::path::{chunk_of, put, run_path};
use crate::plan::Plan;
use cat_machine::{Mode, drop_section, enter, runs_end};
use cat_program::LogEntry;
use event_queue::Due;
use nv_log::{By, appends_are_safe};
use nv_memory::{Answer, Board};
use recovery::commits_last;

// Wakes a board that is off.
fn wake_up<B: Board>(board: &mut B) -> Answer
    ensures woken { (plan : Planned) → Asked (no_floor plan) (B.state board.old) (wake_asks (B.state board.old).on) (chunk_of result) (B.state board.new) }
    ensures on { result ≡ Answer.Done → (B.state board.new).on ≡ true }
    ensures image { (B.state board.new).image ≡ (B.state board.old).image }
    ensures origin { B.origin board.new ≡ B.origin board.old }
{
    if board.on() {
        return Answer::Done;
    }
    board.wake()
}

// The record of a job that starts at a tick, when the tasks have made so many steps. A record of either format holds it.
fn ran(event: u8, version: u8, steps: u32, start: u32, index: u32) -> LogEntry
    requires low { start ≤ 4000000 }
    ensures value { result ≡ LogEntry.Ran event version steps start index }
    ensures fits { (l : Places) → EntryFits l result }
{
    LogEntry::Ran {
        event,
        version,
        steps,
        start,
        index,
    }
}

impl Engine {
    ghost use Rattle.cn_scheduler.specs.Policy.{Chooses};
    ghost use Rattle.cn_scheduler.specs.Chunks.{SectionDoes, JobDoes, CheckpointDoes, WakeDoes, SleepsOn};
    ghost use Rattle.cn_scheduler.specs.Belongs.{BelongTogether};
    ghost use Rattle.cn_scheduler.specs.EnginePoint.{point_of, IsAtRest, IsKept};
    ghost use Rattle.cn_scheduler.specs.Parts.{Serves};

    /// Commits the working state.
    pub fn run_checkpoint<B: Board>(&mut self, plan: &Plan, board: &mut B) -> Chunk
        requires rest { IsAtRest plan.now.layout self.old }
        requires belongs { (program : Checked) × BelongTogether program plan.now (point_of self.old (B.state board.old)) }
        requires chosen { Chooses plan.now (point_of self.old (B.state board.old)) Choice.Checkpoint }
        ensures does { CheckpointDoes plan.now (point_of self.old (B.state board.old)) result (point_of self.new (B.state board.new)) }
        ensures keeps { IsKept plan.now self.old (B.state board.old) result self.new (B.state board.new) }
        ensures origin { B.origin board.new ≡ B.origin board.old }
    {
        runs_end();
        commits_last();
        self.commit(plan, board)
    }

    /// Wakes for the tasks.
    pub fn run_wake<B: Board>(&mut self, plan: &Plan, board: &mut B) -> Chunk
        requires rest { IsAtRest plan.now.layout self.old }
        requires belongs { (program : Checked) × BelongTogether program plan.now (point_of self.old (B.state board.old)) }
        requires chosen { Chooses plan.now (point_of self.old (B.state board.old)) Choice.Wake }
        ensures does { WakeDoes plan.now (point_of self.old (B.state board.old)) result (point_of self.new (B.state board.new)) }
        ensures keeps { IsKept plan.now self.old (B.state board.old) result self.new (B.state board.new) }
        ensures origin { B.origin board.new ≡ B.origin board.old }
    {
        // A board that is off has nothing that isn't committed.
        chunk_of(board.wake())
    }

    /// Sleeps up to the next arrival or row, and until the store has what is waited for.
    pub fn run_sleep<B: Board>(&mut self, plan: &Plan, board: &mut B) -> Chunk
        requires rest { IsAtRest plan.now.layout self.old }
        requires belongs { (program : Checked) × BelongTogether program plan.now (point_of self.old (B.state board.old)) }
        requires chosen { Chooses plan.now (point_of self.old (B.state board.old)) Choice.Sleep }
        ensures does { SleepsOn plan.now (point_of self.old (B.state board.old)) result (point_of self.new (B.state board.new)) }
        ensures keeps { IsKept plan.now self.old (B.state board.old) result self.new (B.state board.new) }
        ensures origin { B.origin board.new ≡ B.origin board.old }
    {
        let now = board.tick();
        let upto = self.quiet_until(plan, now);
        let enough = self.enough(plan, now);
        chunk_of(board.sleep_to(upto, enough))
    }

    /// Runs one section of the tasks. Before each instruction it is dropped where the store is below what is kept back.
    pub fn run_section<B: Board>(&mut self, plan: &Plan, board: &mut B) -> Chunk
        requires rest { IsAtRest plan.now.layout self.old }
        requires belongs { (program : Checked) × BelongTogether program plan.now (point_of self.old (B.state board.old)) }
        requires chosen { Chooses plan.now (point_of self.old (B.state board.old)) Choice.Section }
        ensures does { SectionDoes plan.now (point_of self.old (B.state board.old)) result (point_of self.new (B.state board.new)) }
        ensures keeps { IsKept plan.now self.old (B.state board.old) result self.new (B.state board.new) }
        ensures origin { B.origin board.new ≡ B.origin board.old }
    {
        runs_end();
        commits_last();
        appends_are_safe();
        let _tick = board.tick();
        let from = self.working.pc();
        match run_path(
            plan,
            board,
            &mut self.working,
            &mut self.slot.len,
            Mode::Task,
        ) {
            Chunk::Ended => {
                self.slot.steps += 1;
                self.dirty = true;
                Chunk::Ended
            }
            Chunk::Dropped => {
                drop_section(&plan.code, &mut self.working, from);
                Chunk::Dropped
            }
            Chunk::Lost => {
                self.restore(plan, board);
                Chunk::Lost
            }
            Chunk::Over => Chunk::Over,
            Chunk::Full => Chunk::Full,
        }
    }

    // The handler of an arrival, with a wake before it where the board is off, and its own record behind it.
    fn serve<B: Board>(&mut self, plan: &Plan, board: &mut B, due: &Due) -> Chunk
        requires rest { IsAtRest plan.now.layout self.old }
        requires belongs { (program : Checked) × BelongTogether program plan.now (point_of self.old (B.state board.old)) }
        requires chosen { Chooses plan.now (point_of self.old (B.state board.old)) (Choice.Job due.now) }
        ensures serves { Serves plan.now self.old (B.state board.old) due.now result self.new (B.state board.new) }
        ensures few { self.new.slot.len ≤ plan.now.layout.log }
        ensures fits { (program : Checked) → Fits program plan.now.code self.old.working → Fits program plan.now.code self.new.working }
        ensures origin { B.origin board.new ≡ B.origin board.old }
    {
        runs_end();
        let version = plan.version_of(due);
        let entry = ran(due.event, version, self.slot.steps, board.tick(), due.index);
        match wake_up(board) {
            Answer::Done => {}
            Answer::Lost => return Chunk::Lost,
            Answer::Over => return Chunk::Over,
        }
        enter(
            &plan.code,
            &mut self.working,
            due.event,
            version,
            due.payload,
        );
        match run_path(
            plan,
            board,
            &mut self.working,
            &mut self.slot.len,
            Mode::Handler,
        ) {
            Chunk::Ended => {}
            stopped => return stopped,
        }
        put(plan, board, &mut self.slot.len, &entry, By::Write)
    }

    /// Serves an arrival: a wake where the board is off, its handler, its record, and a commit with one more arrival of its event done.
    pub fn run_job<B: Board>(&mut self, plan: &Plan, board: &mut B, due: &Due) -> Chunk
        requires rest { IsAtRest plan.now.layout self.old }
        requires belongs { (program : Checked) × BelongTogether program plan.now (point_of self.old (B.state board.old)) }
        requires chosen { Chooses plan.now (point_of self.old (B.state board.old)) (Choice.Job due.now) }
        ensures does { JobDoes plan.now (point_of self.old (B.state board.old)) due.now result (point_of self.new (B.state board.new)) }
        ensures keeps { IsKept plan.now self.old (B.state board.old) result self.new (B.state board.new) }
        ensures origin { B.origin board.new ≡ B.origin board.old }
    {
        runs_end();
        commits_last();
        appends_are_safe();
        let _tick = board.tick();
        match self.serve(plan, board, due) {
            Chunk::Ended => {}
            Chunk::Lost => {
                self.restore(plan, board);
                return Chunk::Lost;
            }
            stopped => return stopped,
        }
        let done = self.slot.done(due.event);
        self.slot.set_done(due.event, done + 1);
        self.commit(plan, board)
    }
}
