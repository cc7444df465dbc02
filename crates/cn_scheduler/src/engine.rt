//! The engine: what it holds between two chunks.

ghost use Rattle.std.specs.Prelude.{◌≡◌, ◌<◌, ◌≤◌, ◌^◌, ℕ, length, map, slice_index, IfOk};
ghost use Rattle.std.specs.Int.{w32, cast_unsigned};
ghost use Rattle.nv_memory.specs.Layout.{size_of};
ghost use Rattle.checkpoint_slots.specs.Slot.{variables_of, IsMadeFor};
ghost use Rattle.checkpoint_slots.specs.Image.{committed_bytes, IsWellFormed};

use crate::plan::Plan;
use cat_machine::Working;
use cat_program::Program;
use checkpoint_slots::Slot;
use cn_base::NoMemory;
use nv_memory::{Board, Layout};
use recovery::recover;
use std::alloc::Global;

/// What came of a chunk.
#[derive(Clone, Copy, Debug, PartialEq, Eq)]
pub enum Chunk {
    Ended,
    /// A section of the tasks that was given up before it acted, since the store fell below what is kept back.
    Dropped,
    Lost,
    /// The next operation doesn't fit in the board's life.
    Over,
    /// The log has no place for the next record.
    Full,
}

/// How a timeline ends.
#[derive(Clone, Copy, Debug, PartialEq, Eq)]
pub enum End {
    TraceEnded,
    LogFull,
}

/// The working state. The slot counts its records, its steps and the arrivals that are done, and is what a checkpoint is saved from
/// and read into.
#[derive(Drop)]
pub struct Engine {
    pub(crate) working: Working,
    pub(crate) slot: Slot,
    // The working state is not the committed one.
    pub(crate) dirty: bool,
}

fn take_words(working: &mut Working, slot: &Slot, words: u16)
    requires slot { length slot.now.words ≡ words }
    requires working { length working.old.words ≡ words }
    ensures { working.new ≡ record working.old { words = variables_of slot.now } }
{
    for w in 0..words {
        working.set_word(w, slot.word(w));
    }
}

fn take_posts(working: &mut Working, slot: &Slot, tasks: u8)
    requires slot { length slot.now.posts ≡ tasks }
    requires working { length working.old.posts ≡ tasks }
    ensures { working.new ≡ record working.old { posts = slot.now.posts } }
{
    for t in 0..tasks {
        working.set_post(t, slot.post(t));
    }
}

fn keep_words(slot: &mut Slot, working: &Working, words: u16)
    requires slot { length slot.old.words ≡ words }
    requires working { length working.now.words ≡ words }
    ensures words { variables_of slot.new ≡ working.now.words }
    ensures others { slot.new ≡ record slot.old { words = slot.new.words } }
    ensures length { length slot.new.words ≡ words }
{
    for w in 0..words {
        slot.set_word(w, working.word(w));
    }
}

fn keep_posts(slot: &mut Slot, working: &Working, tasks: u8)
    requires slot { length slot.old.posts ≡ tasks }
    requires working { length working.now.posts ≡ tasks }
    ensures { slot.new ≡ record slot.old { posts = working.now.posts } }
{
    for t in 0..tasks {
        slot.set_post(t, working.post(t));
    }
}

/// Puts where the machine stands into a slot.
pub(crate) fn keep_in(slot: &mut Slot, working: &Working, layout: &Layout)
    requires made { IsMadeFor layout.now slot.old }
    requires words { length working.now.words ≡ layout.now.words }
    requires posts { length working.now.posts ≡ layout.now.tasks }
    ensures slot { slot.new ≡ record slot.old { words = map (cast_unsigned w32) working.now.words; posts = working.now.posts; pc = working.now.place } }
    ensures variables { variables_of slot.new ≡ working.now.words }
    ensures made { IsMadeFor layout.now slot.new }
    ensures posts { (t : ℕ) → slice_index working.now.posts t < 2 ^ 16 }
{
    keep_words(slot, working, layout.words);
    keep_posts(slot, working, layout.tasks);
    slot.pc = working.pc();
    slot.fits();
}

impl Engine {
    ghost use Rattle.cn_scheduler.specs.Parts.{IsRestored};
    ghost use Rattle.cn_scheduler.specs.Belongs.{IsLayoutOf};
    ghost use Rattle.cn_scheduler.specs.EnginePoint.{IsFirst};

    /// The engine of a program at its first state: no records, no steps, nothing done. The layout has the program's counts.
    pub fn start(alloc: Global, program: &Program, layout: &Layout) -> Result<Engine, NoMemory>
        requires { IsLayoutOf program.now layout.now }
        ensures { IfOk result (IsFirst program.now layout.now) }
    {
        let working = match Working::with_shape(alloc, program) {
            Ok(working) => working,
            Err(refused) => return Err(refused),
        };
        let slot = match Slot::with_shape(alloc, layout) {
            Ok(slot) => slot,
            Err(refused) => return Err(refused),
        };
        Ok(Engine {
            working,
            slot,
            dirty: false,
        })
    }

    /// Takes up the committed value of a board's image, whose slot is well formed.
    pub fn restore<B: Board>(&mut self, plan: &Plan, board: &B)
        requires image { size_of plan.now.layout ≤ length (B.state board.now).image }
        requires formed { IsWellFormed plan.now.layout (committed_bytes plan.now.layout (B.state board.now).image) }
        requires made { IsMadeFor plan.now.layout self.old.slot }
        requires words { length self.old.working.words ≡ plan.now.layout.words }
        requires posts { length self.old.working.posts ≡ plan.now.layout.tasks }
        ensures { IsRestored plan.now self.new (B.state board.now) }
    {
        recover(board, &plan.layout, &mut self.slot);
        take_words(&mut self.working, &self.slot, plan.layout.words);
        take_posts(&mut self.working, &self.slot, plan.layout.tasks);
        self.working.stand(self.slot.pc);
        self.slot.fits();
        self.dirty = false;
    }
}
