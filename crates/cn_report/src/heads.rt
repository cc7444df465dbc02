//! The head of what an image has committed, kept up with the operations of a timeline.

ghost use Rattle.std.specs.Prelude.{◌≡◌, ◌≤◌, ◌%◌, ◌==◌, if◌then◌else◌, length, slice_index, ℕ, List};

use crate::window::Window;
use checkpoint_slots::slots_are_read_again;
use nv_memory::{Board, Layout, Op, parts_are_apart};

/// The first bytes of an image, where the gate is, and those of both slots, where their lengths and steps are.
#[derive(Clone, Copy, Debug)]
pub(crate) struct Heads {
    pub(crate) gate: Window,
    pub(crate) first: Window,
    pub(crate) second: Window,
}

impl Heads {
    ghost use Rattle.cat_program.specs.Checked.{Checked};
    ghost use Rattle.nv_memory.specs.declared.layout.Layout.{Layout as Places};
    ghost use Rattle.nv_memory.specs.Bytes.{written};
    ghost use Rattle.nv_memory.specs.Layout.{size_of};
    ghost use Rattle.nv_memory.specs.Board.{image_after};
    ghost use Rattle.checkpoint_slots.specs.Image.{committed_slot};
    ghost use Rattle.recovery.specs.First.{IsFresh};
    ghost use Rattle.cn_report.specs.Windows.{AreHeads};

    /// Those of a program's first image: gate 0, and no records and no steps.
    pub(crate) fn fresh() -> Heads
        ensures { (program : Checked) (l : Places) (image : List ℕ) → IsFresh program l image → AreHeads l image result }
    {
        slots_are_read_again();
        Heads {
            gate: Window::blank(),
            first: Window::blank(),
            second: Window::blank(),
        }
    }

    /// Those of the image that a board holds.
    pub(crate) fn of<B: Board>(board: &B, layout: &Layout) -> Heads
        requires { size_of layout.now ≤ length (B.state board.now).image }
        ensures { AreHeads layout.now (B.state board.now).image result }
    {
        parts_are_apart();
        Heads {
            gate: Window::of(board, 0),
            first: Window::of(board, layout.slot_at(0)),
            second: Window::of(board, layout.slot_at(1)),
        }
    }

    fn follow_write(&mut self, layout: &Layout, at: u32, left: &[u8])
        ensures { (image : List ℕ) → AreHeads layout.now image self.old → AreHeads layout.now (written at left.now image) self.new }
    {
        self.gate.follow(0, at, left);
        self.first.follow(layout.slot_at(0), at, left);
        self.second.follow(layout.slot_at(1), at, left);
    }

    /// Takes over what an operation leaves in the image.
    pub(crate) fn follow(&mut self, layout: &Layout, op: &Op)
        ensures { (image : List ℕ) → AreHeads layout.now image self.old → AreHeads layout.now (image_after op.now image) self.new }
    {
        match op {
            Op::Emit { at, left, .. } => self.follow_write(layout, *at, left.bytes()),
            Op::Write { at, left } => self.follow_write(layout, *at, left.bytes()),
            _ => {}
        }
    }

    // The head of the slot that the gate selects.
    fn selected(&self) -> Window
        ensures { result ≡ (if slice_index self.now.gate.bytes 0 % 2 == 0 then self.now.first else self.now.second) }
    {
        if self.gate.bytes[0] % 2 == 0 {
            self.first
        } else {
            self.second
        }
    }

    /// How many records are committed.
    pub(crate) fn len(&self) -> u32
        ensures { (l : Places) (image : List ℕ) → AreHeads l image self.now → result ≡ (committed_slot l image).len }
    {
        self.selected().first_number()
    }

    /// How many task steps are committed.
    pub(crate) fn steps(&self) -> u32
        ensures { (l : Places) (image : List ℕ) → AreHeads l image self.now → result ≡ (committed_slot l image).steps }
    {
        self.selected().second_number()
    }
}
