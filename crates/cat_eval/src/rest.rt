//! What is left of a list of statements.

ghost use Rattle.std.specs.Prelude.{◌≡◌, ◌<◌, ◌↔◌, IsTrue, [], ◌∷◌, length, reverse};

use crate::state::Frame;
use arrayvec::ArrayVec;
use std::marker::Model;

/// Where each open block goes on, the innermost one last.
#[derive(Drop)]
pub(crate) struct Rest {
    frames: ArrayVec<Frame, 32>,
}

impl Model for Rest {
    ghost use Rattle.std.specs.Prelude.{List, reverse};
    ghost use Rattle.std.specs.Coded.{codes};
    ghost use Rattle.cat_eval.specs.declared.state.Frame.{Frame as Open};
    ghost use Rattle.cat_eval.specs.contracts.state.Frame as f;

    ghost Value = { List Open };

    ghost coded = { Prim.hlevel (codes, f.the_row.coded) };

    ghost view = { λ r. reverse r.frames.items };
}

fn push(frames: &mut ArrayVec<Frame, 32>, frame: Frame)
    requires { length (reverse frames.old.items) < 32 }
    ensures { reverse frames.new.items ≡ frame ∷ reverse frames.old.items }
{
    frames.push(frame);
}

impl Rest {
    /// Nothing is left.
    pub(crate) fn none() -> Rest
        ensures { result ≡ [] }
    {
        Rest {
            frames: ArrayVec::new(),
        }
    }

    /// Within what is left another block is open, at this place of it.
    pub(crate) fn open(&mut self, block: u32, place: u32)
        requires { length self.old < 32 }
        ensures { self.new ≡ record { block = block; place = place } ∷ self.old }
    {
        push(&mut self.frames, Frame { block, place });
    }

    /// Whether the same is left.
    pub(crate) fn is(&self, other: &Rest) -> bool
        ensures { IsTrue result ↔ (self.now ≡ other.now) }
    {
        self.frames.as_slice() == other.frames.as_slice()
    }
}
