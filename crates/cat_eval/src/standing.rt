//! Whether the current list is the one that a place stands for.

ghost use Rattle.std.specs.Prelude.{◌≡◌, ◌↔◌, IsTrue, true, Some, reverse};
ghost use Rattle.cat_program.specs.Resting.{RestsAt};
ghost use Rattle.cat_eval.specs.Cursor.{CursorFits, Fits, current_of, cursor_body, state_of};
ghost use Rattle.cat_eval.specs.Places.{AreAtStatements};

use crate::places::rest_of;
use crate::rest::Rest;
use crate::state::{Frame, State};
use cat_program::Program;

/// What is left of a list where these frames are open, the outermost first: those that are not at their blocks' ends.
fn left(program: &Program, frames: &[Frame]) -> Rest
    requires { CursorFits program.now (reverse frames.now) }
    ensures body { cursor_body program.now result ≡ cursor_body program.now (reverse frames.now) }
    ensures at { AreAtStatements program.now result }
{
    let mut rest = Rest::none();
    for frame in frames {
        if (frame.place as usize) < program.block(frame.block).len() {
            rest.open(frame.block, frame.place);
        }
    }
    rest
}

/// Whether a place stands for the list where these frames are open.
fn is_left_at(program: &Program, frames: &[Frame], pc: u32) -> bool
    requires { CursorFits program.now (reverse frames.now) }
    ensures { IsTrue result ↔ RestsAt program.now (Some pc) (Some (cursor_body program.now (reverse frames.now))) }
{
    match rest_of(program, pc) {
        Some(rest) => left(program, frames).is(&rest),
        None => false,
    }
}

impl State {
    /// Whether the current list is the one that a place of task code stands for, or there is neither. It takes no memory.
    pub fn stands_at(&self, program: &Program, pc: Option<u32>) -> bool
        requires { Fits program.now self.now }
        ensures { IsTrue result ↔ RestsAt program.now pc (state_of program.now self.now).current }
    {
        match pc {
            Some(pc) => self.is_running() && is_left_at(program, self.frames(), pc),
            None => !self.is_running(),
        }
    }
}
