ghost use Rattle.std.specs.Prelude.{◌≡◌, ◌<◌, [], ◌∷◌, length, reverse, pos, slice_set, slice_index, slice_index_or, MatchOption, IfOk};
ghost use Rattle.cat_program.specs.Meaning.{raised, lowered, first_posted};

use arrayvec::ArrayVec;
use cat_program::Program;
use cn_base::NoMemory;
use std::alloc::{AllocError, Global};
use std::marker::Model;

/// A place in a block, from which the block goes on.
#[derive(Clone, Copy, Debug, Default, PartialEq, Eq)]
pub struct Frame {
    pub block: u32,
    pub place: u32,
}

impl Frame {
    ghost use Rattle.cat_eval.specs.Cursor.{first_frame, next_frame};

    pub(crate) fn first(block: u32) -> Frame
        ensures { result ≡ first_frame block }
    {
        Frame { block, place: 0 }
    }

    pub(crate) fn next(self) -> Frame
        requires { self.place < 60000 }
        ensures { result ≡ next_frame self }
    {
        Frame {
            block: self.block,
            place: self.place + 1,
        }
    }
}

/// A state of the tasks. Where a task is current, its frames say what is left to do, the innermost last.
#[derive(Drop)]
pub struct State {
    words: Vec<i32>,
    posts: Vec<u16>,
    running: bool,
    frames: ArrayVec<Frame, 32>,
}

impl Model for State {
    ghost use Rattle.std.specs.Prelude.{reverse};
    ghost use Rattle.cat_eval.specs.StateValue.{StateValue};

    ghost Value = { StateValue };

    ghost view = { λ s. record { words = s.words.items; posts = s.posts.items; running = s.running; frames = reverse s.frames.items } };
}

// The innermost frame, which is taken.
fn pop(frames: &mut ArrayVec<Frame, 32>) -> Option<Frame>
    ensures { MatchOption result ((reverse frames.old.items ≡ []) × (reverse frames.new.items ≡ [])) (λ f. reverse frames.old.items ≡ f ∷ reverse frames.new.items) }
{
    frames.pop()
}

fn push(frames: &mut ArrayVec<Frame, 32>, frame: Frame)
    requires { length (reverse frames.old.items) < 32 }
    ensures { reverse frames.new.items ≡ frame ∷ reverse frames.old.items }
{
    frames.push(frame);
}

// The parts of a first state.
fn first_parts(alloc: Global, program: &Program) -> Result<(Vec<i32>, Vec<u16>), AllocError>
    ensures { IfOk result (λ parts. (parts.0.items ≡ program.now.words) × (parts.1.items ≡ program.now.started)) }
{
    let words = program.first_words().to_vec(alloc)?;
    let posts = program.first_posts().to_vec(alloc)?;
    Ok((words, posts))
}

impl State {
    ghost use Rattle.cat_program.specs.Checked.{first_state};
    ghost use Rattle.cat_eval.specs.Cursor.{Fits, state_of};

    /// The first state of a program: its initial variables, its first posts, and no current task.
    pub fn first(alloc: Global, program: &Program) -> Result<State, NoMemory>
        ensures { IfOk result (λ s. Fits program.now s × (state_of program.now s ≡ first_state program.now)) }
    {
        let _checked = program.first_posts();
        match first_parts(alloc, program) {
            Ok((words, posts)) => Ok(State {
                words,
                posts,
                running: false,
                frames: ArrayVec::new(),
            }),
            Err(_) => Err(NoMemory),
        }
    }

    /// The value of a word.
    pub fn word(&self, w: u16) -> i32
        requires { w < length self.now.words }
        ensures { result ≡ slice_index_or self.now.words w (pos 0) }
    {
        self.words[w as usize]
    }

    /// How many posts a task has, at most 65,535.
    pub fn post(&self, t: u8) -> u16
        requires { t < length self.now.posts }
        ensures { result ≡ slice_index self.now.posts t }
    {
        self.posts[t as usize]
    }

    pub(crate) fn words(&self) -> &[i32]
        ensures { result.now ≡ self.now.words }
    {
        self.words.as_slice()
    }

    /// The frames, the outermost first.
    pub(crate) fn frames(&self) -> &[Frame]
        ensures { reverse result.now ≡ self.now.frames }
    {
        self.frames.as_slice()
    }

    pub(crate) fn is_running(&self) -> bool
        ensures { result ≡ self.now.running }
    {
        self.running
    }

    pub(crate) fn first_posted(&self) -> Option<usize>
        ensures { result ≡ first_posted self.now.posts }
    {
        self.posts.iter().position(|n| *n != 0)
    }

    pub(crate) fn set_word(&mut self, w: usize, value: i32)
        requires { w < length self.old.words }
        ensures { self.new ≡ record self.old { words = slice_set self.old.words w value } }
    {
        self.words[w] = value;
    }

    pub(crate) fn raise(&mut self, t: usize)
        requires { t < length self.old.posts }
        ensures { self.new ≡ record self.old { posts = raised self.old.posts t } }
    {
        self.posts[t] = self.posts[t].saturating_add(1);
    }

    pub(crate) fn lower(&mut self, t: usize)
        requires { t < length self.old.posts }
        ensures { self.new ≡ record self.old { posts = lowered self.old.posts t } }
    {
        self.posts[t] = self.posts[t].saturating_sub(1);
    }

    pub(crate) fn set_running(&mut self, running: bool)
        ensures { self.new ≡ record self.old { running = running } }
    {
        self.running = running;
    }

    pub(crate) fn take_frame(&mut self) -> Option<Frame>
        ensures { MatchOption result ((self.old.frames ≡ []) × (self.new ≡ self.old)) (λ f. self.old ≡ record self.new { frames = f ∷ self.new.frames }) }
    {
        pop(&mut self.frames)
    }

    pub(crate) fn push_frame(&mut self, frame: Frame)
        requires { length self.old.frames < 32 }
        ensures { self.new ≡ record self.old { frames = frame ∷ self.old.frames } }
    {
        push(&mut self.frames, frame);
    }
}
