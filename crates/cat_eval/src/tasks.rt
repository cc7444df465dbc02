//! Steps of the tasks.

ghost use Rattle.std.specs.Prelude.{◌≡◌, ◌≤◌, ◌+◌, ◌<◌, true, false, Some, length, slice_get};
ghost use Rattle.cat_program.specs.Body.{block_at};
ghost use Rattle.cat_program.specs.Meaning.{first_posted, list_step};
ghost use Rattle.cat_program.specs.declared.syntax.Stmt.TheVariants as stmt;
ghost use Rattle.cat_program.specs.declared.syntax.Stepped.TheVariants.{Quiet};
ghost use Rattle.cat_eval.specs.Cursor.{Fits, AtFrame, cursor_body};
ghost use Rattle.cat_eval.specs.Steps.{StepIs, StepsAt, StepsAs, store_of};

use crate::settle::settle;
use crate::simple::{assign, assign_element, chosen_block, post};
use crate::state::{Frame, State};
use crate::value::value as value_in;
use cat_program::{Expr, Program, Stepped, Stmt, blocks_law, parts_law};

/// One step of the tasks. The answer is none exactly where no step exists.
pub fn task_step(program: &Program, state: &mut State) -> Stepped
    requires { Fits program.now state.old }
    ensures fits { Fits program.now state.new }
    ensures step { StepsAs program.now state.old result state.new }
{
    if state.is_running() {
        go_on(program, state)
    } else {
        match state.first_posted() {
            None => Stepped::None,
            Some(t) => begin(program, state, t),
        }
    }
}

// The task loses one post, and its body is the current list.
fn begin(program: &Program, state: &mut State, t: usize) -> Stepped
    requires fits { Fits program.now state.old }
    requires idle { state.old.running ≡ false }
    requires first { first_posted state.old.posts ≡ Some t }
    ensures fits { Fits program.now state.new }
    ensures step { StepsAs program.now state.old result state.new }
{
    blocks_law();
    parts_law();
    let block = program.body(t as u8);
    state.lower(t);
    state.set_running(true);
    state.push_frame(Frame::first(block));
    Stepped::Quiet
}

// A step where a list is current.
fn go_on(program: &Program, state: &mut State) -> Stepped
    requires fits { Fits program.now state.old }
    requires running { state.old.running ≡ true }
    ensures fits { Fits program.now state.new }
    ensures step { StepIs program.now (list_step (cursor_body program.now state.old.frames) (store_of state.old)) result state.new }
{
    match settle(program, state) {
        None => {
            state.set_running(false);
            Stepped::Quiet
        }
        Some(frame) => step_at(program, state, frame),
    }
}

// A step at a statement, whose frame has been taken off.
fn step_at(program: &Program, state: &mut State, frame: Frame) -> Stepped
    requires { AtFrame program.now state.old frame }
    ensures { StepsAt program.now state.old frame result state.new }
{
    let statements = program.block(frame.block);
    match &statements[frame.place as usize] {
        Stmt::Set { word, value } => {
            assign(state, *word, value, 0);
            state.push_frame(frame.next());
            Stepped::Quiet
        }
        Stmt::SetAt {
            base,
            len,
            index,
            value,
        } => {
            assign_element(state, *base, *len, index, value, 0);
            state.push_frame(frame.next());
            Stepped::Quiet
        }
        Stmt::Out { channel, value } => {
            let value = value_in(value, state.words(), 0);
            state.push_frame(frame.next());
            Stepped::Out {
                channel: *channel,
                value,
            }
        }
        Stmt::Post { task } => {
            post(state, *task, 0);
            state.push_frame(frame.next());
            Stepped::Quiet
        }
        Stmt::If { test, yes, no } => {
            branch(program, state, frame, test, *yes, *no);
            Stepped::Quiet
        }
        Stmt::While { test, body } => {
            turn(program, state, frame, test, *body);
            Stepped::Quiet
        }
        Stmt::Repeat { .. } => unreachable!(),
    }
}

// The list goes on after the choice, with the chosen block before it.
fn branch(
    program: &Program,
    state: &mut State,
    frame: Frame,
    test: &Expr,
    first: u32,
    second: Option<u32>,
)
    requires at { AtFrame program.now state.old frame }
    requires here { slice_get (block_at program.now.blocks frame.block) frame.place ≡ Some (stmt.If test.now first second) }
    ensures { StepsAt program.now state.old frame Quiet state.new }
{
    blocks_law();
    let chosen = chosen_block(test, state.words(), first, second);
    state.push_frame(frame.next());
    match chosen {
        None => {}
        Some(block) => state.push_frame(Frame::first(block)),
    }
}

// The frame of a loop stays at it while its body is done.
fn turn(program: &Program, state: &mut State, frame: Frame, test: &Expr, body: u32)
    requires at { AtFrame program.now state.old frame }
    requires here { slice_get (block_at program.now.blocks frame.block) frame.place ≡ Some (stmt.While test.now body) }
    ensures { StepsAt program.now state.old frame Quiet state.new }
{
    blocks_law();
    match chosen_block(test, state.words(), body, None) {
        None => state.push_frame(frame.next()),
        Some(block) => {
            state.push_frame(frame);
            state.push_frame(Frame::first(block));
        }
    }
}
