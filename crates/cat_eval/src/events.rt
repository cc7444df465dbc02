//! Events: a whole version, without a current task of its own.

ghost use Rattle.std.specs.Prelude.{◌≡◌, ◌≤◌, ◌<◌, ◌+◌, length};
ghost use Rattle.cat_program.specs.Body.{Empty, When, Choice, Turns, with_stmt, tree_of};
ghost use Rattle.cat_program.specs.Checked.{IsChecked, HasVersion, NamesLower, version_at, most_outs};
ghost use Rattle.cat_eval.specs.Cursor.{Fits};
ghost use Rattle.cat_eval.specs.Steps.{Handles, Ready};

use crate::simple::{assign, assign_element, holds, post};
use crate::state::State;
use crate::value::value as value_in;
use cat_program::{Expr, LogEntry, Outs, Program, Stmt, blocks_law, outputs_law, parts_law};

/// The whole body of a version of an event. The current list of the tasks stays.
pub fn run_event(
    program: &Program,
    state: &mut State,
    event: u8,
    version: u8,
    payload: i32,
    outs: &mut Outs,
)
    requires fits { Fits program.now state.old }
    requires there { HasVersion program.now event version }
    requires room { most_outs (version_at program.now event version) ≤ outs.old.spare }
    ensures fits { Fits program.now state.new }
    ensures handles { Handles (version_at program.now event version) payload state.old outs.old state.new outs.new }
{
    parts_law();
    let block = program.version(event, version);
    run_block(program, state, block, payload, outs);
}

// The statements of a block.
#[cycle(events)]
fn run_block(program: &Program, state: &mut State, b: u32, payload: i32, outs: &mut Outs)
    requires ready { Ready program.now (tree_of program.now.blocks b) state.old outs.old }
    requires block { b < length program.now.blocks }
    ensures { Handles (tree_of program.now.blocks b) payload state.old outs.old state.new outs.new }
{
    blocks_law();
    outputs_law();
    let statements = program.block(b);
    for stmt in statements {
        run_stmt(program, state, b, stmt, payload, outs);
    }
}

// A statement of block `b`.
#[cycle(events)]
fn run_stmt(
    program: &Program,
    state: &mut State,
    b: u32,
    stmt: &Stmt,
    payload: i32,
    outs: &mut Outs,
)
    requires ready { Ready program.now (with_stmt (tree_of program.now.blocks) 0 0 stmt.now Empty) state.old outs.old }
    requires block { b < length program.now.blocks }
    requires lower { NamesLower b stmt.now }
    ensures { Handles (with_stmt (tree_of program.now.blocks) 0 0 stmt.now Empty) payload state.old outs.old state.new outs.new }
{
    match stmt {
        Stmt::Set { word, value } => assign(state, *word, value, payload),
        Stmt::SetAt {
            base,
            len,
            index,
            value,
        } => assign_element(state, *base, *len, index, value, payload),
        Stmt::Out { channel, value } => {
            let value = value_in(value, state.words(), payload);
            outs.push(LogEntry::Out {
                channel: *channel,
                value,
            });
        }
        Stmt::Post { task } => post(state, *task, payload),
        Stmt::If { test, yes, no } => match no {
            None => run_when(program, state, test, *yes, payload, outs),
            Some(no) => run_choice(program, state, test, *yes, *no, payload, outs),
        },
        Stmt::While { .. } => unreachable!(),
        Stmt::Repeat { count, body } => run_turns(program, state, *count, *body, payload, outs),
    }
}

#[cycle(events)]
fn run_when(
    program: &Program,
    state: &mut State,
    test: &Expr,
    first: u32,
    payload: i32,
    outs: &mut Outs,
)
    requires ready { Ready program.now (When 0 0 test.now (tree_of program.now.blocks first) Empty) state.old outs.old }
    requires block { first < length program.now.blocks }
    ensures { Handles (When 0 0 test.now (tree_of program.now.blocks first) Empty) payload state.old outs.old state.new outs.new }
{
    if holds(test, state.words(), payload) {
        run_block(program, state, first, payload, outs);
    }
}

#[cycle(events)]
fn run_choice(
    program: &Program,
    state: &mut State,
    test: &Expr,
    first: u32,
    second: u32,
    payload: i32,
    outs: &mut Outs,
)
    requires ready { Ready program.now (Choice 0 0 test.now (tree_of program.now.blocks first) (tree_of program.now.blocks second) Empty) state.old outs.old }
    requires block { first < length program.now.blocks }
    requires other { second < length program.now.blocks }
    ensures { Handles (Choice 0 0 test.now (tree_of program.now.blocks first) (tree_of program.now.blocks second) Empty) payload state.old outs.old state.new outs.new }
{
    if holds(test, state.words(), payload) {
        run_block(program, state, first, payload, outs);
    } else {
        run_block(program, state, second, payload, outs);
    }
}

#[cycle(events)]
fn run_turns(
    program: &Program,
    state: &mut State,
    count: u16,
    body: u32,
    payload: i32,
    outs: &mut Outs,
)
    requires ready { Ready program.now (Turns 0 0 count (tree_of program.now.blocks body) Empty) state.old outs.old }
    requires block { body < length program.now.blocks }
    ensures { Handles (Turns 0 0 count (tree_of program.now.blocks body) Empty) payload state.old outs.old state.new outs.new }
{
    outputs_law();
    for turn in 0..count {
        run_block(program, state, body, payload, outs);
    }
}
