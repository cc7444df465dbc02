//! What a place of task code stands for.

ghost use Rattle.std.specs.Prelude.{◌≡◌, ◌<◌, ◌≤◌, ◌+◌, ◌↔◌, IsTrue, true, false, ◌∷◌, Option, Some, length};
ghost use Rattle.cat_program.specs.Body.{Body, join, tree_of, block_at};
ghost use Rattle.cat_program.specs.Places.{body_size, marks_of, rest_in, task_marks};
ghost use Rattle.cat_program.specs.Checked.{EachLower, depth_of, rest_at};
ghost use Rattle.cat_eval.specs.Cursor.{cursor_body, frame_body};
ghost use Rattle.cat_eval.specs.Places.{AreAtStatements, AreFound, IsChoiceIn, IsIn, IsStmtIn, Stands, choice_marks};

use crate::rest::Rest;
use crate::sizes::{block_size, expr_size, stmt_size};
use cat_program::{Program, Stmt, blocks_law, parts_law};

/// Goes on behind a statement of a block, where anything stands there.
fn open_behind(program: &Program, b: u32, place: u32, rest: &mut Rest)
    requires block { b < length program.now.blocks }
    requires place { place < length (block_at program.now.blocks b) }
    requires few { place < 60000 }
    requires room { length rest.old < 32 }
    requires behind { AreAtStatements program.now rest.old }
    ensures body { cursor_body program.now rest.new ≡ join (frame_body program.now (record { block = b; place = place + 1 })) (cursor_body program.now rest.old) }
    ensures at { AreAtStatements program.now rest.new }
    ensures room { length rest.new ≤ length rest.old + 1 }
{
    if place as usize + 1 < program.block(b).len() {
        rest.open(b, place + 1);
    }
}

/// Goes on at a statement of a block, where the place is its first one.
fn open_first(b: u32, place: u32, at: u32, rest: &mut Rest) -> bool
    requires { length rest.old < 32 }
    ensures first { result ≡ true → (at ≡ 0) × (rest.new ≡ record { block = b; place = place } ∷ rest.old) }
    ensures later { result ≡ false → (0 < at) × (rest.new ≡ rest.old) }
{
    if at == 0 {
        rest.open(b, place);
        return true;
    }
    false
}

/// Whether place `at` of a block's code stands for a list, where `rest` is left behind the block. What is left at that place is
/// left then.
#[cycle(places)]
fn find(program: &Program, b: u32, at: u32, rest: &mut Rest) -> bool
    requires { IsIn program.now b at rest.old }
    ensures { Stands program.now (marks_of (tree_of program.now.blocks b) (cursor_body program.now rest.old)) at result rest.new }
{
    blocks_law();
    let statements = program.block(b);
    let mut left = at;
    let mut place = 0;
    for stmt in statements {
        let size = stmt_size(program, b, stmt);
        if left < size {
            return find_at(program, b, place, stmt, left, rest);
        }
        left -= size;
        place += 1;
    }
    unreachable!()
}

/// The same from a statement of block `b` on, within that statement.
#[cycle(places)]
fn find_at(program: &Program, b: u32, place: u32, stmt: &Stmt, at: u32, rest: &mut Rest) -> bool
    requires { IsStmtIn program.now (record { block = b; place = place }) stmt.now at rest.old }
    ensures { Stands program.now (marks_of (frame_body program.now (record { block = b; place = place })) (cursor_body program.now rest.old)) at result rest.new }
{
    match stmt {
        Stmt::If { test, yes, no } => {
            if at == 0 {
                rest.open(b, place);
                return true;
            }
            let head = expr_size(test) + 1;
            if at < head {
                return false;
            }
            open_behind(program, b, place, rest);
            match no {
                None => find(program, *yes, at - head, rest),
                Some(no) => find_either(program, *yes, *no, at - head, rest),
            }
        }
        Stmt::While { test, body } => {
            if at == 0 {
                rest.open(b, place);
                return true;
            }
            let head = expr_size(test) + 1;
            if at < head {
                return false;
            }
            rest.open(b, place);
            if at - head < block_size(program, *body) {
                return find(program, *body, at - head, rest);
            }
            true
        }
        Stmt::Repeat { .. } => false,
        Stmt::Set { .. } => open_first(b, place, at, rest),
        Stmt::SetAt { .. } => open_first(b, place, at, rest),
        Stmt::Out { .. } => open_first(b, place, at, rest),
        Stmt::Post { .. } => open_first(b, place, at, rest),
    }
}

/// The same in two blocks, between which a jump stands.
#[cycle(places)]
fn find_either(program: &Program, yes: u32, no: u32, at: u32, rest: &mut Rest) -> bool
    requires { IsChoiceIn program.now yes no at rest.old }
    ensures { Stands program.now (choice_marks program.now yes no (cursor_body program.now rest.old)) at result rest.new }
{
    let size = block_size(program, yes);
    if at < size {
        return find(program, yes, at, rest);
    }
    if at == size {
        return true;
    }
    find(program, no, at - size - 1, rest)
}

/// What is left at a place of a task, where its block has this size, `None` where the place stands for no list of statements.
fn rest_in(program: &Program, body: u32, size: u32, at: u32) -> Option<Rest>
    requires lower { EachLower 0 program.now.blocks }
    requires block { body < length program.now.blocks }
    requires size { size ≡ body_size (tree_of program.now.blocks body) }
    requires short { size ≤ 60000 }
    requires shallow { depth_of (tree_of program.now.blocks body) ≤ 32 }
    requires within { at < size + 2 }
    ensures { AreFound program.now (rest_in (task_marks (tree_of program.now.blocks body)) at) result }
{
    if at == 0 {
        return None;
    }
    let mut rest = Rest::none();
    if size < at {
        return Some(rest);
    }
    if find(program, body, at - 1, &mut rest) {
        Some(rest)
    } else {
        None
    }
}

/// What is left at a place of task code, `None` where it stands for no list of statements.
pub(crate) fn rest_of(program: &Program, pc: u32) -> Option<Rest>
    ensures { AreFound program.now (rest_at program.now pc) result }
{
    parts_law();
    let _checked = program.bodies();
    let mut left = pc;
    for t in 0..program.tasks() {
        let body = program.body(t);
        let size = block_size(program, body);
        if left < size + 2 {
            return rest_in(program, body, size, left);
        }
        left -= size + 2;
    }
    None
}

/// Whether a place of task code stands for a list of statements. It takes no memory.
pub fn has_rest(program: &Program, pc: u32) -> bool
    ensures { IsTrue result ↔ ((k : Body) × (rest_at program.now pc ≡ Some k)) }
{
    rest_of(program, pc).is_some()
}
