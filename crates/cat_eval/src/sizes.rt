//! How long the code of expressions and blocks is, counted without memory.

ghost use Rattle.std.specs.Prelude.{◌≡◌, ◌≤◌, ◌<◌, length};
ghost use Rattle.cat_program.specs.Body.{Empty, with_stmt, tree_of};
ghost use Rattle.cat_program.specs.Places.{body_size, expr_size};
ghost use Rattle.cat_program.specs.Checked.{EachLower, NamesLower};

use cat_program::{Expr, Program, Stmt, blocks_law};

/// The places of an expression's code.
pub(crate) fn expr_size(e: &Expr) -> u32
    requires { expr_size e.now ≤ 60000 }
    ensures { result ≡ expr_size e.now }
{
    match e {
        Expr::Number(_) => 1,
        Expr::Payload => 1,
        Expr::Word(_) => 1,
        Expr::Element { index, .. } => expr_size(index) + 1,
        Expr::Signed { operand, .. } => expr_size(operand) + 1,
        Expr::Chain { first, rest } => {
            let mut size = expr_size(first);
            for further in rest {
                size += expr_size(&further.operand) + 1;
            }
            size
        }
    }
}

/// The places of the code of a block's statements, each with all that it names.
#[cycle(sizes)]
pub(crate) fn block_size(program: &Program, b: u32) -> u32
    requires lower { EachLower 0 program.now.blocks }
    requires block { b < length program.now.blocks }
    requires short { body_size (tree_of program.now.blocks b) ≤ 60000 }
    ensures { result ≡ body_size (tree_of program.now.blocks b) }
{
    blocks_law();
    let statements = program.block(b);
    let mut size = 0;
    for stmt in statements {
        size += stmt_size(program, b, stmt);
    }
    size
}

/// Those of a statement of block `b`.
#[cycle(sizes)]
pub(crate) fn stmt_size(program: &Program, b: u32, stmt: &Stmt) -> u32
    requires lower { EachLower 0 program.now.blocks }
    requires block { b < length program.now.blocks }
    requires names { NamesLower b stmt.now }
    requires short { body_size (with_stmt (tree_of program.now.blocks) 0 0 stmt.now Empty) ≤ 60000 }
    ensures { result ≡ body_size (with_stmt (tree_of program.now.blocks) 0 0 stmt.now Empty) }
{
    match stmt {
        Stmt::Set { value, .. } => expr_size(value) + 1,
        Stmt::SetAt { index, value, .. } => expr_size(index) + expr_size(value) + 1,
        Stmt::Out { value, .. } => expr_size(value) + 1,
        Stmt::Post { .. } => 1,
        Stmt::If { test, yes, no } => {
            let first = expr_size(test) + 1 + block_size(program, *yes);
            match no {
                None => first,
                Some(no) => first + 1 + block_size(program, *no),
            }
        }
        Stmt::While { test, body } => expr_size(test) + 1 + block_size(program, *body) + 1,
        Stmt::Repeat { body, .. } => 2 + block_size(program, *body) + 1,
    }
}
