//! How much a version of an event puts out, counted without memory.

ghost use Rattle.std.specs.Prelude.{◌≡◌, ◌≤◌, ◌<◌, length};
ghost use Rattle.cat_program.specs.Body.{Empty, with_stmt, tree_of};
ghost use Rattle.cat_program.specs.Checked.{EachLower, NamesLower, most_outs, most_steps};

use crate::program::Program;
use crate::syntax::Stmt;

// The greatest count of outputs of the statements of a block, each with all that it names.
#[cycle(outputs)]
pub fn block_outs(program: &Program, b: u32) -> u32
    requires lower { EachLower 0 program.now.blocks }
    requires block { b < length program.now.blocks }
    requires short { most_steps (tree_of program.now.blocks b) ≤ 1000000 }
    ensures { result ≡ most_outs (tree_of program.now.blocks b) }
{
    let statements = program.block(b);
    let mut outs = 0;
    for stmt in statements {
        outs += stmt_outs(program, b, stmt);
    }
    outs
}

// That of a statement of block `b`.
#[cycle(outputs)]
fn stmt_outs(program: &Program, b: u32, stmt: &Stmt) -> u32
    requires lower { EachLower 0 program.now.blocks }
    requires block { b < length program.now.blocks }
    requires names { NamesLower b stmt.now }
    requires short { most_steps (with_stmt (tree_of program.now.blocks) 0 0 stmt.now Empty) ≤ 1000000 }
    ensures { result ≡ most_outs (with_stmt (tree_of program.now.blocks) 0 0 stmt.now Empty) }
{
    match stmt {
        Stmt::Out { .. } => 1,
        Stmt::If { yes, no, .. } => {
            let first = block_outs(program, *yes);
            match no {
                None => first,
                Some(no) => first.max(block_outs(program, *no)),
            }
        }
        // a body that never runs may be too long to be counted
        Stmt::Repeat { count, body } => {
            if *count == 0 {
                0
            } else {
                u32::from(*count) * block_outs(program, *body)
            }
        }
        _ => 0,
    }
}
