//! The pieces of a source as a list of references.

ghost use Rattle.std.specs.Prelude.{◌≡◌, ◌∷◌, [], map, OnOk, IfOk};
ghost use Rattle.cat_conditions.specs.Plain.{term_of, further_of, furthers_of, action_of, block_of};
ghost use Rattle.cat_conditions.specs.Pieces as spec;
ghost use Rattle.cat_conditions.specs.Pieces.{term_pieces, inner_terms, further_terms, block_pieces, inner_pieces, versions_pieces, item_pieces, items_pieces};
ghost use Rattle.cat_types.specs.Shown.{shown, all_shown, Adds};

use cat_conditions::plain_law;
use cn_base::NoMemory;
use cn_base::tree::{Expr, Further, Item, Stmt, Tree};
use sqlite_items::Items;
use std::alloc::Global;

/// How many operands a statement may need at once.
pub const MOST_OPERANDS: u8 = 32;

/// A piece of a source.
#[derive(Clone, Copy)]
pub enum Piece<'a> {
    Item(&'a Item),
    /// Whether it stands in an event, how many operands the repeats around it leave, and the statement.
    Statement(bool, u8, &'a Stmt),
    /// Whether it stands in an event, and the expression.
    Expression(bool, &'a Expr),
}

#[cycle(expr)]
fn add_expr<'a>(found: &mut Vec<Piece<'a>>, in_event: bool, expr: &'a Expr) -> Result<(), NoMemory>
    ensures { OnOk result (Adds found.old.items found.new.items (term_pieces in_event (term_of expr.now))) }
{
    add(found, Piece::Expression(in_event, expr))?;
    add_inner(found, in_event, expr)
}

#[cycle(expr)]
#[tactic(auto, using(crate::proofs::Adding::adds_none, crate::proofs::Adding::adds_then))]
fn add_inner<'a>(found: &mut Vec<Piece<'a>>, in_event: bool, expr: &'a Expr) -> Result<(), NoMemory>
    ensures { OnOk result (Adds found.old.items found.new.items (inner_terms in_event (term_of expr.now))) }
{
    plain_law();
    match expr {
        Expr::Number(_) | Expr::Truth(_) | Expr::Payload | Expr::Name(_) => Ok(()),
        Expr::Element(_, index) => add_expr(found, in_event, index.get()),
        Expr::Signed(_, operand) => add_expr(found, in_event, operand.get()),
        Expr::Chain(first, others) => {
            add_expr(found, in_event, first.get())?;
            add_furthers(found, in_event, others.as_slice())
        }
        Expr::Compare(first, _, second) => {
            add_expr(found, in_event, first.get())?;
            add_expr(found, in_event, second.get())
        }
    }
}

#[cycle(expr)]
fn add_furthers<'a>(
    found: &mut Vec<Piece<'a>>,
    in_event: bool,
    others: &'a [Further],
) -> Result<(), NoMemory>
    ensures { OnOk result (Adds found.old.items found.new.items (further_terms in_event (furthers_of (map further_of others.now)))) }
{
    plain_law();
    for other in others {
        add_expr(found, in_event, &other.operand)?;
    }
    Ok(())
}

#[cycle(stmt)]
fn add_block<'a>(
    found: &mut Vec<Piece<'a>>,
    in_event: bool,
    room: u8,
    block: &'a [Stmt],
) -> Result<(), NoMemory>
    ensures { OnOk result (Adds found.old.items found.new.items (block_pieces in_event room (block_of block.now))) }
{
    for statement in block {
        add(found, Piece::Statement(in_event, room, statement))?;
        add_inside(found, in_event, room, statement)?;
    }
    Ok(())
}

#[cycle(stmt)]
#[tactic(auto, using(crate::proofs::Adding::adds_none, crate::proofs::Adding::adds_then))]
fn add_inside<'a>(
    found: &mut Vec<Piece<'a>>,
    in_event: bool,
    room: u8,
    statement: &'a Stmt,
) -> Result<(), NoMemory>
    ensures { OnOk result (Adds found.old.items found.new.items (inner_pieces in_event room (action_of statement.now))) }
{
    plain_law();
    match statement {
        Stmt::Set(_, value) | Stmt::Out(_, value) => add_expr(found, in_event, value),
        Stmt::SetAt(_, index, value) => {
            add_expr(found, in_event, index)?;
            add_expr(found, in_event, value)
        }
        Stmt::Post(_) => Ok(()),
        Stmt::If(test, first, second) => {
            add_expr(found, in_event, test)?;
            add_block(found, in_event, room, first.as_slice())?;
            match second {
                Some(second) => add_block(found, in_event, room, second.as_slice()),
                None => Ok(()),
            }
        }
        Stmt::While(test, body) => {
            add_expr(found, in_event, test)?;
            add_block(found, in_event, room, body.as_slice())
        }
        Stmt::Repeat(_, body) => {
            add_block(found, in_event, room.saturating_sub(1), body.as_slice())
        }
    }
}

fn add_versions<'a>(found: &mut Vec<Piece<'a>>, versions: &'a [Items<Stmt>]) -> Result<(), NoMemory>
    ensures { OnOk result (Adds found.old.items found.new.items (versions_pieces versions.now)) }
{
    for version in versions {
        add_block(found, true, MOST_OPERANDS, version.as_slice())?;
    }
    Ok(())
}

fn add_item<'a>(found: &mut Vec<Piece<'a>>, item: &'a Item) -> Result<(), NoMemory>
    ensures { OnOk result (Adds found.old.items found.new.items (item_pieces item.now)) }
{
    match item {
        Item::Task(_, body) => add_block(found, false, MOST_OPERANDS, body.as_slice()),
        Item::Event(_, _, _, versions) => add_versions(found, versions.as_slice()),
        _ => Ok(()),
    }
}

fn add_items<'a>(found: &mut Vec<Piece<'a>>, items: &'a [Item]) -> Result<(), NoMemory>
    ensures { OnOk result (Adds found.old.items found.new.items (items_pieces items.now)) }
{
    for item in items {
        add(found, Piece::Item(item))?;
        add_item(found, item)?;
    }
    Ok(())
}

/// All pieces of a source, in order.
pub fn pieces(alloc: Global, tree: &Tree) -> Result<Vec<Piece<'_>>, NoMemory>
    ensures { IfOk result (λ found. all_shown found.items ≡ spec.pieces tree.now) }
{
    let mut found = Vec::new(alloc);
    add_items(&mut found, tree.items.as_slice())?;
    Ok(found)
}

fn add<'a>(found: &mut Vec<Piece<'a>>, piece: Piece<'a>) -> Result<(), NoMemory>
    ensures { OnOk result (Adds found.old.items found.new.items (shown piece.entry ∷ [])) }
{
    match found.push(piece) {
        Ok(()) => Ok(()),
        Err(_) => Err(NoMemory),
    }
}
