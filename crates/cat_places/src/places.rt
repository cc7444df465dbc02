//! Where the pieces of a source begin: one walk along the tree and its tokens.

ghost use Rattle.std.specs.Prelude.{◌≡◌, ◌-◌, ◌<◌, ◌^◌, ◌++◌, ◌∷◌, [], length, map, IfOk, OnOk, List};
ghost use Rattle.cat_conditions.specs.Plain.{term_of, further_of, furthers_of, action_of, block_of};
ghost use Rattle.cat_conditions.specs.Pieces.{pieces, items_pieces};
ghost use Rattle.cat_places.specs.Starts.{IsTreeOf, AreStarts, AreInOrder, first_tokens};
ghost use Rattle.cat_syntax.specs.Grammar.{IsProgram};
ghost use Rattle.cat_tokens.specs.Lexemes.{Lexeme};
ghost use Rattle.cn_base.specs.declared.tree.Item.{Item as AnItem};
ghost use Rattle.cat_places.specs.Walk as spec;

use crate::cursor::Cursor;
use cat_conditions::plain_law;
use cat_tokens::Token;
use cn_base::NoMemory;
use cn_base::tree::{Expr, Further, Item, Stmt, Timing, Tree};
use sqlite_items::Items;
use std::alloc::Global;

fn add(found: &mut Vec<u32>, left: u32) -> Result<(), NoMemory>
    ensures { OnOk result (found.new.items ≡ found.old.items ++ left ∷ []) }
{
    match found.push(left) {
        Ok(()) => Ok(()),
        Err(_) => Err(NoMemory),
    }
}

/// An expression and the parentheses around it.
#[cycle(expr)]
fn whole(cursor: &mut Cursor<'_>, found: &mut Vec<u32>, expr: &Expr) -> Result<(), NoMemory>
    ensures cursor { OnOk result (cursor.new ≡ spec.enclosed (term_of expr.now) cursor.old) }
    ensures found { OnOk result (found.new.items ≡ found.old.items ++ spec.lefts (term_of expr.now) cursor.old) }
{
    let open = bare(cursor, found, expr)?;
    cursor.close(open);
    Ok(())
}

/// An expression up to its own last token. How many of the parentheses in front of it are open then.
#[cycle(expr)]
fn bare(cursor: &mut Cursor<'_>, found: &mut Vec<u32>, expr: &Expr) -> Result<u32, NoMemory>
    ensures open { IfOk result (λ n. n ≡ spec.unclosed (term_of expr.now) cursor.old) }
    ensures cursor { OnOk result (cursor.new ≡ spec.after (term_of expr.now) cursor.old) }
    ensures found { OnOk result (found.new.items ≡ found.old.items ++ spec.lefts (term_of expr.now) cursor.old) }
{
    plain_law();
    match expr {
        Expr::Number(_) | Expr::Truth(_) | Expr::Payload | Expr::Name(_) => {
            let open = cursor.open();
            add(found, cursor.left())?;
            cursor.skip(1);
            Ok(open)
        }
        Expr::Element(_, index) => {
            let open = cursor.open();
            add(found, cursor.left())?;
            cursor.skip(2);
            whole(cursor, found, index.get())?;
            cursor.skip(1);
            Ok(open)
        }
        Expr::Signed(_, operand) => {
            let open = cursor.open();
            add(found, cursor.left())?;
            cursor.skip(1);
            whole(cursor, found, operand.get())?;
            Ok(open)
        }
        Expr::Chain(first, others) => {
            let open = first_operand(cursor, found, first.get())?;
            furthers(cursor, found, others.as_slice())?;
            Ok(open)
        }
        Expr::Compare(first, _, second) => {
            let open = first_operand(cursor, found, first.get())?;
            cursor.skip(1);
            whole(cursor, found, second.get())?;
            Ok(open)
        }
    }
}

/// The place of a chain or comparison, and its first operand with the parentheses around it. A parenthesis
/// in front that is open behind the operand stands around the whole.
#[cycle(expr)]
fn first_operand(
    cursor: &mut Cursor<'_>,
    found: &mut Vec<u32>,
    first: &Expr,
) -> Result<u32, NoMemory>
    ensures open { IfOk result (λ n. n ≡ spec.open_outside (term_of first.now) cursor.old) }
    ensures cursor { OnOk result (cursor.new ≡ spec.enclosed (term_of first.now) cursor.old) }
    ensures found { OnOk result (found.new.items ≡ found.old.items ++ spec.left_outside (term_of first.now) cursor.old ∷ spec.lefts (term_of first.now) cursor.old) }
{
    let left = cursor.left();
    let at = found.len();
    add(found, left)?;
    let open = bare(cursor, found, first)?;
    let open = cursor.close(open);
    found[at] = left.saturating_sub(open);
    Ok(open)
}

#[cycle(expr)]
fn furthers(
    cursor: &mut Cursor<'_>,
    found: &mut Vec<u32>,
    others: &[Further],
) -> Result<(), NoMemory>
    ensures cursor { OnOk result (cursor.new ≡ spec.after_furthers (furthers_of (map further_of others.now)) cursor.old) }
    ensures found { OnOk result (found.new.items ≡ found.old.items ++ spec.furthers_lefts (furthers_of (map further_of others.now)) cursor.old) }
{
    plain_law();
    for other in others {
        cursor.skip(1);
        whole(cursor, found, &other.operand)?;
    }
    Ok(())
}

#[cycle(stmt)]
fn block(cursor: &mut Cursor<'_>, found: &mut Vec<u32>, block: &[Stmt]) -> Result<(), NoMemory>
    ensures cursor { OnOk result (cursor.new ≡ spec.after_block (block_of block.now) cursor.old) }
    ensures found { OnOk result (found.new.items ≡ found.old.items ++ spec.block_lefts (block_of block.now) cursor.old) }
{
    cursor.skip(1);
    statements(cursor, found, block)?;
    cursor.skip(1);
    Ok(())
}

#[cycle(stmt)]
fn statements(cursor: &mut Cursor<'_>, found: &mut Vec<u32>, block: &[Stmt]) -> Result<(), NoMemory>
    ensures cursor { OnOk result (cursor.new ≡ spec.after_actions (block_of block.now) cursor.old) }
    ensures found { OnOk result (found.new.items ≡ found.old.items ++ spec.actions_lefts (block_of block.now) cursor.old) }
{
    for statement in block {
        add(found, cursor.left())?;
        inside(cursor, found, statement)?;
    }
    Ok(())
}

/// What stands in a statement.
#[cycle(stmt)]
fn inside(cursor: &mut Cursor<'_>, found: &mut Vec<u32>, statement: &Stmt) -> Result<(), NoMemory>
    ensures cursor { OnOk result (cursor.new ≡ spec.after_action (action_of statement.now) cursor.old) }
    ensures found { OnOk result (found.new.items ≡ found.old.items ++ spec.inner_lefts (action_of statement.now) cursor.old) }
{
    plain_law();
    match statement {
        Stmt::Set(_, value) => assigned(cursor, found, 2, value),
        Stmt::SetAt(_, index, value) => {
            cursor.skip(2);
            whole(cursor, found, index)?;
            assigned(cursor, found, 2, value)
        }
        Stmt::Out(_, value) => assigned(cursor, found, 3, value),
        Stmt::Post(_) => {
            cursor.skip(3);
            Ok(())
        }
        Stmt::If(test, first, second) => {
            cursor.skip(1);
            whole(cursor, found, test)?;
            block(cursor, found, first.as_slice())?;
            match second {
                Some(second) => {
                    cursor.skip(1);
                    block(cursor, found, second.as_slice())
                }
                None => Ok(()),
            }
        }
        Stmt::While(test, body) => {
            cursor.skip(1);
            whole(cursor, found, test)?;
            block(cursor, found, body.as_slice())
        }
        Stmt::Repeat(_, body) => {
            cursor.skip(2);
            block(cursor, found, body.as_slice())
        }
    }
}

/// A value behind so many tokens, and the semicolon behind it.
fn assigned(
    cursor: &mut Cursor<'_>,
    found: &mut Vec<u32>,
    before: usize,
    value: &Expr,
) -> Result<(), NoMemory>
    ensures cursor { OnOk result (cursor.new ≡ spec.after_value before (term_of value.now) cursor.old) }
    ensures found { OnOk result (found.new.items ≡ found.old.items ++ spec.value_lefts before (term_of value.now) cursor.old) }
{
    cursor.skip(before);
    whole(cursor, found, value)?;
    cursor.skip(1);
    Ok(())
}

/// Versions, each behind one token: the number of the deadline, or `else`.
fn versions(
    cursor: &mut Cursor<'_>,
    found: &mut Vec<u32>,
    versions: &[Items<Stmt>],
) -> Result<(), NoMemory>
    ensures cursor { OnOk result (cursor.new ≡ spec.after_versions versions.now cursor.old) }
    ensures found { OnOk result (found.new.items ≡ found.old.items ++ spec.versions_lefts versions.now cursor.old) }
{
    for version in versions {
        cursor.skip(1);
        block(cursor, found, version.as_slice())?;
    }
    Ok(())
}

fn timing_tokens(timing: Timing) -> usize
    ensures { result ≡ spec.timing_tokens timing }
{
    match timing {
        Timing::Every(_, _) => 4,
        Timing::Spacing(_) => 2,
    }
}

/// What stands in an item.
fn within(cursor: &mut Cursor<'_>, found: &mut Vec<u32>, item: &Item) -> Result<(), NoMemory>
    ensures cursor { OnOk result (cursor.new ≡ spec.after_item item.now cursor.old) }
    ensures found { OnOk result (found.new.items ≡ found.old.items ++ spec.item_lefts item.now cursor.old) }
{
    match item {
        Item::Int(_, is_negative, _) => cursor.skip(5 + usize::from(*is_negative)),
        Item::Bool(_, _) => cursor.skip(5),
        Item::Array(_, _) => cursor.skip(6),
        Item::Task(_, body) => {
            cursor.skip(2);
            block(cursor, found, body.as_slice())?;
        }
        Item::Event(_, timing, _, bodies) => {
            cursor.skip(3 + timing_tokens(*timing));
            versions(cursor, found, bodies.as_slice())?;
        }
        Item::Degrade(events) => cursor.skip(2 * events.as_slice().len() + 1),
        Item::Start(_) => cursor.skip(3),
    }
    Ok(())
}

fn items(cursor: &mut Cursor<'_>, found: &mut Vec<u32>, items: &[Item]) -> Result<(), NoMemory>
    ensures { OnOk result (found.new.items ≡ found.old.items ++ spec.items_lefts items.now cursor.old) }
{
    for item in items {
        add(found, cursor.left())?;
        within(cursor, found, item)?;
    }
    Ok(())
}

/// How many tokens stand before a place, of which it is known how many are left there, among so many.
fn count_from_front(lefts: &mut [u32], total: u32)
    ensures { lefts.new ≡ map (λ left. total - left) lefts.old }
{
    for left in lefts.iter_mut() {
        *left = total.saturating_sub(*left);
    }
}

/// The first token of each piece of the tree, as a count of the tokens before it: of its items, statements
/// and expressions, in the order in which these tokens stand, an outer piece before an inner one that begins
/// with the same token. An expression in parentheses begins behind the innermost pair around it.
pub fn starts(alloc: Global, tokens: &[Token], tree: &Tree) -> Result<Vec<u32>, NoMemory>
    requires spelled { IsTreeOf tokens.now tree.now.items }
    requires few { length tokens.now < 2 ^ 32 }
    // By whatever derivation, these are the first tokens of the pieces.
    ensures starts { IfOk result (λ found. AreStarts tokens.now tree.now.items found.items) }
    // There is one for each piece.
    ensures one_each { IfOk result (λ found. length found.items ≡ length (pieces tree.now)) }
{
    plain_law();
    let mut found = Vec::new(alloc);
    let mut cursor = Cursor::new(tokens);
    let total = cursor.left();
    items(&mut cursor, &mut found, tree.items.as_slice())?;
    count_from_front(found.as_mut_slice(), total);
    Ok(found)
}

/// A list of tokens and a tree have one list of first tokens, whatever the derivation. It has one for each piece, each is
/// one of these tokens, and none stands before the one in front of it.
pub fn one_starts()
    ensures same { (ts : List Lexeme) (tree : List AnItem) (d e : IsProgram ts tree) → first_tokens d ≡ first_tokens e }
    ensures one_each { (ts : List Lexeme) (tree : List AnItem) (d : IsProgram ts tree) → length (first_tokens d) ≡ length (items_pieces tree) }
    ensures in_order { (ts : List Lexeme) (tree : List AnItem) (d : IsProgram ts tree) → AreInOrder 0 (first_tokens d) (length ts) }
{
    plain_law();
}
