//! Statements with their names resolved, and the blocks that they stand in.

ghost use Rattle.std.specs.Prelude.{◌≡◌, ◌+◌, ◌<◌, ◌^◌, length, map, min, IfOk};
ghost use Rattle.cat_conditions.specs.Plain.{action_of, block_of};
ghost use Rattle.cat_resolve.specs.Form.{form, command};
ghost use Rattle.cat_resolve.specs.Meanings.{meanings};
ghost use Rattle.cat_resolve.specs.Blocks as spec;
ghost use Rattle.cat_resolve.specs.Ending.{Ends, Fits};

use crate::expression::expression;
use crate::names::{Meaning, Names};
use cat_conditions::plain_law;
use cat_program::{Expr, Stmt};
use cn_base::{List, tree};
use std::alloc::{AllocError, Global};

fn set(names: &Names, name: &str, value: Expr) -> Stmt
    ensures { command result ≡ spec.set_form (meanings names.now name.now) (form value) }
{
    match names.get(name) {
        Some(Meaning::Word(word)) => Stmt::Set { word, value },
        _ => Stmt::Set { word: 0, value },
    }
}

fn set_at(names: &Names, name: &str, index: Expr, value: Expr) -> Stmt
    ensures { command result ≡ spec.set_at_form (meanings names.now name.now) (form index) (form value) }
{
    let (base, len) = match names.get(name) {
        Some(Meaning::Array { base, len }) => (base, len),
        _ => (0, 0),
    };
    Stmt::SetAt {
        base,
        len,
        index,
        value,
    }
}

fn out(channel: u32, value: Expr) -> Stmt
    ensures { command result ≡ spec.out_form channel (form value) }
{
    Stmt::Out {
        channel: channel.min(255) as u8,
        value,
    }
}

fn post(names: &Names, name: &str) -> Stmt
    ensures { command result ≡ spec.post_form (meanings names.now name.now) }
{
    match names.get(name) {
        Some(Meaning::Task(task)) => Stmt::Post { task },
        _ => Stmt::Post { task: 0 },
    }
}

fn repeat(count: u32, body: u32) -> Stmt
    ensures { command result ≡ spec.turns_form count body }
{
    Stmt::Repeat {
        count: count.min(65535) as u16,
        body,
    }
}

/// A statement, whose blocks are put behind those that have ended.
#[cycle(stmt)]
fn statement(
    alloc: Global,
    names: &Names,
    blocks: &mut Vec<List<Stmt>>,
    source: &tree::Stmt,
) -> Result<Stmt, AllocError>
    requires { Fits blocks.old.items (λ n. spec.blocks_in (meanings names.now) n (action_of source.now)) }
    ensures value { IfOk result (λ s. command s ≡ spec.command_of (meanings names.now) (length blocks.old.items) (action_of source.now)) }
    ensures ended { IfOk result (λ s. Ends blocks.old.items blocks.new.items (λ n. spec.blocks_in (meanings names.now) n (action_of source.now))) }
{
    plain_law();
    match source {
        tree::Stmt::Set(name, value) => {
            let value = expression(alloc, names, value)?;
            Ok(set(names, name.as_str(), value))
        }
        tree::Stmt::SetAt(name, index, value) => {
            let index = expression(alloc, names, index)?;
            let value = expression(alloc, names, value)?;
            Ok(set_at(names, name.as_str(), index, value))
        }
        tree::Stmt::Out(channel, value) => {
            let value = expression(alloc, names, value)?;
            Ok(out(*channel, value))
        }
        tree::Stmt::Post(name) => Ok(post(names, name.as_str())),
        tree::Stmt::If(test, first, second) => {
            let test = expression(alloc, names, test)?;
            let yes = block(alloc, names, blocks, first.as_slice())?;
            let Some(second) = second else {
                return Ok(Stmt::If {
                    test,
                    yes,
                    no: None,
                });
            };
            let no = block(alloc, names, blocks, second.as_slice())?;
            Ok(Stmt::If {
                test,
                yes,
                no: Some(no),
            })
        }
        tree::Stmt::While(test, body) => {
            let test = expression(alloc, names, test)?;
            let body = block(alloc, names, blocks, body.as_slice())?;
            Ok(Stmt::While { test, body })
        }
        tree::Stmt::Repeat(count, body) => {
            let body = block(alloc, names, blocks, body.as_slice())?;
            Ok(repeat(*count, body))
        }
    }
}

#[cycle(stmt)]
fn statements(
    alloc: Global,
    names: &Names,
    blocks: &mut Vec<List<Stmt>>,
    source: &[tree::Stmt],
) -> Result<Vec<Stmt>, AllocError>
    requires { Fits blocks.old.items (λ n. spec.blocks_within (meanings names.now) n (block_of source.now)) }
    ensures value { IfOk result (λ r. map command r.items ≡ spec.commands_of (meanings names.now) (length blocks.old.items) (block_of source.now)) }
    ensures ended { IfOk result (λ r. Ends blocks.old.items blocks.new.items (λ n. spec.blocks_within (meanings names.now) n (block_of source.now))) }
{
    let mut found = Vec::new(alloc);
    for one in source {
        found.push(statement(alloc, names, blocks, one)?)?;
    }
    Ok(found)
}

/// A block with those in it. The answer is its number.
#[cycle(stmt)]
pub fn block(
    alloc: Global,
    names: &Names,
    blocks: &mut Vec<List<Stmt>>,
    source: &[tree::Stmt],
) -> Result<u32, AllocError>
    requires { Fits blocks.old.items (λ n. spec.block_blocks (meanings names.now) n (block_of source.now)) }
    ensures value { IfOk result (λ b. b ≡ spec.block_number (meanings names.now) (length blocks.old.items) (block_of source.now)) }
    ensures ended { IfOk result (λ b. Ends blocks.old.items blocks.new.items (λ n. spec.block_blocks (meanings names.now) n (block_of source.now))) }
{
    let found = statements(alloc, names, blocks, source)?;
    let number = blocks.len() as u32;
    blocks.push(List::of(found))?;
    Ok(number)
}
