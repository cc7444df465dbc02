//! The program of a source.

ghost use Rattle.std.specs.Prelude.{◌<◌, ◌^◌, length, IfOk};
ghost use Rattle.cat_program.specs.Checked.{checked_of};
ghost use Rattle.cat_conditions.specs.Conditions.{MeetsConditions};
ghost use Rattle.cat_resolve.specs.Content.{blocks_from};
ghost use Rattle.cat_resolve.specs.Header.{IsSmall};
ghost use Rattle.cat_resolve.specs.Names.{names_of};
ghost use Rattle.cat_resolve.specs.Program.{IsProgramOf};

use crate::bodies::build_all;
use crate::declarations::declare_all;
use crate::laws::checked_law;
use cat_program::{Parts, Program};
use cn_base::tree::Tree;
use cn_base::{List, NoMemory};
use std::alloc::{AllocError, Global};

/// The program of a source: names become numbers, and each block gets one. A name stands for what the first item that declares it
/// declares.
///
/// The source must be small, as the conditions say: at most 1,024 words, 16 tasks, 16 events with 4 versions each, and fewer than
/// 2^32 blocks; `checked_law` has that each source that meets the conditions is so. What else they rule out is resolved all
/// the same: a name that stands for nothing, or not for what is needed there, as word, task or event 0 (an array as one without
/// words), a channel above 255 as 255, and a count of a repeat above 65,535 as 65,535. A `start` of such a name counts for no task.
///
/// # Errors
///
/// `AllocError` where memory is not found.
pub fn resolve(alloc: Global, tree: &Tree) -> Result<Parts, AllocError>
    requires small { IsSmall tree.now.items }
    requires few_blocks { length (blocks_from (names_of tree.now.items) 0 tree.now.items) < 2 ^ 32 }
    ensures { IfOk result (λ p. IsProgramOf tree.now (checked_of p.variables p.words p.names p.started p.tasks p.headers p.events p.mentions p.blocks)) }
{
    let items = tree.items.as_slice();
    let declared = declare_all(alloc, items)?;
    let bodies = build_all(alloc, &declared.names, declared.tasks.len(), items)?;
    Ok(Parts {
        variables: List::of(declared.variables),
        words: List::of(declared.words),
        names: List::of(declared.tasks),
        started: List::of(bodies.started),
        tasks: List::of(bodies.tasks),
        headers: List::of(declared.events),
        events: List::of(bodies.events),
        mentions: List::of(bodies.mentions),
        blocks: List::of(bodies.blocks),
    })
}

/// The program of a source that meets all conditions.
///
/// # Errors
///
/// `NoMemory` where memory is not found.
pub fn checked(alloc: Global, tree: &Tree) -> Result<Program, NoMemory>
    requires { MeetsConditions tree.now }
    ensures { IfOk result (λ p. IsProgramOf tree.now p) }
{
    checked_law();
    match resolve(alloc, tree) {
        Ok(parts) => Ok(Program::of(parts)),
        Err(_) => Err(NoMemory),
    }
}
