//! The blocks of a source's tasks and events, its degrade order and its first posts.

ghost use Rattle.std.specs.Prelude.{◌≡◌, ◌+◌, ◌<◌, ◌^◌, [], ◌++◌, length, map, min, replicate, IfOk, OnOk};
ghost use Rattle.cat_program.specs.Meaning.{raised};
ghost use Rattle.cat_resolve.specs.Building.{Builds};
ghost use Rattle.cat_resolve.specs.Content as spec;
ghost use Rattle.cat_resolve.specs.Ending.{Ends, Fits};
ghost use Rattle.cat_resolve.specs.Form.{commands};
ghost use Rattle.cat_resolve.specs.Meanings.{meanings};

use crate::blocks::block;
use crate::names::{Meaning, Names};
use cat_program::Stmt;
use cn_base::tree::{self, Item};
use cn_base::{List, Text};
use sqlite_items::Items;
use std::alloc::{AllocError, Global};

/// All blocks, the block of each task and of each event's versions, the events that are degraded, and how often each task is posted at first.
#[derive(Drop)]
pub struct Bodies {
    pub blocks: Vec<List<Stmt>>,
    pub tasks: Vec<u32>,
    pub events: Vec<List<u32>>,
    pub mentions: Vec<u8>,
    pub started: Vec<u16>,
}

/// The blocks of an event's versions.
fn versions(
    alloc: Global,
    names: &Names,
    blocks: &mut Vec<List<Stmt>>,
    source: &[Items<tree::Stmt>],
) -> Result<Vec<u32>, AllocError>
    requires { Fits blocks.old.items (λ n. spec.versions_blocks (meanings names.now) n source.now) }
    ensures value { IfOk result (λ r. r.items ≡ spec.versions_numbers (meanings names.now) (length blocks.old.items) source.now) }
    ensures ended { IfOk result (λ r. Ends blocks.old.items blocks.new.items (λ n. spec.versions_blocks (meanings names.now) n source.now)) }
{
    let mut found = Vec::new(alloc);
    for version in source {
        found.push(block(alloc, names, blocks, version.as_slice())?)?;
    }
    Ok(found)
}

fn event_number(names: &Names, name: &str) -> u8
    ensures { result ≡ spec.event_number (meanings names.now name.now) }
{
    match names.get(name) {
        Some(Meaning::Event(event)) => event,
        _ => 0,
    }
}

fn mention(names: &Names, mentions: &mut Vec<u8>, events: &[Text]) -> Result<(), AllocError>
    ensures { OnOk result (mentions.new.items ≡ mentions.old.items ++ map (λ x. spec.event_number (meanings names.now x)) events.now) }
{
    for event in events {
        mentions.push(event_number(names, event.as_str()))?;
    }
    Ok(())
}

/// One post more of a task, which stays at 65,535.
fn raise(started: &mut Vec<u16>, task: u8)
    ensures { started.new.items ≡ raised started.old.items task }
{
    let task = usize::from(task);
    if task < started.len() {
        started[task] = started[task].saturating_add(1);
    }
}

fn start(names: &Names, started: &mut Vec<u16>, name: &str)
    ensures { started.new.items ≡ spec.posted (meanings names.now name.now) started.old.items }
{
    if let Some(Meaning::Task(task)) = names.get(name) {
        raise(started, task);
    }
}

fn item(alloc: Global, names: &Names, bodies: &mut Bodies, item: &Item) -> Result<(), AllocError>
    requires { Fits bodies.old.blocks.items (λ n. spec.item_blocks (meanings names.now) n item.now) }
    ensures { OnOk result (Builds (meanings names.now) bodies.old bodies.new item.now) }
{
    match item {
        Item::Task(_, body) => {
            let number = block(alloc, names, &mut bodies.blocks, body.as_slice())?;
            bodies.tasks.push(number)?;
            Ok(())
        }
        Item::Event(_, _, _, all) => {
            let numbers = versions(alloc, names, &mut bodies.blocks, all.as_slice())?;
            bodies.events.push(List::of(numbers))?;
            Ok(())
        }
        Item::Degrade(events) => {
            mention(names, &mut bodies.mentions, events.as_slice())?;
            Ok(())
        }
        Item::Start(task) => {
            start(names, &mut bodies.started, task.as_str());
            Ok(())
        }
        Item::Int(_, _, _) | Item::Bool(_, _) | Item::Array(_, _) => Ok(()),
    }
}

fn none(alloc: Global, tasks: usize) -> Result<Bodies, AllocError>
    ensures blocks { IfOk result (λ b. b.blocks.items ≡ []) }
    ensures tasks { IfOk result (λ b. b.tasks.items ≡ []) }
    ensures events { IfOk result (λ b. b.events.items ≡ []) }
    ensures mentions { IfOk result (λ b. b.mentions.items ≡ []) }
    ensures started { IfOk result (λ b. b.started.items ≡ replicate tasks 0) }
{
    let mut started = Vec::new(alloc);
    started.resize(tasks, 0)?;
    Ok(Bodies {
        blocks: Vec::new(alloc),
        tasks: Vec::new(alloc),
        events: Vec::new(alloc),
        mentions: Vec::new(alloc),
        started,
    })
}

/// The bodies of all items, where there are so many tasks.
pub fn build_all(
    alloc: Global,
    names: &Names,
    tasks: usize,
    items: &[Item],
) -> Result<Bodies, AllocError>
    requires { length (spec.blocks_from (meanings names.now) 0 items.now) < 2 ^ 32 }
    ensures blocks { IfOk result (λ b. commands b.blocks.items ≡ spec.blocks_from (meanings names.now) 0 items.now) }
    ensures tasks { IfOk result (λ b. b.tasks.items ≡ spec.bodies_from (meanings names.now) 0 items.now) }
    ensures events { IfOk result (λ b. b.events.items ≡ spec.versions_from (meanings names.now) 0 items.now) }
    ensures mentions { IfOk result (λ b. b.mentions.items ≡ spec.mentions_in (meanings names.now) items.now) }
    ensures started { IfOk result (λ b. b.started.items ≡ spec.started_from (meanings names.now) items.now (replicate tasks 0)) }
{
    let mut bodies = none(alloc, tasks)?;
    for one in items {
        item(alloc, names, &mut bodies, one)?;
    }
    Ok(bodies)
}
