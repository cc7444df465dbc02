//! What is counted over all pieces.

ghost use Rattle.std.specs.Prelude.{◌≡◌, ◌<◌, ◌≤◌, ◌^◌, length};
ghost use Rattle.cat_conditions.specs.Counts as spec;
ghost use Rattle.cat_conditions.specs.Offences.{Exceeds};
ghost use Rattle.cat_types.specs.Capped.{capped};
ghost use Rattle.cat_types.specs.Rules.{weight_of, Totals};
ghost use Rattle.cat_types.specs.Shown.{shown, all_shown};

use crate::pieces::Piece;
use crate::sizes::{MANY, add, block_size};
use cn_base::tree::{Item, Stmt};
use sqlite_items::Items;

/// What may not be more than a limit.
#[derive(Clone, Copy)]
pub enum Count {
    Words,
    Events,
    Tasks,
    TaskCode,
    EventCode,
}

fn item_words(item: &Item) -> u32
    ensures { result ≡ capped (spec.item_words item.now) }
{
    match item {
        Item::Int(..) | Item::Bool(..) => 1,
        Item::Array(_, len) => if *len < MANY { *len } else { MANY },
        _ => 0,
    }
}

fn words(piece: &Piece<'_>) -> u32
    ensures { result ≡ capped (spec.words (shown piece.now)) }
{
    match piece {
        Piece::Item(item) => item_words(item),
        Piece::Statement(..) | Piece::Expression(..) => 0,
    }
}

fn one_event(piece: &Piece<'_>) -> u32
    ensures { result ≡ spec.one_event (shown piece.now) }
{
    match piece {
        Piece::Item(Item::Event(..)) => 1,
        _ => 0,
    }
}

fn one_task(piece: &Piece<'_>) -> u32
    ensures { result ≡ spec.one_task (shown piece.now) }
{
    match piece {
        Piece::Item(Item::Task(..)) => 1,
        _ => 0,
    }
}

/// The instructions of a task.
fn task_size(piece: &Piece<'_>) -> u32
    ensures { result ≡ capped (spec.task_size (shown piece.now)) }
{
    match piece {
        Piece::Item(Item::Task(_, body)) => add(block_size(body.as_slice()), 2),
        _ => 0,
    }
}

fn versions_size(versions: &[Items<Stmt>]) -> u32
    ensures { result ≡ capped (spec.versions_size versions.now) }
{
    let mut sum = 0;
    for version in versions {
        sum = add(sum, add(block_size(version.as_slice()), 1));
    }
    sum
}

/// The instructions of all versions of an event.
fn event_size(piece: &Piece<'_>) -> u32
    ensures { result ≡ capped (spec.event_size (shown piece.now)) }
{
    match piece {
        Piece::Item(Item::Event(_, _, _, versions)) => versions_size(versions.as_slice()),
        _ => 0,
    }
}

impl Count {
    fn weight(self, piece: &Piece<'_>) -> u32
        ensures { result ≡ capped (weight_of self (shown piece.now)) }
    {
        match self {
            Count::Words => words(piece),
            Count::Events => one_event(piece),
            Count::Tasks => one_task(piece),
            Count::TaskCode => task_size(piece),
            Count::EventCode => event_size(piece),
        }
    }

    /// The sum of all, or the place of the first piece with which it is past the limit.
    pub fn total(self, limit: u32, pieces: &[Piece<'_>]) -> Result<u32, u32>
        requires fits { length pieces.now < 2 ^ 32 }
        requires small { limit ≤ 60000 }
        ensures { Totals (weight_of self) limit (all_shown pieces.now) result }
    {
        let mut sum = 0;
        for (place, piece) in pieces.iter().enumerate() {
            let weight = self.weight(piece);
            if weight > limit - sum {
                return Err(place as u32);
            }
            sum += weight;
        }
        Ok(sum)
    }
}
