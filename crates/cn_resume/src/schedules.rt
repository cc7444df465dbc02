//! The schedule that logged entries tell.

ghost use Rattle.std.specs.Prelude.{◌≡◌, ◌∷◌, ◌++◌, [], IfOk, OnOk};
ghost use Rattle.logged_runs.specs.Own.{items_in, schedule_of};

use cat_program::LogEntry;
use cn_base::{List, NoMemory};
use reference_run::{Item, Schedule};
use std::alloc::{AllocError, Global};

/// The item of an event's entry is added.
fn add(items: &mut Vec<Item>, entry: &LogEntry) -> Result<(), AllocError>
    ensures { OnOk result (items.new.items ≡ items.old.items ++ items_in (entry.now ∷ [])) }
{
    match entry {
        LogEntry::Out { .. } => Ok(()),
        LogEntry::Ran {
            event,
            version,
            steps,
            start,
            ..
        } => {
            items.push(Item {
                steps: *steps,
                event: *event,
                version: *version,
                start: *start,
            })?;
            Ok(())
        }
    }
}

fn items_of(alloc: Global, entries: &[LogEntry]) -> Result<Vec<Item>, AllocError>
    ensures { IfOk result (λ items. items.items ≡ items_in entries.now) }
{
    let mut items = Vec::new(alloc);
    for entry in entries {
        add(&mut items, entry)?;
    }
    Ok(items)
}

/// The schedule that entries and a step count tell.
pub(crate) fn schedule_of(
    alloc: Global,
    entries: &[LogEntry],
    total: u32,
) -> Result<Schedule, NoMemory>
    ensures { IfOk result (λ schedule. schedule ≡ schedule_of entries.now total) }
{
    let items = items_of(alloc, entries)?;
    Ok(Schedule {
        items: List::of(items),
        total,
    })
}
