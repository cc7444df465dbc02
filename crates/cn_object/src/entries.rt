//! The entries of tasks and versions.

ghost use Rattle.std.specs.Prelude.{◌≡◌, ◌≤◌, ◌<◌, ◌++◌, ◌↔◌, IsTrue, IfOk, OnOk, MatchOption, length, slice_get};
ghost use Rattle.cn_object.specs.Regions.{AreEntriesOf, AscendBelow, all_entries, version_entries, versions_begin};

use cat_machine::Code;
use std::alloc::{AllocError, Global};

/// The entries of all versions, in order.
pub(crate) fn version_entries(alloc: Global, code: &Code) -> Result<Vec<u32>, AllocError>
    ensures { IfOk result (λ entries. entries.items ≡ version_entries code.now) }
{
    let mut entries = Vec::new(alloc);
    for event in 0..code.events() {
        let more = code.versions(event);
        entries.extend_from_slice(more)?;
    }
    Ok(entries)
}

/// The entries of all tasks, and then of all versions, in order.
pub(crate) fn all_entries(alloc: Global, code: &Code) -> Result<Vec<u32>, AllocError>
    ensures { IfOk result (λ entries. entries.items ≡ all_entries code.now) }
{
    let mut entries = code.tasks().to_vec(alloc)?;
    let versions = version_entries(alloc, code)?;
    entries.extend_from_slice(&versions)?;
    Ok(entries)
}

/// Whether entries begin at 0, ascend, and are below the count, which is 0 where there are none.
pub(crate) fn are_entries(entries: &[u32], count: u32) -> bool
    ensures { IsTrue result ↔ AreEntriesOf entries.now count }
{
    match entries.first() {
        Some(first) => *first == 0 && ascend_below(entries, count),
        None => count == 0,
    }
}

// Whether each entry is below the next one, and the last below the count.
fn ascend_below(entries: &[u32], count: u32) -> bool
    ensures { IsTrue result ↔ AscendBelow entries.now count }
{
    for (k, entry) in entries.iter().enumerate() {
        let next = match entries.get(k + 1) {
            Some(next) => *next,
            None => count,
        };
        if *entry >= next {
            return false;
        }
    }
    true
}
