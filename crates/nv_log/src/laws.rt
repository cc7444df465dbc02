ghost use Rattle.std.specs.Prelude.{◌≡◌};
ghost use Rattle.cat_program.specs.declared.outs.LogEntry.{LogEntry as Recorded};
ghost use Rattle.nv_memory.specs.declared.layout.Layout.{Layout as Places};
ghost use Rattle.nv_log.specs.Append.{AppendsAreSafe, EntriesAreSpelledOnce};
ghost use Rattle.nv_log.specs.Record.{record_of, entry_of, EntryFits};

use nv_memory::{parts_are_apart, writes_are_local};

/// Each entry has one spelling, and no two have the same.
pub fn entries_are_spelled_once()
    ensures { EntriesAreSpelledOnce }
{}

/// An entry is what its spelling stands for.
pub fn records_are_read_again()
    ensures { (l : Places) (entry : Recorded) → EntryFits l entry → entry_of l (record_of l entry) ≡ entry }
{}

/// What the one write of an append leaves, finished or torn: the gate, the slots and all other records stay.
pub fn appends_are_safe()
    ensures { AppendsAreSafe }
{
    writes_are_local();
    parts_are_apart();
}
