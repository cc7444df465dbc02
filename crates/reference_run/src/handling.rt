//! The handling of an arrival.

ghost use Rattle.std.specs.Prelude.{◌<◌, length, slice_index, OnOk};
ghost use Rattle.cat_program.specs.Checked.{HasVersion};
ghost use Rattle.cat_eval.specs.Cursor.{Fits};
ghost use Rattle.reference_run.specs.Held.{HasHandled};

use crate::run::{Run, add};
use crate::schedule::Item;
use cat_eval::run_event;
use cat_program::{LogEntry, Outs, Program};
use cn_base::NoMemory;
use event_arrivals::Arrival;
use std::alloc::Global;

/// Handles the arrival as the item says: its outputs, and then its entry.
pub(crate) fn handle(
    alloc: Global,
    program: &Program,
    run: &mut Run,
    item: &Item,
    arrival: &Arrival,
) -> Result<(), NoMemory>
    requires fits { Fits program.now run.old.state }
    requires there { HasVersion program.now item.now.event item.now.version }
    requires known { item.now.event < length run.old.done.items }
    requires few { slice_index run.old.done.items item.now.event < 1000000 }
    ensures { OnOk result (HasHandled program.now item.now arrival.now run.old run.new) }
{
    let mut outs = Outs::with_room(alloc, program.most_outs(item.event, item.version))?;
    run_event(
        program,
        &mut run.state,
        item.event,
        item.version,
        arrival.payload,
        &mut outs,
    );
    run.entries.extend_from_slice(outs.entries())?;
    let index = run.done[item.event as usize];
    let ran = LogEntry::Ran {
        event: item.event,
        version: item.version,
        steps: item.steps,
        start: item.start,
        index,
    };
    add(&mut run.entries, ran)?;
    run.done[item.event as usize] = index + 1;
    run.start = item.start;
    Ok(())
}
