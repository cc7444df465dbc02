ghost use Rattle.std.specs.Prelude.{◌≡◌, ◌<◌, ◌≤◌, ◌+◌, true, false, length, IfOk, IfErr};
ghost use Rattle.cn_base.specs.declared.TheConstants.{MOST_TICKS};
ghost use Rattle.cat_eval.specs.Cursor.{Fits};
ghost use Rattle.reference_run.specs.Reference.{AreFor, IsBroken, IsEnd, IsFault, setting_of};
ghost use Rattle.reference_run.specs.Held.{IsAt};

use crate::allowed::allowed;
use crate::handling::handle;
use crate::run::Run;
use crate::schedule::{Item, Schedule};
use crate::steps::advance;
use cat_eval::State;
use cat_program::{LogEntry, Outs, Program};
use cn_base::NoMemory;
use event_arrivals::Arrivals;
use std::alloc::Global;

/// Where a reference run ends: the state of the tasks, and the entries of its log in order.
#[derive(Drop)]
pub struct RefEnd {
    pub state: State,
    pub outs: Outs,
}

/// Why there is no reference run of a schedule.
#[derive(Clone, Copy, Debug, PartialEq, Eq)]
pub enum RefFault {
    /// The first item that breaks the schedule, or the number of items where only the total does.
    BadSchedule(u32),
    NoMemory,
}

// The turn of item `i`: false where it breaks the schedule.
fn take_item(
    alloc: Global,
    program: &Program,
    versions: &[u8],
    arrivals: &Arrivals,
    items: &[Item],
    i: usize,
    run: &mut Run,
) -> Result<bool, NoMemory>
    requires belong { AreFor (setting_of program.now versions.now arrivals.now) }
    requires more { i < length items.now }
    requires few { length items.now ≤ 1000000 }
    requires at { IsAt (setting_of program.now versions.now arrivals.now) items.now i run.old }
    ensures went { IfOk result (λ went. went ≡ true → IsAt (setting_of program.now versions.now arrivals.now) items.now (i + 1) run.new) }
    ensures broke { IfOk result (λ went. went ≡ false → IsBroken (setting_of program.now versions.now arrivals.now) items.now i) }
{
    arrivals.are_sound();
    let item = &items[i];
    let Some(arrival) = allowed(program, versions, arrivals, run, item) else {
        return Ok(false);
    };
    if !advance(program, run, item.steps)? {
        return Ok(false);
    }
    handle(alloc, program, run, item, &arrival)?;
    Ok(true)
}

// The same entries.
fn outs_of(alloc: Global, entries: &[LogEntry]) -> Result<Outs, NoMemory>
    ensures { IfOk result (λ outs. outs.entries ≡ entries.now) }
{
    if entries.len() > u32::MAX as usize {
        return Err(NoMemory);
    }
    let mut outs = Outs::with_room(alloc, entries.len() as u32)?;
    'entries: for entry in entries {
        outs.push(*entry);
    }
    Ok(outs)
}

/// The reference run of a schedule, with the version in which each event is handled and the arrivals. It takes memory in proportion
/// to its outputs and to the greatest number of outputs of a version.
///
/// # Errors
///
/// `BadSchedule` with the first item that the run can't take: its steps or its start are below those of the item before it, its
/// steps don't exist, its event isn't the next one at its start, or its version isn't the given one. `BadSchedule` with the number
/// of items where the run takes all of them, and only the total is below the last item's steps or has steps that don't exist.
pub fn reference(
    alloc: Global,
    program: &Program,
    versions: &[u8],
    arrivals: &Arrivals,
    schedule: &Schedule,
) -> Result<RefEnd, RefFault>
    requires belong { AreFor (setting_of program.now versions.now arrivals.now) }
    requires few { length schedule.now.items ≤ 1000000 }
    requires total { schedule.now.total ≤ MOST_TICKS }
    ensures end { IfOk result (λ end. IsEnd (setting_of program.now versions.now arrivals.now) schedule.now end.state end.outs.entries) }
    ensures fault { IfErr result (IsFault (setting_of program.now versions.now arrivals.now) schedule.now) }
{
    let Ok(mut run) = Run::first(alloc, program) else {
        return Err(RefFault::NoMemory);
    };
    let items = schedule.items.as_slice();
    'items: for i in 0..items.len() {
        match take_item(alloc, program, versions, arrivals, items, i, &mut run) {
            Ok(true) => {}
            Ok(false) => return Err(RefFault::BadSchedule(i as u32)),
            Err(NoMemory) => return Err(RefFault::NoMemory),
        }
    }
    match advance(program, &mut run, schedule.total) {
        Ok(true) => {}
        Ok(false) => return Err(RefFault::BadSchedule(items.len() as u32)),
        Err(NoMemory) => return Err(RefFault::NoMemory),
    }
    let Ok(outs) = outs_of(alloc, run.entries.as_slice()) else {
        return Err(RefFault::NoMemory);
    };
    Ok(RefEnd {
        state: run.state,
        outs,
    })
}
