//! The run of what a slot has logged, and how it ends.

ghost use Rattle.std.specs.Prelude.{◌≡◌, ◌≤◌, ◌↔◌, IsTrue, Option, length, IfErr, OnOk};
ghost use Rattle.cn_base.specs.declared.TheConstants.{MOST_TICKS};
ghost use Rattle.cat_program.specs.Body.{Body};
ghost use Rattle.cat_program.specs.Resting.{RestsAt};
ghost use Rattle.cat_eval.specs.Cursor.{Fits, state_of};
ghost use Rattle.checkpoint_slots.specs.Slot.{variables_of};
ghost use Rattle.reference_run.specs.Reference.{AreFor, IsReference, setting_of};
ghost use Rattle.logged_runs.specs.Own as own;
ghost use Rattle.cn_resume.specs.Stages.{RunFault, said_moment, said_state};

use crate::fault::{ImageFault, ImageKind};
use crate::records::difference;
use crate::schedules::schedule_of;
use cat_eval::State;
use cat_program::{LogEntry, Program};
use checkpoint_slots::Slot;
use event_arrivals::Arrivals;
use reference_run::{RefFault, reference};
use std::alloc::Global;

fn same_words(state: &State, slot: &Slot, words: u16) -> bool
    requires state { words ≡ length state.now.words }
    requires slot { words ≡ length slot.now.words }
    ensures { IsTrue result ↔ (state.now.words ≡ variables_of slot.now) }
{
    for w in 0..words {
        if state.word(w) != slot.word(w) {
            return false;
        }
    }
    true
}

fn same_posts(state: &State, slot: &Slot, tasks: u8) -> bool
    requires state { tasks ≡ length state.now.posts }
    requires slot { tasks ≡ length slot.now.posts }
    ensures { IsTrue result ↔ (state.now.posts ≡ slot.now.posts) }
{
    for t in 0..tasks {
        if state.post(t) != slot.post(t) {
            return false;
        }
    }
    true
}

/// Whether a state is the one that a slot tells.
fn same_state(program: &Program, state: &State, slot: &Slot) -> bool
    requires fits { Fits program.now state.now }
    requires words { length slot.now.words ≡ length program.now.words }
    requires posts { length slot.now.posts ≡ length program.now.tasks }
    ensures { (current : Option Body) → RestsAt program.now slot.now.pc current
        → (IsTrue result ↔ (state_of program.now state.now ≡ said_state slot.now current)) }
{
    same_words(state, slot, program.words())
        && same_posts(state, slot, program.tasks())
        && state.stands_at(program, slot.pc)
}

/// The conditions on the run of what was logged.
pub(crate) fn check_run(
    alloc: Global,
    program: &Program,
    versions: &[u8],
    arrivals: &Arrivals,
    slot: &Slot,
    entries: &[LogEntry],
) -> Result<(), ImageFault>
    requires belong { AreFor (setting_of program.now versions.now arrivals.now) }
    requires words { length slot.now.words ≡ length program.now.words }
    requires posts { length slot.now.posts ≡ length program.now.tasks }
    requires few { length entries.now ≤ 1000000 }
    requires steps { slot.now.steps ≤ MOST_TICKS }
    ensures run { (current : Option Body) → RestsAt program.now slot.now.pc current
        → OnOk result (IsReference (setting_of program.now versions.now arrivals.now) (own.schedule_of entries.now slot.now.steps) (said_moment slot.now entries.now current)) }
    ensures refused { (current : Option Body) → RestsAt program.now slot.now.pc current
        → IfErr result (RunFault (setting_of program.now versions.now arrivals.now) (own.schedule_of entries.now slot.now.steps) (said_moment slot.now entries.now current)) }
{
    let Ok(schedule) = schedule_of(alloc, entries, slot.steps) else {
        return Err(ImageFault::NoMemory);
    };
    let end = match reference(alloc, program, versions, arrivals, &schedule) {
        Ok(end) => end,
        Err(RefFault::BadSchedule(item)) => {
            return Err(ImageFault::BadImage(ImageKind::Schedule, u64::from(item)));
        }
        Err(RefFault::NoMemory) => return Err(ImageFault::NoMemory),
    };
    if let Some(at) = difference(end.outs.entries(), entries) {
        return Err(ImageFault::BadImage(ImageKind::State, at as u64));
    }
    if same_state(program, &end.state, slot) {
        Ok(())
    } else {
        Err(ImageFault::BadImage(ImageKind::State, entries.len() as u64))
    }
}
