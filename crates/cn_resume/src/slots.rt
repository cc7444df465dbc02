//! The slot that an image selects, and its records.

ghost use Rattle.std.specs.Prelude.{◌≤◌, length, IfOk, IfErr, OnOk};
ghost use Rattle.nv_memory.specs.Layout.{size_of};
ghost use Rattle.checkpoint_slots.specs.Slot.{IsMadeFor};
ghost use Rattle.cn_resume.specs.Stages.{HasRest, IsLogRead, IsNoRest, IsSlotRead, LogFault, SlotFault};

use crate::fault::{ImageFault, ImageKind};
use crate::records::{entries_of, miscounted};
use cat_eval::has_rest;
use cat_program::{LogEntry, Program};
use checkpoint_slots::{Slot, load, selected, well_formed};
use nv_memory::{Board, Layout, parts_are_apart};
use std::alloc::Global;

/// The selected slot, which is well formed, with as many steps as ticks at most, and a place that stands for a list or is none.
pub(crate) fn check_slot<B: Board>(
    program: &Program,
    layout: &Layout,
    board: &B,
    tick: u32,
    slot: &mut Slot,
) -> Result<(), ImageFault>
    requires image { size_of layout.now ≤ length (B.state board.now).image }
    requires made { IsMadeFor layout.now slot.old }
    ensures read { OnOk result (IsSlotRead layout.now program.now tick (B.state board.now).image slot.new) }
    ensures refused { IfErr result (SlotFault layout.now program.now tick (B.state board.now).image) }
{
    parts_are_apart();
    if !well_formed(board, layout) {
        return Err(ImageFault::BadImage(ImageKind::Slot, u64::from(selected(board))));
    }
    load(board, layout, slot);
    if slot.steps > tick {
        return Err(ImageFault::BadImage(ImageKind::Steps, u64::from(slot.steps)));
    }
    check_place(program, slot)
}

/// Whether the slot's place stands for a list or is none.
fn check_place(program: &Program, slot: &Slot) -> Result<(), ImageFault>
    ensures rests { OnOk result (HasRest program.now slot.now) }
    ensures refused { IfErr result (IsNoRest program.now slot.now) }
{
    match slot.pc {
        Some(pc) => {
            if has_rest(program, pc) {
                Ok(())
            } else {
                Err(ImageFault::BadImage(ImageKind::Place, u64::from(pc)))
            }
        }
        None => Ok(()),
    }
}

/// The entries of the records that a slot counts, where each is one and the slot counts them right.
pub(crate) fn check_log<B: Board>(
    alloc: Global,
    program: &Program,
    layout: &Layout,
    board: &B,
    tick: u32,
    slot: &Slot,
) -> Result<Vec<LogEntry>, ImageFault>
    requires image { size_of layout.now ≤ length (B.state board.now).image }
    requires many { slot.now.len ≤ layout.now.log }
    requires events { layout.now.events ≤ length slot.now.done }
    ensures read { IfOk result (λ entries. IsLogRead layout.now program.now tick (B.state board.now).image slot.now entries.items) }
    ensures refused { IfErr result (LogFault layout.now program.now tick (B.state board.now).image slot.now) }
{
    let entries = match entries_of(alloc, program, layout, board, tick, slot.len) {
        Ok(entries) => entries,
        Err(fault) => return Err(fault),
    };
    match miscounted(slot, entries.as_slice(), layout.events) {
        Some(event) => Err(ImageFault::BadImage(ImageKind::Done, u64::from(event))),
        None => Ok(entries),
    }
}
