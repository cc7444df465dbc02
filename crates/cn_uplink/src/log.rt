//! The committed log of a replay.

ghost use Rattle.std.specs.Prelude.{◌≡◌, ◌<◌, ◌≤◌, ℕ, length, map, IfOk};
ghost use Rattle.std.specs.List.{range_with_len};
ghost use Rattle.cat_program.specs.declared.outs.LogEntry.{LogEntry as Entry};
ghost use Rattle.nv_memory.specs.Layout.{size_of};
ghost use Rattle.nv_log.specs.Record.{record_bytes, IsSpelled};
ghost use Rattle.recovery.specs.First.{IsFresh};
ghost use Rattle.recovery.specs.Past.{last_image, past_of};
ghost use Rattle.cn_uplink.specs.Log.{entry_by, log_of, HasCommitted};

use cat_program::{Outs, Program};
use checkpoint_slots::Slot;
use cn_base::NoMemory;
use nv_log::{entry_at, records_are_read_again};
use nv_memory::{Board, Layout};
use recovery::recover;
use std::alloc::Global;

// The entries that the first `len` records of the log spell. Each of these records spells one.
fn read_log<B: Board>(
    alloc: Global,
    board: &B,
    layout: &Layout,
    program: &Program,
    len: u32,
) -> Result<Outs, NoMemory>
    requires image { size_of layout.now ≤ length (B.state board.now).image }
    requires len { len ≤ layout.now.log }
    requires spelled { (k : ℕ) → k < len → (entry : Entry) × IsSpelled layout.now program.now (record_bytes layout.now k (B.state board.now).image) entry }
    ensures { IfOk result (λ log. log.entries ≡ map (entry_by layout.now (B.state board.now).image) (range_with_len 0 len)) }
{
    records_are_read_again();
    let mut log = Outs::with_room(alloc, len)?;
    for place in 0..len {
        match entry_at(board, layout, program, place) {
            Some(entry) => log.push(entry),
            None => unreachable!(),
        }
    }
    Ok(log)
}

/// The committed log that a board holds which began with the program's first image. It takes memory for the log.
pub fn committed_log<B: Board>(
    alloc: Global,
    board: &B,
    layout: &Layout,
    program: &Program,
) -> Result<Outs, NoMemory>
    requires fresh { IsFresh program.now layout.now (B.start (B.origin board.now)).image }
    requires committed { HasCommitted layout.now program.now (last_image (past_of layout.now (B.start (B.origin board.now)) (B.state board.now))) }
    ensures log { IfOk result (λ log. log.entries ≡ log_of (past_of layout.now (B.start (B.origin board.now)) (B.state board.now))) }
    ensures few { IfOk result (λ log. length log.entries ≤ 1000000) }
{
    let _sound = board.entries();
    let mut slot = Slot::with_shape(alloc, layout)?;
    recover(board, layout, &mut slot);
    read_log(alloc, board, layout, program, slot.len)
}
