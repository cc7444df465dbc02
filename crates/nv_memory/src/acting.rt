// What boards do alike once it is known what becomes of an operation.
ghost use Rattle.std.specs.Prelude.{◌≡◌, ◌+◌, ◌*◌, ◌<◌, ◌≤◌, min, length, false, replicate, if◌then◌else◌, ℕ, slice_index};
ghost use Rattle.nv_memory.specs.declared.board.Answer.TheVariants.{Done, Lost};
ghost use Rattle.cn_base.specs.declared.TheConstants.{MOST_TICKS};
ghost use Rattle.nv_memory.specs.Bytes.{written};
ghost use Rattle.nv_memory.specs.Board.{image_after, IsIn, filled, on_after};

use crate::{Answer, Line, Op};
use cn_base::MOST_TICKS;

/// Puts the bytes that an operation leaves into its range.
pub fn put(image: &mut Vec<u8>, op: &Op)
    requires { IsIn op.now image.old.items }
    ensures image { image.new.items ≡ image_after op.now image.old.items }
    ensures bytes { (k : ℕ) → slice_index image.new.items k < 256 }
{
    match op {
        Op::Emit { at, left, .. } => put_at(image, *at as usize, left),
        Op::Write { at, left } => put_at(image, *at as usize, left),
        _ => {}
    }
}

fn put_at(image: &mut [u8], at: usize, left: &Line)
    requires { at + length left.now ≤ length image.old }
    ensures { image.new ≡ written at left.now image.old }
{
    let bytes = left.bytes();
    image[at..at + bytes.len()].copy_from_slice(bytes);
}

/// The store after some ticks of one harvest.
#[tactic(auto, using(crate::proofs::Steps::filled_replicate))]
pub fn refilled(cap: u32, stored: u32, ticks: u32, harvest: u32) -> u32
    requires { stored ≤ cap }
    ensures value { result ≡ filled cap stored (replicate ticks harvest) }
    ensures at_once { result ≡ min cap (stored + ticks * harvest) }
{
    let all = stored as u64 + ticks as u64 * harvest as u64;
    all.min(cap as u64) as u32
}

/// The losses after an operation.
pub fn losses_after(lost: bool, losses: u32) -> u32
    requires { losses < MOST_TICKS }
    ensures { result ≡ (if lost then losses + 1 else losses) }
{
    if lost { losses + 1 } else { losses }
}

/// Whether a board is on after an operation.
pub fn is_on_after(lost: bool, op: &Op, on: bool) -> bool
    ensures { result ≡ (if lost then false else on_after op.now on) }
{
    if lost { false } else { op.leaves_on(on) }
}

/// What a board answers to an operation that fits in its life.
pub fn answer_of(lost: bool) -> Answer
    ensures { result ≡ (if lost then Lost else Done) }
{
    if lost { Answer::Lost } else { Answer::Done }
}
