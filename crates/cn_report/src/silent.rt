//! Entries of a timeline that have no line in a report and leave the image, of which a run is passed at once.

ghost use Rattle.std.specs.Prelude.{◌≤◌, ◌<◌, ℕ, length};
ghost use Rattle.nv_memory.specs.Silent.{IsSilent};

use nv_memory::Board;

/// The last place of the run of silent entries that the board knows of at a place, or the place itself.
pub(crate) fn last_silent<B: Board>(board: &B, place: u32) -> u32
    requires { place < length (B.state board.now).timeline }
    ensures later { place ≤ result }
    ensures within { result < length (B.state board.now).timeline }
    ensures silent { (k : ℕ) → place ≤ k → k < result → IsSilent (B.state board.now).timeline k }
{
    place + board.silent(place).max(1) - 1
}
