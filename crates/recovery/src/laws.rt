ghost use Rattle.recovery.specs.Laws.{CommitsLast, FirstImageIsOne};

use nv_log::entries_are_spelled_once;
use nv_memory::{parts_are_apart, writes_are_local};

/// A committed value is one at most, and stays until a save commits another one: neither an append nor a write of a
/// slot's lines changes it.
pub fn commits_last()
    ensures { CommitsLast }
{
    writes_are_local();
    parts_are_apart();
    entries_are_spelled_once();
}

/// A program has one first image in a layout.
pub fn first_image_is_one()
    ensures { FirstImageIsOne }
{}
