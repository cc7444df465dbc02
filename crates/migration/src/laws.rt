ghost use Rattle.migration.specs.Laws.{MovesAreSafe};
ghost use Rattle.migration.specs.Stretch.{StretchesAreSafe};

use nv_log::{entries_are_spelled_once, records_are_read_again};
use nv_memory::{parts_are_apart, writes_are_local};

/// After each write of a move, done or lost, the image stands for what it stood for, by the layout that its format byte tells; so a move
/// that was stopped can begin anew.
pub fn moves_are_safe()
    ensures { MovesAreSafe }
{
    writes_are_local();
    parts_are_apart();
    entries_are_spelled_once();
    records_are_read_again();
}

/// So it is after each entry of what `move_on` does.
pub fn stretches_are_safe()
    ensures { StretchesAreSafe }
{
    moves_are_safe();
}
