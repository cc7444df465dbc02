ghost use Rattle.cat_program.specs.Checked.{Checked};
ghost use Rattle.nv_memory.specs.declared.layout.Layout.{Layout as Places};
ghost use Rattle.image_meaning.specs.Laws.{CommitsAreKept, ImagesStandForOne, OperationsAreSafe};

use checkpoint_slots::commits_are_safe;
use nv_log::{appends_are_safe, entries_are_spelled_once};
use nv_memory::{parts_are_apart, writes_are_local};
use recovery::commits_last;

/// An operation that writes no more than a record behind the first ones leaves what is committed and what these spell.
pub fn operations_are_safe()
    ensures { (l : Places) (program : Checked) → OperationsAreSafe l program }
{
    entries_are_spelled_once();
    appends_are_safe();
    commits_last();
}

/// The writes of a commit leave the old value, and from the gate's on the old one or the new one.
pub fn commits_are_kept()
    ensures { (l : Places) (program : Checked) → CommitsAreKept l program }
{
    writes_are_local();
    parts_are_apart();
    commits_are_safe();
    commits_last();
}

/// An image stands for one moment at most, and the first image for the first one.
pub fn images_stand_for_one()
    ensures { (l : Places) (program : Checked) → ImagesStandForOne l program }
{
    commits_last();
}
