ghost use Rattle.cat_program.specs.Checked.{Checked};
ghost use Rattle.cn_scheduler.specs.declared.plan.Plan.{Plan};
ghost use Rattle.lawful_timeline.specs.Claims.{LawfulTimelinesHold};
ghost use Rattle.lawful_timeline.specs.Ending.{EndsHold};
ghost use Rattle.lawful_timeline.specs.Lines.{TimelinesGrow};
ghost use Rattle.lawful_timeline.specs.Points.{PointsHold};
ghost use Rattle.lawful_timeline.specs.Starting.{StartsBelong};

use cat_machine::runs_are_steps;
use checkpoint_slots::{commits_are_safe, slots_are_read_again};
use image_meaning::{commits_are_kept, images_stand_for_one, operations_are_safe};
use logged_runs::{earlier_runs_are_ordered, entries_tell, own_runs_go_on};
use nv_memory::{parts_are_apart, writes_are_local};

/// After each entry of a lawful timeline the image stands for the reference run of its own entries and steps, which is an earlier
/// moment of that of each later image.
pub fn lawful_timelines_hold()
    ensures { (program : Checked) (plan : Plan) → LawfulTimelinesHold program plan }
{
    runs_are_steps();
    commits_are_safe();
    own_runs_go_on();
    entries_tell();
    earlier_runs_are_ordered();
    commits_are_kept();
    images_stand_for_one();
    operations_are_safe();
}

/// A lawful timeline grows by the chunk that is chosen, and each chunk but a last one takes time.
pub fn timelines_grow()
    ensures { (plan : Plan) → TimelinesGrow plan }
{}

/// A board that is off with the first image and the first working value begins a lawful timeline, and so does one with a saved image
/// and the value that it has committed. In each case they belong together.
pub fn starts_belong()
    ensures { (program : Checked) (plan : Plan) → StartsBelong program plan }
{
    writes_are_local();
    parts_are_apart();
    slots_are_read_again();
    images_stand_for_one();
    own_runs_go_on();
}

/// On a board whose operations take time plan, engine and board belong together at each decision point of a lawful timeline, and each
/// job that began there began before it.
pub fn points_hold()
    ensures { (program : Checked) (plan : Plan) → PointsHold program plan }
{
    runs_are_steps();
    commits_are_safe();
    own_runs_go_on();
    entries_tell();
    earlier_runs_are_ordered();
    commits_are_kept();
    images_stand_for_one();
    operations_are_safe();
}

/// What a lawful timeline leaves is what a run can go on from, as the board that it began with: the image stands for a run of its own
/// with no more steps than ticks, each of whose jobs began before the end. So it is also where the last chunk stopped within a commit.
pub fn ends_hold()
    ensures { (program : Checked) (plan : Plan) → EndsHold program plan }
{
    runs_are_steps();
    commits_are_safe();
    own_runs_go_on();
    entries_tell();
    earlier_runs_are_ordered();
    commits_are_kept();
    images_stand_for_one();
    operations_are_safe();
}
