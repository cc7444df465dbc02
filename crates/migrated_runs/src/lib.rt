//! Runs that go on from an image of the first format, after it was moved to the second one.
#![tactic(auto)]

ghost use Rattle.cat_program.specs.Checked.{Checked};
ghost use Rattle.cn_scheduler.specs.declared.plan.Plan.{Plan};
ghost use Rattle.migrated_runs.specs.Laws.{MovedRunsGoOn};

use migration::{moves_are_safe, stretches_are_safe};

/// While an image is moved it stands for one moment of a run, whatever is lost. From an image that was moved the run goes on as it would
/// have gone on before, in the layout of the second format; and where the life ends before that, what is saved is still saved in the
/// first one.
pub fn moved_runs_go_on()
    ensures { (program : Checked) (plan : Plan) → MovedRunsGoOn program plan }
{
    moves_are_safe();
    stretches_are_safe();
}
