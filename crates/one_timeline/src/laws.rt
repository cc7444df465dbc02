ghost use Rattle.cat_program.specs.Checked.{Checked};
ghost use Rattle.board_core.specs.declared.origin.ModelOrigin.{ModelOrigin as Origin};
ghost use Rattle.cn_scheduler.specs.declared.plan.Plan.{Plan};
ghost use Rattle.one_timeline.specs.One.{EndsAlike};

use board_core::rules_decide;
use cat_machine::sections_read_no_payload;
use cn_scheduler::choices_are_warranted;
use lawful_timeline::lawful_timelines_hold;

/// Two lawful timelines of a plan from one point on, each up to its end by the rules of one origin, end alike: on the same board,
/// and for the same reason.
pub fn timelines_end_alike()
    ensures { (program : Checked) (plan : Plan) (origin : Origin) → EndsAlike program plan origin }
{
    rules_decide();
    sections_read_no_payload();
    choices_are_warranted();
    lawful_timelines_hold();
}
