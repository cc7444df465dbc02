//! A run of what was prepared that goes on from a saved image.

ghost use Rattle.std.specs.Prelude.{◌≡◌};
ghost use Rattle.cn_scheduler.specs.EnginePoint.{IsFirst};
ghost use Rattle.lawful_timeline.specs.Working.{IsSetUp};
ghost use Rattle.lawful_timeline.specs.Starting.{saved_point};
ghost use Rattle.cn_runtime.specs.OnTime.{IsOf, IsReplayedOnTime};
ghost use Rattle.cn_runtime.specs.Resumed.{CanGoOn};

use crate::prepared::Prepared;
use crate::replaying::replay_by;
use cn_scheduler::End;
use lawful_timeline::starts_belong;
use nv_memory::Board;
use timely_commits::resumed_runs_are_on_time;

/// As `replay`, from what the board's image has saved, at the tick that it is. The timeline is lawful from this point on, and after
/// each of its entries the image stands for the reference run of its own entries and steps, those before this run among them. In its
/// calm stretches each event is on time. Of what was prepared it changes the engine alone. It takes no memory.
pub fn resume<B: Board>(prepared: &mut Prepared, board: &mut B) -> End
    requires set_up { IsSetUp prepared.old.program prepared.old.plan }
    requires first { IsFirst prepared.old.program prepared.old.plan.layout prepared.old.engine }
    requires saved { CanGoOn prepared.old.program prepared.old.plan (B.state board.old) }
    requires device { IsOf prepared.old.device (B.state board.old) }
    ensures replayed { IsReplayedOnTime prepared.old.program prepared.old.device prepared.old.plan (B.start (B.origin board.old)).tick
        (saved_point prepared.old.plan.layout (B.state board.old)) result (B.state board.new) }
    ensures others { prepared.new ≡ record prepared.old { engine = prepared.new.engine } }
    ensures origin { B.origin board.new ≡ B.origin board.old }
{
    starts_belong();
    resumed_runs_are_on_time();
    let _tick = board.tick();
    prepared.engine.restore(&prepared.plan, board);
    replay_by(&mut prepared.engine, &prepared.plan, board)
}
