//! A replay of what was prepared.

ghost use Rattle.std.specs.Prelude.{◌≡◌, false};
ghost use Rattle.recovery.specs.First.{IsFresh};
ghost use Rattle.cn_scheduler.specs.EnginePoint.{point_of, IsFirst};
ghost use Rattle.lawful_timeline.specs.Working.{IsSetUp};
ghost use Rattle.cn_runtime.specs.OnTime.{IsOf, IsReplayedOnTime};

use crate::replaying::replay_by;
use cat_program::Program;
use cn_base::List;
use cn_scheduler::{End, Engine, Plan};
use degradation::Chosen;
use forecast_table::Forecast;
use lawful_timeline::starts_belong;
use nv_memory::{Board, Device};
use timely_commits::fresh_runs_are_on_time;

/// A program with what was chosen and planned for it on a device, and an engine to run it.
#[derive(Drop)]
pub struct Prepared {
    pub program: Program,
    pub device: Device,
    pub forecast: Forecast,
    /// What was chosen for each row of the forecast.
    pub chosen: List<Chosen>,
    pub plan: Plan,
    pub engine: Engine,
}

/// Runs a whole life: up to its end, or to a record that has no place in the log. The timeline is lawful, and after each of its entries
/// the image stands for the reference run of its own entries and steps. In its calm stretches each event is on time. Of what was
/// prepared it changes the engine alone. It takes no memory.
pub fn replay<B: Board>(prepared: &mut Prepared, board: &mut B) -> End
    requires set_up { IsSetUp prepared.old.program prepared.old.plan }
    requires first { IsFirst prepared.old.program prepared.old.plan.layout prepared.old.engine }
    requires fresh { IsFresh prepared.old.program prepared.old.plan.layout (B.state board.old).image }
    requires off { (B.state board.old).on ≡ false }
    requires device { IsOf prepared.old.device (B.state board.old) }
    ensures replayed { IsReplayedOnTime prepared.old.program prepared.old.device prepared.old.plan (B.start (B.origin board.old)).tick
        (point_of prepared.old.engine (B.state board.old)) result (B.state board.new) }
    ensures others { prepared.new ≡ record prepared.old { engine = prepared.new.engine } }
    ensures origin { B.origin board.new ≡ B.origin board.old }
{
    starts_belong();
    fresh_runs_are_on_time();
    let _tick = board.tick();
    replay_by(&mut prepared.engine, &prepared.plan, board)
}
