//! How long a board sleeps.

ghost use Rattle.std.specs.Prelude.{◌≡◌, ◌<◌, ◌≤◌, ℕ, length, slice_index, Some, None, Option};

use crate::engine::Engine;
use crate::plan::Plan;

impl Plan {
    ghost use Rattle.cn_scheduler.specs.InForce.{in_force};

    // The tick up to which the row in force at a tick stays so.
    pub(crate) fn row_until(&self, tick: u32) -> u32
        ensures later { tick < 4294967295 → tick < result }
        ensures same { (t : ℕ) → tick ≤ t → t < result → in_force self.now.rows t ≡ in_force self.now.rows tick }
    {
        let mut until = u32::MAX;
        for row in self.rows.as_slice() {
            if row.from <= tick {
                continue;
            }
            until = until.min(row.from);
        }
        until
    }
}

impl Engine {
    ghost use Rattle.cn_scheduler.specs.Policy.{IsNextDue};
    ghost use Rattle.cn_scheduler.specs.EnginePoint.{work_in};
    ghost use Rattle.cn_scheduler.specs.Parts.{IsQuiet, IsEnough};
    ghost use Rattle.event_queue.specs.declared.queue.Due.{Due};

    // The tick of the next arrival, or of the next row where it comes sooner.
    pub(crate) fn quiet_until(&self, plan: &Plan, now: u32) -> u32
        requires events { length self.now.slot.done ≡ length plan.now.queue.arrivals.timings }
        requires now { now < 4294967295 }
        ensures later { now < result }
        ensures quiet { IsQuiet plan.now (slice_index self.now.slot.done) now result }
    {
        let until = plan.row_until(now);
        match plan.queue.next_after(now, &self.slot) {
            None => until,
            Some(tick) => until.min(tick),
        }
    }

    // The units with which something can go on.
    pub(crate) fn enough(&self, plan: &Plan, now: u32) -> u32
        requires { length self.now.slot.done ≡ length plan.now.queue.arrivals.timings }
        ensures { (next : Option Due) × IsNextDue plan.now.queue (slice_index self.now.slot.done) now next × IsEnough plan.now (work_in self.now) now next result }
    {
        match plan.queue.earliest(now, &self.slot) {
            Some(due) => plan.units_of(&due).min(u64::from(u32::MAX)) as u32,
            None => {
                if self.has_step(plan) {
                    plan.level_at(now).min(u64::from(u32::MAX)) as u32
                } else {
                    u32::MAX
                }
            }
        }
    }
}
