ghost use Rattle.std.specs.Prelude.{◌≡◌, ◌≢◌, ◌+◌, ◌<◌, ◌≤◌, ◌-◌, min, IfSome};
ghost use Rattle.cn_base.specs.declared.TheConstants.{MOST_TICKS};
ghost use Rattle.harvest_trace.specs.Timeline.{life_of};

use crate::fate::Fate;
use crate::first_image::FirstImage;
use crate::outlook::Outlook;
use cn_base::MOST_TICKS;
use harvest_trace::{Fails, Failure, Trace};
use nv_memory::{Device, Op, refilled};

/// What a board that replays a trace was made of, and the tick, the units and the image with which it began.
#[derive(Drop)]
pub struct ModelOrigin {
    pub trace: Trace,
    pub fails: Fails,
    pub device: Device,
    pub tick: u32,
    pub stored: u32,
    pub image: FirstImage,
    ghost life_in_range: { life_of trace ≤ MOST_TICKS },
    ghost in_life: { tick ≤ life_of trace },
    ghost in_cap: { stored ≤ device.cap },
}

impl ModelOrigin {
    ghost use Rattle.std.specs.Prelude.{length};
    ghost use Rattle.nv_memory.specs.Board.{filled, ticks_of};
    ghost use Rattle.board_core.specs.Rules.{class_ticks, cost_at, failure_in, fate_of, harvests};
    ghost use Rattle.nv_memory.specs.declared.entry.Op.TheVariants.{Sleep};
    ghost use Rattle.board_core.specs.Outlook.{IsOutlook};

    pub(crate) fn of(
        trace: Trace,
        fails: Fails,
        device: Device,
        tick: u32,
        stored: u32,
        image: FirstImage,
    ) -> ModelOrigin
        requires in_life { tick ≤ life_of trace }
        requires in_cap { stored ≤ device.cap }
        ensures trace { result.trace ≡ trace }
        ensures fails { result.fails ≡ fails }
        ensures device { result.device ≡ device }
        ensures tick { result.tick ≡ tick }
        ensures stored { result.stored ≡ stored }
        ensures image { result.image ≡ image }
    {
        let _life = trace.life();
        ModelOrigin {
            trace,
            fails,
            device,
            tick,
            stored,
            image,
        }
    }

    /// The units that an operation takes which starts at a tick of the life.
    #[tactic(auto, using(crate::proofs::Outlooks::cost_awake))]
    pub(crate) fn cost(&self, tick: u32, op: &Op) -> u32
        requires in_life { tick < life_of self.now.trace }
        requires awake { op.now ≢ Sleep }
        ensures value { result ≡ cost_at self.now tick op.now }
        ensures most { result ≤ 2000000 }
    {
        self.device.actual(op) + self.trace.extra(tick)
    }

    /// The first failure in the ticks of an operation.
    #[tactic(auto, using(crate::proofs::Outlooks::failure_awake))]
    pub(crate) fn failure(&self, tick: u32, op: &Op) -> Option<Failure>
        requires in_life { tick < life_of self.now.trace }
        requires awake { op.now ≢ Sleep }
        ensures { result ≡ failure_in self.now tick op.now }
    {
        self.fails.first_in(tick, tick + self.device.ticks(op))
    }

    /// What becomes of an operation that fits in the life.
    pub(crate) fn fate(&self, tick: u32, stored: u32, op: &Op) -> Fate
        requires awake { op.now ≢ Sleep }
        requires fits { tick + ticks_of (class_ticks self.now.device) op.now ≤ life_of self.now.trace }
        ensures { result ≡ fate_of self.now tick stored op.now }
    {
        let cost = self.cost(tick, op);
        if stored < cost {
            return Fate {
                drawn: stored,
                ticks: 1,
                torn: Some(self.device.fill.copy()),
            };
        }
        match self.failure(tick, op) {
            Some(failure) => Fate {
                drawn: cost,
                ticks: failure.tick + 1 - tick,
                torn: Some(failure.fill),
            },
            None => Fate {
                drawn: cost,
                ticks: self.device.ticks(op),
                torn: None,
            },
        }
    }

    /// What the outside does from a tick of the life on.
    pub(crate) fn outlook(&self, tick: u32) -> Outlook
        requires { tick < life_of self.now.trace }
        ensures outlook { IsOutlook self.now tick result }
        ensures ahead { tick < result.until }
    {
        let failure = match self.fails.first_in(tick, MOST_TICKS) {
            Some(failure) => failure.tick,
            None => MOST_TICKS,
        };
        Outlook {
            until: self.trace.until(tick),
            failure,
            harvest: self.trace.harvest(tick),
            extra: self.trace.extra(tick),
        }
    }

    /// What becomes of an operation for which an outlook is enough, and the units that are stored after it.
    pub(crate) fn foreseen(
        &self,
        outlook: &Outlook,
        tick: u32,
        stored: u32,
        op: &Op,
    ) -> Option<(Fate, u32)>
        requires outlook { IsOutlook self.now tick outlook.now }
        requires awake { op.now ≢ Sleep }
        requires in_cap { stored ≤ self.now.device.cap }
        requires in_life { tick ≤ life_of self.now.trace }
        ensures fate { IfSome result (λ found. found.0 ≡ fate_of self.now tick stored op.now) }
        ensures stored { IfSome result (λ found. found.1 ≡ filled self.now.device.cap (stored - found.0.drawn) (harvests self.now.trace tick found.0.ticks)) }
    {
        let ticks = self.device.ticks(op);
        let end = tick + ticks;
        if outlook.until < end || outlook.failure < end {
            return None;
        }
        let drawn = self.device.actual(op) + outlook.extra;
        if stored < drawn {
            return None;
        }
        let left = refilled(self.device.cap, stored - drawn, ticks, outlook.harvest);
        let fate = Fate {
            drawn,
            ticks,
            torn: None,
        };
        Some((fate, left))
    }

    /// The units that are stored after some ticks, each with its harvest.
    pub(crate) fn stored_after(&self, tick: u32, ticks: u32, stored: u32) -> u32
        requires within { tick + ticks ≤ life_of self.now.trace }
        requires in_cap { stored ≤ self.now.device.cap }
        ensures { result ≡ filled self.now.device.cap stored (harvests self.now.trace tick ticks) }
    {
        let end = tick + ticks;
        let mut from = tick;
        let mut stored = stored;
        'rows: while from < end {
            let until = self.trace.until(from).min(end);
            stored = refilled(
                self.device.cap,
                stored,
                until - from,
                self.trace.harvest(from),
            );
            from = until;
        }
        stored
    }
}
