ghost use Rattle.std.specs.Prelude.{◌≡◌, ◌≤◌, ◌<◌, ◌-◌, length, IfOk};
ghost use Rattle.cn_uplink.specs.Link as spec;
ghost use Rattle.cn_uplink.specs.Faithful.{IsFaithful};
ghost use Rattle.cn_uplink.specs.Text.{counts_of};

use crate::counts::Counts;
use crate::link_step::LinkStep;
use crate::link_steps::Links;
use crate::wire::Wire;
use cat_program::{LogEntry, Outs};
use cn_base::NoMemory;
use std::alloc::Global;
use std::marker::Model;

/// A log, a sender, a host, and what is under way between them. How many steps of the table are left is counted down.
#[derive(Drop)]
pub struct World {
    wire: Wire,
    left: u32,
}

impl Model for World {
    ghost use Rattle.cn_uplink.specs.Wire.{WorldValue, IsWorld, link_of};

    ghost Value = { WorldValue };

    ghost view = { λ w. record { link = link_of w.wire; left = w.left } };

    ghost invariant = { λ w. IsWorld w.wire w.left };
}

impl World {
    /// Nothing is visible, sent or held. It takes all memory of a run: room for what `rows` steps and the rounds may send.
    pub fn start(alloc: Global, log: Outs, rows: u32) -> Result<World, NoMemory>
        requires log { length log.entries ≤ 1000000 }
        requires rows { rows ≤ 100000 }
        ensures { IfOk result (λ w. w ≡ record { link = spec.first log.entries; left = rows }) }
    {
        let len = log.entries().len() as u32;
        let wire = Wire::start(alloc, log, rows + len)?;
        Ok(World { wire, left: rows })
    }

    /// One step. It takes no memory.
    pub fn step(&mut self, step: LinkStep)
        requires { 0 < self.old.left }
        ensures step { self.new ≡ record { link = spec.after self.old.link step; left = self.old.left - 1 } }
        ensures faithful { IsFaithful self.new.link }
    {
        self.wire.step(step);
        self.left -= 1;
    }

    /// The steps of a table, in order. It takes no memory.
    pub fn steps(&mut self, links: &Links)
        requires { length links.now ≤ self.old.left }
        ensures { self.new ≡ record { link = spec.course links.now self.old.link; left = self.old.left - length links.now } }
    {
        for row in 0..links.rows() {
            self.step(links.at(row));
        }
    }

    /// All records are visible from here on, and rounds follow until all are acknowledged. It answers how many. No step may
    /// follow. It takes no memory.
    pub fn finish(&mut self) -> u32
        ensures finish { spec.IsFinish self.old.link result self.new.link }
        ensures over { self.new.left ≡ 0 }
        ensures log { self.new.link.log ≡ self.old.link.log }
        ensures whole { self.new.link.host ≡ self.old.link.log }
        ensures few { result ≤ length self.old.link.log }
        ensures faithful { IsFaithful self.new.link }
    {
        let len = self.wire.log_len();
        self.wire.show();
        self.left = 0;
        let mut rounds: u32 = 0;
        'rounds: while self.wire.base < len {
            self.wire.round();
            rounds += 1;
        }
        rounds
    }

    /// The steps of a table, and then the rounds: how the link stood after the table, and how many rounds it took. It takes no memory.
    pub fn play(&mut self, links: &Links) -> Counts
        requires { length links.now ≤ self.old.left }
        ensures finish { spec.IsFinish (spec.course links.now self.old.link) result.rounds self.new.link }
        ensures counts { result ≡ counts_of (spec.course links.now self.old.link) result.rounds }
    {
        self.steps(links);
        let (sent, host, base) = (self.sent(), self.host().len() as u32, self.base());
        let rounds = self.finish();
        Counts {
            sent,
            host,
            base,
            rounds,
        }
    }

    /// What the host holds.
    pub fn host(&self) -> &[LogEntry]
        ensures host { result.now ≡ self.now.link.host }
        ensures few { length self.now.link.host ≤ 1000000 }
        ensures faithful { IsFaithful self.now.link }
    {
        self.wire.host.entries()
    }

    /// How many records the sender counts as held by the host.
    pub fn base(&self) -> u32
        ensures base { result ≡ self.now.link.base }
        ensures held { result ≤ length self.now.link.host }
    {
        self.wire.base
    }

    /// How many packets were ever sent, those that were sent once more counted again.
    pub fn sent(&self) -> u32
        ensures { result ≡ length self.now.link.sent }
    {
        self.wire.sent.len() as u32
    }
}
