ghost use Rattle.std.specs.Prelude.{◌≡◌, ◌≤◌, ◌<◌, length, slice_get, Some};

use crate::link_step::LinkStep;
use std::marker::Model;

/// The steps of a table, in order: at most 100,000.
#[derive(Drop)]
pub struct Links {
    steps: Vec<LinkStep>,
}

impl Model for Links {
    ghost use Rattle.std.specs.Prelude.{List, ◌≤◌, length};
    ghost use Rattle.cn_uplink.specs.declared.link_step.LinkStep.{LinkStep};

    ghost Value = { List LinkStep };

    ghost view = { λ l. l.steps.items };

    ghost invariant = { λ l. length l.steps.items ≤ 100000 };
}

impl Links {
    pub(crate) fn of(steps: Vec<LinkStep>) -> Links
        requires { length steps.items ≤ 100000 }
        ensures { result ≡ steps.items }
    {
        Links { steps }
    }

    pub fn rows(&self) -> u32
        ensures count { result ≡ length self.now }
        ensures few { result ≤ 100000 }
    {
        self.steps.len() as u32
    }

    /// The step of a row, the first one below the header being row 0.
    pub fn at(&self, row: u32) -> LinkStep
        requires { row < length self.now }
        ensures { slice_get self.now row ≡ Some result }
    {
        self.steps.as_slice()[row as usize]
    }
}
