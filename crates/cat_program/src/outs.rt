ghost use Rattle.std.specs.Prelude.{◌≡◌, ◌<◌, ◌-◌, [], ◌∷◌, ◌++◌, IfOk};

use cn_base::NoMemory;
use std::alloc::Global;
use std::marker::Model;

/// An entry of a log.
#[derive(Clone, Copy, Debug, PartialEq, Eq)]
pub enum LogEntry {
    Out {
        channel: u8,
        value: i32,
    },
    Ran {
        event: u8,
        version: u8,
        steps: u32,
        start: u32,
        index: u32,
    },
}

/// Entries, with room for more that is found already.
#[derive(Drop)]
pub struct Outs {
    entries: Vec<LogEntry>,
    spare: u32,
}

impl Model for Outs {
    ghost use Rattle.std.specs.Prelude.{◌+◌, ◌≤◌, vec_len, vec_capacity};
    ghost use Rattle.cat_program.specs.OutsValue.{OutsValue};

    ghost Value = { OutsValue };

    ghost view = { λ o. record { entries = o.entries.items; spare = o.spare } };

    ghost invariant = { λ o. vec_len o.entries + o.spare ≤ vec_capacity o.entries };
}

impl Outs {
    /// No entries, and room for this many.
    pub fn with_room(alloc: Global, n: u32) -> Result<Outs, NoMemory>
        ensures { IfOk result (λ o. o ≡ record { entries = []; spare = n }) }
    {
        match Vec::with_capacity(alloc, n as usize) {
            Ok(entries) => Ok(Outs { entries, spare: n }),
            Err(_) => Err(NoMemory),
        }
    }

    /// One entry more, for which there is room.
    pub fn push(&mut self, entry: LogEntry)
        requires { 0 < self.old.spare }
        ensures { self.new ≡ record { entries = self.old.entries ++ entry ∷ []; spare = self.old.spare - 1 } }
    {
        match self.entries.push(entry) {
            Ok(()) => {}
            Err(_) => unreachable!(),
        }
        self.spare -= 1;
    }

    pub fn entries(&self) -> &[LogEntry]
        ensures { result.now ≡ self.now.entries }
    {
        self.entries.as_slice()
    }
}
