ghost use Rattle.std.specs.Prelude.{◌≡◌, ◌≤◌, ◌<◌, Some, length, slice_get, OnSome};

use crate::instr::Instr;
use cn_base::List;
use std::marker::Model;

/// Instructions, with the entry of each task and of each version of each event.
#[derive(Drop)]
pub struct Code {
    instrs: List<Instr>,
    tasks: List<u32>,
    versions: Vec<Vec<u32>>,
}

impl Model for Code {
    ghost use Rattle.std.specs.Prelude.{◌≤◌, length};
    ghost use Rattle.cat_machine.specs.CodeValue.{CodeValue, entries_of};

    ghost Value = { CodeValue };

    ghost view = { λ c. record { instrs = c.instrs; tasks = c.tasks; versions = entries_of c.versions.items } };

    ghost invariant = { λ c. (length c.instrs ≤ 60000) × (length (entries_of c.versions.items) ≤ 16) };
}

impl Code {
    ghost use Rattle.std.specs.Prelude.{ℕ};
    ghost use Rattle.cat_machine.specs.CodeValue.{EntryAt, entries_of, versions_at};

    /// Code of these parts: at most 60,000 instructions, 16 tasks and 16 events.
    pub fn of(instrs: Vec<Instr>, tasks: Vec<u32>, versions: Vec<Vec<u32>>) -> Code
        requires short { length instrs.items ≤ 60000 }
        requires few_tasks { length tasks.items ≤ 16 }
        requires few_events { length versions.items ≤ 16 }
        ensures { result ≡ record { instrs = instrs.items; tasks = tasks.items; versions = entries_of versions.items } }
    {
        Code {
            instrs: List::of(instrs),
            tasks: List::of(tasks),
            versions,
        }
    }

    /// How many instructions there are.
    pub fn len(&self) -> u32
        ensures { result ≡ length self.now.instrs }
    {
        self.instrs.len() as u32
    }

    // What holds of all code, for the steps that take an instruction with its place.
    pub(crate) fn is_short(&self)
        ensures { length self.now.instrs ≤ 60000 }
    {
        let _len = self.instrs.len();
    }

    /// The instruction at a place.
    pub fn instr(&self, pc: u32) -> Instr
        requires { pc < length self.now.instrs }
        ensures { slice_get self.now.instrs pc ≡ Some result }
    {
        self.instrs.as_slice()[pc as usize]
    }

    /// The instruction at a place, if there is one.
    pub(crate) fn get(&self, pc: u32) -> Option<Instr>
        ensures value { result ≡ slice_get self.now.instrs pc }
        ensures within { OnSome result (pc < 60000) }
    {
        self.instrs.as_slice().get(pc as usize).copied()
    }

    /// The entry of each task.
    pub fn tasks(&self) -> &[u32]
        ensures { result.now ≡ self.now.tasks }
    {
        self.tasks.as_slice()
    }

    /// How many events there are.
    pub fn events(&self) -> u8
        ensures { result ≡ length self.now.versions }
    {
        self.versions.len() as u8
    }

    /// The entries of an event's versions.
    pub fn versions(&self, event: u8) -> &[u32]
        requires { event < length self.now.versions }
        ensures { result.now ≡ versions_at self.now event }
    {
        self.versions[event as usize].as_slice()
    }

    /// The entry of a version of an event.
    pub(crate) fn entry(&self, event: u8, version: u8) -> u32
        requires { (entry : ℕ) × EntryAt self.now event version entry }
        ensures { EntryAt self.now event version result }
    {
        let versions = self.versions(event);
        versions[version as usize]
    }
}
