//! What a program declares, beside its statements.

use cn_base::Text;

/// A variable: its first word, how many words it has, and whether it is an array.
#[derive(Debug, Drop)]
pub struct Variable {
    pub name: Text,
    pub base: u16,
    pub len: u16,
    pub array: bool,
}

/// When an event comes, in ticks.
#[derive(Clone, Copy, Debug, PartialEq, Eq)]
pub enum Timing {
    Every { period: u32, offset: u32 },
    Spacing { least: u32 },
}

/// An event: when it comes, how many ticks it has to be done, and how many versions.
#[derive(Debug, Drop)]
pub struct Event {
    pub name: Text,
    pub timing: Timing,
    pub deadline: u32,
    pub versions: u8,
}
