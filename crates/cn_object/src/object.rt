use cat_machine::Code;
use cn_base::List;

/// Code, the first value of each word, and the posts with which each task is started.
#[derive(Drop)]
pub struct Object {
    pub code: Code,
    pub words: List<i32>,
    pub started: List<u16>,
}

/// The rules that an object keeps, from the lowest on.
#[derive(Clone, Copy, Debug, PartialEq, Eq)]
pub enum Kind {
    /// The file is spelled by the rules, to its last byte.
    Form,
    /// The words, tasks and places that instructions name exist.
    Operand,
    /// Tasks and versions are regions, which jumps don't leave.
    Region,
    /// Each place has one depth of the stack, and each instruction finds its operands.
    Stack,
    /// A task acts in each turn of a loop, and a version's loops count down.
    Loop,
    /// A version is not too long.
    Long,
}

/// Why bytes are no object: the lowest rule that fails, and the first place that breaks it. Or memory was wanting.
#[derive(Clone, Copy, Debug, PartialEq, Eq)]
pub enum ObjectFault {
    BadObject(Kind, u32),
    NoMemory,
}
