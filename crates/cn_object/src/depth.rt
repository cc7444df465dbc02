/// A place to which an instruction leads, and the depth of the stack there.
#[derive(Clone, Copy)]
pub struct Way {
    pub to: u32,
    pub depth: u32,
}

/// The depths that the places so far bring to a place: none, one, or several that differ.
#[derive(Clone, Copy, PartialEq, Eq)]
pub enum Brought {
    Nothing,
    One(u32),
    Several,
}
