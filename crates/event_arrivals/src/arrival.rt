/// An event comes at a tick with a payload.
#[derive(Clone, Copy, PartialEq, Eq, Debug)]
pub struct Arrival {
    pub tick: u32,
    pub payload: i32,
}

/// A row that came too soon after the event's last one.
#[derive(Clone, Copy, PartialEq, Eq, Debug)]
pub struct Dropped {
    pub tick: u32,
    pub event: u8,
}
