/// What a step of a link does.
#[derive(Clone, Copy, Debug, PartialEq, Eq)]
pub enum LinkKind {
    /// More records of the log are visible to the sender.
    Grow,
    /// The next record's packet is sent.
    Send,
    /// A packet of the window is sent once more.
    Again,
    /// A packet reaches the host.
    Deliver,
    /// An acknowledgement reaches the sender.
    Ack,
    /// The sender forgets what it sent and what was acknowledged.
    Restart,
}

/// A step, and its number: how many records, or which packet or acknowledgement, counted from 0.
#[derive(Clone, Copy, Debug, PartialEq, Eq)]
pub struct LinkStep {
    pub kind: LinkKind,
    pub n: u32,
}
