use cat_program::LogEntry;

/// A record of the log under way, with its place there.
#[derive(Clone, Copy, Debug, PartialEq, Eq)]
pub struct Packet {
    pub place: u32,
    pub entry: LogEntry,
}
