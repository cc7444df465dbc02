/// Which condition on a saved image fails, in the order in which they are looked at: the first four bytes; the length and the
/// padding; the tick; the stored units; the selected slot; its step count; its place; the records that it counts; its done
/// counts; whether the records tell a schedule; and whether the run of this schedule leads to what the slot holds.
#[derive(Clone, Copy, Debug, PartialEq, Eq)]
pub enum ImageKind {
    Head,
    Size,
    Tick,
    Stored,
    Slot,
    Steps,
    Place,
    Record,
    Done,
    Schedule,
    State,
}

/// Why a file is no saved image from which a device can go on.
#[derive(Clone, Copy, Debug, PartialEq, Eq)]
pub enum ImageFault {
    /// The first condition that fails, with the number that tells where.
    BadImage(ImageKind, u64),
    NoMemory,
}
