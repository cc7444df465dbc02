//! What a reference run is asked to do.

use cn_base::List;

/// An event's next arrival, handled in a version at a tick, once so many task steps have been taken from the beginning.
#[derive(Clone, Copy, Debug, PartialEq, Eq)]
pub struct Item {
    pub steps: u32,
    pub event: u8,
    pub version: u8,
    pub start: u32,
}

/// Items in order, and how many task steps are taken in all.
#[derive(Drop)]
pub struct Schedule {
    pub items: List<Item>,
    pub total: u32,
}
