use cn_base::List;
use demand_core::{Load, Numbers};

/// The versions that the events run in, and what the tests find for them.
#[derive(Debug, Drop)]
pub struct Chosen {
    /// The version of each event, 0 being the whole one.
    pub versions: List<u8>,
    /// What each event asks for in that version.
    pub loads: List<Load>,
    pub numbers: Numbers,
}
