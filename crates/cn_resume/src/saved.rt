/// What a saved image holds: the tick at which a life ended, the units that were stored then, and the bytes of the memory.
#[derive(Drop)]
pub struct Saved {
    pub tick: u32,
    pub stored: u32,
    pub image: Vec<u8>,
}
