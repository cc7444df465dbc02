/// What an operation does that is done for certain: the units that it draws, the ticks that pass, and the units that are
/// left after them.
#[derive(Clone, Copy)]
pub struct Sure {
    pub drawn: u32,
    pub ticks: u32,
    pub left: u32,
}
