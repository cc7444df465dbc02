use cn_base::Fill;

/// What becomes of an operation that fits in the life: the units that it draws, the ticks that pass, and the fill that
/// it leaves where it is lost.
#[derive(Drop)]
pub struct Fate {
    pub drawn: u32,
    pub ticks: u32,
    pub torn: Option<Fill>,
}
