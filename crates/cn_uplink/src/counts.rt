/// How many packets were sent, how many records the host held and how many of these were acknowledged after a link's table, and
/// how many rounds followed.
#[derive(Clone, Copy, Debug, PartialEq, Eq)]
pub struct Counts {
    pub sent: u32,
    pub host: u32,
    pub base: u32,
    pub rounds: u32,
}
