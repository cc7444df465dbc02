/// How many events ran, how many of them were done in time, and how many operations were lost, arrivals dropped and values put out.
#[derive(Clone, Copy, Debug, PartialEq, Eq)]
pub struct Tally {
    pub ran: u32,
    pub met: u32,
    pub lost: u32,
    pub dropped: u32,
    pub outs: u32,
}
