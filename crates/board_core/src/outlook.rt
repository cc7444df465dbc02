ghost use Rattle.std.specs.Prelude.{◌≡◌};

/// What the outside does for a while: up to tick `until` each tick harvests so much, and what starts in it costs so much
/// more; before tick `failure` no power is lost.
#[derive(Clone, Copy)]
pub struct Outlook {
    pub until: u32,
    pub failure: u32,
    pub harvest: u32,
    pub extra: u32,
}

impl Outlook {
    /// What is known without a look at the outside.
    pub(crate) fn none(tick: u32) -> Outlook
        ensures { result ≡ record { until = 0; failure = tick; harvest = 0; extra = 0 } }
    {
        Outlook {
            until: 0,
            failure: tick,
            harvest: 0,
            extra: 0,
        }
    }
}
