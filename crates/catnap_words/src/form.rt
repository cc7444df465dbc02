ghost use Rattle.std.specs.Prelude.{◌≡◌};
ghost use Rattle.catnap_words.specs.Words.{file_count};

/// What the words ask for; the words that name files follow the first.
#[derive(Clone, Copy, Debug, PartialEq, Eq)]
pub enum Form {
    /// `run SRC STEPS`
    Run { steps: u32 },
    /// `list SRC`
    List,
    /// `check SRC DEVICE`
    Check,
    /// `check SRC DEVICE FORECAST`
    CheckForecast,
    /// `plan SRC DEVICE`
    Plan,
    /// `replay SRC DEVICE TRACE ARRIVALS FAILS`
    Replay,
    /// `replay SRC DEVICE TRACE ARRIVALS FAILS FORECAST`
    ReplayForecast,
    /// `image SRC DEVICE TRACE ARRIVALS FAILS`
    Image,
    /// `resume SRC DEVICE TRACE ARRIVALS FAILS IMAGE`
    Resume,
    /// `uplink SRC DEVICE TRACE ARRIVALS FAILS LINK`
    Uplink,
    /// `object SRC`
    Object,
    /// `runobject OBJ STEPS`
    RunObject { steps: u32 },
    /// `bench N`
    Bench { size: u32 },
}

impl Form {
    /// How many words after the first name files.
    pub fn files(&self) -> usize
        ensures { result ≡ file_count self.now }
    {
        match self {
            Form::Run { .. } | Form::List | Form::Object | Form::RunObject { .. } => 1,
            Form::Check | Form::Plan => 2,
            Form::CheckForecast => 3,
            Form::Replay | Form::Image => 5,
            Form::ReplayForecast | Form::Resume | Form::Uplink => 6,
            Form::Bench { .. } => 0,
        }
    }
}
