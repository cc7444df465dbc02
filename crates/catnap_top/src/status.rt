ghost use Rattle.std.specs.Prelude.{◌≡◌};
ghost use Rattle.catnap_top.specs.Statuses.{number_of_status};

/// How a call ended.
#[derive(Clone, Copy, Debug, PartialEq, Eq)]
pub enum Status {
    Done,
    /// The words are no form of words.
    Usage,
    ReadFault,
    WriteFault,
    BadSource,
    BadDevice,
    BadTrace,
    BadArrivals,
    BadFails,
    WindowTooLong,
    Rejected,
    LogFull,
    NoMemory,
    BadImage,
    BadObject,
    BadLink,
    BadForecast,
}

impl Status {
    /// The exit status of the program.
    pub fn number(self) -> u8
        ensures { result ≡ number_of_status self }
    {
        match self {
            Status::Done => 0,
            Status::Usage => 2,
            Status::ReadFault => 3,
            Status::WriteFault => 4,
            Status::BadSource => 5,
            Status::BadDevice => 6,
            Status::BadTrace => 7,
            Status::BadArrivals => 8,
            Status::BadFails => 9,
            Status::WindowTooLong => 10,
            Status::Rejected => 11,
            Status::LogFull => 12,
            Status::NoMemory => 13,
            Status::BadImage => 14,
            Status::BadForecast => 15,
            Status::BadObject => 16,
            Status::BadLink => 17,
        }
    }
}
