use crate::keys::Key;

/// What is wrong with a profile's table.
#[derive(Clone, Copy, PartialEq, Eq, Debug)]
pub(crate) enum KeyFault {
    Missing(Key),
    Extra,
    Range(Key),
}

/// Why a text is no profile, in the order in which it is looked at.
#[derive(Clone, Copy, PartialEq, Eq, Debug)]
pub enum DeviceFault {
    /// The text has over 16,777,216 bytes.
    DeviceLong,
    /// The text is not UTF-8, or no TOML.
    DeviceSyntax,
    /// The first key that is missing.
    DeviceKey(Key),
    /// A further key stands somewhere.
    DeviceExtra,
    /// The first key whose value is of another kind or out of its range.
    DeviceRange(Key),
    NoMemory,
}
