ghost use Rattle.std.specs.Prelude.{◌≡◌, option_map};
ghost use Rattle.device_profile.specs.Keys as spec;

/// A key of a profile; those of a table by the table and the key in it, as `BasicTicks` for
/// `basic.ticks`.
#[derive(Clone, Copy, PartialEq, Eq, Debug)]
pub enum Key {
    Cap,
    Start,
    Resume,
    Log,
    P,
    Q,
    Fill,
    BasicTicks,
    BasicBound,
    BasicActual,
    MemoryTicks,
    MemoryBound,
    MemoryActual,
    OutTicks,
    OutBound,
    OutActual,
    WriteTicks,
    WriteBound,
    WriteActual,
    WakeTicks,
    WakeBound,
    WakeActual,
}

/// The table that a key stands in, if it stands in one.
pub(crate) fn section(key: Key) -> Option<&'static str>
    ensures { option_map (λ s. s.now) result ≡ spec.section_of key }
{
    match key {
        Key::Cap | Key::Start | Key::Resume | Key::Log | Key::P | Key::Q | Key::Fill => None,
        Key::BasicTicks | Key::BasicBound | Key::BasicActual => Some("basic"),
        Key::MemoryTicks | Key::MemoryBound | Key::MemoryActual => Some("memory"),
        Key::OutTicks | Key::OutBound | Key::OutActual => Some("out"),
        Key::WriteTicks | Key::WriteBound | Key::WriteActual => Some("write"),
        Key::WakeTicks | Key::WakeBound | Key::WakeActual => Some("wake"),
    }
}

/// The key's name there.
pub(crate) fn name(key: Key) -> &'static str
    ensures { result.now ≡ spec.name_of key }
{
    match key {
        Key::Cap => "cap",
        Key::Start => "start",
        Key::Resume => "resume",
        Key::Log => "log",
        Key::P => "p",
        Key::Q => "q",
        Key::Fill => "fill",
        Key::BasicTicks | Key::MemoryTicks | Key::OutTicks | Key::WriteTicks | Key::WakeTicks =>
            "ticks",
        Key::BasicBound | Key::MemoryBound | Key::OutBound | Key::WriteBound | Key::WakeBound =>
            "bound",
        Key::BasicActual
        | Key::MemoryActual
        | Key::OutActual
        | Key::WriteActual
        | Key::WakeActual => "actual",
    }
}

impl Key {
    /// The key as a fault line names it, as `basic.ticks`: at most 13 bytes.
    pub fn text(self) -> &'static str
        ensures { result.now ≡ spec.text_of self }
    {
        match self {
            Key::Cap => "cap",
            Key::Start => "start",
            Key::Resume => "resume",
            Key::Log => "log",
            Key::P => "p",
            Key::Q => "q",
            Key::Fill => "fill",
            Key::BasicTicks => "basic.ticks",
            Key::BasicBound => "basic.bound",
            Key::BasicActual => "basic.actual",
            Key::MemoryTicks => "memory.ticks",
            Key::MemoryBound => "memory.bound",
            Key::MemoryActual => "memory.actual",
            Key::OutTicks => "out.ticks",
            Key::OutBound => "out.bound",
            Key::OutActual => "out.actual",
            Key::WriteTicks => "write.ticks",
            Key::WriteBound => "write.bound",
            Key::WriteActual => "write.actual",
            Key::WakeTicks => "wake.ticks",
            Key::WakeBound => "wake.bound",
            Key::WakeActual => "wake.actual",
        }
    }
}
