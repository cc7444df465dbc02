//! Why a tree is no program.

/// The first condition that fails, with the place of the first piece that offends against it: items,
/// statements and expressions are counted together from 0 in the order of their first tokens, an outer
/// one before an inner one that starts with the same token.
#[derive(Clone, Copy, Debug, PartialEq, Eq)]
pub enum TypeFault {
    /// A number is out of its range.
    BadNumber(u32),
    /// All variables have more than 1,024 words.
    TooManyVars(u32),
    /// There are more than 16 events.
    TooManyEvents(u32),
    /// There are more than 16 tasks.
    TooManyTasks(u32),
    /// An event has more than 4 versions.
    TooManyVersions(u32),
    /// A name is declared a second time.
    Twice(u32),
    /// A name is used that is declared nowhere.
    Unknown(u32),
    /// A name is of another sort, or a value of another type, than what stands around it takes.
    WrongType(u32),
    /// A `while` stands in an event.
    WhileInEvent(u32),
    /// A `repeat` stands in a task.
    RepeatInTask(u32),
    /// `payload` stands in a task.
    PayloadInTask(u32),
    /// A deadline exceeds the period or spacing of its event.
    DeadlineTooLong(u32),
    /// The degrade orders mention an event more often than it has further versions.
    DegradeTooOften(u32),
    /// A statement needs more than 32 operands at once.
    StackTooDeep(u32),
    /// A version may run more than 1,000,000 instructions.
    HandlerTooLong(u32),
    /// The code has more than 60,000 instructions.
    CodeTooLong(u32),
    /// Memory ran out.
    NoMemory,
}
