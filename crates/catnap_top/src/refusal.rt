//! Why a source is refused, and where.

ghost use Rattle.std.specs.Prelude.{◌≡◌};
ghost use Rattle.cn_base.specs.Causes.{HasCause};
ghost use Rattle.cn_base.specs.Writing.{Writes};
ghost use Rattle.catnap_top.specs.Refusals.{kind_name, refused, kind_of_token_fault, kind_of_syntax_fault, kind_of_type_fault};

use crate::line::put_refusal;
use cat_conditions::TypeFault;
use cat_syntax::SyntaxFault;
use cat_tokens::LexFault;
use cn_base::{Sink, WriteFail};

/// The kinds for which a source is refused, in the order in which they are looked at.
#[derive(Clone, Copy, Debug, PartialEq, Eq)]
pub enum SourceKind {
    /// It has more than 262,144 bytes.
    TooLong,
    BadByte,
    IntTooLarge,
    NameTooLong,
    TooDeep,
    Syntax,
    BadNumber,
    TooManyVars,
    TooManyEvents,
    TooManyTasks,
    TooManyVersions,
    Twice,
    Unknown,
    WrongType,
    WhileInEvent,
    RepeatInTask,
    PayloadInTask,
    DeadlineTooLong,
    DegradeTooOften,
    StackTooDeep,
    HandlerTooLong,
    CodeTooLong,
}

impl SourceKind {
    fn name(self) -> &'static [u8]
        ensures { result.now ≡ kind_name self }
    {
        match self {
            SourceKind::TooLong => b"TooLong".as_slice(),
            SourceKind::BadByte => b"BadByte".as_slice(),
            SourceKind::IntTooLarge => b"IntTooLarge".as_slice(),
            SourceKind::NameTooLong => b"NameTooLong".as_slice(),
            SourceKind::TooDeep => b"TooDeep".as_slice(),
            SourceKind::Syntax => b"Syntax".as_slice(),
            SourceKind::BadNumber => b"BadNumber".as_slice(),
            SourceKind::TooManyVars => b"TooManyVars".as_slice(),
            SourceKind::TooManyEvents => b"TooManyEvents".as_slice(),
            SourceKind::TooManyTasks => b"TooManyTasks".as_slice(),
            SourceKind::TooManyVersions => b"TooManyVersions".as_slice(),
            SourceKind::Twice => b"Twice".as_slice(),
            SourceKind::Unknown => b"Unknown".as_slice(),
            SourceKind::WrongType => b"WrongType".as_slice(),
            SourceKind::WhileInEvent => b"WhileInEvent".as_slice(),
            SourceKind::RepeatInTask => b"RepeatInTask".as_slice(),
            SourceKind::PayloadInTask => b"PayloadInTask".as_slice(),
            SourceKind::DeadlineTooLong => b"DeadlineTooLong".as_slice(),
            SourceKind::DegradeTooOften => b"DegradeTooOften".as_slice(),
            SourceKind::StackTooDeep => b"StackTooDeep".as_slice(),
            SourceKind::HandlerTooLong => b"HandlerTooLong".as_slice(),
            SourceKind::CodeTooLong => b"CodeTooLong".as_slice(),
        }
    }
}

/// A source is refused for this, and for it this byte is named, counted from the source's start.
#[derive(Clone, Copy, Debug, PartialEq, Eq)]
pub struct SourceFault {
    pub kind: SourceKind,
    pub place: u32,
}

impl SourceFault {
    /// Writes the line of the refusal.
    pub fn write<K: Sink>(self, sink: &mut K) -> Result<(), WriteFail>
        ensures text { Writes (K.written sink.old) (K.written sink.new) (refused self).text result }
        ensures cause { HasCause (K.faults sink.old) (K.faults sink.new) result }
    {
        let name = self.kind.name();
        put_refusal(sink, b"fault source ", name, u64::from(self.place))
    }
}

/// The kind of a text that has no tokens; none where memory ran out.
pub fn kind_of_token_fault(fault: LexFault) -> Option<SourceKind>
    ensures { result ≡ kind_of_token_fault fault }
{
    match fault {
        LexFault::NoMemory => None,
        LexFault::BadByte(_) => Some(SourceKind::BadByte),
        LexFault::IntTooLarge(_) => Some(SourceKind::IntTooLarge),
        LexFault::NameTooLong(_) => Some(SourceKind::NameTooLong),
    }
}

/// The kind of tokens that have no tree; none where memory ran out.
pub fn kind_of_syntax_fault(fault: SyntaxFault) -> Option<SourceKind>
    ensures { result ≡ kind_of_syntax_fault fault }
{
    match fault {
        SyntaxFault::NoMemory => None,
        SyntaxFault::TooDeep(_) => Some(SourceKind::TooDeep),
        SyntaxFault::Syntax(_) => Some(SourceKind::Syntax),
    }
}

/// The kind of a tree that breaks a condition; none where memory ran out.
pub fn kind_of_type_fault(fault: TypeFault) -> Option<SourceKind>
    ensures { result ≡ kind_of_type_fault fault }
{
    match fault {
        TypeFault::NoMemory => None,
        TypeFault::BadNumber(_) => Some(SourceKind::BadNumber),
        TypeFault::TooManyVars(_) => Some(SourceKind::TooManyVars),
        TypeFault::TooManyEvents(_) => Some(SourceKind::TooManyEvents),
        TypeFault::TooManyTasks(_) => Some(SourceKind::TooManyTasks),
        TypeFault::TooManyVersions(_) => Some(SourceKind::TooManyVersions),
        TypeFault::Twice(_) => Some(SourceKind::Twice),
        TypeFault::Unknown(_) => Some(SourceKind::Unknown),
        TypeFault::WrongType(_) => Some(SourceKind::WrongType),
        TypeFault::WhileInEvent(_) => Some(SourceKind::WhileInEvent),
        TypeFault::RepeatInTask(_) => Some(SourceKind::RepeatInTask),
        TypeFault::PayloadInTask(_) => Some(SourceKind::PayloadInTask),
        TypeFault::DeadlineTooLong(_) => Some(SourceKind::DeadlineTooLong),
        TypeFault::DegradeTooOften(_) => Some(SourceKind::DegradeTooOften),
        TypeFault::StackTooDeep(_) => Some(SourceKind::StackTooDeep),
        TypeFault::HandlerTooLong(_) => Some(SourceKind::HandlerTooLong),
        TypeFault::CodeTooLong(_) => Some(SourceKind::CodeTooLong),
    }
}
