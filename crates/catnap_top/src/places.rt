//! Which byte of a source is named for what it is refused for.

ghost use Rattle.std.specs.Prelude.{◌≡◌, ◌≤◌, length, slice_get};
ghost use Rattle.catnap_top.specs.Places as spec;
ghost use Rattle.catnap_top.specs.Source.{most_source};

use cat_conditions::TypeFault;
use cat_syntax::SyntaxFault;
use cat_tokens::{LexFault, Token};

/// The byte that is named for a text that has no tokens.
pub fn byte_named(fault: LexFault) -> u32
    ensures { result ≡ spec.byte_named fault }
{
    match fault {
        LexFault::NoMemory => 0,
        LexFault::BadByte(number) | LexFault::IntTooLarge(number) | LexFault::NameTooLong(number) =>
            number,
    }
}

/// The token that is named where tokens have no tree; their count where it is the end.
pub fn token_named(fault: SyntaxFault) -> u32
    ensures { result ≡ spec.token_named fault }
{
    match fault {
        SyntaxFault::NoMemory => 0,
        SyntaxFault::TooDeep(number) | SyntaxFault::Syntax(number) => number,
    }
}

/// The piece that is named where a tree breaks a condition.
pub fn piece_named(fault: TypeFault) -> u32
    ensures { result ≡ spec.piece_named fault }
{
    match fault {
        TypeFault::NoMemory => 0,
        TypeFault::BadNumber(number)
        | TypeFault::TooManyVars(number)
        | TypeFault::TooManyEvents(number)
        | TypeFault::TooManyTasks(number)
        | TypeFault::TooManyVersions(number)
        | TypeFault::Twice(number)
        | TypeFault::Unknown(number)
        | TypeFault::WrongType(number)
        | TypeFault::WhileInEvent(number)
        | TypeFault::RepeatInTask(number)
        | TypeFault::PayloadInTask(number)
        | TypeFault::DeadlineTooLong(number)
        | TypeFault::DegradeTooOften(number)
        | TypeFault::StackTooDeep(number)
        | TypeFault::HandlerTooLong(number)
        | TypeFault::CodeTooLong(number) => number,
    }
}

/// The token with this number, if there is one.
fn token_at(tokens: &[Token], number: u32) -> Option<Token>
    ensures { result ≡ slice_get tokens.now number }
{
    tokens.get(number as usize).copied()
}

/// The first token of the piece with this number, if there is one.
fn start_at(starts: &[u32], number: u32) -> Option<u32>
    ensures { result ≡ slice_get starts.now number }
{
    starts.get(number as usize).copied()
}

/// The first byte of the token with this number, or the length of the source behind the last one.
pub fn byte_of_token(source: &[u8], tokens: &[Token], number: u32) -> u32
    requires { length source.now ≤ most_source }
    ensures { result ≡ spec.byte_of_token source.now tokens.now number }
{
    match token_at(tokens, number) {
        Some(token) => token.from,
        None => source.len() as u32,
    }
}

/// The first byte of the piece with this number, where these are the first tokens of the pieces.
pub fn byte_of_piece(source: &[u8], tokens: &[Token], starts: &[u32], number: u32) -> u32
    requires { length source.now ≤ most_source }
    ensures { result ≡ spec.byte_of_piece source.now tokens.now starts.now number }
{
    match start_at(starts, number) {
        Some(first) => byte_of_token(source, tokens, first),
        None => source.len() as u32,
    }
}
