//! From the bytes of a source to its program.

ghost use Rattle.std.specs.Prelude.{◌≡◌, ◌≤◌, None, length};
ghost use Rattle.cat_tokens.specs.Lexes.{Lexes};
ghost use Rattle.cat_tokens.specs.Lexemes.{lexemes};
ghost use Rattle.cat_syntax.specs.Spells.{Spells};
ghost use Rattle.cat_conditions.specs.Conditions.{IsFault};
ghost use Rattle.cat_conditions.specs.Pieces.{pieces};
ghost use Rattle.catnap_top.specs.Files.{program_in};
ghost use Rattle.catnap_top.specs.Look.{Looks, Stops};
ghost use Rattle.catnap_top.specs.Source.{most_source, stop_of};

use crate::fault::Fault;
use crate::places::{byte_named, byte_of_piece, byte_of_token, piece_named, token_named};
use crate::refusal::{
    SourceFault, SourceKind, kind_of_syntax_fault, kind_of_token_fault, kind_of_type_fault,
};
use crate::stop::Stop;
use cat_conditions::TypeFault;
use cat_places::starts;
use cat_program::Program;
use cat_syntax::parse;
use cat_tokens::{Token, tokens};
use cat_types::check;
use cn_base::tree::Tree;
use std::alloc::Global;

/// The greatest source, in bytes.
const MOST_SOURCE: usize = 262_144;

/// The refusal of this kind at this byte, or want of memory.
fn stop(kind: Option<SourceKind>, place: u32) -> Stop
    ensures { result ≡ stop_of kind place }
{
    match kind {
        Some(kind) => Stop::Refused(Fault::Source(SourceFault { kind, place })),
        None => Stop::NoMemory,
    }
}

/// The refusal of a source whose tree breaks a condition.
fn unchecked(alloc: Global, source: &[u8], tokens: &[Token], tree: &Tree, fault: TypeFault) -> Stop
    requires within { length source.now ≤ most_source }
    requires few { length tokens.now ≤ length source.now }
    requires lexed { Lexes 0 source.now tokens.now None }
    requires spelled { Spells (lexemes source.now tokens.now) tree.now.items }
    requires fault { IsFault (pieces tree.now) fault }
    ensures { Stops (program_in source.now) result }
{
    match starts(alloc, tokens, tree) {
        Ok(starts) => stop(
            kind_of_type_fault(fault),
            byte_of_piece(source, tokens, starts.as_slice(), piece_named(fault)),
        ),
        Err(_) => Stop::NoMemory,
    }
}

/// The program of a source, or the first reason for which it is refused, with the byte that is named for it.
pub fn program_of(alloc: Global, source: &[u8]) -> Result<Program, Stop>
    ensures { Looks (program_in source.now) result }
{
    if source.len() > MOST_SOURCE {
        return Err(Stop::Refused(Fault::Source(SourceFault {
            kind: SourceKind::TooLong,
            place: MOST_SOURCE as u32,
        })));
    }
    let found = match tokens(alloc, source) {
        Ok(found) => found,
        Err(fault) => return Err(stop(kind_of_token_fault(fault), byte_named(fault))),
    };
    let tree = match parse(alloc, found.as_slice(), source) {
        Ok(tree) => tree,
        Err(fault) => {
            let place = byte_of_token(source, found.as_slice(), token_named(fault));
            return Err(stop(kind_of_syntax_fault(fault), place));
        }
    };
    match check(alloc, &tree) {
        Ok(program) => Ok(program),
        Err(fault) => Err(unchecked(alloc, source, found.as_slice(), &tree, fault)),
    }
}
