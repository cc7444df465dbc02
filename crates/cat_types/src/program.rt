//! The program of a source.

ghost use Rattle.std.specs.Prelude.{IfOk};
ghost use Rattle.cat_conditions.specs.Conditions.{IsVerdict};
ghost use Rattle.cat_resolve.specs.Program.{IsProgramOf};

use crate::checks::verdict;
use cat_conditions::TypeFault;
use cat_program::Program;
use cat_resolve::checked;
use cn_base::tree::Tree;
use std::alloc::Global;

/// The program of a source that meets all conditions. It is the one that `cat_resolve/specs/Program.antt` says: names become
/// numbers, and each block gets one.
///
/// # Errors
///
/// Else the first condition that fails, with the place of the first piece that offends against it. `NoMemory` where memory is not
/// found.
pub fn check(alloc: Global, tree: &Tree) -> Result<Program, TypeFault>
    ensures verdict { IsVerdict tree.now result }
    ensures program { IfOk result (λ p. IsProgramOf tree.now p) }
{
    verdict(alloc, tree)?;
    match checked(alloc, tree) {
        Ok(program) => Ok(program),
        Err(_) => Err(TypeFault::NoMemory),
    }
}
