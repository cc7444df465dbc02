//! The length of the code.

ghost use Rattle.std.specs.Prelude.{◌<◌, ◌^◌, length};
ghost use Rattle.cat_conditions.specs.Conditions.{MakesCodeLong};
ghost use Rattle.cat_conditions.specs.Offences.{Finds};
ghost use Rattle.cat_types.specs.Shown.{all_shown};

use crate::counts::Count;
use crate::pieces::Piece;

/// The most instructions that code may have.
const MOST_CODE: u32 = 60_000;

/// The place of the first task or event, in the order of the code, with which it is too long.
pub fn first_too_long(pieces: &[Piece<'_>]) -> Option<u32>
    requires { length pieces.now < 2 ^ 32 }
    ensures { Finds (length (all_shown pieces.now)) (MakesCodeLong (all_shown pieces.now)) result }
{
    match Count::TaskCode.total(MOST_CODE, pieces) {
        Err(place) => Some(place),
        Ok(tasks) => match Count::EventCode.total(MOST_CODE - tasks, pieces) {
            Err(place) => Some(place),
            Ok(_) => None,
        },
    }
}
