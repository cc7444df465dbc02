//! What names are declared as.

ghost use Rattle.std.specs.Prelude.{◌≡◌, ◌<◌, ◌^◌, [], ◌∷◌, length, take, filter_map, IfOk, List, ℕ};
ghost use Rattle.std.specs.BTreeMap.{get_by};
ghost use Rattle.std.specs.Cmp.Lexicographic.{slice_cmp};
ghost use Rattle.std.specs.Ordering.{nat_cmp};
ghost use Rattle.cat_conditions.specs.Names as spec;
ghost use Rattle.cat_conditions.specs.Types.{has_wrong_type};
ghost use Rattle.cat_conditions.specs.Conditions.{DeclaresTwice};
ghost use Rattle.cat_conditions.specs.Offences.{At, Finds, IsFirst, NoneOf};
ghost use Rattle.cat_conditions.specs.Plain.{action_of, term_of};
ghost use Rattle.cat_types.specs.Shown.{shown, all_shown};
ghost use Rattle.cat_types.specs.Sorts.{IsNamed, Grows, sorts, Declares};

use crate::pieces::Piece;
use cat_conditions::Sort;
use cn_base::tree::{Expr, Item, Stmt};
use cn_base::{NoMemory, Text};
use std::alloc::Global;
use std::collections::BTreeMap;

/// As what each name is declared.
#[derive(Drop)]
pub struct Names<'a> {
    pub sorts: BTreeMap<&'a str, Sort>,
}

impl<'a> Names<'a> {
    pub fn sort(&self, name: &Text) -> Option<Sort>
        ensures { result ≡ sorts self.now name.now }
    {
        self.sorts.get(name.as_str()).copied()
    }
}

fn declaration<'a>(piece: &Piece<'a>) -> Option<(&'a str, Sort)>
    ensures { IsNamed result (spec.declaration (shown piece.now)) }
{
    let Piece::Item(item) = piece else {
        return None;
    };
    match item {
        Item::Int(name, ..) => Some((name.as_str(), Sort::Int)),
        Item::Bool(name, _) => Some((name.as_str(), Sort::Bool)),
        Item::Array(name, _) => Some((name.as_str(), Sort::Array)),
        Item::Task(name, _) => Some((name.as_str(), Sort::Task)),
        Item::Event(name, ..) => Some((name.as_str(), Sort::Event)),
        Item::Degrade(_) | Item::Start(_) => None,
    }
}

/// Adds what a piece declares, and answers whether its name was declared before.
fn declare<'a>(names: &mut Names<'a>, piece: &Piece<'a>) -> Result<bool, NoMemory>
    ensures { IfOk result (λ twice. Grows names.old names.new (spec.declaration (shown piece.now)) twice) }
{
    let Some((name, sort)) = declaration(piece) else {
        return Ok(false);
    };
    if names.sorts.contains_key(name) {
        return Ok(true);
    }
    match names.sorts.insert(name, sort) {
        Ok(_) => Ok(false),
        Err(_) => Err(NoMemory),
    }
}

/// The declared names, or the place of the first one that is declared a second time.
pub fn declared<'a>(alloc: Global, pieces: &[Piece<'a>]) -> Result<Result<Names<'a>, u32>, NoMemory>
    requires { length pieces.now < 2 ^ 32 }
    ensures { IfOk result (λ found. Declares (all_shown pieces.now) found) }
{
    let mut names = Names {
        sorts: BTreeMap::new(alloc),
    };
    for (place, piece) in pieces.iter().enumerate() {
        if declare(&mut names, piece)? {
            return Ok(Err(place as u32));
        }
    }
    Ok(Ok(names))
}

impl Names<'_> {
    /// The place of the first piece in which a name stands that is declared nowhere.
    pub fn first_unknown(&self, pieces: &[Piece<'_>]) -> Option<u32>
        requires { length pieces.now < 2 ^ 32 }
        ensures { Finds (length pieces.now) (At (spec.has_unknown_name (sorts self.now)) (all_shown pieces.now)) result }
    {
        for (place, piece) in pieces.iter().enumerate() {
            if self.piece_lacks(piece) {
                return Some(place as u32);
            }
        }
        None
    }

    /// The place of the first piece with a name of a wrong sort or a value of a wrong type.
    pub fn first_wrong_type(&self, pieces: &[Piece<'_>]) -> Option<u32>
        requires { length pieces.now < 2 ^ 32 }
        ensures { Finds (length pieces.now) (At (has_wrong_type (sorts self.now)) (all_shown pieces.now)) result }
    {
        for (place, piece) in pieces.iter().enumerate() {
            if self.has_wrong_type(piece) {
                return Some(place as u32);
            }
        }
        None
    }
}
