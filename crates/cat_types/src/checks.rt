//! Whether a source meets all conditions.

ghost use Rattle.std.specs.Prelude.{◌<◌, ◌^◌, length, take, MatchResult};
ghost use Rattle.cat_conditions.specs.Conditions.{all_conditions, Offends, names_known, types_agree, AllHold, IsFault, IsVerdict};
ghost use Rattle.cat_conditions.specs.Offences.{Finds};
ghost use Rattle.cat_types.specs.Sorts.{AreOf};
ghost use Rattle.cat_types.specs.Shown.{all_shown};

use crate::counts::Count;
use crate::names::{Names, declared};
use crate::pieces::{Piece, pieces};
use crate::rules::Rule;
use crate::{code, degrade};
use cat_conditions::TypeFault;
use cn_base::NoMemory;
use cn_base::tree::Tree;
use std::alloc::Global;

/// Numbers and counts.
fn check_counts(pieces: &[Piece<'_>]) -> Result<(), TypeFault>
    requires { length pieces.now < 2 ^ 32 }
    ensures { MatchResult result (λ _. AllHold (take 5 all_conditions) (all_shown pieces.now)) (λ fault. IsFault (all_shown pieces.now) fault) }
{
    if let Some(place) = Rule::NumbersInRange.first_broken(pieces) {
        return Err(TypeFault::BadNumber(place));
    }
    if let Err(place) = Count::Words.total(1_024, pieces) {
        return Err(TypeFault::TooManyVars(place));
    }
    if let Err(place) = Count::Events.total(16, pieces) {
        return Err(TypeFault::TooManyEvents(place));
    }
    if let Err(place) = Count::Tasks.total(16, pieces) {
        return Err(TypeFault::TooManyTasks(place));
    }
    if let Some(place) = Rule::FewVersions.first_broken(pieces) {
        return Err(TypeFault::TooManyVersions(place));
    }
    Ok(())
}

fn unknown(names: &Names<'_>, pieces: &[Piece<'_>]) -> Option<u32>
    requires fits { length pieces.now < 2 ^ 32 }
    requires are { AreOf (all_shown pieces.now) names.now }
    ensures { Finds (length pieces.now) (Offends names_known (all_shown pieces.now)) result }
{
    names.first_unknown(pieces)
}

fn wrong_type(names: &Names<'_>, pieces: &[Piece<'_>]) -> Option<u32>
    requires fits { length pieces.now < 2 ^ 32 }
    requires are { AreOf (all_shown pieces.now) names.now }
    ensures { Finds (length pieces.now) (Offends types_agree (all_shown pieces.now)) result }
{
    names.first_wrong_type(pieces)
}

/// Names and types.
fn check_names(alloc: Global, pieces: &[Piece<'_>]) -> Result<(), TypeFault>
    requires fits { length pieces.now < 2 ^ 32 }
    requires before { AllHold (take 5 all_conditions) (all_shown pieces.now) }
    ensures { MatchResult result (λ _. AllHold (take 8 all_conditions) (all_shown pieces.now)) (λ fault. IsFault (all_shown pieces.now) fault) }
{
    let names = match declared(alloc, pieces) {
        Ok(Ok(names)) => names,
        Ok(Err(place)) => return Err(TypeFault::Twice(place)),
        Err(NoMemory) => return Err(TypeFault::NoMemory),
    };
    if let Some(place) = unknown(&names, pieces) {
        return Err(TypeFault::Unknown(place));
    }
    if let Some(place) = wrong_type(&names, pieces) {
        return Err(TypeFault::WrongType(place));
    }
    Ok(())
}

/// Where loops and the payload stand, and deadlines.
fn check_places(pieces: &[Piece<'_>]) -> Result<(), TypeFault>
    requires fits { length pieces.now < 2 ^ 32 }
    requires before { AllHold (take 8 all_conditions) (all_shown pieces.now) }
    ensures { MatchResult result (λ _. AllHold (take 12 all_conditions) (all_shown pieces.now)) (λ fault. IsFault (all_shown pieces.now) fault) }
{
    if let Some(place) = Rule::NoWhileInEvents.first_broken(pieces) {
        return Err(TypeFault::WhileInEvent(place));
    }
    if let Some(place) = Rule::NoRepeatInTasks.first_broken(pieces) {
        return Err(TypeFault::RepeatInTask(place));
    }
    if let Some(place) = Rule::NoPayloadInTasks.first_broken(pieces) {
        return Err(TypeFault::PayloadInTask(place));
    }
    if let Some(place) = Rule::DeadlinesInTime.first_broken(pieces) {
        return Err(TypeFault::DeadlineTooLong(place));
    }
    Ok(())
}

/// Degrade orders, operands and lengths.
fn check_lengths(pieces: &[Piece<'_>]) -> Result<(), TypeFault>
    requires fits { length pieces.now < 2 ^ 32 }
    requires before { AllHold (take 12 all_conditions) (all_shown pieces.now) }
    ensures { MatchResult result (λ _. AllHold all_conditions (all_shown pieces.now)) (λ fault. IsFault (all_shown pieces.now) fault) }
{
    if let Some(place) = degrade::first_too_often(pieces) {
        return Err(TypeFault::DegradeTooOften(place));
    }
    if let Some(place) = Rule::OperandsFit.first_broken(pieces) {
        return Err(TypeFault::StackTooDeep(place));
    }
    if let Some(place) = Rule::HandlersShort.first_broken(pieces) {
        return Err(TypeFault::HandlerTooLong(place));
    }
    if let Some(place) = code::first_too_long(pieces) {
        return Err(TypeFault::CodeTooLong(place));
    }
    Ok(())
}

fn check_all(alloc: Global, pieces: &[Piece<'_>]) -> Result<(), TypeFault>
    ensures { MatchResult result (λ _. AllHold all_conditions (all_shown pieces.now)) (λ fault. IsFault (all_shown pieces.now) fault) }
{
    if pieces.len() > u32::MAX as usize {
        return Err(TypeFault::NoMemory);
    }
    check_counts(pieces)?;
    check_names(alloc, pieces)?;
    check_places(pieces)?;
    check_lengths(pieces)
}

/// Whether a source meets all conditions, else the first that fails with its first piece that offends.
pub fn verdict(alloc: Global, tree: &Tree) -> Result<(), TypeFault>
    ensures { IsVerdict tree.now result }
{
    match pieces(alloc, tree) {
        Ok(pieces) => check_all(alloc, pieces.as_slice()),
        Err(NoMemory) => Err(TypeFault::NoMemory),
    }
}
