//! The verifier.

ghost use Rattle.std.specs.Prelude.{◌≡◌, ◌≤◌, length, IfOk, MatchOption, MatchResult};
ghost use Rattle.cn_object.specs.Verified.{IsVerified};
ghost use Rattle.cn_object.specs.Verdict.{CodeBreaks, IsGood, Refuses};

use crate::depths::{depths, versions_begin};
use crate::lengths::length_fault;
use crate::loops::loop_fault;
use crate::object::{Kind, Object, ObjectFault};
use crate::operands::operand_fault;
use crate::reading::read;
use crate::regions::region_fault;
use cat_machine::Code;
use std::alloc::{AllocError, Global};

type Found = Option<(Kind, u32)>;

// The lowest rule that code breaks, and where.
fn code_fault(alloc: Global, code: &Code, words: u32) -> Result<Found, AllocError>
    requires { length code.now.tasks ≤ 16 }
    ensures { IfOk result (λ found. MatchOption found (IsVerified words (length code.now.tasks) code.now) (λ f. CodeBreaks words code.now f.0 f.1)) }
{
    let tasks = code.tasks().len() as u32;
    if let Some(place) = operand_fault(code, words, tasks) {
        return Ok(Some((Kind::Operand, place)));
    }
    if let Some(place) = region_fault(alloc, code)? {
        return Ok(Some((Kind::Region, place)));
    }
    let versions = versions_begin(code);
    let depths = match depths(alloc, code, versions)? {
        Ok(depths) => depths,
        Err(place) => return Ok(Some((Kind::Stack, place))),
    };
    if let Some(place) = loop_fault(alloc, code, versions, &depths)? {
        return Ok(Some((Kind::Loop, place)));
    }
    match length_fault(alloc, code)? {
        Some(place) => Ok(Some((Kind::Long, place))),
        None => Ok(None),
    }
}

/// The object whose file these bytes are, where its code can be run without being stuck. Or else the lowest rule that fails,
/// with the first place that breaks it.
pub fn verify(alloc: Global, bytes: &[u8]) -> Result<Object, ObjectFault>
    ensures { MatchResult result (IsGood bytes.now) (Refuses bytes.now) }
{
    let read = match read(alloc, bytes) {
        Ok(read) => read,
        Err(_) => return Err(ObjectFault::NoMemory),
    };
    let Some(object) = read else {
        return Err(ObjectFault::BadObject(Kind::Form, 0));
    };
    let words = object.words.len() as u32;
    match code_fault(alloc, &object.code, words) {
        Ok(None) => Ok(object),
        Ok(Some((kind, place))) => Err(ObjectFault::BadObject(kind, place)),
        Err(_) => Err(ObjectFault::NoMemory),
    }
}
