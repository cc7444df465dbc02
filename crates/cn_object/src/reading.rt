//! The object that bytes are read as. Whatever they are, they are read as if they were a file; what was read is then spelled
//! again, and compared with them.

ghost use Rattle.std.specs.Prelude.{◌≡◌, ◌≤◌, drop, slice_index, length, IfOk, MatchOption, IsTrue, ◌↔◌};
ghost use Rattle.std.specs.List.{All, flat_map};
ghost use Rattle.std.specs.Int.{w32, cast_signed};
ghost use Rattle.cat_machine.specs.CodeValue.{entries_of};
ghost use Rattle.cn_object.specs.declared.object.Object.{Object as Program};
ghost use Rattle.cn_object.specs.Spelling.{HasVersions, IsReadAs, cut, parts_bytes, spelled_with};
ghost use Rattle.cn_object.specs.Reading.{short_of, number_of, read_numbers, read_words, read_started, read_event, after_event, after_events, read_versions, after_versions, parts_in, instr_in, read_instrs, read_parts, words_in, tasks_in, events_in, count_in, read_object, AreBytes, AreWhole, HasFewParts};

use crate::object::Object;
use crate::parts::{Parts, are_whole, cut, instr_in};
use crate::writing::spelled_with;
use cat_machine::{Code, Instr};
use cn_base::List;
use std::alloc::{AllocError, Global};

fn byte(bytes: &[u8], at: usize) -> u8
    ensures { result ≡ slice_index bytes.now at }
{
    match bytes.get(at) {
        Some(byte) => *byte,
        None => 0,
    }
}

fn short(bytes: &[u8]) -> u16
    ensures { result ≡ short_of bytes.now }
{
    u16::from_le_bytes([byte(bytes, 0), byte(bytes, 1)])
}

fn number(bytes: &[u8]) -> u32
    ensures { result ≡ number_of bytes.now }
{
    u32::from_le_bytes([
        byte(bytes, 0),
        byte(bytes, 1),
        byte(bytes, 2),
        byte(bytes, 3),
    ])
}

// What stands behind the first n bytes.
fn after(bytes: &[u8], n: usize) -> &[u8]
    ensures { result.now ≡ drop n bytes.now }
{
    if n <= bytes.len() {
        &bytes[n..]
    } else {
        &bytes[bytes.len()..]
    }
}

// n numbers, each so many bytes behind the one before.
fn numbers(alloc: Global, bytes: &[u8], step: usize, n: usize) -> Result<Vec<u32>, AllocError>
    ensures { IfOk result (λ v. v.items ≡ read_numbers step n bytes.now) }
{
    let mut read = Vec::new(alloc);
    let mut rest = bytes;
    'items: for _ in 0..n {
        read.push(number(rest))?;
        rest = after(rest, step);
    }
    Ok(read)
}

fn word(bytes: &[u8]) -> i32
    ensures { result ≡ cast_signed w32 (number_of bytes.now) }
{
    number(bytes).cast_signed()
}

fn words(alloc: Global, bytes: &[u8], n: usize) -> Result<Vec<i32>, AllocError>
    ensures { IfOk result (λ v. v.items ≡ read_words n bytes.now) }
{
    let mut read = Vec::new(alloc);
    let mut rest = bytes;
    'items: for _ in 0..n {
        read.push(word(rest))?;
        rest = after(rest, 4);
    }
    Ok(read)
}

fn started(alloc: Global, bytes: &[u8], n: usize) -> Result<Vec<u16>, AllocError>
    ensures { IfOk result (λ v. v.items ≡ read_started n bytes.now) }
{
    let mut read = Vec::new(alloc);
    let mut rest = bytes;
    'items: for _ in 0..n {
        read.push(short(rest))?;
        rest = after(rest, 8);
    }
    Ok(read)
}

fn event(alloc: Global, bytes: &[u8]) -> Result<Vec<u32>, AllocError>
    ensures { IfOk result (λ v. v.items ≡ read_event bytes.now) }
{
    numbers(alloc, after(bytes, 4), 4, byte(bytes, 0) as usize)
}

fn after_event(bytes: &[u8]) -> &[u8]
    ensures { result.now ≡ after_event bytes.now }
{
    after(bytes, 4 + 4 * byte(bytes, 0) as usize)
}

fn versions(alloc: Global, bytes: &[u8], n: usize) -> Result<Vec<Vec<u32>>, AllocError>
    ensures { IfOk result (λ v. entries_of v.items ≡ read_versions n bytes.now) }
{
    let mut read = Vec::new(alloc);
    let mut rest = bytes;
    'items: for _ in 0..n {
        let entries = event(alloc, rest)?;
        read.push(entries)?;
        rest = after_event(rest);
    }
    Ok(read)
}

fn after_versions(bytes: &[u8], n: usize) -> &[u8]
    ensures { result.now ≡ after_versions n bytes.now }
{
    let mut rest = bytes;
    'items: for _ in 0..n {
        rest = after_event(rest);
    }
    rest
}

fn parts_in(bytes: &[u8]) -> Parts
    ensures { result ≡ parts_in bytes.now }
{
    Parts {
        number: byte(bytes, 0),
        a: byte(bytes, 1),
        b: short(after(bytes, 2)),
        c: number(after(bytes, 4)),
    }
}

fn instr(bytes: &[u8]) -> Instr
    ensures { result ≡ instr_in (cut (parts_in bytes.now)) }
{
    instr_in(cut(parts_in(bytes)))
}

// The numbers of n instructions.
fn all_parts(alloc: Global, bytes: &[u8], n: usize) -> Result<Vec<Parts>, AllocError>
    ensures { IfOk result (λ v. v.items ≡ read_parts n bytes.now) }
{
    let mut read = Vec::new(alloc);
    let mut rest = bytes;
    'items: for _ in 0..n {
        read.push(parts_in(rest))?;
        rest = after(rest, 8);
    }
    Ok(read)
}

fn all_whole(all: &[Parts]) -> bool
    ensures { IsTrue result ↔ All AreWhole all.now }
{
    for parts in all {
        if !are_whole(*parts) {
            return false;
        }
    }
    true
}

fn instrs(alloc: Global, bytes: &[u8], n: usize) -> Result<Vec<Instr>, AllocError>
    ensures { IfOk result (λ v. v.items ≡ read_instrs n bytes.now) }
{
    let mut read = Vec::new(alloc);
    let mut rest = bytes;
    'items: for _ in 0..n {
        read.push(instr(rest))?;
        rest = after(rest, 8);
    }
    Ok(read)
}

fn word_count(bytes: &[u8]) -> usize
    ensures { result ≡ words_in bytes.now }
{
    short(after(bytes, 4)) as usize
}

fn task_count(bytes: &[u8]) -> usize
    ensures { result ≡ tasks_in bytes.now }
{
    byte(bytes, 6) as usize
}

fn event_count(bytes: &[u8]) -> usize
    ensures { result ≡ events_in bytes.now }
{
    byte(bytes, 7) as usize
}

fn instr_count(bytes: &[u8]) -> usize
    ensures { result ≡ count_in bytes.now }
{
    number(after(bytes, 8)) as usize
}

fn are_bytes(bytes: &[u8])
    ensures { AreBytes bytes.now }
{
    let _bytes = bytes;
}

// Whether the counts at the head are within the limits.
fn has_few_parts(bytes: &[u8]) -> bool
    ensures { IsTrue result ↔ HasFewParts bytes.now }
{
    word_count(bytes) <= 1024
        && task_count(bytes) <= 16
        && event_count(bytes) <= 16
        && instr_count(bytes) <= 60_000
}

fn after_events(bytes: &[u8]) -> &[u8]
    requires { HasFewParts bytes.now }
    ensures { result.now ≡ after_events bytes.now }
{
    let after_words = after(after(bytes, 12), 4 * word_count(bytes));
    let after_tasks = after(after_words, 8 * task_count(bytes));
    after_versions(after_tasks, event_count(bytes))
}

// What is read from bytes whose counts are within the limits.
fn parts(alloc: Global, bytes: &[u8]) -> Result<Object, AllocError>
    requires { HasFewParts bytes.now }
    ensures { IfOk result (λ object. object ≡ read_object bytes.now) }
{
    let word_count = word_count(bytes);
    let task_count = task_count(bytes);
    let event_count = event_count(bytes);
    let instr_count = instr_count(bytes);
    let after_head = after(bytes, 12);
    let after_words = after(after_head, 4 * word_count);
    let after_tasks = after(after_words, 8 * task_count);
    let after_events = after_versions(after_tasks, event_count);
    let instrs = instrs(alloc, after_events, instr_count)?;
    let first_entry = after(after_words, 4);
    let tasks = numbers(alloc, first_entry, 8, task_count)?;
    let versions = versions(alloc, after_tasks, event_count)?;
    let words = words(alloc, after_head, word_count)?;
    let started = started(alloc, after_words, task_count)?;
    Ok(Object {
        code: Code::of(instrs, tasks, versions),
        words: List::of(words),
        started: List::of(started),
    })
}

// Whether each event has one to four versions.
fn have_versions(code: &Code) -> bool
    ensures { IsTrue result ↔ All HasVersions code.now.versions }
{
    for event in 0..code.events() {
        let count = code.versions(event).len();
        if count < 1 || 4 < count {
            return false;
        }
    }
    true
}

// The bytes of an object, with these numbers for its instructions, are the ones that it was read from.
fn is_again(alloc: Global, object: &Object, all: &[Parts], bytes: &[u8]) -> Result<bool, AllocError>
    requires words { length object.now.words ≤ 1024 }
    requires tasks { length object.now.code.tasks ≤ 16 }
    requires started { length object.now.started ≡ length object.now.code.tasks }
    requires versions { All HasVersions object.now.code.versions }
    ensures { IfOk result (λ yes. IsTrue yes ↔ (spelled_with object.now (flat_map parts_bytes all.now) ≡ bytes.now)) }
{
    let words = object.words.as_slice();
    let started = object.started.as_slice();
    let file = spelled_with(alloc, &object.code, words, started, all)?;
    Ok(file.as_slice() == bytes)
}

/// The object that bytes are read as, or none.
pub(crate) fn read(alloc: Global, bytes: &[u8]) -> Result<Option<Object>, AllocError>
    ensures { IfOk result (λ read. MatchOption read ((o : Program) → ¬ IsReadAs o bytes.now) (λ o. IsReadAs o bytes.now)) }
{
    are_bytes(bytes);
    if !has_few_parts(bytes) {
        return Ok(None);
    }
    let object = parts(alloc, bytes)?;
    if !have_versions(&object.code) {
        return Ok(None);
    }
    let all = all_parts(alloc, after_events(bytes), instr_count(bytes))?;
    if !all_whole(&all) {
        return Ok(None);
    }
    let again = is_again(alloc, &object, &all, bytes)?;
    if again { Ok(Some(object)) } else { Ok(None) }
}
