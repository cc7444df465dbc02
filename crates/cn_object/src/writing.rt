//! The file of an object.

ghost use Rattle.std.specs.Prelude.{◌≡◌, ◌≤◌, ◌<◌, ◌++◌, ◌^◌, length, FitsSigned, IfOk, OnOk};
ghost use Rattle.std.specs.Int.{w32, to_le_bytes};
ghost use Rattle.std.specs.List.{All, flat_map};
ghost use Rattle.cat_machine.specs.Code.{code_of};
ghost use Rattle.cn_object.specs.Spelling.{HasRoom, HasVersions, IsFileOf, IsInRange, IsPlace, event_bytes, head_bytes, instr_bytes, parts_bytes, program_object, spelled_with, spelling, task_bytes, tasks_bytes, word_bytes};

use crate::parts::{Parts, parts_of};
use cat_machine::{Code, Instr, code_is_laid_out};
use cat_program::Program;
use cn_base::NoMemory;
use std::alloc::{AllocError, Global};

fn put_parts(out: &mut Vec<u8>, parts: Parts) -> Result<(), AllocError>
    ensures { OnOk result (out.new.items ≡ out.old.items ++ parts_bytes parts) }
{
    out.push(parts.number)?;
    out.push(parts.a)?;
    out.extend_from_slice(&parts.b.to_le_bytes())?;
    out.extend_from_slice(&parts.c.to_le_bytes())
}

// The operands of an instruction have room in its parts.
fn has_room(instr: Instr)
    ensures { HasRoom instr }
{
    match instr {
        Instr::Push(_n) => {}
        Instr::Load(_word) | Instr::Store(_word) => {}
        Instr::Jump(_to) | Instr::JumpZero(_to) | Instr::Turn(_to) => {}
        Instr::Begin(_task) | Instr::Post(_task) => {}
        Instr::LoadAt {
            base: _base,
            len: _len,
        }
        | Instr::StoreAt {
            base: _base,
            len: _len,
        } => {}
        Instr::Out(_channel) => {}
        _ => {}
    }
}

fn put_instr(out: &mut Vec<u8>, instr: Instr) -> Result<(), AllocError>
    ensures text { OnOk result (out.new.items ≡ out.old.items ++ instr_bytes instr) }
    ensures room { HasRoom instr }
{
    has_room(instr);
    put_parts(out, parts_of(instr))
}

// A word behind a reference is known to have room where it is read, so a function of its own reads it.
fn put_word(out: &mut Vec<u8>, word: &i32) -> Result<(), AllocError>
    ensures text { OnOk result (out.new.items ≡ out.old.items ++ word_bytes word.now) }
    ensures room { FitsSigned w32 word.now }
{
    let word = *word;
    out.extend_from_slice(&word.cast_unsigned().to_le_bytes())
}

fn put_words(out: &mut Vec<u8>, words: &[i32]) -> Result<(), AllocError>
    ensures text { OnOk result (out.new.items ≡ out.old.items ++ flat_map word_bytes words.now) }
    ensures room { OnOk result (All (FitsSigned w32) words.now) }
{
    for word in words {
        put_word(out, word)?;
    }
    Ok(())
}

fn put_task(out: &mut Vec<u8>, started: u16, entry: u32) -> Result<(), AllocError>
    ensures text { OnOk result (out.new.items ≡ out.old.items ++ task_bytes started entry) }
    ensures posts { started < 2 ^ 16 }
    ensures place { IsPlace entry }
{
    out.extend_from_slice(&started.to_le_bytes())?;
    out.extend_from_slice(&[0, 0])?;
    out.extend_from_slice(&entry.to_le_bytes())
}

fn put_tasks(out: &mut Vec<u8>, started: &[u16], entries: &[u32]) -> Result<(), AllocError>
    requires { length started.now ≡ length entries.now }
    ensures text { OnOk result (out.new.items ≡ out.old.items ++ tasks_bytes started.now entries.now) }
    ensures posts { OnOk result (All (λ n. n < 2 ^ 16) started.now) }
    ensures places { OnOk result (All IsPlace entries.now) }
{
    for (t, entry) in entries.iter().enumerate() {
        put_task(out, started[t], *entry)?;
    }
    Ok(())
}

fn put_entry(out: &mut Vec<u8>, entry: u32) -> Result<(), AllocError>
    ensures text { OnOk result (out.new.items ≡ out.old.items ++ to_le_bytes w32 entry) }
    ensures place { IsPlace entry }
{
    out.extend_from_slice(&entry.to_le_bytes())
}

fn put_event(out: &mut Vec<u8>, entries: &[u32]) -> Result<(), AllocError>
    requires { length entries.now ≤ 255 }
    ensures text { OnOk result (out.new.items ≡ out.old.items ++ event_bytes entries.now) }
    ensures places { OnOk result (All IsPlace entries.now) }
{
    out.extend_from_slice(&[entries.len() as u8, 0, 0, 0])?;
    for entry in entries {
        put_entry(out, *entry)?;
    }
    Ok(())
}

fn put_events(out: &mut Vec<u8>, code: &Code) -> Result<(), AllocError>
    requires { All HasVersions code.now.versions }
    ensures text { OnOk result (out.new.items ≡ out.old.items ++ flat_map event_bytes code.now.versions) }
    ensures places { OnOk result (All (All IsPlace) code.now.versions) }
{
    for event in 0..code.events() {
        let entries = code.versions(event);
        put_event(out, entries)?;
    }
    Ok(())
}

fn put_instrs(out: &mut Vec<u8>, code: &Code) -> Result<(), AllocError>
    ensures text { OnOk result (out.new.items ≡ out.old.items ++ flat_map instr_bytes code.now.instrs) }
    ensures room { OnOk result (All HasRoom code.now.instrs) }
{
    for pc in 0..code.len() {
        let instr = code.instr(pc);
        put_instr(out, instr)?;
    }
    Ok(())
}

fn put_head(out: &mut Vec<u8>, code: &Code, words: usize) -> Result<(), AllocError>
    requires words { words ≤ 1024 }
    requires tasks { length code.now.tasks ≤ 16 }
    ensures { OnOk result (out.new.items ≡ out.old.items ++ head_bytes words (length code.now.tasks) (length code.now.versions) (length code.now.instrs)) }
{
    out.extend_from_slice(&[67, 78, 79, 49])?;
    out.extend_from_slice(&(words as u16).to_le_bytes())?;
    out.push(code.tasks().len() as u8)?;
    out.push(code.events())?;
    out.extend_from_slice(&code.len().to_le_bytes())?;
    Ok(())
}

fn put_all_parts(out: &mut Vec<u8>, all: &[Parts]) -> Result<(), AllocError>
    ensures { OnOk result (out.new.items ≡ out.old.items ++ flat_map parts_bytes all.now) }
{
    for parts in all {
        put_parts(out, *parts)?;
    }
    Ok(())
}

/// The bytes of code, of the first values of its words, and of the posts with which its tasks are started.
pub(crate) fn spelled(
    alloc: Global,
    code: &Code,
    words: &[i32],
    started: &[u16],
) -> Result<Vec<u8>, AllocError>
    requires words { length words.now ≤ 1024 }
    requires tasks { length code.now.tasks ≤ 16 }
    requires started { length started.now ≡ length code.now.tasks }
    requires versions { All HasVersions code.now.versions }
    ensures text { IfOk result (λ bytes. bytes.items ≡ spelling (record { code = code.now; words = words.now; started = started.now })) }
    ensures room { OnOk result (IsInRange (record { code = code.now; words = words.now; started = started.now })) }
{
    let mut out = Vec::new(alloc);
    put_head(&mut out, code, words.len())?;
    put_words(&mut out, words)?;
    put_tasks(&mut out, started, code.tasks())?;
    put_events(&mut out, code)?;
    put_instrs(&mut out, code)?;
    Ok(out)
}

/// The same with other numbers for its instructions.
pub(crate) fn spelled_with(
    alloc: Global,
    code: &Code,
    words: &[i32],
    started: &[u16],
    all: &[Parts],
) -> Result<Vec<u8>, AllocError>
    requires words { length words.now ≤ 1024 }
    requires tasks { length code.now.tasks ≤ 16 }
    requires started { length started.now ≡ length code.now.tasks }
    requires versions { All HasVersions code.now.versions }
    ensures { IfOk result (λ bytes. bytes.items ≡ spelled_with (record { code = code.now; words = words.now; started = started.now }) (flat_map parts_bytes all.now)) }
{
    let mut out = Vec::new(alloc);
    put_head(&mut out, code, words.len())?;
    put_words(&mut out, words)?;
    put_tasks(&mut out, started, code.tasks())?;
    put_events(&mut out, code)?;
    put_all_parts(&mut out, all)?;
    Ok(out)
}

/// The object file of a program, of which this is the compiled code.
pub fn object_of(alloc: Global, program: &Program, code: &Code) -> Result<Vec<u8>, NoMemory>
    requires { code.now ≡ code_of program.now }
    ensures { IfOk result (λ bytes. IsFileOf (program_object program.now) bytes.items) }
{
    code_is_laid_out();
    let words = program.first_words();
    let started = program.first_posts();
    match spelled(alloc, code, words, started) {
        Ok(bytes) => Ok(bytes),
        Err(_) => Err(NoMemory),
    }
}
