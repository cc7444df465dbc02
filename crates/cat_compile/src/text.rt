//! The whole listing of a program's code.

ghost use Rattle.std.specs.Prelude.{◌≡◌, ◌<◌, false, length};
ghost use Rattle.cn_base.specs.Causes.{HasCause};
ghost use Rattle.cn_base.specs.PageWords.{AddsTo, sink_in, sink_name};
ghost use Rattle.cn_base.specs.Writing.{Writes};
ghost use Rattle.cat_machine.specs.Code.{code_of};
ghost use Rattle.cat_compile.specs.Begins.{FollowsEnd};
ghost use Rattle.cn_base.specs.Texts.{in_turn};
ghost use Rattle.cat_compile.specs.Listing.{task_header, event_headers, place_lines, listing_text};

use crate::lines::{add_instr, add_task, add_version};
use cat_machine::{Code, Instr, code_is_laid_out};
use cat_program::Program;
use cn_base::{Page, Sink, WriteFail};

/// The header of the task that begins at a place.
fn add_tasks<K: Sink>(
    page: &mut Page<'_, K>,
    program: &Program,
    code: &Code,
    pc: u32,
) -> Result<(), WriteFail>
    requires { code.now ≡ code_of program.now }
    ensures same_sink { sink_name page.new ≡ sink_name page.old }
    ensures text { AddsTo K.written page.old page.new (in_turn (task_header program.now code.now pc) (length code.now.tasks)) result }
    ensures cause { HasCause (K.faults (sink_in page.old)) (K.faults (sink_in page.new)) result }
{
    let entries = code.tasks();
    for t in 0..program.tasks() {
        add_task(page, program.task_name(t), entries[t as usize], pc)?;
    }
    Ok(())
}

/// The header of the version of event `e` that begins at a place.
fn add_versions<K: Sink>(
    page: &mut Page<'_, K>,
    program: &Program,
    code: &Code,
    pc: u32,
    e: u8,
) -> Result<(), WriteFail>
    requires code { code.now ≡ code_of program.now }
    requires event { e < length program.now.events }
    ensures same_sink { sink_name page.new ≡ sink_name page.old }
    ensures text { AddsTo K.written page.old page.new (event_headers program.now code.now pc e) result }
    ensures cause { HasCause (K.faults (sink_in page.old)) (K.faults (sink_in page.new)) result }
{
    let event = program.event(e);
    let entries = code.versions(e);
    for (v, entry) in entries.iter().enumerate() {
        add_version(page, event.name.as_str(), v, *entry, pc)?;
    }
    Ok(())
}

/// The header of the version that begins at a place.
fn add_events<K: Sink>(
    page: &mut Page<'_, K>,
    program: &Program,
    code: &Code,
    pc: u32,
) -> Result<(), WriteFail>
    requires { code.now ≡ code_of program.now }
    ensures same_sink { sink_name page.new ≡ sink_name page.old }
    ensures text { AddsTo K.written page.old page.new (in_turn (event_headers program.now code.now pc) (length code.now.versions)) result }
    ensures cause { HasCause (K.faults (sink_in page.old)) (K.faults (sink_in page.new)) result }
{
    for e in 0..program.events() {
        add_versions(page, program, code, pc, e)?;
    }
    Ok(())
}

/// Whether code may begin at a place: at the first one, and behind an instruction that ends a task or a version.
fn may_begin(code: &Code, pc: u32) -> bool
    requires { pc < length code.now.instrs }
    ensures { result ≡ false → FollowsEnd code.now.instrs pc → ⊥ }
{
    if pc == 0 {
        return true;
    }
    match code.instr(pc - 1) {
        Instr::End => true,
        _ => false,
    }
}

/// The lines of a place. What begins there is looked for only where code may begin.
fn add_place<K: Sink>(
    page: &mut Page<'_, K>,
    program: &Program,
    code: &Code,
    pc: u32,
) -> Result<(), WriteFail>
    requires code { code.now ≡ code_of program.now }
    requires place { pc < length code.now.instrs }
    ensures same_sink { sink_name page.new ≡ sink_name page.old }
    ensures text { AddsTo K.written page.old page.new (place_lines program.now code.now pc) result }
    ensures cause { HasCause (K.faults (sink_in page.old)) (K.faults (sink_in page.new)) result }
{
    code_is_laid_out();
    if !may_begin(code, pc) {
        return add_instr(page, pc, code.instr(pc));
    }
    add_tasks(page, program, code, pc)?;
    add_events(page, program, code, pc)?;
    add_instr(page, pc, code.instr(pc))
}

/// The lines of all places.
fn add_listing<K: Sink>(
    page: &mut Page<'_, K>,
    program: &Program,
    code: &Code,
) -> Result<(), WriteFail>
    requires { code.now ≡ code_of program.now }
    ensures same_sink { sink_name page.new ≡ sink_name page.old }
    ensures text { AddsTo K.written page.old page.new (listing_text program.now code.now) result }
    ensures cause { HasCause (K.faults (sink_in page.old)) (K.faults (sink_in page.new)) result }
{
    for pc in 0..code.len() {
        add_place(page, program, code, pc)?;
    }
    Ok(())
}

/// Writes the listing of a program's compiled code, or a proper prefix of it where a write fails:
/// a line for each place, and a header before each task and each version. It goes to the sink some
/// thousands of bytes at once. Takes no memory, and time in proportion to the code.
pub fn listing<K: Sink>(program: &Program, code: &Code, sink: &mut K) -> Result<(), WriteFail>
    requires { code.now ≡ code_of program.now }
    ensures text { Writes (K.written sink.old) (K.written sink.new) (listing_text program.now code.now) result }
    ensures cause { HasCause (K.faults sink.old) (K.faults sink.new) result }
{
    let mut page = Page::on(sink);
    match add_listing(&mut page, program, code) {
        Ok(()) => page.close(),
        Err(fail) => Err(fail),
    }
}
