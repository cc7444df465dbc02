//! `runobject OBJ STEPS`: what the first sections of an object's tasks put out.

ghost use Rattle.std.specs.Prelude.{◌≡◌, IfOk};
ghost use Rattle.cn_base.specs.Causes.{HasCause};
ghost use Rattle.cn_base.specs.PageWords.{AddsTo, sink_in, sink_name};
ghost use Rattle.cn_base.specs.Writing.{Writes};
ghost use Rattle.object_runs.specs.Resting.{IsAtRest, IsRunnable};
ghost use Rattle.catnap_top.specs.Look.{Looks, LooksAs};
ghost use Rattle.catnap_top.specs.Run.{run_text};
ghost use Rattle.catnap_top.specs.RunObject.{object_in, running_object, section_answers};
ghost use Rattle.catnap_top.specs.Loaded.{CanRun, loaded_answer};
ghost use Rattle.catnap_top.specs.Reply.{CanBeWritten, reply_answer};

use crate::fault::Fault;
use crate::file_fault::BadObject;
use crate::loaded::Loaded;
use crate::reply::Reply;
use crate::run::{add_count, add_step, is_step};
use crate::stop::Stop;
use cat_machine::Working;
use cn_base::{Page, Sink, WriteFail};
use cn_object::{Object, ObjectFault, verify};
use object_runs::{first, section};
use std::alloc::Global;

/// Runs sections, and adds what is put out as it comes.
fn add_sections<K: Sink>(
    page: &mut Page<'_, K>,
    steps: u32,
    object: &Object,
    mut working: Working,
) -> Result<(), WriteFail>
    requires runnable { IsRunnable object.now }
    requires at_rest { IsAtRest object.now working }
    ensures same_sink { sink_name page.new ≡ sink_name page.old }
    ensures text { AddsTo K.written page.old page.new (run_text (section_answers object.now.code steps working)) result }
    ensures cause { HasCause (K.faults (sink_in page.old)) (K.faults (sink_in page.new)) result }
{
    let mut taken = 0;
    while taken < steps {
        let stepped = section(object, &mut working);
        if !is_step(stepped) {
            return add_count(page, taken);
        }
        match add_step(page, stepped) {
            Ok(()) => {}
            Err(fail) => return Err(fail),
        }
        taken += 1;
    }
    add_count(page, taken)
}

/// Runs sections, and writes what is put out, some thousands of bytes at once. Takes no memory.
pub fn write_sections<K: Sink>(sink: &mut K, loaded: Loaded) -> Result<(), WriteFail>
    requires { CanRun loaded }
    ensures text { Writes (K.written sink.old) (K.written sink.new) (loaded_answer loaded).text result }
    ensures cause { HasCause (K.faults sink.old) (K.faults sink.new) result }
{
    let Loaded {
        steps,
        object,
        working,
    } = loaded;
    let mut page = Page::on(sink);
    match add_sections(&mut page, steps, &object, working) {
        Ok(()) => page.close(),
        Err(fail) => Err(fail),
    }
}

/// The object of a file, or the lowest rule that it breaks.
fn object_of(alloc: Global, bytes: &[u8]) -> Result<Object, Stop>
    ensures looks { Looks (object_in bytes.now) result }
    ensures runnable { IfOk result IsRunnable }
{
    match verify(alloc, bytes) {
        Ok(object) => Ok(object),
        Err(ObjectFault::BadObject(kind, place)) => {
            Err(Stop::Refused(Fault::Object(BadObject { kind, place })))
        }
        Err(ObjectFault::NoMemory) => Err(Stop::NoMemory),
    }
}

/// Prepares the run of so many sections of an object. It takes all memory of the command.
pub fn prepare_runobject(alloc: Global, steps: u32, bytes: &[u8]) -> Result<Reply, Stop>
    ensures looks { LooksAs reply_answer (running_object steps bytes.now) result }
    ensures written { IfOk result CanBeWritten }
{
    let object = object_of(alloc, bytes)?;
    let working = first(alloc, &object)?;
    Ok(Reply::RunObject(Loaded {
        steps,
        object,
        working,
    }))
}
