ghost use Rattle.std.specs.Prelude.{◌≡◌, IfOk, length, map};
ghost use Rattle.cn_base.specs.Causes.{HasCause};
ghost use Rattle.cn_base.specs.Writing.{Writes};
ghost use Rattle.catnap_words.specs.Words.{file_count};
ghost use Rattle.catnap_top.specs.Look.{LooksAs};
ghost use Rattle.catnap_top.specs.Reply.{CallsFor, CanBeWritten, looks_of, reply_answer};

use crate::Status;
use crate::bench::{prepare_bench, write_bench};
use crate::check::{prepare_check, prepare_check_rows, write_check};
use crate::compiled::Compiled;
use crate::fault::Fault;
use crate::image::{prepare_image, write_image};
use crate::line::put_read_fault;
use crate::list::{prepare_list, write_list};
use crate::loaded::Loaded;
use crate::object::{prepare_object, write_file};
use crate::plan::{prepare_plan, write_planned};
use crate::planned::Planned;
use crate::ready::Ready;
use crate::replay::{Replayed, prepare_replay, status_for, write_replay};
use crate::resume::{Resumed, prepare_resume, write_rest};
use crate::run::{prepare_run, write_run};
use crate::runobject::{prepare_runobject, write_sections};
use crate::selected::Selected;
use crate::stop::Stop;
use crate::uplink::{Uplinked, prepare_uplink, write_uplinked};
use catnap_words::Form;
use cn_base::{NoMemory, Sink, WriteFail, put};
use std::alloc::Global;

/// What is to be answered. All memory for it has been taken.
#[derive(Drop)]
pub enum Reply {
    Usage,
    /// The place of the word whose file could not be read, the command being 0.
    ReadFault(u32),
    /// What was read is refused.
    Refused(Fault),
    Run(Ready),
    List(Compiled),
    /// The bytes of the object file.
    Object(Vec<u8>),
    Check(Selected),
    Plan(Planned),
    Replay(Replayed),
    Image(Replayed),
    Resume(Resumed),
    RunObject(Loaded),
    Bench { size: u32, replayed: Replayed },
    Uplink(Uplinked),
}

impl Reply {
    pub fn status(&self) -> Status
        ensures { result ≡ (reply_answer self.now).status }
    {
        match self {
            Reply::Usage => Status::Usage,
            Reply::ReadFault(_) => Status::ReadFault,
            Reply::Refused(fault) => fault.status(),
            Reply::Run(_) | Reply::List(_) | Reply::Object(_) | Reply::Check(_) | Reply::Plan(_) =>
                Status::Done,
            Reply::RunObject(_) => Status::Done,
            Reply::Resume(resumed) => status_for(resumed.replayed.end),
            Reply::Replay(replayed) | Reply::Image(replayed) | Reply::Bench { replayed, .. } => {
                status_for(replayed.end)
            }
            Reply::Uplink(uplinked) => status_for(uplinked.replayed.end),
        }
    }

    pub fn write<K: Sink>(self, sink: &mut K) -> Result<(), WriteFail>
        requires { CanBeWritten self }
        ensures text { Writes (K.written sink.old) (K.written sink.new) (reply_answer self).text result }
        ensures cause { HasCause (K.faults sink.old) (K.faults sink.new) result }
    {
        match self {
            Reply::Usage => put(sink, b"fault usage\n"),
            Reply::ReadFault(place) => put_read_fault(sink, place),
            Reply::Refused(fault) => fault.write(sink),
            Reply::Run(ready) => write_run(sink, ready),
            Reply::List(compiled) => write_list(sink, &compiled),
            Reply::Object(file) => write_file(sink, file),
            Reply::Check(selected) => write_check(sink, &selected),
            Reply::Plan(planned) => write_planned(sink, planned),
            Reply::Replay(replayed) => write_replay(sink, replayed),
            Reply::Image(replayed) => write_image(sink, replayed),
            Reply::Resume(resumed) => write_rest(sink, resumed),
            Reply::RunObject(loaded) => write_sections(sink, loaded),
            Reply::Bench { size, replayed } => write_bench(sink, size, replayed),
            Reply::Uplink(uplinked) => write_uplinked(sink, uplinked),
        }
    }
}

/// The answer of a form's own over its files, for which it takes all memory.
fn prepare(alloc: Global, form: Form, files: &[Vec<u8>]) -> Result<Reply, Stop>
    requires { length files.now ≡ file_count form }
    ensures looks { LooksAs reply_answer (looks_of form (map (λ file. file.items) files.now)) result }
    ensures written { IfOk result CanBeWritten }
{
    match form {
        Form::Run { steps } => prepare_run(alloc, steps, files[0].as_slice()),
        Form::List => prepare_list(alloc, files[0].as_slice()),
        Form::Object => prepare_object(alloc, files[0].as_slice()),
        Form::Check => prepare_check(alloc, files[0].as_slice(), files[1].as_slice()),
        Form::CheckForecast => prepare_check_rows(
            alloc,
            files[0].as_slice(),
            files[1].as_slice(),
            files[2].as_slice(),
        ),
        Form::Plan => prepare_plan(alloc, files[0].as_slice(), files[1].as_slice()),
        Form::Replay => prepare_replay(
            alloc,
            files[0].as_slice(),
            files[1].as_slice(),
            files[2].as_slice(),
            files[3].as_slice(),
            files[4].as_slice(),
            None,
        ),
        Form::ReplayForecast => prepare_replay(
            alloc,
            files[0].as_slice(),
            files[1].as_slice(),
            files[2].as_slice(),
            files[3].as_slice(),
            files[4].as_slice(),
            Some(files[5].as_slice()),
        ),
        Form::Image => prepare_image(
            alloc,
            files[0].as_slice(),
            files[1].as_slice(),
            files[2].as_slice(),
            files[3].as_slice(),
            files[4].as_slice(),
        ),
        Form::Resume => prepare_resume(
            alloc,
            files[0].as_slice(),
            files[1].as_slice(),
            files[2].as_slice(),
            files[3].as_slice(),
            files[4].as_slice(),
            files[5].as_slice(),
        ),
        Form::RunObject { steps } => prepare_runobject(alloc, steps, files[0].as_slice()),
        Form::Bench { size } => prepare_bench(alloc, size),
        Form::Uplink => prepare_uplink(
            alloc,
            files[0].as_slice(),
            files[1].as_slice(),
            files[2].as_slice(),
            files[3].as_slice(),
            files[4].as_slice(),
            files[5].as_slice(),
        ),
    }
}

/// The answer to a form over its files: its own, or the refusal of the first look that finds a fault.
pub fn reply_to(alloc: Global, form: Form, files: &[Vec<u8>]) -> Result<Reply, NoMemory>
    requires { length files.now ≡ file_count form }
    ensures answer { IfOk result (λ reply. CallsFor form (map (λ file. file.items) files.now) (reply_answer reply)) }
    ensures written { IfOk result CanBeWritten }
{
    match prepare(alloc, form, files) {
        Ok(reply) => Ok(reply),
        Err(Stop::Refused(fault)) => Ok(Reply::Refused(fault)),
        Err(Stop::NoMemory) => Err(NoMemory),
    }
}
