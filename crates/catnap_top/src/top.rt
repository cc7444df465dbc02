ghost use Rattle.std.specs.Prelude.{◌≡◌};
ghost use Rattle.catnap_words.specs.Words.{texts};
ghost use Rattle.catnap_top.specs.Reply.{reply_answer, CanBeWritten};
ghost use Rattle.catnap_top.specs.Course.{outside, Answers, Ends};
ghost use Rattle.catnap_top.specs.Clauses.{HasAsked, HasCauses, IsComplete};
ghost use Rattle.catnap_top.specs.Headline.{HasHeadline, HasRest};

use crate::Status;
use crate::headline::{replays_show_runs, resumes_show_runs};
use crate::reading::{ReadStop, read_files};
use crate::reply::{Reply, reply_to};
use catnap_words::{form_in, names_in};
use cn_base::{Inputs, Sink};
use std::alloc::Global;

/// Writes what is to be answered.
fn finish<K: Sink>(sink: &mut K, reply: Reply) -> Status
    requires { CanBeWritten reply }
    ensures { Ends (reply_answer reply) (K.written sink.old) (K.written sink.new) (K.faults sink.old) (K.faults sink.new) result }
{
    let status = reply.status();
    match reply.write(sink) {
        Ok(()) => status,
        Err(_) => Status::WriteFault,
    }
}

/// Reads, answers and writes.
fn respond<I: Inputs, K: Sink>(
    alloc: Global,
    words: &[String],
    inputs: &mut I,
    sink: &mut K,
) -> Status
    ensures answer { Answers (texts words.now) (I.files inputs.old)
        (outside (I.asked inputs.old) (I.faults inputs.old) (K.written sink.old) (K.faults sink.old))
        (outside (I.asked inputs.new) (I.faults inputs.new) (K.written sink.new) (K.faults sink.new))
        result }
    ensures files { I.files inputs.new ≡ I.files inputs.old }
{
    let form = match form_in(words) {
        Some(form) => form,
        None => return finish(sink, Reply::Usage),
    };
    let names = names_in(words, &form);
    let files = match read_files(alloc, inputs, names) {
        Ok(files) => files,
        Err(ReadStop::Failed(count)) => return finish(sink, Reply::ReadFault(count + 1)),
        Err(ReadStop::NoMemory) => return Status::NoMemory,
    };
    match reply_to(alloc, form, files.as_slice()) {
        Ok(reply) => finish(sink, reply),
        Err(_) => Status::NoMemory,
    }
}

/// Answers words by what the inputs' files call for, and writes the answer into the sink.
///
/// The words are one of these forms:
///
/// - `run SRC STEPS`, STEPS being 1 to 7 decimal digits of at most 1,000,000: the `out` lines of the
///   first STEPS steps of the source's tasks, or of all that exist, and how many steps these are.
/// - `list SRC`: the listing of the source's code.
/// - `object SRC`: the object file of the source's code, its words' first values and its tasks' started posts.
/// - `check SRC DEVICE`: the versions of least degradation in which the device can serve the source's
///   events, with what a job in each takes at most, and the numbers of that choice.
/// - `check SRC DEVICE FORECAST`: the same for each row of a forecast, with what the row says of the harvest, behind a line that tells
///   the row.
/// - `plan SRC DEVICE`: the least harvest with which the device serves each event in its version 0, with the
///   numbers at it, and why a smaller one does not do; or that no harvest does. The profile's own is not looked at.
/// - `replay SRC DEVICE TRACE ARRIVALS FAILS`: the report of the source's life on the device, where the
///   trace, the arrivals and the failures are as these tables say.
/// - `replay SRC DEVICE TRACE ARRIVALS FAILS FORECAST`: that report where each row of the forecast says what is sure to be harvested
///   from its tick on, and has versions, a reserve and a level of its own.
/// - `image SRC DEVICE TRACE ARRIVALS FAILS`: what that device holds at the end of this life, as a file of bytes.
/// - `resume SRC DEVICE TRACE ARRIVALS FAILS IMAGE`: the report of a life that goes on from such a file, at its tick and with the
///   board off. Of an event that was done before, the report doesn't know when.
/// - `runobject OBJ STEPS`, STEPS as for `run`: the `out` lines of the first STEPS sections of an object file's tasks, or of all that
///   exist, and how many these are.
/// - `bench N`, N being 1 to 4 decimal digits of at most 1,665: how many lines of each kind that report has, and
///   how it ends, for a source and tables of that size that the program makes itself. It reads no file.
/// - `uplink SRC DEVICE TRACE ARRIVALS FAILS LINK`: how far the committed log of that life came over a link of these steps,
///   and what the host holds after the rounds that follow.
///
/// All memory is taken before the first byte is written.
///
/// Refusals: `Usage` where the words are of no form; `ReadFault` only where the inputs' count of
/// faults rose; `BadSource` where the source has more than 262,144 bytes, has no tokens or no tree,
/// or breaks a condition, with the first of these kinds; `BadDevice` where the profile is none, with
/// its first fault; `BadTrace`, `BadArrivals` and `BadFails` where a table is none, with its first row
/// that has a fault; `BadLink` and `BadForecast` likewise; `WindowTooLong` and `Rejected` where there is no choice; `BadImage` where a
/// condition on the saved image fails, with the first of them. Each of these writes one fault line, and they are looked at in this
/// order. `BadObject` where the file is no object, with the lowest rule that it breaks. `LogFull` where the log of a replay has no place
/// for a record; the whole report up to then is written.
/// `WriteFault` only where the sink's count of faults rose, and a proper prefix of the text has been
/// written then. `NoMemory` before the first byte is written.
pub fn catnap<I: Inputs, K: Sink>(
    alloc: Global,
    words: &[String],
    inputs: &mut I,
    sink: &mut K,
) -> Status
    // What the words and the files call for was written, or memory ran out before the first write.
    ensures answer { Answers (texts words.now) (I.files inputs.old)
        (outside (I.asked inputs.old) (I.faults inputs.old) (K.written sink.old) (K.faults sink.old))
        (outside (I.asked inputs.new) (I.faults inputs.new) (K.written sink.new) (K.faults sink.new))
        result }
    // Which files were asked for, and in which order.
    ensures asked { HasAsked (texts words.now)
        (outside (I.asked inputs.old) (I.faults inputs.old) (K.written sink.old) (K.faults sink.old))
        (outside (I.asked inputs.new) (I.faults inputs.new) (K.written sink.new) (K.faults sink.new))
        result }
    // Where faults of reading and writing come from.
    ensures causes { HasCauses (texts words.now)
        (outside (I.asked inputs.old) (I.faults inputs.old) (K.written sink.old) (K.faults sink.old))
        (outside (I.asked inputs.new) (I.faults inputs.new) (K.written sink.new) (K.faults sink.new))
        result }
    // Where the files are told and nothing fails, the whole answer comes.
    ensures complete { IsComplete (texts words.now) (I.files inputs.old)
        (outside (I.asked inputs.old) (I.faults inputs.old) (K.written sink.old) (K.faults sink.old))
        (outside (I.asked inputs.new) (I.faults inputs.new) (K.written sink.new) (K.faults sink.new))
        result }
    // The report of a replay shows one run of the program that never loses power.
    ensures headline { HasHeadline (texts words.now) (I.files inputs.old)
        (outside (I.asked inputs.old) (I.faults inputs.old) (K.written sink.old) (K.faults sink.old))
        (outside (I.asked inputs.new) (I.faults inputs.new) (K.written sink.new) (K.faults sink.new))
        result }
    // So does the report of a life that goes on from a saved image, of which that image is an earlier moment.
    ensures rest { HasRest (texts words.now) (I.files inputs.old)
        (outside (I.asked inputs.old) (I.faults inputs.old) (K.written sink.old) (K.faults sink.old))
        (outside (I.asked inputs.new) (I.faults inputs.new) (K.written sink.new) (K.faults sink.new))
        result }
    // No file was changed.
    ensures files { I.files inputs.new ≡ I.files inputs.old }
{
    replays_show_runs();
    resumes_show_runs();
    respond(alloc, words, inputs, sink)
}
