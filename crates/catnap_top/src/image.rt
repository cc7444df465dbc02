//! `image SRC DEVICE TRACE ARRIVALS FAILS`: what the device of a replay holds at its end.

ghost use Rattle.std.specs.Prelude.{IfOk};
ghost use Rattle.cn_base.specs.Causes.{HasCause};
ghost use Rattle.cn_base.specs.Writing.{Writes};
ghost use Rattle.catnap_top.specs.Image.{saved, saving};
ghost use Rattle.catnap_top.specs.Look.{LooksAs};
ghost use Rattle.catnap_top.specs.Replayed.{lived_of};
ghost use Rattle.catnap_top.specs.Reply.{CanBeWritten, reply_answer};

use crate::files::replay_files;
use crate::replay::{Replayed, live};
use crate::reply::Reply;
use crate::stop::Stop;
use cn_base::{Sink, WriteFail};
use cn_resume::write_saved;
use std::alloc::Global;

/// Writes the saved image. Takes no memory.
pub fn write_image<K: Sink>(sink: &mut K, replayed: Replayed) -> Result<(), WriteFail>
    ensures text { Writes (K.written sink.old) (K.written sink.new) (saved (lived_of replayed)).text result }
    ensures cause { HasCause (K.faults sink.old) (K.faults sink.new) result }
{
    write_saved(&replayed.board, sink)
}

/// Prepares the saved image of a replay's end. It takes all memory of the command.
pub fn prepare_image(
    alloc: Global,
    source: &[u8],
    profile: &[u8],
    trace: &[u8],
    arrivals: &[u8],
    failures: &[u8],
) -> Result<Reply, Stop>
    ensures looks { LooksAs reply_answer (saving source.now profile.now trace.now arrivals.now failures.now) result }
    ensures written { IfOk result CanBeWritten }
{
    let files = replay_files(alloc, source, profile, trace, arrivals, failures, None)?;
    match live(alloc, files) {
        Ok(replayed) => Ok(Reply::Image(replayed)),
        Err(stop) => Err(stop),
    }
}
