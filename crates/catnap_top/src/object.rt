//! `object SRC`: the object file of a source's program.

ghost use Rattle.std.specs.Prelude.{IfOk};
ghost use Rattle.cn_base.specs.Causes.{HasCause};
ghost use Rattle.cn_base.specs.Writing.{Writes};
ghost use Rattle.catnap_top.specs.Look.{LooksAs};
ghost use Rattle.catnap_top.specs.Object.{compiling, filed};
ghost use Rattle.catnap_top.specs.Reply.{CanBeWritten, reply_answer};

use crate::reply::Reply;
use crate::source::program_of;
use crate::stop::Stop;
use cat_compile::compile;
use cn_base::{Sink, WriteFail, put};
use cn_object::object_of;
use std::alloc::Global;

/// Writes the bytes of a file. Takes no memory.
pub fn write_file<K: Sink>(sink: &mut K, file: Vec<u8>) -> Result<(), WriteFail>
    ensures text { Writes (K.written sink.old) (K.written sink.new) (filed file.items).text result }
    ensures cause { HasCause (K.faults sink.old) (K.faults sink.new) result }
{
    put(sink, file.as_slice())
}

/// Makes the object file of a source. It takes all memory of the command.
pub fn prepare_object(alloc: Global, source: &[u8]) -> Result<Reply, Stop>
    ensures looks { LooksAs reply_answer (compiling source.now) result }
    ensures written { IfOk result CanBeWritten }
{
    let program = program_of(alloc, source)?;
    let code = compile(alloc, &program)?;
    let file = object_of(alloc, &program, &code)?;
    Ok(Reply::Object(file))
}
