//! `list SRC`: the listing of a source's code.

ghost use Rattle.std.specs.Prelude.{IfOk};
ghost use Rattle.cn_base.specs.Causes.{HasCause};
ghost use Rattle.cn_base.specs.Writing.{Writes};
ghost use Rattle.catnap_top.specs.Look.{LooksAs};
ghost use Rattle.catnap_top.specs.Listed.{listed, listing};
ghost use Rattle.catnap_top.specs.Reply.{CanBeWritten, reply_answer};

use crate::compiled::Compiled;
use crate::reply::Reply;
use crate::source::program_of;
use crate::stop::Stop;
use cat_compile::{compile, listing};
use cn_base::{Sink, WriteFail};
use std::alloc::Global;

/// Writes the listing. Takes no memory.
pub fn write_list<K: Sink>(sink: &mut K, compiled: &Compiled) -> Result<(), WriteFail>
    ensures text { Writes (K.written sink.old) (K.written sink.new) (listed compiled.now.program).text result }
    ensures cause { HasCause (K.faults sink.old) (K.faults sink.new) result }
{
    listing(&compiled.program, &compiled.code, sink)
}

/// Prepares the listing of a source. It takes all memory of the command.
pub fn prepare_list(alloc: Global, source: &[u8]) -> Result<Reply, Stop>
    ensures looks { LooksAs reply_answer (listing source.now) result }
    ensures written { IfOk result CanBeWritten }
{
    let program = program_of(alloc, source)?;
    let code = compile(alloc, &program)?;
    Ok(Reply::List(Compiled { program, code }))
}
