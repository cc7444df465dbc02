//! `run SRC STEPS`: what the first steps of the source's tasks put out.

ghost use Rattle.std.specs.Prelude.{◌≡◌, true, false, IfOk};
ghost use Rattle.cat_program.specs.declared.syntax.Stepped.TheVariants.{None};
ghost use Rattle.cn_base.specs.Causes.{HasCause};
ghost use Rattle.cn_base.specs.PageWords.{AddsTo, sink_in, sink_name};
ghost use Rattle.cn_base.specs.Writing.{Writes};
ghost use Rattle.cat_program.specs.Checked.{body_at};
ghost use Rattle.cat_eval.specs.Cursor.{Fits, state_of};
ghost use Rattle.catnap_top.specs.Look.{LooksAs};
ghost use Rattle.catnap_top.specs.Run.{answers, out_line, run_text, running, steps_line};
ghost use Rattle.catnap_top.specs.ReadyValue.{ready_answer};
ghost use Rattle.catnap_top.specs.Reply.{CanBeWritten, reply_answer};

use crate::ready::Ready;
use crate::reply::Reply;
use crate::source::program_of;
use crate::stop::Stop;
use cat_eval::{State, task_step};
use cat_program::{Program, Stepped};
use cn_base::{Page, Piece, Sink, WriteFail};
use std::alloc::Global;

/// Whether a step existed.
pub fn is_step(stepped: Stepped) -> bool
    ensures step { result ≡ true → stepped ≡ None → ⊥ }
    ensures none { result ≡ false → stepped ≡ None }
{
    match stepped {
        Stepped::None => false,
        _ => true,
    }
}

/// Adds the line of a step's output, where there is one.
pub fn add_step<K: Sink>(page: &mut Page<'_, K>, stepped: Stepped) -> Result<(), WriteFail>
    ensures same_sink { sink_name page.new ≡ sink_name page.old }
    ensures text { AddsTo K.written page.old page.new (out_line stepped) result }
    ensures cause { HasCause (K.faults (sink_in page.old)) (K.faults (sink_in page.new)) result }
{
    match stepped {
        Stepped::Out { channel, value } => page.line(&[
            Piece::Text(b"out "),
            Piece::Number(i128::from(channel)),
            Piece::Text(b" "),
            Piece::Number(i128::from(value)),
            Piece::Text(b"\n"),
        ]),
        _ => Ok(()),
    }
}

/// Adds how many steps were taken.
pub fn add_count<K: Sink>(page: &mut Page<'_, K>, count: u32) -> Result<(), WriteFail>
    ensures same_sink { sink_name page.new ≡ sink_name page.old }
    ensures text { AddsTo K.written page.old page.new (steps_line count) result }
    ensures cause { HasCause (K.faults (sink_in page.old)) (K.faults (sink_in page.new)) result }
{
    page.line(&[
        Piece::Text(b"steps "),
        Piece::Number(i128::from(count)),
        Piece::Text(b"\n"),
    ])
}

/// Steps, and adds what is put out as it comes.
fn add_steps<K: Sink>(
    page: &mut Page<'_, K>,
    steps: u32,
    program: &Program,
    mut state: State,
) -> Result<(), WriteFail>
    requires { Fits program.now state }
    ensures same_sink { sink_name page.new ≡ sink_name page.old }
    ensures text { AddsTo K.written page.old page.new (run_text (answers (body_at program.now) steps (state_of program.now state))) result }
    ensures cause { HasCause (K.faults (sink_in page.old)) (K.faults (sink_in page.new)) result }
{
    let mut taken = 0;
    while taken < steps {
        let stepped = task_step(program, &mut state);
        if !is_step(stepped) {
            return add_count(page, taken);
        }
        match add_step(page, stepped) {
            Ok(()) => {}
            Err(fail) => return Err(fail),
        }
        taken += 1;
    }
    add_count(page, taken)
}

/// Steps, and writes what is put out, some thousands of bytes at once. Takes no memory.
pub fn write_run<K: Sink>(sink: &mut K, ready: Ready) -> Result<(), WriteFail>
    ensures text { Writes (K.written sink.old) (K.written sink.new) (ready_answer ready).text result }
    ensures cause { HasCause (K.faults sink.old) (K.faults sink.new) result }
{
    let Ready {
        steps,
        program,
        state,
    } = ready;
    let mut page = Page::on(sink);
    match add_steps(&mut page, steps, &program, state) {
        Ok(()) => page.close(),
        Err(fail) => Err(fail),
    }
}

/// Prepares the run of so many steps of a source. It takes all memory of the command.
pub fn prepare_run(alloc: Global, steps: u32, source: &[u8]) -> Result<Reply, Stop>
    ensures looks { LooksAs reply_answer (running steps source.now) result }
    ensures written { IfOk result CanBeWritten }
{
    let program = program_of(alloc, source)?;
    let state = State::first(alloc, &program)?;
    Ok(Reply::Run(Ready {
        steps,
        program,
        state,
    }))
}
