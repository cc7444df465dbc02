//! `bench N`: the summary of a replay whose files the program makes itself.

ghost use Rattle.std.specs.Prelude.{◌≡◌, length, None, IfOk};
ghost use Rattle.cn_base.specs.Causes.{HasCause};
ghost use Rattle.cn_base.specs.Writing.{Writes};
ghost use Rattle.cn_report.specs.Outcome.{end_word};
ghost use Rattle.bench_input.specs.Input.{source_text, profile_text, trace_text, arrivals_text, failures_text};
ghost use Rattle.catnap_top.specs.Bench.{benching, summary_text, summed};
ghost use Rattle.catnap_top.specs.Files.{files_in};
ghost use Rattle.catnap_top.specs.Look.{Looks, LooksAs};
ghost use Rattle.catnap_top.specs.Replayed.{lived_of, IsReadyToTell};
ghost use Rattle.catnap_top.specs.Reply.{CanBeWritten, reply_answer};

use crate::files::{ReplayFiles, replay_files};
use crate::replay::{Replayed, live};
use crate::reply::Reply;
use crate::stop::Stop;
use bench_input::{arrivals, failures, profile, source, trace};
use cn_base::{Piece, Sink, WriteFail, put_line};
use cn_report::{Tally, tally};
use cn_scheduler::End;
use nv_memory::Board;
use std::alloc::Global;

fn word(end: End) -> &'static [u8]
    ensures { result.now ≡ end_word end }
{
    match end {
        End::TraceEnded => b"trace",
        End::LogFull => b"log",
    }
}

/// Writes the lines of a summary.
fn put_summary<K: Sink>(
    sink: &mut K,
    size: u32,
    tick: u32,
    counts: Tally,
    stored: u32,
    end: End,
) -> Result<(), WriteFail>
    ensures text { Writes (K.written sink.old) (K.written sink.new) (summary_text size tick counts stored end) result }
    ensures cause { HasCause (K.faults sink.old) (K.faults sink.new) result }
{
    put_line(
        sink,
        &[
            Piece::Text(b"bench "),
            Piece::Number(i128::from(size)),
            Piece::Text(b"\nticks "),
            Piece::Number(i128::from(tick)),
            Piece::Text(b"\nran "),
            Piece::Number(i128::from(counts.ran)),
            Piece::Text(b"\nmet "),
            Piece::Number(i128::from(counts.met)),
            Piece::Text(b"\nlost "),
            Piece::Number(i128::from(counts.lost)),
            Piece::Text(b"\ndropped "),
            Piece::Number(i128::from(counts.dropped)),
            Piece::Text(b"\nouts "),
            Piece::Number(i128::from(counts.outs)),
            Piece::Text(b"\nend "),
            Piece::Number(i128::from(stored)),
            Piece::Text(b" "),
            Piece::Text(word(end)),
            Piece::Text(b"\n"),
        ],
    )
}

/// Writes the summary. Takes no memory.
pub fn write_bench<K: Sink>(sink: &mut K, size: u32, replayed: Replayed) -> Result<(), WriteFail>
    requires { IsReadyToTell replayed }
    ensures text { Writes (K.written sink.old) (K.written sink.new) (summed size (lived_of replayed)).text result }
    ensures cause { HasCause (K.faults sink.old) (K.faults sink.new) result }
{
    let Replayed {
        prepared,
        given: _,
        board,
        end,
        mut shadow,
    } = replayed;
    let counts = tally(
        &prepared.program,
        prepared.plan.queue.arrivals(),
        &prepared.plan.layout,
        &board,
        &mut shadow,
    );
    put_summary(sink, size, board.tick(), counts, board.stored(), end)
}

/// Looks at the files of a size.
fn bench_files(alloc: Global, size: u32) -> Result<ReplayFiles, Stop>
    ensures looks { Looks (files_in source_text profile_text (trace_text size) (arrivals_text size) (failures_text size) None) result }
    ensures events { IfOk result (λ files. length files.arrivals.timings ≡ length files.program.events) }
{
    let trace = trace(alloc, size)?;
    let arrivals = arrivals(alloc, size)?;
    let failures = failures(alloc, size)?;
    replay_files(
        alloc,
        source().as_bytes(),
        profile().as_bytes(),
        trace.as_slice(),
        arrivals.as_slice(),
        failures.as_slice(),
        None,
    )
}

/// Prepares the summary of a size. It takes all memory of the command.
pub fn prepare_bench(alloc: Global, size: u32) -> Result<Reply, Stop>
    ensures looks { LooksAs reply_answer (benching size) result }
    ensures written { IfOk result CanBeWritten }
{
    let files = bench_files(alloc, size)?;
    match live(alloc, files) {
        Ok(replayed) => Ok(Reply::Bench { size, replayed }),
        Err(stop) => Err(stop),
    }
}
