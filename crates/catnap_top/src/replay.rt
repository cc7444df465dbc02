//! `replay SRC DEVICE TRACE ARRIVALS FAILS` and `replay SRC DEVICE TRACE ARRIVALS FAILS FORECAST`: the report of a program's life on a device.

ghost use Rattle.std.specs.Prelude.{◌≡◌, length, option_map, IfOk};
ghost use Rattle.cn_base.specs.Causes.{HasCause};
ghost use Rattle.cn_base.specs.Writing.{Writes};
ghost use Rattle.catnap_top.specs.Look.{LooksAs};
ghost use Rattle.catnap_top.specs.Replay.{living, replaying};
ghost use Rattle.catnap_top.specs.Lives.{status_of};
ghost use Rattle.catnap_top.specs.Served.{stop_of_replay};
ghost use Rattle.catnap_top.specs.Replayed.{lived_of, replayed_answer, HasBegun, HasEnded, IsReadyToTell};
ghost use Rattle.checkpoint_slots.specs.Slot.{IsMadeFor};
ghost use Rattle.cn_scheduler.specs.Belongs.{IsLayoutOf};
ghost use Rattle.cn_scheduler.specs.EnginePoint.{IsFirst};
ghost use Rattle.lawful_timeline.specs.Working.{IsSetUp};
ghost use Rattle.catnap_top.specs.Reply.{reply_answer, CanBeWritten};

use crate::Status;
use crate::fault::{Fault, NoChoice};
use crate::files::{ReplayFiles, replay_files};
use crate::reply::Reply;
use crate::stop::Stop;
use crate::versions::told_row;
use board_core::ModelBoard;
use checkpoint_slots::slots_are_read_again;
use cn_base::{NoMemory, Sink, WriteFail};
use cn_report::{Shadow, write_report};
use cn_runtime::{PrepareFault, Prepared, prepare, replay};
use cn_scheduler::End;
use harvest_trace::{Fails, Trace};
use nv_memory::{Device, parts_are_apart, writes_are_local};
use recovery::fresh_image;
use std::alloc::Global;

/// A replay that has ended, and room for its report.
#[derive(Drop)]
pub struct Replayed {
    pub prepared: Prepared,
    /// Whether a file gave the forecast.
    pub given: bool,
    pub board: ModelBoard,
    pub end: End,
    pub shadow: Shadow,
}

pub fn stop_for_replay(given: bool, fault: PrepareFault) -> Stop
    ensures { result ≡ stop_of_replay given fault }
{
    match fault {
        PrepareFault::WindowTooLong { row, spacing } => Stop::Refused(Fault::Choice(
            told_row(given, row),
            NoChoice::Window(spacing),
        )),
        PrepareFault::Rejected { row, verdict } => Stop::Refused(Fault::Choice(
            told_row(given, row),
            NoChoice::Rejected(verdict),
        )),
        PrepareFault::NoMemory => Stop::NoMemory,
    }
}

/// How a replay ends: the log had no place for a record, or the trace ended.
pub fn status_for(end: End) -> Status
    ensures { result ≡ status_of end }
{
    match end {
        End::TraceEnded => Status::Done,
        End::LogFull => Status::LogFull,
    }
}

/// Writes the report. Takes no memory.
pub fn write_replay<K: Sink>(sink: &mut K, replayed: Replayed) -> Result<(), WriteFail>
    requires { IsReadyToTell replayed }
    ensures text { Writes (K.written sink.old) (K.written sink.new) (replayed_answer replayed).text result }
    ensures cause { HasCause (K.faults sink.old) (K.faults sink.new) result }
{
    let Replayed {
        prepared,
        given,
        board,
        end,
        mut shadow,
    } = replayed;
    write_report(
        &prepared.program,
        prepared.chosen.as_slice(),
        &prepared.forecast,
        given,
        prepared.plan.queue.arrivals(),
        &prepared.plan.layout,
        &board,
        end,
        &mut shadow,
        sink,
    )
}

/// A board at its beginning, and room for its report.
#[derive(Drop)]
struct Begun {
    board: ModelBoard,
    shadow: Shadow,
}

/// The board of a trace and its failures, with the first image of what was prepared.
fn begin(
    alloc: Global,
    prepared: &Prepared,
    trace: Trace,
    failures: Fails,
    device: Device,
) -> Result<Begun, NoMemory>
    requires { IsLayoutOf prepared.now.program prepared.now.plan.layout }
    ensures board { IfOk result (λ begun. HasBegun prepared.now trace failures device begun.board) }
    ensures shadow { IfOk result (λ begun. IsMadeFor prepared.now.plan.layout begun.shadow.slot) }
{
    writes_are_local();
    parts_are_apart();
    slots_are_read_again();
    let _size = prepared.plan.layout.size();
    let shadow = Shadow::start(alloc, &prepared.plan.layout)?;
    let image = fresh_image(alloc, &prepared.program, &prepared.plan.layout)?;
    let board = ModelBoard::new(alloc, trace, failures, device, image)?;
    Ok(Begun { board, shadow })
}

/// Replays what was prepared.
fn run_out(
    alloc: Global,
    mut prepared: Prepared,
    given: bool,
    trace: Trace,
    failures: Fails,
    device: Device,
) -> Result<Replayed, NoMemory>
    requires set_up { IsSetUp prepared.program prepared.plan }
    requires first { IsFirst prepared.program prepared.plan.layout prepared.engine }
    requires device { prepared.device ≡ device }
    ensures { IfOk result (HasEnded prepared given trace failures device) }
{
    match begin(alloc, &prepared, trace, failures, device) {
        Ok(begun) => {
            let Begun { mut board, shadow } = begun;
            let end = replay(&mut prepared, &mut board);
            board.keeps_the_rules();
            Ok(Replayed {
                prepared,
                given,
                board,
                end,
                shadow,
            })
        }
        Err(refused) => Err(refused),
    }
}

/// Replays what the files tell, with all memory taken before the first step.
pub fn live(alloc: Global, files: ReplayFiles) -> Result<Replayed, Stop>
    requires { length files.arrivals.timings ≡ length files.program.events }
    ensures looks { LooksAs lived_of (living files) result }
    ensures written { IfOk result IsReadyToTell }
{
    let ReplayFiles {
        program,
        device,
        trace,
        arrivals,
        failures,
        given,
        forecast,
    } = files;
    let own = device.copy();
    match prepare(alloc, program, device, arrivals, forecast) {
        Ok(prepared) => match run_out(alloc, prepared, given, trace, failures, own) {
            Ok(replayed) => Ok(replayed),
            Err(_) => Err(Stop::NoMemory),
        },
        Err(fault) => Err(stop_for_replay(given, fault)),
    }
}

/// Prepares the report of a replay, by a forecast's file where there is one. It takes all memory of the command.
pub fn prepare_replay<'a>(
    alloc: Global,
    source: &[u8],
    profile: &[u8],
    trace: &[u8],
    arrivals: &[u8],
    failures: &[u8],
    forecast: Option<&'a [u8]>,
) -> Result<Reply, Stop>
    ensures looks { LooksAs reply_answer (replaying source.now profile.now trace.now arrivals.now failures.now (option_map (λ file. file.now) forecast.entry)) result }
    ensures written { IfOk result CanBeWritten }
{
    let files = replay_files(alloc, source, profile, trace, arrivals, failures, forecast)?;
    match live(alloc, files) {
        Ok(replayed) => Ok(Reply::Replay(replayed)),
        Err(stop) => Err(stop),
    }
}
