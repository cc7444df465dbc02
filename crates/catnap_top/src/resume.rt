//! `resume SRC DEVICE TRACE ARRIVALS FAILS IMAGE`: the report of a life that goes on from a saved image.

ghost use Rattle.std.specs.Prelude.{◌≡◌, ◌≤◌, ◌<◌, ◌∷◌, [], false, length, IfOk};
ghost use Rattle.cn_base.specs.Causes.{HasCause};
ghost use Rattle.cn_base.specs.Writing.{Writes};
ghost use Rattle.board_core.specs.ModelBoardState.{origin_of, state_of};
ghost use Rattle.checkpoint_slots.specs.Image.{committed_bytes, IsWellFormed};
ghost use Rattle.cn_scheduler.specs.EnginePoint.{IsFirst};
ghost use Rattle.harvest_trace.specs.Timeline.{life_of};
ghost use Rattle.lawful_timeline.specs.Working.{IsSetUp};
ghost use Rattle.nv_memory.specs.Layout.{size_of};
ghost use Rattle.degradation.specs.Placed.{IsLayoutOf};
ghost use Rattle.reference_run.specs.Reference.{AreFor, setting_of};
ghost use Rattle.cn_runtime.specs.Resumed.{CanGoOn};
ghost use Rattle.cn_runtime.specs.Steady.{steady_rows};
ghost use Rattle.catnap_top.specs.Look.{LooksAs};
ghost use Rattle.catnap_top.specs.Reply.{CanBeWritten, reply_answer};
ghost use Rattle.catnap_top.specs.Resume.{going, resuming, start_in};
ghost use Rattle.catnap_top.specs.Resumed.{BeginsAgain, CanTellRest, HasGoneOn, files_with, resumed_answer, start_of};

use crate::fault::Fault;
use crate::file_fault::BadImage;
use crate::files::{ReplayFiles, replay_files};
use crate::replay::{Replayed, stop_for_replay};
use crate::reply::Reply;
use crate::stop::Stop;
use board_core::ModelBoard;
use checkpoint_slots::Slot;
use cn_base::{NoMemory, Sink, WriteFail};
use cn_report::{Shadow, write_resumed};
use cn_resume::{ImageFault, Saved, accept};
use cn_runtime::{Prepared, prepare, resume, steady_law};
use degradation::Chosen;
use harvest_trace::{Fails, Trace};
use nv_memory::{Device, layouts_are_numbers};
use recovery::recover;
use resumed_runs::fit_images_begin;
use std::alloc::Global;

/// A board that goes on from a saved image, how many records the image has, and room for the report.
#[derive(Drop)]
pub struct BegunAgain {
    pub from: u32,
    pub board: ModelBoard,
    pub shadow: Shadow,
}

/// A replay that went on from a saved image and has ended, and how many records the image had.
#[derive(Drop)]
pub struct Resumed {
    pub from: u32,
    pub replayed: Replayed,
}

/// Writes the report. Takes no memory.
pub fn write_rest<K: Sink>(sink: &mut K, resumed: Resumed) -> Result<(), WriteFail>
    requires { CanTellRest resumed }
    ensures text { Writes (K.written sink.old) (K.written sink.new) (resumed_answer resumed).text result }
    ensures cause { HasCause (K.faults sink.old) (K.faults sink.new) result }
{
    let Resumed { from, replayed } = resumed;
    let Replayed {
        prepared,
        given,
        board,
        end,
        mut shadow,
    } = replayed;
    write_resumed(
        &prepared.program,
        prepared.chosen.as_slice(),
        &prepared.forecast,
        given,
        prepared.plan.queue.arrivals(),
        &prepared.plan.layout,
        &board,
        end,
        from,
        &mut shadow,
        sink,
    )
}

/// What is saved in a file from which the device can go on with what was prepared, or the first condition that fails.
fn saved_in(
    alloc: Global,
    prepared: &Prepared,
    chosen: &Chosen,
    trace: &Trace,
    failures: &Fails,
    image: &[u8],
) -> Result<Saved, Stop>
    requires alone { prepared.now.chosen ≡ chosen.now ∷ [] }
    requires belong { AreFor (setting_of prepared.now.program chosen.now.versions prepared.now.plan.queue.arrivals) }
    requires layout { IsLayoutOf prepared.now.program prepared.now.device prepared.now.plan.layout }
    ensures { LooksAs start_of (start_in (files_with prepared.now trace.now failures.now) prepared.now.chosen image.now) result }
{
    let life = trace.life();
    match accept(
        alloc,
        &prepared.program,
        chosen.versions.as_slice(),
        prepared.plan.queue.arrivals(),
        &prepared.device,
        life,
        image,
    ) {
        Ok(saved) => Ok(saved),
        Err(ImageFault::BadImage(kind, at)) => {
            Err(Stop::Refused(Fault::Image(BadImage { kind, at })))
        }
        Err(ImageFault::NoMemory) => Err(Stop::NoMemory),
    }
}

/// The board of a trace and its failures, as it was saved.
fn begin_again(
    alloc: Global,
    prepared: &Prepared,
    trace: Trace,
    failures: Fails,
    device: Device,
    saved: Saved,
) -> Result<BegunAgain, NoMemory>
    requires in_life { saved.tick ≤ life_of trace }
    requires in_cap { saved.stored ≤ device.cap }
    requires size { length saved.image.items ≡ size_of prepared.now.plan.layout }
    requires formed { IsWellFormed prepared.now.plan.layout (committed_bytes prepared.now.plan.layout saved.image.items) }
    ensures { IfOk result (BeginsAgain prepared.now trace failures device (start_of saved)) }
{
    let _size = prepared.plan.layout.size();
    let Saved {
        tick,
        stored,
        image,
    } = saved;
    let mut shadow = Shadow::start(alloc, &prepared.plan.layout)?;
    let mut slot = Slot::with_shape(alloc, &prepared.plan.layout)?;
    let board = ModelBoard::resumed(alloc, trace, failures, device, tick, stored, image)?;
    shadow.keep(&board, &prepared.plan.layout);
    recover(&board, &prepared.plan.layout, &mut slot);
    Ok(BegunAgain {
        from: slot.len,
        board,
        shadow,
    })
}

/// Replays what was prepared, on such a board.
fn run_on(mut prepared: Prepared, begun: BegunAgain) -> Resumed
    requires set_up { IsSetUp prepared.program prepared.plan }
    requires first { IsFirst prepared.program prepared.plan.layout prepared.engine }
    requires can { CanGoOn prepared.program prepared.plan (state_of begun.board) }
    requires device { prepared.device ≡ (origin_of begun.board).device }
    ensures { HasGoneOn prepared begun result }
{
    let BegunAgain {
        from,
        mut board,
        shadow,
    } = begun;
    let end = resume(&mut prepared, &mut board);
    board.keeps_the_rules();
    Resumed {
        from,
        replayed: Replayed {
            prepared,
            given: false,
            board,
            end,
            shadow,
        },
    }
}

/// Goes on from a saved image with what the files tell, with all memory taken before the first step.
fn go_on(alloc: Global, files: ReplayFiles, image: &[u8]) -> Result<Resumed, Stop>
    requires events { length files.arrivals.timings ≡ length files.program.events }
    requires given { files.given ≡ false }
    requires steady { files.forecast ≡ steady_rows files.device }
    ensures looks { LooksAs resumed_answer (going files image.now) result }
    ensures written { IfOk result CanTellRest }
{
    let ReplayFiles {
        program,
        device,
        trace,
        arrivals,
        failures,
        given,
        forecast,
    } = files;
    layouts_are_numbers();
    steady_law();
    fit_images_begin();
    let own = device.copy();
    let prepared = match prepare(alloc, program, device, arrivals, forecast) {
        Ok(prepared) => prepared,
        Err(fault) => return Err(stop_for_replay(given, fault)),
    };
    let chosen = &prepared.chosen.as_slice()[0];
    let saved = match saved_in(alloc, &prepared, chosen, &trace, &failures, image) {
        Ok(saved) => saved,
        Err(stop) => return Err(stop),
    };
    match begin_again(alloc, &prepared, trace, failures, own, saved) {
        Ok(begun) => Ok(run_on(prepared, begun)),
        Err(_) => Err(Stop::NoMemory),
    }
}

/// Prepares the report of a life that goes on. It takes all memory of the command.
pub fn prepare_resume(
    alloc: Global,
    source: &[u8],
    profile: &[u8],
    trace: &[u8],
    arrivals: &[u8],
    failures: &[u8],
    image: &[u8],
) -> Result<Reply, Stop>
    ensures looks { LooksAs reply_answer (resuming source.now profile.now trace.now arrivals.now failures.now image.now) result }
    ensures written { IfOk result CanBeWritten }
{
    let files = replay_files(alloc, source, profile, trace, arrivals, failures, None)?;
    match go_on(alloc, files, image) {
        Ok(resumed) => Ok(Reply::Resume(resumed)),
        Err(stop) => Err(stop),
    }
}
