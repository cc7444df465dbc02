//! `uplink SRC DEVICE TRACE ARRIVALS FAILS LINK`: the committed log of a replay over a bad link.

ghost use Rattle.std.specs.Prelude.{◌≡◌, ◌≤◌, length, IfOk};
ghost use Rattle.cn_base.specs.Causes.{HasCause};
ghost use Rattle.cn_base.specs.Writing.{Writes};
ghost use Rattle.catnap_top.specs.Look.{Looks, LooksAs};
ghost use Rattle.catnap_top.specs.Replayed.{lived_of, IsReadyToTell};
ghost use Rattle.catnap_top.specs.Reply.{CanBeWritten, reply_answer};
ghost use Rattle.catnap_top.specs.Uplink.{links_in, log_in, sending, uplinking};
ghost use Rattle.cn_uplink.specs.Link.{first};
ghost use Rattle.catnap_top.specs.Uplinked.{uplinked_answer, HasSent};

use crate::fault::{Fault, Table};
use crate::files::{ReplayFiles, replay_files};
use crate::replay::{Replayed, live};
use crate::reply::Reply;
use crate::stop::Stop;
use cn_base::{NoMemory, Sink, WriteFail};
use cn_uplink::{Counts, LinkFault, Links, World, committed_log, links, write_uplink};
use std::alloc::Global;

/// A replay that has ended, and its committed log as it was sent over a link.
#[derive(Drop)]
pub struct Uplinked {
    pub replayed: Replayed,
    pub counts: Counts,
    pub world: World,
}

/// Writes the numbers of the link and the host's records. Takes no memory.
pub fn write_uplinked<K: Sink>(sink: &mut K, uplinked: Uplinked) -> Result<(), WriteFail>
    ensures text { Writes (K.written sink.old) (K.written sink.new) (uplinked_answer uplinked).text result }
    ensures cause { HasCause (K.faults sink.old) (K.faults sink.new) result }
{
    write_uplink(
        &uplinked.replayed.prepared.program,
        uplinked.counts,
        uplinked.world.host(),
        sink,
    )
}

/// The steps of a link table, or its first row with a fault.
fn steps_of(alloc: Global, bytes: &[u8]) -> Result<Links, Stop>
    ensures { Looks (links_in bytes.now) result }
{
    match links(alloc, bytes) {
        Ok(steps) => Ok(steps),
        Err(LinkFault::BadLink(row, kind)) => Err(Stop::Refused(Fault::Table(
            Table::Link,
            row,
            kind,
        ))),
        Err(LinkFault::NoMemory) => Err(Stop::NoMemory),
    }
}

/// The committed log of a replay at the sender, with room for so many steps.
fn world_of(alloc: Global, replayed: &Replayed, rows: u32) -> Result<World, NoMemory>
    requires ready { IsReadyToTell replayed.now }
    requires rows { rows ≤ 100000 }
    ensures { IfOk result (λ world. world ≡ record { link = first (log_in (lived_of replayed.now)); left = rows }) }
{
    let log = committed_log(
        alloc,
        &replayed.board,
        &replayed.prepared.plan.layout,
        &replayed.prepared.program,
    )?;
    World::start(alloc, log, rows)
}

/// Sends the committed log of a replay by the steps of a link, with all memory taken before the first step.
fn send(alloc: Global, replayed: Replayed, steps: &Links) -> Result<Uplinked, NoMemory>
    requires { IsReadyToTell replayed }
    ensures { IfOk result (HasSent replayed steps.now) }
{
    match world_of(alloc, &replayed, steps.rows()) {
        Ok(mut world) => {
            let counts = world.play(steps);
            Ok(Uplinked {
                replayed,
                counts,
                world,
            })
        }
        Err(refused) => Err(refused),
    }
}

/// Replays and sends what files and a link tell.
fn live_and_send(alloc: Global, files: ReplayFiles, steps: &Links) -> Result<Uplinked, Stop>
    requires { length files.arrivals.timings ≡ length files.program.events }
    ensures { LooksAs uplinked_answer (sending files steps.now) result }
{
    match live(alloc, files) {
        Ok(replayed) => match send(alloc, replayed, steps) {
            Ok(uplinked) => Ok(uplinked),
            Err(_) => Err(Stop::NoMemory),
        },
        Err(stop) => Err(stop),
    }
}

/// Prepares the text of a link. It takes all memory of the command.
pub fn prepare_uplink(
    alloc: Global,
    source: &[u8],
    profile: &[u8],
    trace: &[u8],
    arrivals: &[u8],
    failures: &[u8],
    link: &[u8],
) -> Result<Reply, Stop>
    ensures looks { LooksAs reply_answer (uplinking source.now profile.now trace.now arrivals.now failures.now link.now) result }
    ensures written { IfOk result CanBeWritten }
{
    let files = replay_files(alloc, source, profile, trace, arrivals, failures, None)?;
    let steps = steps_of(alloc, link)?;
    match live_and_send(alloc, files, &steps) {
        Ok(uplinked) => Ok(Reply::Uplink(uplinked)),
        Err(stop) => Err(stop),
    }
}
