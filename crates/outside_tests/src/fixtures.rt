//! Real sources, and arrivals, a queue and reference runs of them.

ghost use Rattle.std.specs.Prelude.{◌≡◌, ◌≤◌, ℕ, true, length, slice_index, IfOk};
ghost use Rattle.cat_eval.specs.Cursor.{Fits};
ghost use Rattle.reference_run.specs.Reference.{AreFor, setting_of};

use cat_eval::State;
use cat_program::{LogEntry, Program};
use cat_syntax::parse;
use cat_tokens::tokens;
use cat_types::check;
use checkpoint_slots::Slot;
use cn_base::{List, NoMemory};
use event_arrivals::{Arrivals, arrivals};
use event_queue::{Due, Queue};
use harvest_trace::trace;
use nv_memory::Layout;
use reference_run::{Item, RefFault, Schedule, reference};
use std::alloc::Global;
use std::test::Fail;

pub(crate) const V2: &[u8] = b"int x = 0;
event a spacing 100 deadline 50 { x = payload; }
event b spacing 100 deadline 50 { out 1, x; }";

pub(crate) const NODE: &[u8] = b"int n = 0; int acc = 0; int k = 0; int a[4];
task blur {
  n = 0; acc = 0;
  while n < 4 { acc = acc + a[n]; n = n + 1; }
  out 2, acc / 4;
}
event sample every 200 offset 0 deadline 100
  { a[k] = payload; k = k + 1; out 3, payload; post blur; }
  else { a[k] = payload; k = k + 1; post blur; }
event tap spacing 300 deadline 150 { out 1, payload; }
degrade sample;";

pub(crate) const NODE_TRACE: &[u8] = b"ticks,harvest,extra,sample
300,1,0,40
80,0,0,12
20,1,0,12
80,0,0,12
20,1,0,12
80,0,0,12
20,1,0,12
";

pub(crate) fn program_of(alloc: Global, source: &[u8]) -> Result<Program, Fail> {
    if source.len() > 262_144 {
        return Err("too long".into());
    }
    let Ok(found) = tokens(alloc, source) else {
        return Err("no tokens".into());
    };
    let Ok(tree) = parse(alloc, found.as_slice(), source) else {
        return Err("no tree".into());
    };
    match check(alloc, &tree) {
        Ok(program) => Ok(program),
        Err(_) => Err("no program".into()),
    }
}

pub(crate) fn arrivals_of(
    alloc: Global,
    program: &Program,
    ticks: &[u8],
    rows: &[u8],
) -> Result<Arrivals, Fail> {
    let Ok(ticks) = trace(alloc, ticks) else {
        return Err("no trace".into());
    };
    match arrivals(alloc, program, &ticks, rows) {
        Ok(read) => Ok(read),
        Err(_) => Err("no arrivals".into()),
    }
}

// Whether the versions and the arrivals are for the program's events.
pub(crate) fn belong(program: &Program, versions: &[u8], read: &Arrivals) -> bool
    ensures { result ≡ true → AreFor (setting_of program.now versions.now read.now) }
{
    let events = program.events();
    if versions.len() != events as usize || read.events() != events {
        return false;
    }
    let known = program.versions();
    'events: for event in 0..events {
        if versions[event as usize] as usize >= known[event as usize].len() {
            return false;
        }
    }
    true
}

// A slot with these done counts.
pub(crate) fn slot_of(alloc: Global, read: &Arrivals, done: &[u32]) -> Result<Slot, NoMemory>
    ensures { IfOk result (λ s. length s.done ≡ length read.now.timings) }
{
    let layout = Layout {
        words: 0,
        tasks: 0,
        events: read.events(),
        log: 1,
        format: 1,
        base: 64,
    };
    let mut slot = Slot::with_shape(alloc, &layout)?;
    'events: for event in 0..read.events() {
        if (event as usize) < done.len() {
            slot.set_done(event, done[event as usize]);
        }
    }
    Ok(slot)
}

// The deadlines of the program's events.
pub(crate) fn deadlines_of(alloc: Global, program: &Program) -> Result<Vec<u32>, Fail>
    ensures each { IfOk result (λ v. length v.items ≡ length program.now.events) }
    ensures few { IfOk result (λ v. (event : ℕ) → slice_index v.items event ≤ 1000000) }
{
    let mut found = Vec::new(alloc);
    'events: for event in 0..program.events() {
        let deadline = program.event(event).deadline;
        if deadline > 1_000_000 {
            return Err("a long deadline".into());
        }
        found.push(deadline)?;
    }
    Ok(found)
}

pub(crate) fn queue_of(alloc: Global, program: &Program, read: Arrivals) -> Result<Queue, Fail> {
    if read.events() != program.events() {
        return Err("other events".into());
    }
    let deadlines = deadlines_of(alloc, program)?;
    Ok(Queue::start(read, deadlines))
}

// What waits at a tick, with these done counts, and when the next arrival after it comes.
pub(crate) fn asked(
    alloc: Global,
    queue: &Queue,
    now: u32,
    done: &[u32],
) -> Result<(Option<Due>, Option<u32>), Fail> {
    match slot_of(alloc, queue.arrivals(), done) {
        Ok(slot) => Ok((queue.earliest(now, &slot), queue.next_after(now, &slot))),
        Err(_) => Err("no memory".into()),
    }
}

// The values of the first words.
pub(crate) fn words_of(alloc: Global, program: &Program, state: &State) -> Result<Vec<i32>, Fail>
    requires { Fits program.now state.now }
{
    let mut found = Vec::new(alloc);
    'words: for w in 0..program.words() {
        found.push(state.word(w))?;
    }
    Ok(found)
}

pub(crate) fn due(event: u8, index: u32, arrived: u32, deadline: u32, payload: i32) -> Option<Due> {
    Some(Due {
        event,
        index,
        arrived,
        deadline,
        payload,
    })
}

pub(crate) fn item(steps: u32, event: u8, version: u8, start: u32) -> Item {
    Item {
        steps,
        event,
        version,
        start,
    }
}

pub(crate) fn ran(event: u8, version: u8, steps: u32, start: u32, index: u32) -> LogEntry {
    LogEntry::Ran {
        event,
        version,
        steps,
        start,
        index,
    }
}

pub(crate) fn out(channel: u8, value: i32) -> LogEntry {
    LogEntry::Out { channel, value }
}

// The words and the entries of a reference run.
pub(crate) fn end_of(
    alloc: Global,
    program: &Program,
    versions: &[u8],
    read: &Arrivals,
    items: Vec<Item>,
    total: u32,
) -> Result<Result<(Vec<i32>, Vec<LogEntry>), RefFault>, Fail> {
    if !belong(program, versions, read) || items.len() > 1_000_000 || total > 1_000_000 {
        return Err("not for this program".into());
    }
    let schedule = Schedule {
        items: List::of(items),
        total,
    };
    match reference(alloc, program, versions, read, &schedule) {
        Ok(end) => {
            let words = words_of(alloc, program, &end.state)?;
            let entries = end.outs.entries().to_vec(alloc)?;
            Ok(Ok((words, entries)))
        }
        Err(fault) => Ok(Err(fault)),
    }
}

// What came of a reference run: its words and entries, or the item that it can't take.
#[derive(Drop)]
pub(crate) struct End {
    pub words: Vec<i32>,
    pub entries: Vec<LogEntry>,
    pub bad: Option<u32>,
}

fn no_end(alloc: Global, bad: u32) -> End {
    End {
        words: Vec::new(alloc),
        entries: Vec::new(alloc),
        bad: Some(bad),
    }
}

// The reference run of a source over a trace and rows of arrivals.
pub(crate) fn run_of(
    alloc: Global,
    source: &[u8],
    ticks: &[u8],
    rows: &[u8],
    versions: &[u8],
    items: Vec<Item>,
    total: u32,
) -> Result<End, Fail> {
    let program = program_of(alloc, source)?;
    let read = arrivals_of(alloc, &program, ticks, rows)?;
    match end_of(alloc, &program, versions, &read, items, total)? {
        Ok((words, entries)) => Ok(End {
            words,
            entries,
            bad: None,
        }),
        Err(RefFault::BadSchedule(bad)) => Ok(no_end(alloc, bad)),
        Err(RefFault::NoMemory) => Err("no memory".into()),
    }
}

// What a source's queue says at a tick with these done counts.
pub(crate) fn asked_of(
    alloc: Global,
    source: &[u8],
    ticks: &[u8],
    rows: &[u8],
    now: u32,
    done: &[u32],
) -> Result<(Option<Due>, Option<u32>), Fail> {
    let program = program_of(alloc, source)?;
    let read = arrivals_of(alloc, &program, ticks, rows)?;
    let queue = queue_of(alloc, &program, read)?;
    asked(alloc, &queue, now, done)
}
