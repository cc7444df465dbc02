//! Instructions in turn.

ghost use Rattle.std.specs.Prelude.{◌≡◌, ◌+◌, ◌<◌, ◌≤◌, ◌↔◌, length, ℕ, IsTrue, true, Some, None, FitsSigned, IfSome};
ghost use Rattle.std.specs.Int.{w32};
ghost use Rattle.cat_program.specs.Checked.{Checked};
ghost use Rattle.cat_machine.specs.Fits.{Fits, ReadyFor};
ghost use Rattle.cat_machine.specs.declared.instr.Fetched.{Fetched as Next};
ghost use Rattle.cat_machine.specs.Machine.{Ended', IsNext, until, goes_on};
ghost use Rattle.nv_memory.specs.Layout.{size_of};
ghost use Rattle.nv_log.specs.Record.{EntryFits};
ghost use Rattle.cn_scheduler.specs.Asked.{listed, ask_with, recording};
ghost use Rattle.cn_scheduler.specs.Steps.{chunk_of, out_of, AskedOnce, limits_of, PathLeaves};
ghost use Rattle.cn_scheduler.specs.Floor.{HoldsFloor};

use crate::engine::Chunk;
use crate::plan::Plan;
use cat_machine::{Code, Did, Fetched, Mode, Working, class, fetch, runs_end, step_fetched};
use cat_program::LogEntry;
use nv_log::{By, Put, append};
use nv_memory::{Answer, Board, Class};

// No section and no handler has more instructions.
const MOST_TURNS: u32 = 1_000_000;

/// What came of a chunk whose last operation was answered so.
pub(crate) fn chunk_of(answer: Answer) -> Chunk
    ensures { result ≡ chunk_of answer }
{
    match answer {
        Answer::Done => Chunk::Ended,
        Answer::Lost => Chunk::Lost,
        Answer::Over => Chunk::Over,
    }
}

/// Writes an entry behind the first `len` records, which are one more then.
pub(crate) fn put<B: Board>(
    plan: &Plan,
    board: &mut B,
    len: &mut u32,
    entry: &LogEntry,
    by: By,
) -> Chunk
    requires on { (B.state board.old).on ≡ true }
    requires image { size_of plan.now.layout ≤ length (B.state board.old).image }
    requires len { len.old ≤ plan.now.layout.log }
    requires fits { EntryFits plan.now.layout entry.now }
    ensures asked { AskedOnce plan.now.layout.log (B.state board.old) (recording plan.now.layout len.old entry.now by) result (B.state board.new) }
    ensures len { result ≡ Chunk.Ended → len.new ≡ len.old + 1 }
    ensures few { len.new ≤ plan.now.layout.log }
    ensures on { result ≡ Chunk.Ended → (B.state board.new).on ≡ true }
    ensures size { length (B.state board.new).image ≡ length (B.state board.old).image }
    ensures origin { B.origin board.new ≡ B.origin board.old }
{
    match append(board, &plan.layout, *len, entry, by) {
        Put::Done => {
            *len += 1;
            Chunk::Ended
        }
        Put::Full => Chunk::Full,
        Put::Lost => Chunk::Lost,
        Put::Over => Chunk::Over,
    }
}

// Writes an output as `put` does. It is compiled by itself, so that a path has room for an entry only where it puts out.
#[inline(never)]
fn put_out<B: Board>(
    plan: &Plan,
    board: &mut B,
    len: &mut u32,
    pc: u32,
    channel: u8,
    value: i32,
) -> Chunk
    requires on { (B.state board.old).on ≡ true }
    requires image { size_of plan.now.layout ≤ length (B.state board.old).image }
    requires len { len.old ≤ plan.now.layout.log }
    ensures asked { AskedOnce plan.now.layout.log (B.state board.old) (recording plan.now.layout len.old (LogEntry.Out channel value) (By.Instr pc)) result (B.state board.new) }
    ensures len { result ≡ Chunk.Ended → len.new ≡ len.old + 1 }
    ensures few { len.new ≤ plan.now.layout.log }
    ensures on { result ≡ Chunk.Ended → (B.state board.new).on ≡ true }
    ensures size { length (B.state board.new).image ≡ length (B.state board.old).image }
    ensures origin { B.origin board.new ≡ B.origin board.old }
{
    let entry = LogEntry::Out { channel, value };
    put(plan, board, len, &entry, By::Instr { pc })
}

// Asks for one instruction, whose output is the record behind the first `len`.
fn ask<B: Board>(
    plan: &Plan,
    board: &mut B,
    len: &mut u32,
    pc: u32,
    class: Class,
    did: Did,
) -> Chunk
    requires on { (B.state board.old).on ≡ true }
    requires image { size_of plan.now.layout ≤ length (B.state board.old).image }
    requires len { len.old ≤ plan.now.layout.log }
    ensures asked { AskedOnce plan.now.layout.log (B.state board.old) (ask_with plan.now.layout len.old pc class (out_of did)) result (B.state board.new) }
    ensures len { result ≡ Chunk.Ended → len.new ≡ len.old + length (listed (out_of did)) }
    ensures few { len.new ≤ plan.now.layout.log }
    ensures fits { IfSome (out_of did) (λ o. FitsSigned w32 o.1) }
    ensures on { result ≡ Chunk.Ended → (B.state board.new).on ≡ true }
    ensures size { length (B.state board.new).image ≡ length (B.state board.old).image }
    ensures origin { B.origin board.new ≡ B.origin board.old }
{
    match did {
        Did::Emitted { channel, value } => put_out(plan, board, len, pc, channel, value),
        _ => chunk_of(board.run(class, pc)),
    }
}

// What an instruction of a task has to leave in store before tick `until`. It is looked up anew from that tick on.
#[derive(Clone, Copy)]
struct Floor {
    until: u32,
    units: u128,
}

// Whether an instruction may not start: the store is below what tasks have to leave.
fn is_too_low<B: Board>(plan: &Plan, board: &B, mode: Mode, floor: &mut Floor) -> bool
    requires { HoldsFloor plan.now floor.old (B.state board.now).tick }
    ensures low { IsTrue result ↔ ((B.state board.now).stored < (limits_of plan.now mode).floor (B.state board.now).tick) }
    ensures holds { HoldsFloor plan.now floor.new (B.state board.now).tick }
{
    match mode {
        Mode::Task => {
            let tick = board.tick();
            if floor.until <= tick {
                *floor = Floor {
                    until: plan.row_until(tick),
                    units: plan.floor_at(tick),
                };
            }
            u128::from(board.stored()) < floor.units
        }
        Mode::Handler => false,
    }
}

// The next instruction, of which there is one.
fn next_instr(code: &Code, working: &Working) -> Fetched
    requires { (next : Next) × IsNext code.now working.now next }
    ensures { IsNext code.now working.now result }
{
    match fetch(code, working) {
        Some(next) => next,
        None => unreachable!(),
    }
}

// Whether a section or a handler is over.
fn is_over(mode: Mode, did: Did) -> bool
    ensures { IsTrue result ↔ (goes_on mode did ≡ None) }
{
    match did {
        Did::Went => false,
        Did::Emitted { .. } => matches!(mode, Mode::Task),
        _ => true,
    }
}

/// Does the instructions of a section or a handler, each output going to the log's next place, up to the last of them or to one that
/// can't be started or isn't done.
pub(crate) fn run_path<B: Board>(
    plan: &Plan,
    board: &mut B,
    working: &mut Working,
    len: &mut u32,
    mode: Mode,
) -> Chunk
    requires on { (B.state board.old).on ≡ true }
    requires image { size_of plan.now.layout ≤ length (B.state board.old).image }
    requires len { len.old ≤ plan.now.layout.log }
    requires fits { (p : Checked) × Fits p plan.now.code working.old × ReadyFor mode plan.now.code working.old }
    requires ends { (run : Ended') × (until 1000000 mode plan.now.code working.old ≡ Some run) }
    ensures leaves { (run : Ended') → until 1000000 mode plan.now.code working.old ≡ Some run → PathLeaves plan.now mode run working.old len.old (B.state board.old) result working.new len.new (B.state board.new) }
    ensures few { len.new ≤ plan.now.layout.log }
    ensures image { size_of plan.now.layout ≤ length (B.state board.new).image }
    ensures keeps { (p : Checked) → Fits p plan.now.code working.old → Fits p plan.now.code working.new }
    ensures origin { B.origin board.new ≡ B.origin board.old }
{
    runs_end();
    let mut floor = Floor { until: 0, units: 0 };
    'turns: for _ in 0..MOST_TURNS {
        if is_too_low(plan, board, mode, &mut floor) {
            return Chunk::Dropped;
        }
        let next = next_instr(&plan.code, working);
        let class = class(&next.instr);
        let did = step_fetched(&plan.code, working, mode, next);
        match ask(plan, board, len, next.pc, class, did) {
            Chunk::Ended => {}
            stopped => return stopped,
        }
        if is_over(mode, did) {
            return Chunk::Ended;
        }
    }
    unreachable!()
}
