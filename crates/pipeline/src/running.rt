//! Runs of programs by the interpreter and by the machine.

ghost use Rattle.std.specs.Prelude.{◌≡◌, ◌≤◌, ◌↔◌, ℕ, IsTrue, IsSome, IfOk};
ghost use Rattle.cat_program.specs.Checked.{HasVersion};
ghost use Rattle.cat_eval.specs.Cursor.{Fits};
ghost use Rattle.cat_machine.specs.CodeValue.{EntryAt};
ghost use Rattle.pipeline.specs.Between.{IsBetween, IsInTask, IsHandling, GoesOn, Leaves};

use cat_compile::compile;
use cat_eval::{State, task_step};
use cat_machine::{Code, Did, Mode, Working, drop_section, enter, handler, next, section, step};
use cat_program::{LogEntry, Outs, Program, Stepped};
use cn_base::NoMemory;
use std::alloc::Global;

/// Takes `most` steps of the tasks, or all that exist, and keeps what they put out. Answers how many were taken.
pub(crate) fn steps(program: &Program, state: &mut State, most: u32, outs: &mut Outs) -> u32
    requires fits { Fits program.now state.old }
    requires room { most ≤ outs.old.spare }
    ensures { Fits program.now state.new }
{
    let mut taken = 0;
    'steps: while taken < most {
        match task_step(program, state) {
            Stepped::None => return taken,
            Stepped::Quiet => {}
            Stepped::Out { channel, value } => outs.push(LogEntry::Out { channel, value }),
        }
        taken += 1;
    }
    taken
}

/// The code of a program, and the state with which its run begins.
pub(crate) fn start(alloc: Global, program: &Program) -> Result<(Code, Working), NoMemory>
    ensures { IfOk result (λ made. IsBetween program.now made.0 made.1) }
{
    let code = match compile(alloc, program) {
        Ok(code) => code,
        Err(refused) => return Err(refused),
    };
    let working = match Working::with_shape(alloc, program) {
        Ok(working) => working,
        Err(refused) => return Err(refused),
    };
    Ok((code, working))
}

/// One whole section, which answers as one step of the tasks.
pub(crate) fn one_section(_program: &Program, code: &Code, working: &mut Working) -> Stepped
    requires { IsBetween _program.now code.now working.old }
    ensures { IsBetween _program.now code.now working.new }
{
    section(code, working)
}

/// Takes `most` sections, or all that exist, and keeps what they put out. Answers how many were taken.
pub(crate) fn sections(
    program: &Program,
    code: &Code,
    working: &mut Working,
    most: u32,
    outs: &mut Outs,
) -> u32
    requires between { IsBetween program.now code.now working.old }
    requires room { most ≤ outs.old.spare }
    ensures { IsBetween program.now code.now working.new }
{
    let mut taken = 0;
    'sections: while taken < most {
        match one_section(program, code, working) {
            Stepped::None => return taken,
            Stepped::Quiet => {}
            Stepped::Out { channel, value } => outs.push(LogEntry::Out { channel, value }),
        }
        taken += 1;
    }
    taken
}

/// What the first `most` steps of a program put out by the interpreter, and how many steps there were.
pub(crate) fn interpreted(
    alloc: Global,
    program: &Program,
    most: u32,
) -> Result<(u32, Outs), NoMemory> {
    let mut state = State::first(alloc, program)?;
    let mut outs = Outs::with_room(alloc, most)?;
    let taken = steps(program, &mut state, most, &mut outs);
    Ok((taken, outs))
}

/// What the first `most` sections of a program's code put out, and how many sections there were.
pub(crate) fn compiled(
    alloc: Global,
    program: &Program,
    most: u32,
) -> Result<(u32, Outs), NoMemory> {
    let (code, mut working) = start(alloc, program)?;
    let mut outs = Outs::with_room(alloc, most)?;
    let taken = sections(program, &code, &mut working, most, &mut outs);
    Ok((taken, outs))
}

// Does an instruction of a task, if there is one. Answers whether its section goes on.
fn goes_on(_program: &Program, code: &Code, working: &mut Working) -> bool
    requires { IsInTask _program.now code.now working.old }
    ensures { IsTrue result → GoesOn _program.now code.now working.old working.new }
{
    if next(code, working).is_none() {
        return false;
    }
    matches!(step(code, working, Mode::Task), Did::Went)
}

/// Does the first two instructions of a section, and drops it. Answers the place that was reached, or none where the
/// section has not even these two beside the one that acts.
pub(crate) fn tried(program: &Program, code: &Code, working: &mut Working) -> Option<Option<u32>>
    requires { IsBetween program.now code.now working.old }
    ensures { IsSome result → working.new ≡ working.old }
{
    let from = working.pc();
    if !goes_on(program, code, working) {
        return None;
    }
    if !goes_on(program, code, working) {
        return None;
    }
    let reached = working.pc();
    drop_section(code, working, from);
    Some(reached)
}

/// Whether the program has such an event and version.
pub(crate) fn has_version(program: &Program, event: u8, version: u8) -> bool
    ensures { IsTrue result ↔ HasVersion program.now event version }
{
    match program.versions().get(event as usize) {
        Some(blocks) => (version as usize) < blocks.len(),
        None => false,
    }
}

/// Whether the code has such an event and version.
pub(crate) fn has_entry(code: &Code, event: u8, version: u8) -> bool
    ensures { IsTrue result → (entry : ℕ) × EntryAt code.now event version entry }
{
    if event >= code.events() {
        return false;
    }
    match code.versions(event).get(version as usize) {
        Some(_) => true,
        None => false,
    }
}

/// What a whole handler puts out, in the room that it needs at most.
pub(crate) fn handled(
    alloc: Global,
    program: &Program,
    code: &Code,
    working: &mut Working,
    event: u8,
    version: u8,
    payload: i32,
) -> Result<Outs, NoMemory>
    requires between { IsBetween program.now code.now working.old }
    requires version { HasVersion program.now event version }
    requires entry { (entry : ℕ) × EntryAt code.now event version entry }
    ensures { IsBetween program.now code.now working.new }
{
    let mut outs = match Outs::with_room(alloc, program.most_outs(event, version)) {
        Ok(outs) => outs,
        Err(refused) => return Err(refused),
    };
    handler(code, working, event, version, payload, &mut outs);
    Ok(outs)
}

/// Enters a version's handler.
pub(crate) fn entered(
    _program: &Program,
    code: &Code,
    working: &mut Working,
    event: u8,
    version: u8,
    payload: i32,
)
    requires between { IsBetween _program.now code.now working.old }
    requires entry { (entry : ℕ) × EntryAt code.now event version entry }
    ensures { IsHandling _program.now code.now working.new }
{
    enter(code, working, event, version, payload);
}

// One instruction of a handler.
fn instruction(_program: &Program, code: &Code, working: &mut Working) -> Did
    requires { IsHandling _program.now code.now working.old }
    ensures { Leaves _program.now code.now result working.new }
{
    step(code, working, Mode::Handler)
}

/// A handler's instructions one by one, at most `most` of them. Answers how many there were, or none where it goes on.
pub(crate) fn instructions(
    program: &Program,
    code: &Code,
    working: &mut Working,
    most: u32,
    outs: &mut Outs,
) -> Option<u32>
    requires handling { IsHandling program.now code.now working.old }
    requires room { most ≤ outs.old.spare }
    ensures { IsSome result → IsBetween program.now code.now working.new }
{
    let mut taken = 0;
    'instructions: while taken < most {
        taken += 1;
        match instruction(program, code, working) {
            Did::Went => {}
            Did::Emitted { channel, value } => outs.push(LogEntry::Out { channel, value }),
            Did::Acted => return None,
            Did::Ended => return Some(taken),
        }
    }
    None
}
