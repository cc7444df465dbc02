//! Events, by the interpreter and by the machine.

use crate::running::{handled, has_entry, has_version, start};
use crate::sources::{METER, program_of};
use cat_eval::{State, run_event};
use cat_program::{LogEntry, Outs};
use std::alloc::Global;
use std::test::Fail;

fn out(channel: u8, value: i32) -> LogEntry {
    LogEntry::Out { channel, value }
}

/// What the first version of the meter's event puts out for a payload of 20.
fn wanted() -> [LogEntry; 4] {
    [out(1, 20), out(3, 2), out(3, 3), out(4, 0)]
}

/// What a version of the meter's event puts out by the machine.
fn by_machine(alloc: Global, version: u8, payload: i32) -> Result<Outs, Fail> {
    let program = program_of(alloc, METER)?;
    let (code, mut working) = start(alloc, &program)?;
    if !has_version(&program, 0, version) || !has_entry(&code, 0, version) {
        return Err("no such version".into());
    }
    let outs = handled(alloc, &program, &code, &mut working, 0, version, payload)?;
    Ok(outs)
}

/// What a version of the meter's event puts out by the interpreter.
fn by_interpreter(alloc: Global, version: u8, payload: i32) -> Result<Outs, Fail> {
    let program = program_of(alloc, METER)?;
    let mut state = State::first(alloc, &program)?;
    if !has_version(&program, 0, version) {
        return Err("no such version".into());
    }
    let mut outs = Outs::with_room(alloc, program.most_outs(0, version))?;
    run_event(&program, &mut state, 0, version, payload, &mut outs);
    Ok(outs)
}

#[test]
fn the_machine_handles_an_event(rt: HostRuntime) -> Result<(), Fail> {
    let outs = by_machine(rt.alloc(), 0, 20)?;
    assert!(rt; outs.entries() == wanted().as_slice());
    let none = by_machine(rt.alloc(), 1, 7)?;
    assert!(rt; none.entries().is_empty());
    Ok(())
}

#[test]
fn the_interpreter_handles_an_event(rt: HostRuntime) -> Result<(), Fail> {
    let outs = by_interpreter(rt.alloc(), 0, 20)?;
    assert!(rt; outs.entries() == wanted().as_slice());
    let none = by_interpreter(rt.alloc(), 1, 7)?;
    assert!(rt; none.entries().is_empty());
    Ok(())
}
