//! Tasks, by the interpreter and by the machine.

use crate::running::{compiled, interpreted};
use crate::sources::{LIMITS, program_of};
use cat_program::LogEntry;
use std::test::Fail;

fn out(channel: u8, value: i32) -> LogEntry {
    LogEntry::Out { channel, value }
}

/// What the limits put out, in 9 steps.
fn wanted() -> [LogEntry; 6] {
    [
        out(0, 5),
        out(0, 0),
        out(0, 0),
        out(0, i32::MIN),
        out(0, -3),
        out(0, -1),
    ]
}

#[test]
fn the_interpreter_goes_by_steps(rt: HostRuntime) -> Result<(), Fail> {
    let program = program_of(rt.alloc(), LIMITS)?;
    let (taken, outs) = interpreted(rt.alloc(), &program, 100)?;
    assert_eq!(rt; taken, 9);
    assert!(rt; outs.entries() == wanted().as_slice());
    Ok(())
}

#[test]
fn the_machine_goes_by_sections(rt: HostRuntime) -> Result<(), Fail> {
    let program = program_of(rt.alloc(), LIMITS)?;
    let (taken, outs) = compiled(rt.alloc(), &program, 100)?;
    assert_eq!(rt; taken, 9);
    assert!(rt; outs.entries() == wanted().as_slice());
    Ok(())
}
