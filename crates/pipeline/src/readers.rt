//! What is read of a program, part by part.

use crate::running::has_version;
use crate::sources::{METER, program_of};
use cat_program::{Program, Timing};
use std::test::Fail;

/// `int n = 1; int a[3]; bool high = false;`
fn has_variables(program: &Program) -> bool {
    let variables = program.variables();
    if variables.len() != 3 || program.words() != 5 {
        return false;
    }
    let array = &variables[1];
    array.name.as_str() == "a"
        && array.base == 1
        && array.len == 3
        && array.array
        && program.initial(0) == 1
        && program.initial(4) == 0
        && program.first_words() == [1, 0, 0, 0, 0].as_slice()
}

/// `task report`, which is started once. Its block ends first.
fn has_task(program: &Program) -> bool {
    if program.tasks() != 1 {
        return false;
    }
    let block = program.body(0);
    program.task_name(0) == "report"
        && program.started(0) == 1
        && program.first_posts() == [1].as_slice()
        && program.bodies() == [0].as_slice()
        && block == 0
        && program.block(block).len() == 1
}

/// `event sample spacing 50 deadline 10`, of two versions, and `degrade sample`.
fn has_event(program: &Program) -> bool {
    if program.events() != 1 {
        return false;
    }
    let event = program.event(0);
    event.name.as_str() == "sample"
        && event.timing == Timing::Spacing { least: 50 }
        && event.deadline == 10
        && event.versions == 2
        && program.mentions() == [0].as_slice()
}

/// Four blocks in the first version end before it, and none is in the second.
fn has_versions(program: &Program) -> bool {
    if !has_version(program, 0, 0) || !has_version(program, 0, 1) {
        return false;
    }
    let first = program.version(0, 0);
    let second = program.version(0, 1);
    first == 5
        && second == 6
        && program.versions().len() == 1
        && program.block(first).len() == 6
        && program.block(second).len() == 2
        && program.most_outs(0, 0) == 4
        && program.most_outs(0, 1) == 0
}

#[test]
fn a_program_is_read_as_declared(rt: HostRuntime) -> Result<(), Fail> {
    let program = program_of(rt.alloc(), METER)?;
    assert!(rt; has_variables(&program));
    assert!(rt; has_task(&program));
    assert!(rt; has_event(&program));
    assert!(rt; has_versions(&program));
    Ok(())
}
