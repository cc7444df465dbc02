ghost use Rattle.std.specs.Prelude.{◌≤◌, length};

use super::*;
use crate::total::made;
use cat_machine::{Code, Instr};
use cat_program::Operator;
use nv_memory::{Cost, Device, Fill};
use std::alloc::{AllocError, Global};
use std::test::Fail;

fn cost(ticks: u32, units: u32) -> Cost
    requires some { 1 ≤ ticks }
    requires few { ticks ≤ 1000 }
    requires units { units ≤ 1000000 }
{
    Cost {
        ticks,
        bound: units,
        actual: units,
    }
}

fn device(memory: Cost, out: Cost) -> Device {
    Device {
        cap: 200,
        start: 200,
        resume: 80,
        log: 100,
        p: 100,
        q: 20,
        fill: Fill::of(&[0]),
        basic: cost(1, 1),
        memory,
        out,
        write: cost(1, 3),
        wake: cost(2, 5),
    }
}

fn job(units: u64, ticks: u64) -> Job {
    Job { units, ticks }
}

// A sensor node. Its task sums four elements of a ring and puts out the mean. Its event `sample` puts a value into the ring,
// in two versions, and `tap` puts out its payload.
fn node(alloc: Global) -> Result<Code, AllocError> {
    let instrs = vec![in alloc;
        Instr::Begin(0),
        Instr::Push(0),
        Instr::Store(0),
        Instr::Push(0),
        Instr::Store(1),
        Instr::Load(0),
        Instr::Push(4),
        Instr::Operate(Operator::Lt),
        Instr::JumpZero(19),
        Instr::Load(1),
        Instr::Load(0),
        Instr::LoadAt { base: 3, len: 4 },
        Instr::Operate(Operator::Add),
        Instr::Store(1),
        Instr::Load(0),
        Instr::Push(1),
        Instr::Operate(Operator::Add),
        Instr::Store(0),
        Instr::Jump(5),
        Instr::Load(1),
        Instr::Push(4),
        Instr::Operate(Operator::Div),
        Instr::Out(2),
        Instr::End,
        Instr::Load(2),
        Instr::Payload,
        Instr::StoreAt { base: 3, len: 4 },
        Instr::Load(2),
        Instr::Push(1),
        Instr::Operate(Operator::Add),
        Instr::Store(2),
        Instr::Payload,
        Instr::Out(3),
        Instr::Post(0),
        Instr::End,
        Instr::Load(2),
        Instr::Payload,
        Instr::StoreAt { base: 3, len: 4 },
        Instr::Load(2),
        Instr::Push(1),
        Instr::Operate(Operator::Add),
        Instr::Store(2),
        Instr::Post(0),
        Instr::End,
        Instr::Payload,
        Instr::Out(1),
        Instr::End,
    ]?;
    let tasks = vec![in alloc; 0]?;
    let sample = vec![in alloc; 24, 35]?;
    let tap = vec![in alloc; 44]?;
    let versions = vec![in alloc; sample, tap]?;
    Ok(Code::of(instrs, tasks, versions))
}

#[test]
fn the_sensor_node_has_its_bounds(rt: HostRuntime) -> Result<(), Fail> {
    let alloc = rt.alloc();
    let code = node(alloc)?;
    let Ok(bounds) = code_bounds(alloc, &code, &device(cost(1, 2), cost(1, 4)), 1) else {
        return Err("memory".into());
    };
    let [sample, tap] = bounds.jobs() else {
        return Err("two events have jobs".into());
    };
    assert!(rt; sample.as_slice() == [job(31, 16), job(26, 14)].as_slice());
    assert!(rt; tap.as_slice() == [job(20, 8)].as_slice());
    assert_eq!(rt; bounds.section(), job(7, 5));
    assert_eq!(rt; bounds.checkpoint(), job(6, 2));
    assert_eq!(rt; bounds.wake(), job(5, 2));
    assert_eq!(rt; bounds.longest(), 5);
    Ok(())
}

// A handler with a choice whose ways have the greater units and the greater ticks, two turns around it, and then a repeat of
// no turns.
fn handler(alloc: Global) -> Result<Code, AllocError> {
    let instrs = vec![in alloc;
        Instr::Push(2),
        Instr::Turn(11),
        Instr::Load(0),
        Instr::JumpZero(7),
        Instr::Payload,
        Instr::Out(1),
        Instr::Jump(10),
        Instr::Payload,
        Instr::Store(0),
        Instr::Post(0),
        Instr::Jump(1),
        Instr::Push(0),
        Instr::Turn(15),
        Instr::Post(0),
        Instr::Jump(12),
        Instr::End,
    ]?;
    let version = vec![in alloc; 0]?;
    let versions = vec![in alloc; version]?;
    Ok(Code::of(instrs, Vec::new(alloc), versions))
}

#[test]
fn a_handler_takes_the_dearer_way_at_each_turn(rt: HostRuntime) -> Result<(), Fail> {
    let alloc = rt.alloc();
    let code = handler(alloc)?;
    let device = device(cost(5, 2), cost(1, 9));
    let bounds = made(alloc, &code, &device, 1)?;
    let [versions] = bounds.jobs() else {
        return Err("one event has jobs".into());
    };
    // Units: 1 + 2 * (1 + 2 + 11 + 1) + 1, then 2, then 1, and 14 around it. Ticks: 1 + 2 * (1 + 2 + 11 + 1) + 1, 2, 1, and 5.
    assert!(rt; versions.as_slice() == [job(49, 40)].as_slice());
    assert_eq!(rt; bounds.section(), job(0, 0));
    Ok(())
}

#[test]
fn the_longest_code_has_its_bounds(rt: HostRuntime) -> Result<(), Fail> {
    let alloc = rt.alloc();
    let instrs = vec![in alloc; Instr::Post(0); 60_000]?;
    let code = Code::of(instrs, Vec::new(alloc), Vec::new(alloc));
    let bounds = made(alloc, &code, &device(cost(1, 2), cost(1, 4)), 1)?;
    assert_eq!(rt; bounds.section(), job(2, 1));
    Ok(())
}
