ghost use Rattle.std.specs.Prelude.{◌≤◌, ◌<◌, length};

use super::*;
use cn_base::{Fill, NoMemory};
use harvest_trace::{fails, trace};
use nv_memory::{Answer, Board, Class, Cost, Device, Op};
use std::alloc::Global;
use std::test::Fail;

fn cost(ticks: u32, units: u32) -> Cost
    requires some { 1 ≤ ticks }
    requires few { ticks ≤ 1000 }
    requires units { units ≤ 1000000 }
{
    Cost {
        ticks,
        bound: units,
        actual: units,
    }
}

fn device(start: u32) -> Device
    requires { start ≤ 100 }
{
    Device {
        cap: 100,
        start,
        resume: 0,
        log: 100,
        p: 10,
        q: 3,
        fill: Fill::of(&[0]),
        basic: cost(1, 1),
        memory: cost(1, 2),
        out: cost(1, 4),
        write: cost(3, 3),
        wake: cost(2, 5),
    }
}

pub(crate) fn board(
    alloc: Global,
    start: u32,
    image: Vec<u8>,
    trace_rows: &[u8],
    fail_rows: &[u8],
) -> Result<ModelBoard, NoMemory>
    requires start { start ≤ 100 }
    requires image { length image.items < 4294967296 }
{
    let Ok(trace) = trace(alloc, trace_rows) else {
        return Err(NoMemory);
    };
    let Ok(fails) = fails(alloc, fail_rows) else {
        return Err(NoMemory);
    };
    ModelBoard::new(alloc, trace, fails, device(start), image)
}

#[test]
fn a_lost_write_leaves_its_fill(rt: HostRuntime) -> Result<(), Fail> {
    let alloc = rt.alloc();
    let image = vec![in alloc; 1u8; 5]?;
    let rows = b"ticks,harvest,extra,sample\n3,2,0,0\n100,1,0,0\n";
    let Ok(mut board) = board(alloc, 50, image, rows, b"tick,fill\n3,07FF\n") else {
        return Err("no memory".into());
    };
    assert!(rt; !board.on());
    assert!(rt; board.wake() == Answer::Done);
    assert_eq!(rt; board.stored(), 49);
    assert!(rt; board.on());
    assert!(rt; board.size() == 5);
    assert!(rt; board.write(1, &[2, 3, 4]) == Answer::Lost);
    assert_eq!(rt; board.tick(), 4);
    assert_eq!(rt; board.stored(), 49);
    assert_eq!(rt; board.losses(), 1);
    assert!(rt; !board.on());
    assert!(rt; board.size() == 5);
    let left = [
        board.read(0),
        board.read(1),
        board.read(2),
        board.read(3),
        board.read(4),
    ];
    assert!(rt; left == [1, 7, 255, 7, 1]);
    Ok(())
}

#[test]
fn a_million_ticks_of_sleep_are_a_million_entries(rt: HostRuntime) -> Result<(), Fail> {
    let alloc = rt.alloc();
    let rows = b"ticks,harvest,extra,sample\n1000000,0,0,0\n";
    let Ok(mut board) = board(alloc, 100, Vec::new(alloc), rows, b"tick,fill\n350,00\n") else {
        return Err("no memory".into());
    };
    assert!(rt; board.tick() == 0);
    assert!(rt; board.sleep_to(1_000_000, 1_000) == Answer::Done);
    assert_eq!(rt; board.tick(), 1_000_000);
    assert_eq!(rt; board.stored(), 100);
    assert_eq!(rt; board.losses(), 0);
    assert!(rt; board.entries() == 1_000_000);
    let last = board.entry(999_999);
    assert!(rt; matches!(last.op, Op::Sleep));
    assert_eq!(rt; last.tick, 999_999);
    assert_eq!(rt; last.stored, 100);
    assert!(rt; board.sleep_to(1_000_001, 1_000) == Answer::Over);
    assert_eq!(rt; board.entries(), 1_000_000);
    Ok(())
}

#[test]
fn sleep_stops_where_enough_is_stored(rt: HostRuntime) -> Result<(), Fail> {
    let alloc = rt.alloc();
    let rows = b"ticks,harvest,extra,sample\n3,4,0,0\n17,0,0,0\n";
    let Ok(mut board) = board(alloc, 10, Vec::new(alloc), rows, b"tick,fill\n1,00\n") else {
        return Err("no memory".into());
    };
    assert!(rt; board.tick() == 0);
    assert!(rt; board.sleep_to(20, 20) == Answer::Done);
    assert_eq!(rt; board.tick(), 3);
    assert_eq!(rt; board.stored(), 22);
    assert!(rt; board.entries() == 3);
    let second = board.entry(1);
    assert_eq!(rt; second.tick, 1);
    assert_eq!(rt; second.stored, 14);
    Ok(())
}
