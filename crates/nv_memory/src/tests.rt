ghost use Rattle.std.specs.Prelude.{◌≤◌, ◌≡◌, ◌<◌, length};

use super::*;
use cn_base::NoMemory;
use std::alloc::Global;
use std::test::Fail;

fn cost(ticks: u32, units: u32) -> Cost
    requires some { 1 ≤ ticks }
    requires few { ticks ≤ 1000 }
    requires units { units ≤ 1000000 }
{
    Cost {
        ticks,
        bound: units,
        actual: units,
    }
}

fn device(start: u32) -> Device
    requires { start ≤ 100 }
{
    Device {
        cap: 100,
        start,
        resume: 0,
        log: 100,
        p: 10,
        q: 3,
        fill: Fill::of(&[0]),
        basic: cost(1, 1),
        memory: cost(1, 2),
        out: cost(1, 4),
        write: cost(1, 3),
        wake: cost(2, 5),
    }
}

fn turn(lose: bool, harvest: u32) -> Turn {
    Turn {
        lose,
        fill: Fill::of(&[7, 9]),
        drawn: 3,
        harvest,
    }
}

fn board(alloc: Global, start: u32, image: Vec<u8>, script: Vec<Turn>) -> Result<AnyBoard, NoMemory>
    requires start { start ≤ 100 }
    requires image { length image.items < 4294967296 }
{
    AnyBoard::new(alloc, device(start), 20, image, script)
}

#[test]
fn sleep_stops_where_enough_is_stored(rt: HostRuntime) -> Result<(), Fail> {
    let alloc = rt.alloc();
    let script = vec![in alloc; turn(false, 4), turn(false, 4), turn(false, 4)]?;
    let Ok(mut board) = board(alloc, 10, Vec::new(alloc), script) else {
        return Err("no memory".into());
    };
    assert!(rt; board.tick() == 0);
    assert!(rt; board.sleep_to(20, 20) == Answer::Done);
    assert_eq!(rt; board.tick(), 3);
    assert_eq!(rt; board.stored(), 22);
    assert_eq!(rt; board.entries(), 3);
    Ok(())
}

#[test]
fn a_lost_write_leaves_its_fill(rt: HostRuntime) -> Result<(), Fail> {
    let alloc = rt.alloc();
    let script = vec![in alloc; turn(false, 0), turn(true, 0)]?;
    let Ok(mut board) = board(alloc, 50, vec![in alloc; 1u8; 5]?, script) else {
        return Err("no memory".into());
    };
    assert!(rt; !board.on());
    assert!(rt; board.wake() == Answer::Done);
    assert!(rt; board.on());
    assert!(rt; board.size() == 5);
    assert!(rt; board.write(1, &[2, 3, 4]) == Answer::Lost);
    assert!(rt; board.size() == 5);
    let left = [
        board.read(0),
        board.read(1),
        board.read(2),
        board.read(3),
        board.read(4),
    ];
    assert!(rt; left == [1, 7, 9, 7, 1]);
    assert!(rt; !board.on());
    assert_eq!(rt; board.losses(), 1);
    assert_eq!(rt; board.stored(), 44);
    Ok(())
}

// The entry at a place, if there is one.
fn entry_at(board: &AnyBoard, place: u32) -> Option<Entry> {
    if place < board.entries() {
        Some(board.entry(place))
    } else {
        None
    }
}

fn is_instr(entry: &Entry, class: Class, pc: u32) -> bool {
    match &entry.op {
        Op::Instr { class: c, pc: p } => *c == class && *p == pc,
        _ => false,
    }
}

#[test]
fn an_instruction_leaves_an_entry(rt: HostRuntime) -> Result<(), Fail> {
    let alloc = rt.alloc();
    let Ok(mut board) = board(alloc, 50, Vec::new(alloc), Vec::new(alloc)) else {
        return Err("no memory".into());
    };
    assert!(rt; !board.on());
    assert!(rt; board.wake() == Answer::Done);
    assert!(rt; board.on());
    assert!(rt; board.run(Class::Memory, 7) == Answer::Done);
    let Some(entry) = entry_at(&board, 1) else {
        return Err("no entry".into());
    };
    assert!(rt; is_instr(&entry, Class::Memory, 7));
    assert!(rt; (entry.tick, entry.stored, entry.drawn) == (2, 45, 2));
    assert!(rt; entry.ticks == 1 && !entry.lost);
    Ok(())
}
