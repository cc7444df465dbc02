ghost use Rattle.std.specs.Prelude.{◌≡◌, ◌≤◌};
ghost use Rattle.nv_log.specs.Record.{EntryFits};

use super::*;
use cat_program::LogEntry;
use nv_memory::{Answer, AnyBoard, Board, Cost, Device, Fill, Layout};
use std::alloc::Global;
use std::test::Fail;

fn cost(ticks: u32, units: u32) -> Cost
    requires some { 1 ≤ ticks }
    requires few { ticks ≤ 1000 }
    requires units { units ≤ 1000000 }
{
    Cost {
        ticks,
        bound: units,
        actual: units,
    }
}

fn layout() -> Layout
    ensures old { result.format ≡ 1 }
{
    Layout {
        words: 1,
        tasks: 1,
        events: 0,
        log: 2,
        format: 1,
        base: 64,
    }
}

fn device() -> Device {
    Device {
        cap: 100,
        start: 100,
        resume: 0,
        log: 2,
        p: 10,
        q: 3,
        fill: Fill::of(&[0]),
        basic: cost(1, 1),
        memory: cost(1, 2),
        out: cost(1, 4),
        write: cost(1, 3),
        wake: cost(2, 5),
    }
}

// Appends an entry where the board is on and the layout has room.
fn appended(
    board: &mut AnyBoard,
    layout: &Layout,
    place: u32,
    entry: &LogEntry,
    by: By,
) -> Option<Put>
    requires fits { EntryFits layout.now entry.now }
{
    if !board.on() || board.size() < layout.size() || place > layout.log {
        return None;
    }
    Some(append(board, layout, place, entry, by))
}

#[test]
fn entries_are_spelled(rt: HostRuntime) -> Result<(), Fail> {
    let alloc = rt.alloc();
    let layout = layout();
    let image = vec![in alloc; 7u8; 224]?;
    let Ok(mut board) = AnyBoard::new(alloc, device(), 10, image, Vec::new(alloc)) else {
        return Err("no memory".into());
    };
    assert!(rt; !board.on());
    assert!(rt; board.wake() == Answer::Done);
    let ran = LogEntry::Ran {
        event: 1,
        version: 0,
        steps: 46,
        start: 451,
        index: 1,
    };
    let out = LogEntry::Out {
        channel: 2,
        value: 23,
    };
    assert!(rt; appended(&mut board, &layout, 0, &ran, By::Write) == Some(Put::Done));
    assert!(rt; appended(&mut board, &layout, 1, &out, By::Instr { pc: 5 }) == Some(Put::Done));
    assert!(rt; appended(&mut board, &layout, 2, &out, By::Write) == Some(Put::Full));
    assert_eq!(rt; board.entries(), 3);
    let spelled = [
        0x02, 0x01, 0, 0, 0x2e, 0, 0, 0, 0xc3, 0x01, 0, 0, 0x01, 0, 0, 0, 0x01, 0x02, 0, 0, 0x17,
        0, 0, 0, 0, 0, 0, 0, 0, 0, 0, 0,
    ];
    for k in 0..32 {
        let at = layout.log_at() + k;
        assert!(rt; at < board.size());
        assert_eq!(rt; board.read(at), spelled[k as usize]);
    }
    Ok(())
}
