ghost use Rattle.std.specs.Prelude.{◌≡◌, ◌≤◌, ◌<◌, length};

use super::*;
use checkpoint_slots::{Slot, selected, well_formed};
use nv_memory::{AnyBoard, Board, Cost, Device, Fill, Layout};
use std::alloc::Global;
use std::test::Fail;

fn cost(ticks: u32, units: u32) -> Cost
    requires some { 1 ≤ ticks }
    requires few { ticks ≤ 1000 }
    requires units { units ≤ 1000000 }
{
    Cost {
        ticks,
        bound: units,
        actual: units,
    }
}

fn device() -> Device {
    Device {
        cap: 100,
        start: 100,
        resume: 0,
        log: 2,
        p: 10,
        q: 3,
        fill: Fill::of(&[0]),
        basic: cost(1, 1),
        memory: cost(1, 2),
        out: cost(1, 4),
        write: cost(1, 3),
        wake: cost(2, 5),
    }
}

fn layout() -> Layout
    ensures words { result.words ≡ 1 }
    ensures tasks { result.tasks ≡ 1 }
    ensures events { result.events ≡ 0 }
{
    Layout {
        words: 1,
        tasks: 1,
        events: 0,
        log: 1,
        format: 1,
        base: 64,
    }
}

// What the committed slot of an image says.
#[derive(Clone, Copy)]
struct Found {
    selected: u8,
    len: u32,
    steps: u32,
    pc: Option<u32>,
    word: i32,
    post: u16,
}

fn recovered(alloc: Global, image: Vec<u8>) -> Result<Found, Fail>
    requires { length image.items < 4294967296 }
{
    let layout = layout();
    let Ok(board) = AnyBoard::new(alloc, device(), 10, image, Vec::new(alloc)) else {
        return Err("no memory".into());
    };
    let Ok(mut slot) = Slot::with_shape(alloc, &layout) else {
        return Err("no memory".into());
    };
    if board.size() < layout.size() || !well_formed(&board, &layout) {
        return Err("not well formed".into());
    }
    recover(&board, &layout, &mut slot);
    Ok(Found {
        selected: selected(&board),
        len: slot.len,
        steps: slot.steps,
        pc: slot.pc,
        word: slot.word(0),
        post: slot.post(0),
    })
}

#[test]
fn the_selected_slot_is_recovered(rt: HostRuntime) -> Result<(), Fail> {
    let alloc = rt.alloc();
    let mut image = vec![in alloc; 0u8; 208]?;
    image[0] = 0x03;
    image[128] = 1;
    image[132] = 46;
    image[136] = 9;
    image[140] = 0xfe;
    image[141] = 0xff;
    image[142] = 0xff;
    image[143] = 0xff;
    image[144] = 2;
    let found = recovered(alloc, image)?;
    assert!(rt; (found.selected, found.len, found.steps) == (1, 1, 46));
    assert!(rt; found.pc == Some(9));
    assert!(rt; (found.word, found.post) == (-2, 2));
    Ok(())
}
