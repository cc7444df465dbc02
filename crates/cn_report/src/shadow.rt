use crate::heads::Heads;
use checkpoint_slots::Slot;
use cn_base::NoMemory;
use nv_memory::{Board, Layout};
use std::alloc::Global;

/// Room for the slots that a report reads back, and what it keeps of the image with which a resumed run begins.
#[derive(Drop)]
pub struct Shadow {
    pub(crate) slot: Slot,
    pub(crate) heads: Heads,
}

impl Shadow {
    ghost use Rattle.std.specs.Prelude.{◌≤◌, length, IfOk};
    ghost use Rattle.nv_memory.specs.Layout.{size_of};
    ghost use Rattle.checkpoint_slots.specs.Slot.{IsMadeFor};
    ghost use Rattle.cn_report.specs.Kept.{HasKept};

    /// Room for the slots of this layout.
    pub fn start(alloc: Global, layout: &Layout) -> Result<Shadow, NoMemory>
        ensures { IfOk result (λ shadow. IsMadeFor layout.now shadow.slot) }
    {
        match Slot::with_shape(alloc, layout) {
            Ok(slot) => Ok(Shadow {
                slot,
                heads: Heads::fresh(),
            }),
            Err(refused) => Err(refused),
        }
    }

    /// Keeps the gate and both slots of the board's image as it is now. Called before a run goes on from that image, whose report is
    /// written with this shadow. The image has at least the layout's size, and the shadow is made for the layout. Takes no memory.
    pub fn keep<B: Board>(&mut self, board: &B, layout: &Layout)
        requires image { size_of layout.now ≤ length (B.state board.now).image }
        requires made { IsMadeFor layout.now self.old.slot }
        ensures kept { HasKept layout.now (B.state board.now).image self.new }
        ensures made { IsMadeFor layout.now self.new.slot }
    {
        self.heads = Heads::of(board, layout);
    }
}
