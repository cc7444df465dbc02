ghost use Rattle.std.specs.Prelude.{◌≡◌, ◌≤◌, length};
ghost use Rattle.nv_memory.specs.Layout.{size_of};
ghost use Rattle.checkpoint_slots.specs.Slot.{IsMadeFor};
ghost use Rattle.checkpoint_slots.specs.Image.{committed_bytes, committed_slot, IsWellFormed};

use checkpoint_slots::{Slot, load};
use nv_memory::{Board, Layout};

/// Reads the committed slot, which is well formed, by the gate alone. It takes no memory.
pub fn recover<B: Board>(board: &B, layout: &Layout, into: &mut Slot)
    requires image { size_of layout.now ≤ length (B.state board.now).image }
    requires formed { IsWellFormed layout.now (committed_bytes layout.now (B.state board.now).image) }
    requires made { IsMadeFor layout.now into.old }
    ensures { into.new ≡ committed_slot layout.now (B.state board.now).image }
{
    load(board, layout, into);
}
