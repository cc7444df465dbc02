//! The head of a saved image.

ghost use Rattle.std.specs.Prelude.{◌≡◌, ◌≤◌, ◌<◌, ◌+◌, ◌*◌, ◌↔◌, IsTrue, length, codes, take, IfErr, OnOk};
ghost use Rattle.nv_memory.specs.Layout.{size_of};
ghost use Rattle.checkpoint_slots.specs.Numbers.{number_at};
ghost use Rattle.reference_run.specs.Reference.{Setting};
ghost use Rattle.cn_resume.specs.Fit.{HasHead, HasSize, HoldsBefore, IsRefused, Purpose, counted_length, purpose_of};
ghost use Rattle.cn_resume.specs.declared.fault.ImageKind.TheVariants as kind;

use crate::fault::{ImageFault, ImageKind};
use nv_memory::Layout;

// The bytes of a file that are looked at, but for one.
const MOST_BYTES: usize = 16_777_216;

/// Number `k` of a file.
pub(crate) fn number(file: &[u8], k: usize) -> u32
    requires within { 4 * k + 4 ≤ length file.now }
    requires few { k < 4 }
    ensures { result ≡ number_at file.now k }
{
    let at = 4 * k;
    u32::from_le_bytes([file[at], file[at + 1], file[at + 2], file[at + 3]])
}

fn has_head(file: &[u8]) -> bool
    ensures { IsTrue result ↔ HasHead file.now }
{
    file.len() >= 4 && file[0] == b'C' && file[1] == b'N' && file[2] == b'I' && file[3] == b'1'
}

fn has_size(layout: &Layout, file: &[u8]) -> bool
    ensures { IsTrue result ↔ HasSize layout.now file.now }
{
    file.len() == 16 + layout.size() as usize && number(file, 3) == 0
}

fn counted_length(file: &[u8]) -> u64
    ensures { result ≡ counted_length file.now }
{
    file.len().min(MOST_BYTES + 1) as u64
}

/// The first four conditions: the head, the size, the tick and the stored units.
pub(crate) fn check_head(
    layout: &Layout,
    cap: u32,
    life: u32,
    file: &[u8],
) -> Result<(), ImageFault>
    ensures met { OnOk result ((s : Setting) → HoldsBefore (purpose_of s layout.now cap life) file.now kind.Slot) }
    ensures refused { IfErr result (λ fault. (s : Setting) → IsRefused (purpose_of s layout.now cap life) file.now fault) }
{
    if !has_head(file) {
        return Err(ImageFault::BadImage(ImageKind::Head, 0));
    }
    if !has_size(layout, file) {
        return Err(ImageFault::BadImage(ImageKind::Size, counted_length(file)));
    }
    let tick = number(file, 1);
    if tick > life {
        return Err(ImageFault::BadImage(ImageKind::Tick, u64::from(tick)));
    }
    let stored = number(file, 2);
    if stored > cap {
        return Err(ImageFault::BadImage(ImageKind::Stored, u64::from(stored)));
    }
    Ok(())
}
