//! Eight bytes of an image that are kept up with what is written into it.

ghost use Rattle.std.specs.Prelude.{◌≡◌, true, ◌+◌, ◌≤◌, ◌<◌, ℕ, List, ◌∷◌, [], replicate, length, slice_index};
ghost use Rattle.std.specs.Int.{w32, from_le_bytes};
ghost use Rattle.cn_report.specs.Bytes.{byte_then};

use nv_memory::Board;

/// Eight bytes of an image, from some place on.
#[derive(Clone, Copy, Debug)]
pub(crate) struct Window {
    pub(crate) bytes: [u8; 8],
}

// The byte at a place after a write.
fn byte_after(byte: u8, place: u64, at: u32, left: &[u8]) -> u8
    ensures { result ≡ byte_then byte place at left.now }
{
    let at = u64::from(at);
    if place < at || left.len() as u64 <= place - at {
        byte
    } else {
        left[(place - at) as usize]
    }
}

// Whether a write ends before the window that stands at this place, or begins behind it.
fn is_apart(place: u32, at: u32, left: &[u8]) -> bool
    ensures { result ≡ true → (k : ℕ) → k < 8 → (byte : ℕ) → byte_then byte (place + k) at left.now ≡ byte }
{
    let from = u64::from(at);
    let behind = u64::from(place) + 8;
    behind <= from || from + left.len() as u64 <= u64::from(place)
}

impl Window {
    ghost use Rattle.nv_memory.specs.Bytes.{written};
    ghost use Rattle.cn_report.specs.Windows.{Shows};

    /// Eight zeros.
    pub(crate) fn blank() -> Window
        ensures { result.bytes ≡ replicate 8 0 }
    {
        Window { bytes: [0; 8] }
    }

    /// The bytes from a place on of the image that a board holds.
    pub(crate) fn of<B: Board>(board: &B, at: u32) -> Window
        requires { at + 8 ≤ length (B.state board.now).image }
        ensures { Shows (B.state board.now).image at result }
    {
        let _sound = board.size();
        let mut bytes = [0; 8];
        for k in 0..8 {
            bytes[k] = board.read(at + k as u32);
        }
        Window { bytes }
    }

    /// Takes over what a write leaves in its range. The window stands at this place.
    pub(crate) fn follow(&mut self, place: u32, at: u32, left: &[u8])
        ensures { (image : List ℕ) → Shows image place self.old → Shows (written at left.now image) place self.new }
    {
        if is_apart(place, at, left) {
            return;
        }
        for k in 0..8 {
            let held = self.bytes[k];
            self.bytes[k] = byte_after(held, u64::from(place) + k as u64, at, left);
        }
    }

    /// The first four bytes as a number.
    pub(crate) fn first_number(&self) -> u32
        ensures { result ≡ from_le_bytes w32 (slice_index self.now.bytes 0 ∷ slice_index self.now.bytes 1 ∷ slice_index self.now.bytes 2 ∷ slice_index self.now.bytes 3 ∷ []) }
    {
        u32::from_le_bytes([self.bytes[0], self.bytes[1], self.bytes[2], self.bytes[3]])
    }

    /// The last four bytes as a number.
    pub(crate) fn second_number(&self) -> u32
        ensures { result ≡ from_le_bytes w32 (slice_index self.now.bytes 4 ∷ slice_index self.now.bytes 5 ∷ slice_index self.now.bytes 6 ∷ slice_index self.now.bytes 7 ∷ []) }
    {
        u32::from_le_bytes([self.bytes[4], self.bytes[5], self.bytes[6], self.bytes[7]])
    }
}
