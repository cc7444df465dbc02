ghost use Rattle.std.specs.Prelude.{◌≡◌, ◌≤◌, ◌<◌, ℕ, IfOk, length, slice_index};

use cn_base::NoMemory;
use std::alloc::Global;
use std::marker::Model;

/// The bytes with which a board began. Zeros at the end take no memory.
#[derive(Drop)]
pub struct FirstImage {
    head: Vec<u8>,
    zeros: usize,
}

impl Model for FirstImage {
    ghost use Rattle.std.specs.Prelude.{List, ℕ, ◌++◌, replicate};

    ghost Value = { List ℕ };

    ghost view = { λ f. f.head.items ++ replicate f.zeros 0 };
}

// How many bytes are looked at together.
const PART: usize = 64;

// The greatest of some bytes, or 0.
fn greatest(bytes: &[u8]) -> u8
    ensures { (k : ℕ) → slice_index bytes.now k ≤ result }
{
    let mut most = 0;
    for byte in bytes {
        most = most.max(*byte);
    }
    most
}

// How many bytes come before the zeros at the end, of which fewer than a part may count among them.
fn head_len(image: &[u8]) -> usize
    ensures within { result ≤ length image.now }
    ensures zeros { (k : ℕ) → result ≤ k → slice_index image.now k ≡ 0 }
{
    let mut len = image.len();
    'parts: while len >= PART && greatest(&image[len - PART..len]) == 0 {
        len -= PART;
    }
    len
}

impl FirstImage {
    pub(crate) fn of(alloc: Global, image: &[u8]) -> Result<FirstImage, NoMemory>
        ensures image { IfOk result (λ first. first ≡ image.now) }
        ensures bytes { (k : ℕ) → slice_index image.now k < 256 }
    {
        let len = head_len(image);
        match image[..len].to_vec(alloc) {
            Ok(head) => Ok(FirstImage {
                head,
                zeros: image.len() - len,
            }),
            Err(_) => Err(NoMemory),
        }
    }
}
