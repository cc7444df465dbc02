//! Files of the system.

ghost use Rattle.std.specs.Prelude.{◌≡◌, ◌≤◌, ◌+◌, None, IfOk, length};

use cn_base::{Inputs, ReadFail};
use std::alloc::Global;
use std::fs;
use std::io::{self, ErrorKind, Read};

/// How many bytes are asked for at once.
const PART: usize = 16_384;

/// Files of the system, by their paths. It tells neither what they hold nor what was asked.
#[derive(Drop)]
pub struct FileInputs<'a> {
    rt: &'a HostRuntime,
    faults: u64,
}

/// Want of memory, or any other fault.
fn fail_of(error: &io::Error) -> ReadFail {
    if error.kind() == ErrorKind::OutOfMemory {
        ReadFail::NoMemory
    } else {
        ReadFail::Failed
    }
}

/// The first `limit + 1` bytes of a file, or all of it where it is shorter.
fn front<F: Read>(alloc: Global, file: &mut F, limit: usize) -> Result<Vec<u8>, ReadFail>
    requires { limit ≤ 2147483647 }
    ensures short { IfOk result (λ bytes. length bytes.items ≤ limit + 1) }
{
    let mut bytes = Vec::new(alloc);
    let mut part = [0u8; PART];
    for _ in 0..=limit {
        let left = (limit + 1 - bytes.len()).min(PART);
        let count = match file.read(&mut part[..left]) {
            Ok(count) => count,
            Err(error) => return Err(fail_of(&error)),
        };
        if count == 0 {
            break;
        }
        bytes.extend_from_slice(&part[..count])?;
    }
    Ok(bytes)
}

impl<'a> FileInputs<'a> {
    /// Takes no memory.
    pub fn new(rt: &'a HostRuntime) -> FileInputs<'a> {
        FileInputs { rt, faults: 0 }
    }

    fn front_of(&self, alloc: Global, name: &str, limit: usize) -> Result<Vec<u8>, ReadFail>
        requires { limit ≤ 2147483647 }
        ensures short { IfOk result (λ bytes. length bytes.items ≤ limit + 1) }
    {
        match fs::open(self.rt, name) {
            Ok(mut file) => front(alloc, &mut file, limit),
            Err(error) => Err(fail_of(&error)),
        }
    }
}

impl<'a> Inputs for FileInputs<'a> {
    ghost files = { λ _. None };

    ghost asked = { λ _. None };

    ghost faults = { λ f. f.faults };

    fn read(&mut self, alloc: Global, name: &str, limit: usize) -> Result<Vec<u8>, ReadFail> {
        let outcome = self.front_of(alloc, name, limit);
        if matches!(outcome, Err(ReadFail::Failed)) {
            self.faults = self.faults.saturating_add(1);
        }
        outcome
    }

    fn faults(&self) -> u64 {
        self.faults
    }
}
