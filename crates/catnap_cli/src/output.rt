//! Standard output.

ghost use Rattle.std.specs.Prelude.{◌≡◌, None};

use cn_base::{Sink, WriteFail};
use std::io::{Stdout, Write};

/// Standard output, which tells nothing.
#[derive(Drop)]
pub struct StdoutSink {
    out: Stdout,
    faults: u64,
}

impl StdoutSink {
    /// Takes no memory.
    pub fn new(rt: &HostRuntime) -> StdoutSink {
        StdoutSink {
            out: rt.stdout(),
            faults: 0,
        }
    }
}

impl Sink for StdoutSink {
    ghost written = { λ _. None };

    ghost faults = { λ s. s.faults };

    fn write(&mut self, bytes: &[u8]) -> Result<usize, WriteFail> {
        if bytes.is_empty() {
            return Ok(0);
        }
        match self.out.write(bytes) {
            Ok(count) if count > 0 => Ok(count),
            _ => {
                self.faults = self.faults.saturating_add(1);
                Err(WriteFail)
            }
        }
    }

    fn faults(&self) -> u64 {
        self.faults
    }
}
