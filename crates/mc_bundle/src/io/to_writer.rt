//! Outputs over the writers of std. Contracts know the bytes that a writer into memory has, but not
//! those of standard output.

ghost use Rattle.std.specs.Prelude.{◌≡◌};

use crate::io::device::{DeviceFault, Output};
use std::io::Write;
use std::marker::Model;

/// An output over a writer. Each error of the writer is a failure, also an interrupted call.
#[derive(Debug, Drop)]
pub struct ToWriter<W: Write> {
    writer: W,
    failures: u64,
}

impl<W: Write> Model for ToWriter<W> {
    ghost use Rattle.mc_bundle.specs.Device.{OutputState};

    ghost Value = { OutputState };

    ghost view = { λ s. record { written = W.contents s.writer; failed = s.failures } };
}

impl<W: Write> ToWriter<W> {
    /// An output over the writer, with no failure yet.
    pub fn new(writer: W) -> ToWriter<W>
        ensures { result ≡ record { written = W.contents writer; failed = 0 } }
    {
        ToWriter {
            writer,
            failures: 0,
        }
    }

    /// Returns the writer, with the bytes that were written.
    pub fn into_inner(self) -> W
        ensures { W.contents result ≡ self.written }
    {
        let ToWriter {
            writer,
            failures: _,
        } = self;
        writer
    }
}

impl<W: Write> Output for ToWriter<W> {
    ghost written = { λ s. s.written };

    ghost failed = { λ s. s.failed };

    fn write(&mut self, text: &[u8]) -> Result<usize, DeviceFault> {
        match self.writer.write(text) {
            Ok(0) if !text.is_empty() => {
                self.failures += 1;
                Ok(0)
            }
            Ok(count) => Ok(count),
            Err(_) => {
                self.failures += 1;
                Err(DeviceFault)
            }
        }
    }

    fn failures(&self) -> u64 {
        self.failures
    }
}
