//! Inputs over the readers of std. Contracts know the bytes of a reader in memory, but not those of
//! standard input.

ghost use Rattle.std.specs.Prelude.{◌≡◌};

use crate::io::device::{DeviceFault, Input};
use std::io::Read;
use std::marker::Model;

/// An input over a reader. Each error of the reader is a failure, also an interrupted call.
#[derive(Debug, Drop)]
pub struct FromReader<R: Read> {
    reader: R,
    failures: u64,
}

impl<R: Read> Model for FromReader<R> {
    ghost use Rattle.mc_bundle.specs.Device.{InputState};

    ghost Value = { InputState };

    ghost view = { λ s. record { remaining = R.remaining s.reader; failed = s.failures } };
}

impl<R: Read> FromReader<R> {
    /// An input over the reader, with no failure yet.
    pub fn new(reader: R) -> FromReader<R>
        ensures { result ≡ record { remaining = R.remaining reader; failed = 0 } }
    {
        FromReader {
            reader,
            failures: 0,
        }
    }

    /// Returns the reader, with the bytes that were not read yet.
    pub fn into_inner(self) -> R
        ensures { R.remaining result ≡ self.remaining }
    {
        let FromReader {
            reader,
            failures: _,
        } = self;
        reader
    }
}

impl<R: Read> Input for FromReader<R> {
    ghost remaining = { λ s. s.remaining };

    ghost failed = { λ s. s.failed };

    fn read(&mut self, buffer: &mut [u8]) -> Result<usize, DeviceFault> {
        match self.reader.read(buffer) {
            Ok(count) => Ok(count),
            Err(_) => {
                self.failures += 1;
                Err(DeviceFault)
            }
        }
    }

    fn failures(&self) -> u64 {
        self.failures
    }
}
