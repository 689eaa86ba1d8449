//! Standard error, as an output.

ghost use Rattle.std.specs.Prelude.{◌≡◌, None};

use mc_bundle::{DeviceFault, Output};
use std::marker::Model;
use std::str;

/// An output over standard error. Contracts don't know its bytes. It writes each text whole, or fails,
/// also at bytes that aren't UTF-8.
#[derive(Drop)]
pub(crate) struct ToStandardError<'r, R: Eprint> {
    rt: &'r R,
    failures: u64,
}

impl<'r, R: Eprint> Model for ToStandardError<'r, R> {
    ghost use Rattle.std.specs.Prelude.{None};
    ghost use Rattle.mc_bundle.specs.Device.{OutputState};

    ghost Value = { OutputState };

    ghost view = { λ s. record { written = None; failed = s.failures } };
}

impl<'r, R: Eprint> ToStandardError<'r, R> {
    /// An output that hasn't failed yet.
    pub(crate) fn new(rt: &'r R) -> ToStandardError<'r, R>
        ensures { result ≡ record { written = None; failed = 0 } }
    {
        ToStandardError { rt, failures: 0 }
    }
}

impl<'r, R: Eprint> Output for ToStandardError<'r, R> {
    ghost written = { λ s. s.written };

    ghost failed = { λ s. s.failed };

    fn write(&mut self, text: &[u8]) -> Result<usize, DeviceFault> {
        if let Ok(shown) = str::from_utf8(text) {
            if eprint!(self.rt; "{shown}").is_ok() {
                return Ok(text.len());
            }
        }
        self.failures += 1;
        Err(DeviceFault)
    }

    fn failures(&self) -> u64 {
        self.failures
    }
}
