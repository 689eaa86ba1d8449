//! Inputs and outputs of bytes. They may fail, and count their failures.

ghost use Rattle.std.specs.Prelude.{◌≡◌, ◌<◌, ◌∷◌, ℕ, List, [], Option, Some, codes};
ghost use Rattle.std.specs.Borrow.{GName};
ghost use Rattle.std.specs.Io.{ReadsAtMost, WritesAtMost};
ghost use Rattle.std.specs.Io.KnownBytes.{ReadConsumes, WriteAppends};
ghost use Rattle.mc_bundle.specs.Device.{failures_after_read, failures_after_write};

use std::fmt;

/// A call of a device failed. The cause isn't known.
#[derive(Clone, Copy, Debug, PartialEq, Eq)]
pub struct DeviceFault;

impl fmt::Display for DeviceFault {
    ghost output = { λ _. Some (codes "the device failed") };

    fn fmt<W: fmt::Write>(&self, f: &mut fmt::Formatter<W>) -> fmt::Result {
        write!(f, "the device failed")
    }
}

impl std::error::Error for DeviceFault {}

/// A device that bytes are read from.
pub trait Input {
    // the bytes that are still to be read, if they are known
    ghost remaining: { Self → Option (List ℕ) };

    // how many calls failed
    ghost failed: { Self → ℕ };

    // the references that it is reached through
    ghost borrows: { Self → List GName } = { λ _. [] };

    /// Reads the next bytes to the front of the buffer, and returns how many. It returns 0 only at
    /// the end of the input or for an empty buffer. A call that returns an error reads no byte. It
    /// may be called while the count of failures is below `u64::MAX`.
    fn read(&mut self, buffer: &mut [u8]) -> Result<usize, DeviceFault>
        requires failures { failed self.old < u64.MAX }
        ensures same { borrows self.new ≡ borrows self.old }
        ensures bound { ReadsAtMost result buffer.new }
        ensures bytes { ReadConsumes (remaining self.old) (remaining self.new) result buffer.new }
        ensures failures { failed self.new ≡ failures_after_read result (failed self.old) };

    /// The number of calls of `read` that returned an error.
    fn failures(&self) -> u64
        ensures { result ≡ failed self.now };
}

impl<R: Input> Input for &mut R {
    ghost remaining = { λ r. R.remaining r.now };

    ghost failed = { λ r. R.failed r.now };

    ghost borrows = { λ r. r.ghost_name ∷ R.borrows r.now };

    fn read(&mut self, buffer: &mut [u8]) -> Result<usize, DeviceFault> {
        Input::read(&mut **self, buffer)
    }

    fn failures(&self) -> u64 {
        Input::failures(&**self)
    }
}

/// A device that bytes are written to.
pub trait Output {
    // the bytes that were written, if they are known
    ghost written: { Self → Option (List ℕ) };

    // how many calls failed
    ghost failed: { Self → ℕ };

    // the references that it is reached through
    ghost borrows: { Self → List GName } = { λ _. [] };

    /// Writes bytes from the front of the text, and returns how many. A call that returns an error
    /// writes none. It may be called while the count of failures is below `u64::MAX`.
    fn write(&mut self, text: &[u8]) -> Result<usize, DeviceFault>
        requires failures { failed self.old < u64.MAX }
        ensures same { borrows self.new ≡ borrows self.old }
        ensures bound { WritesAtMost result text.now }
        ensures bytes { WriteAppends (written self.old) (written self.new) result text.now }
        ensures failures { failed self.new ≡ failures_after_write result text.now (failed self.old) };

    /// The number of calls of `write` that returned an error, or wrote no byte of a nonempty text.
    fn failures(&self) -> u64
        ensures { result ≡ failed self.now };
}

impl<W: Output> Output for &mut W {
    ghost written = { λ w. W.written w.now };

    ghost failed = { λ w. W.failed w.now };

    ghost borrows = { λ w. w.ghost_name ∷ W.borrows w.now };

    fn write(&mut self, text: &[u8]) -> Result<usize, DeviceFault> {
        Output::write(&mut **self, text)
    }

    fn failures(&self) -> u64 {
        Output::failures(&**self)
    }
}
