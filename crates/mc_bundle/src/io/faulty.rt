//! Devices for tests, which read or write few bytes at a time and fail after a set number of them.

ghost use Rattle.std.specs.Prelude.{◌≡◌, [], Some};

use crate::io::device::{DeviceFault, Input, Output};
use std::alloc::Global;
use std::marker::Model;

/// An input in memory that gives few bytes at a time, and fails after a set number of them.
#[derive(Debug, Drop)]
pub struct FaultyInput<'a> {
    bytes: &'a [u8],
    piece: usize,
    before_fault: usize,
    failures: u64,
}

impl<'a> Model for FaultyInput<'a> {
    ghost use Rattle.std.specs.Prelude.{Some};
    ghost use Rattle.mc_bundle.specs.Device.{InputState};

    ghost Value = { InputState };

    ghost view = { λ s. record { remaining = Some s.bytes.now; failed = s.failures } };
}

impl<'a> FaultyInput<'a> {
    /// An input that gives at most `piece` of the bytes at a time, but at least one, and fails once
    /// it has given `before_fault` in all.
    pub fn new(bytes: &'a [u8], piece: usize, before_fault: usize) -> FaultyInput<'a>
        ensures { result ≡ record { remaining = Some bytes.now; failed = 0 } }
    {
        FaultyInput {
            bytes,
            piece,
            before_fault,
            failures: 0,
        }
    }
}

impl<'a> Input for FaultyInput<'a> {
    ghost remaining = { λ s. s.remaining };

    ghost failed = { λ s. s.failed };

    fn read(&mut self, buffer: &mut [u8]) -> Result<usize, DeviceFault> {
        if self.before_fault == 0 {
            self.failures += 1;
            return Err(DeviceFault);
        }
        let count = buffer
            .len()
            .min(self.bytes.len())
            .min(self.piece.max(1))
            .min(self.before_fault);
        let (front, rest) = self.bytes.split_at(count);
        buffer[..count].copy_from_slice(front);
        self.bytes = rest;
        self.before_fault -= count;
        Ok(count)
    }

    fn failures(&self) -> u64 {
        self.failures
    }
}

/// What an output does once it takes no more bytes.
#[derive(Clone, Copy, Debug, PartialEq, Eq)]
pub enum Stop {
    /// It returns an error.
    Error,
    /// It returns 0.
    TakesNone,
}

/// An output into memory that takes few bytes at a time, and stops after a set number of them.
#[derive(Debug, Drop)]
pub struct FaultyOutput {
    taken: Vec<u8>,
    piece: usize,
    before_stop: usize,
    stop: Stop,
    failures: u64,
}

impl Model for FaultyOutput {
    ghost use Rattle.std.specs.Prelude.{Some};
    ghost use Rattle.mc_bundle.specs.Device.{OutputState};

    ghost Value = { OutputState };

    ghost view = { λ s. record { written = Some s.taken.items; failed = s.failures } };
}

impl FaultyOutput {
    /// An output that takes at most `piece` bytes at a time, and stops after `before_stop` in all. With a
    /// `piece` of 0 it stops at once. A call whose allocation is refused takes nothing and returns an error,
    /// whatever `stop` is.
    pub fn new(alloc: Global, piece: usize, before_stop: usize, stop: Stop) -> FaultyOutput
        ensures { result ≡ record { written = Some []; failed = 0 } }
    {
        FaultyOutput {
            taken: Vec::new(alloc),
            piece,
            before_stop,
            stop,
            failures: 0,
        }
    }

    /// The bytes that were written.
    pub fn taken(&self) -> &[u8]
        ensures { self.now.written ≡ Some result.now }
    {
        &self.taken
    }
}

impl Output for FaultyOutput {
    ghost written = { λ s. s.written };

    ghost failed = { λ s. s.failed };

    fn write(&mut self, text: &[u8]) -> Result<usize, DeviceFault> {
        let count = text.len().min(self.piece).min(self.before_stop);
        if count == 0 && !text.is_empty() {
            self.failures += 1;
            return match self.stop {
                Stop::Error => Err(DeviceFault),
                Stop::TakesNone => Ok(0),
            };
        }
        if self.taken.extend_from_slice(&text[..count]).is_err() {
            self.failures += 1;
            return Err(DeviceFault);
        }
        self.before_stop -= count;
        Ok(count)
    }

    fn failures(&self) -> u64 {
        self.failures
    }
}
