//! Why a bundle could not be read or written.

use std::fmt;
use thiserror::Error;

/// Why a bundle could not be read or written: the first fault from the front.
/// The number in front of each never changes.
#[derive(Clone, Copy, Debug, PartialEq, Eq, Error)]
pub enum BundleFault {
    /// (1) The first line isn't `mcaudit bundle 1`.
    NoMagic,
    /// (2) Where a line begins: no line feed in the next 96 bytes, or a line that is neither `end` nor
    /// that of a part. After a part: another byte than a line feed.
    BadPartLine,
    /// (3) The input ends before a part's last byte or its line feed.
    Truncated,
    /// (4) Where a line begins: fewer than 96 bytes are left, and none is a line feed.
    NoEnd,
    /// (5) A byte follows the line `end`.
    AfterEnd,
    /// (6) A part has more than 16,777,216 bytes, the bundle has more than 268,435,456 bytes, or there
    /// are more than 1,538 parts.
    TooLarge,
    /// (7) The input failed.
    Read,
    /// (8) Memory ran out.
    Memory,
    /// (9) The output returned an error, or took no byte.
    Write,
    /// (10) A call was made after a fault.
    Failed,
}

impl fmt::Display for BundleFault {
    /// Writes the fault's name.
    fn fmt<W: fmt::Write>(&self, f: &mut fmt::Formatter<W>) -> fmt::Result {
        fmt::Debug::fmt(self, f)
    }
}
