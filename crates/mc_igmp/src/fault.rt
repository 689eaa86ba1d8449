//! Why a text is no report list.

ghost use Rattle.std.specs.Prelude.{◌≡◌, ◌↔◌, IsTrue};
ghost use Rattle.mc_igmp.specs.ReadingList.{IsMemory};

use std::alloc::{AllocError, AllocFailed};
use thiserror::Error;

/// What is wrong with a report list. The number in front of each never changes.
#[derive(Clone, Copy, Debug, PartialEq, Eq)]
pub enum ListFaultKind {
    /// (1) The line isn't hexadecimal, two digits for each byte.
    BadHex,
    /// (2) The message has fewer than 8 bytes.
    Short,
    /// (3) The message's checksum is wrong.
    BadChecksum,
    /// (4) The record doesn't end within the message.
    Truncated,
    /// (5) The record reports a change, whose meaning depends on earlier reports.
    StateChange,
    // (6) is no longer used: it refused reports of versions 1 and 2.
    /// (7) The text has more than 16,777,216 bytes (line 0), or more than 65,536 lines, or the line
    /// has more than 131,030 bytes.
    TooLarge,
    /// (8) No line feed ends the line.
    Unended,
    /// (9) Memory ran out (line 0).
    Memory,
}

/// Why a text is no report list, with the line and the record at fault. Both are counted from 1, and
/// are 0 if the fault isn't about a line or a record.
#[derive(Clone, Copy, Debug, PartialEq, Eq, Error)]
#[error("line {line} record {record_no}: {kind:?}")]
pub struct ListFault {
    /// The line, or 0.
    pub line: u32,
    /// The record of its message, or 0.
    pub record_no: u32,
    /// The kind of fault.
    pub kind: ListFaultKind,
}

impl ListFaultKind {
    /// The fault of this kind at a line and a record.
    pub(crate) fn at(self, line: u32, record_no: u32) -> ListFault
        ensures { result ≡ record { line = line; record_no = record_no; kind = self } }
    {
        ListFault {
            line,
            record_no,
            kind: self,
        }
    }
}

impl ListFault {
    /// Whether memory ran out.
    pub(crate) fn is_memory(self) -> bool
        ensures { IsTrue result ↔ IsMemory self }
    {
        self == ListFaultKind::Memory.at(0, 0)
    }
}

impl From<AllocError> for ListFault {
    ghost from_gives = { λ _ fault. IsMemory fault };

    fn from(_refused: AllocError) -> ListFault {
        ListFaultKind::Memory.at(0, 0)
    }
}

impl<T: Drop> From<AllocFailed<T>> for ListFault {
    ghost from_gives = { λ _ fault. IsMemory fault };

    fn from(_refused: AllocFailed<T>) -> ListFault {
        ListFaultKind::Memory.at(0, 0)
    }
}
