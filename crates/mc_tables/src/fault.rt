//! Why a kernel's table is refused.

ghost use Rattle.std.specs.Prelude.{◌≡◌};
ghost use Rattle.mc_tables.specs.declared.fault.TableFaultKind.TheVariants.{Memory};
ghost use Rattle.mc_tables.specs.Steps.{out_of_memory, fault_at};

use std::alloc::{AllocError, AllocFailed};
use thiserror::Error;

/// What is wrong with a table. The number in front of each never changes.
#[derive(Clone, Copy, Debug, PartialEq, Eq)]
pub enum TableFaultKind {
    /// (1) The first line's first word isn't the table's, or the text is empty.
    NoHeader,
    /// (2) No line feed ends the line.
    Unended,
    /// (3) The line has too few or too many words.
    WordCount,
    /// (4) The index isn't a number from 0 to 31.
    BadIndex,
    /// (5) The device isn't 1 to 15 bytes, none of them 0x09 to 0x0D, a space, `/` or `:`.
    BadDevice,
    /// (6) A counter isn't one to twenty digits, with one `-` before them allowed.
    BadCounter,
    /// (7) The flags aren't five to eight hexadecimal digits.
    BadFlags,
    /// (8) An address isn't eight hexadecimal digits.
    BadAddress,
    /// (9) An earlier line has the index.
    RepeatedIndex,
    /// (10) An earlier line has the device.
    RepeatedDevice,
    /// (11) The incoming vif is neither a number from 0 to 31 nor `-1`.
    BadIif,
    /// (12) An outgoing word isn't a number from 0 to 31, one colon and a threshold, or the row is
    /// unresolved.
    BadOif,
    /// (13) A threshold isn't a number from 1 to 254.
    BadThreshold,
    /// (14) An earlier word of the line has the outgoing vif.
    RepeatedOif,
    /// (15) An earlier line has the source and the group.
    RepeatedEntry,
    /// (16) The text has too many bytes or rows.
    TooLarge,
    /// (17) Memory ran out.
    Memory,
}

impl TableFaultKind {
    /// The fault of this kind at a line. `Memory` has no line and gets 0.
    pub(crate) fn at(self, line: u32) -> TableFault
        ensures { result ≡ fault_at line self }
    {
        match self {
            TableFaultKind::Memory => TableFault {
                line: 0,
                kind: TableFaultKind::Memory,
            },
            kind => TableFault { line, kind },
        }
    }
}

/// The first fault of a table.
#[derive(Clone, Copy, Debug, PartialEq, Eq, Error)]
#[error("line {line}: {kind:?}")]
pub struct TableFault {
    /// The line, counted from 1, or 0 if the fault has none.
    pub line: u32,
    /// What is wrong there.
    pub kind: TableFaultKind,
}

impl From<AllocError> for TableFaultKind {
    ghost from_gives = { λ _ kind. kind ≡ Memory };

    fn from(_refused: AllocError) -> TableFaultKind {
        TableFaultKind::Memory
    }
}

impl<T: Drop> From<AllocFailed<T>> for TableFaultKind {
    ghost from_gives = { λ _ kind. kind ≡ Memory };

    fn from(_refused: AllocFailed<T>) -> TableFaultKind {
        TableFaultKind::Memory
    }
}

impl From<AllocError> for TableFault {
    ghost from_gives = { λ _ fault. fault ≡ out_of_memory };

    fn from(_refused: AllocError) -> TableFault {
        TableFaultKind::Memory.at(0)
    }
}

impl<T: Drop> From<AllocFailed<T>> for TableFault {
    ghost from_gives = { λ _ fault. fault ≡ out_of_memory };

    fn from(_refused: AllocFailed<T>) -> TableFault {
        TableFaultKind::Memory.at(0)
    }
}

impl From<mc_text::Memory> for TableFault {
    ghost from_gives = { λ _ fault. fault ≡ out_of_memory };

    fn from(_refused: mc_text::Memory) -> TableFault {
        TableFaultKind::Memory.at(0)
    }
}
