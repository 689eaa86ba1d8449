//! The faults of reading a domain from a bundle or a folder.

ghost use Rattle.std.specs.Prelude.{◌≡◌};
ghost use Rattle.mc_input.specs.SourceFault.{from_bundle_fault, from_file_fault};
ghost use Rattle.mc_input.specs.declared.fault.InputFault.TheVariants.{Memory};
ghost use Rattle.mc_input.specs.declared.source_fault.SourceFault.TheVariants.{Input};

use crate::fault::InputFault;
use mc_bundle::BundleFault;
use mc_files::FileFault;
use mc_text::Memory as NoMemory;
use std::alloc::{AllocError, AllocFailed};

/// Why no domain is read from a bundle or a folder's files: the first fault, in the order of the
/// reading. The number in front of each never changes.
#[derive(Clone, Copy, Debug, PartialEq, Eq)]
pub enum SourceFault {
    /// (1) The texts are refused, or memory ran out. A file's fault has the name of the part that it
    /// would be in a bundle, and a file of over 16,777,216 bytes is reported as a too large bundle.
    Input(InputFault),
    /// (2) The input failed, or a file isn't there or can't be read.
    Read,
}

impl From<InputFault> for SourceFault {
    ghost from_gives = { λ input fault. fault ≡ Input input };

    fn from(fault: InputFault) -> SourceFault {
        SourceFault::Input(fault)
    }
}

impl From<BundleFault> for SourceFault {
    ghost from_gives = { λ bundle fault. fault ≡ from_bundle_fault bundle };

    fn from(fault: BundleFault) -> SourceFault {
        match fault {
            BundleFault::Read => SourceFault::Read,
            BundleFault::Memory => SourceFault::Input(InputFault::Memory),
            fault => SourceFault::Input(InputFault::Bundle(fault)),
        }
    }
}

impl From<FileFault> for SourceFault {
    ghost from_gives = { λ file fault. fault ≡ from_file_fault file };

    fn from(fault: FileFault) -> SourceFault {
        match fault {
            FileFault::Failed => SourceFault::Read,
            FileFault::TooLarge => SourceFault::Input(InputFault::Bundle(BundleFault::TooLarge)),
            FileFault::Memory => SourceFault::Input(InputFault::Memory),
        }
    }
}

impl From<NoMemory> for SourceFault {
    ghost from_gives = { λ _ fault. fault ≡ Input Memory };

    fn from(_refused: NoMemory) -> SourceFault {
        SourceFault::Input(InputFault::Memory)
    }
}

impl From<AllocError> for SourceFault {
    ghost from_gives = { λ _ fault. fault ≡ Input Memory };

    fn from(_refused: AllocError) -> SourceFault {
        SourceFault::Input(InputFault::Memory)
    }
}

impl<T: Drop> From<AllocFailed<T>> for SourceFault {
    ghost from_gives = { λ _ fault. fault ≡ Input Memory };

    fn from(_refused: AllocFailed<T>) -> SourceFault {
        SourceFault::Input(InputFault::Memory)
    }
}
