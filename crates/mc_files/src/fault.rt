//! The faults of reading a file, and of packing a bundle.

ghost use Rattle.std.specs.Prelude.{◌≡◌};
ghost use Rattle.mc_files.specs.Files.{from_read_fault};
ghost use Rattle.mc_files.specs.PackReading.{from_file_fault};
ghost use Rattle.mc_files.specs.declared.fault.FileFault.TheVariants as file;
ghost use Rattle.mc_files.specs.declared.fault.PackFault.TheVariants as packing;

use mc_bundle::ReadFault;
use mc_topology::TopologyFault;
use std::alloc::{AllocError, AllocFailed};
use thiserror::Error;

/// Why a file isn't read. The number in front of each never changes.
#[derive(Clone, Copy, Debug, PartialEq, Eq, Error)]
pub enum FileFault {
    /// (1) The file isn't there, or can't be read.
    #[error("Failed")]
    Failed,
    /// (2) The file has more bytes than the limit.
    #[error("TooLarge")]
    TooLarge,
    /// (3) Memory ran out.
    #[error("Memory")]
    Memory,
}

impl From<AllocError> for FileFault {
    ghost from_gives = { λ _ fault. fault ≡ file.Memory };

    fn from(_refused: AllocError) -> FileFault {
        FileFault::Memory
    }
}

impl From<ReadFault> for FileFault {
    ghost from_gives = { λ read fault. fault ≡ from_read_fault read };

    fn from(fault: ReadFault) -> FileFault {
        match fault {
            ReadFault::Read => FileFault::Failed,
            ReadFault::Memory => FileFault::Memory,
        }
    }
}

/// Why no bundle is packed. The number in front of each never changes.
#[derive(Clone, Copy, Debug, PartialEq, Eq)]
pub enum PackFault {
    /// (1) The topology is refused.
    Topology(TopologyFault),
    /// (2) A file has more than 16,777,216 bytes, or the bundle more than 268,435,456.
    TooLarge,
    /// (3) A file isn't there, or can't be read.
    Read,
    /// (4) The output failed, or took no byte of a nonempty text.
    Write,
    /// (5) Memory ran out.
    Memory,
}

impl From<FileFault> for PackFault {
    ghost from_gives = { λ fault pack_fault. pack_fault ≡ from_file_fault fault };

    fn from(fault: FileFault) -> PackFault {
        match fault {
            FileFault::Failed => PackFault::Read,
            FileFault::TooLarge => PackFault::TooLarge,
            FileFault::Memory => PackFault::Memory,
        }
    }
}

impl From<AllocError> for PackFault {
    ghost from_gives = { λ _ fault. fault ≡ packing.Memory };

    fn from(_refused: AllocError) -> PackFault {
        PackFault::Memory
    }
}

impl<T: Drop> From<AllocFailed<T>> for PackFault {
    ghost from_gives = { λ _ fault. fault ≡ packing.Memory };

    fn from(_refused: AllocFailed<T>) -> PackFault {
        PackFault::Memory
    }
}
