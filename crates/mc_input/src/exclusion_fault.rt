//! The faults of reading a domain from a folder with routers excluded.

ghost use Rattle.std.specs.Prelude.{◌≡◌};
ghost use Rattle.mc_input.specs.declared.fault.InputFault.TheVariants.{Memory};
ghost use Rattle.mc_input.specs.declared.source_fault.SourceFault.TheVariants.{Input};
ghost use Rattle.mc_input.specs.declared.exclusion_fault.ExclusionFault.TheVariants.{Source};

use crate::fault::InputFault;
use crate::source_fault::SourceFault;
use std::alloc::{AllocError, AllocFailed};

/// Why no domain is read from a folder with routers excluded.
/// The number in front of each never changes.
#[derive(Clone, Copy, Debug, PartialEq, Eq)]
pub enum ExclusionFault {
    /// (1) The files are refused, the source failed or memory ran out.
    Source(SourceFault),
    /// (2) No router of the topology has the excluded name with this number, counted from 1.
    NoSuchRouter(u32),
}

impl From<SourceFault> for ExclusionFault {
    ghost from_gives = { λ source fault. fault ≡ Source source };

    fn from(fault: SourceFault) -> ExclusionFault {
        ExclusionFault::Source(fault)
    }
}

impl From<AllocError> for ExclusionFault {
    ghost from_gives = { λ _ fault. fault ≡ Source (Input Memory) };

    fn from(_refused: AllocError) -> ExclusionFault {
        ExclusionFault::Source(SourceFault::Input(InputFault::Memory))
    }
}

impl<T: Drop> From<AllocFailed<T>> for ExclusionFault {
    ghost from_gives = { λ _ fault. fault ≡ Source (Input Memory) };

    fn from(_refused: AllocFailed<T>) -> ExclusionFault {
        ExclusionFault::Source(SourceFault::Input(InputFault::Memory))
    }
}
