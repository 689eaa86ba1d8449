//! The faults of a domain's bundle.

ghost use Rattle.std.specs.Prelude.{◌≡◌};
ghost use Rattle.mc_input.specs.declared.fault.InputFault.TheVariants.{Memory};

use mc_bundle::{BundleFault, PartName};
use mc_igmp::ListFault;
use mc_tables::TableFault;
use mc_text::Memory as NoMemory;
use mc_topology::TopologyFault;
use std::alloc::{AllocError, AllocFailed};

/// Why a bundle is refused as a domain's: its first fault, in the order of the reading.
/// The number in front of each never changes.
#[derive(Clone, Copy, Debug, PartialEq, Eq)]
pub enum InputFault {
    /// (1) The framing of the bundle is wrong.
    Bundle(BundleFault),
    /// (2) A part at this place, counted from 1, has another name than it should, is missing, or is
    /// one too many.
    Parts(u32),
    /// (3) The topology is refused.
    Topology(TopologyFault),
    /// (4) The table of a router's vifs is refused, in the part with this name.
    Vif(PartName, TableFault),
    /// (5) The forwarding cache of a router is refused, in the part with this name.
    Cache(PartName, TableFault),
    /// (6) The report list of a LAN is refused, in the part with this name.
    Reports(PartName, ListFault),
    /// (7) Memory ran out.
    Memory,
}

impl From<AllocError> for InputFault {
    ghost from_gives = { λ _ fault. fault ≡ Memory };

    fn from(_refused: AllocError) -> InputFault {
        InputFault::Memory
    }
}

impl<T: Drop> From<AllocFailed<T>> for InputFault {
    ghost from_gives = { λ _ fault. fault ≡ Memory };

    fn from(_refused: AllocFailed<T>) -> InputFault {
        InputFault::Memory
    }
}

impl From<NoMemory> for InputFault {
    ghost from_gives = { λ _ fault. fault ≡ Memory };

    fn from(_refused: NoMemory) -> InputFault {
        InputFault::Memory
    }
}
