//! The fault of a run that gives no answer.

ghost use Rattle.std.specs.Prelude.{◌≡◌};
ghost use Rattle.mc_commands.specs.declared.fault.RunFault.TheVariants.{Memory};
ghost use Rattle.mc_commands.specs.PackingRun.{from_pack_fault};
ghost use Rattle.mc_commands.specs.RunFault.{from_cert_fault, from_source_fault, from_input_fault};
ghost use Rattle.mc_commands.specs.RunFault.{from_list_fault, from_read_fault, from_exclusion_fault};

use mc_bundle::{BundleFault, PartName, ReadFault};
use mc_cert::{CertFault, CertFaultKind};
use mc_files::PackFault;
use mc_igmp::{ListFault, ListFaultKind};
use mc_input::{ExclusionFault, InputFault, SourceFault};
use mc_tables::TableFault;
use mc_text::Memory as NoMemory;
use mc_topology::TopologyFault;
use thiserror::Error;

/// Why a run gives no answer. The number in front of each never changes.
#[derive(Clone, Copy, Debug, PartialEq, Eq, Error)]
pub enum RunFault {
    /// (1) The framing of the bundle is wrong.
    #[error("refused: bundle: {0}")]
    Bundle(BundleFault),
    /// (2) The part at this place, counted from 1, has another name than it should, is missing, or
    /// is one too many.
    #[error("refused: parts: {0}")]
    Parts(u32),
    /// (3) The topology is refused.
    #[error("refused: topology: {0}")]
    Topology(TopologyFault),
    /// (4) The table of a router's vifs is refused, in the part with this name.
    #[error("refused: {0}: {1}")]
    Vif(PartName, TableFault),
    /// (5) The forwarding cache of a router is refused, in the part with this name.
    #[error("refused: {0}: {1}")]
    Cache(PartName, TableFault),
    /// (6) The report list of a LAN is refused, in the part with this name.
    #[error("refused: {0}: {1}")]
    PartReports(PartName, ListFault),
    /// (6) The report list that is the whole input is refused.
    #[error("refused: igmp: {0}")]
    Reports(ListFault),
    /// (7) The certificate is refused.
    #[error("refused: certificate: {0}")]
    Certificate(CertFault),
    /// (8) The topology lists no flow with this number, counted from 1.
    #[error("refused: flow: {0}")]
    NoSuchFlow(u32),
    /// (9) The input failed.
    #[error("failed: read")]
    Read,
    /// (10) The output failed, or took no byte of a nonempty text.
    #[error("failed: write")]
    Write,
    /// (11) Memory ran out.
    #[error("no memory")]
    Memory,
    /// (12) No router of the topology has the name at this place, counted from 1, in the list of the
    /// excluded routers.
    #[error("refused: without: {0}")]
    NoSuchRouter(u32),
}

/// A refused bundle. `Memory` becomes the run's `Memory`.
impl From<InputFault> for RunFault {
    ghost from_gives = { λ input fault. fault ≡ from_input_fault input };

    fn from(fault: InputFault) -> RunFault {
        match fault {
            InputFault::Bundle(fault) => RunFault::Bundle(fault),
            InputFault::Parts(place) => RunFault::Parts(place),
            InputFault::Topology(fault) => RunFault::Topology(fault),
            InputFault::Vif(part, fault) => RunFault::Vif(part, fault),
            InputFault::Cache(part, fault) => RunFault::Cache(part, fault),
            InputFault::Reports(part, fault) => RunFault::PartReports(part, fault),
            InputFault::Memory => RunFault::Memory,
        }
    }
}

/// A refused bundle, or a folder's refused files.
impl From<SourceFault> for RunFault {
    ghost from_gives = { λ files fault. fault ≡ from_source_fault files };

    fn from(fault: SourceFault) -> RunFault {
        match fault {
            SourceFault::Input(fault) => RunFault::from(fault),
            SourceFault::Read => RunFault::Read,
        }
    }
}

/// A folder's refused files, without the excluded routers.
impl From<ExclusionFault> for RunFault {
    ghost from_gives = { λ files fault. fault ≡ from_exclusion_fault files };

    fn from(fault: ExclusionFault) -> RunFault {
        match fault {
            ExclusionFault::Source(fault) => RunFault::from(fault),
            ExclusionFault::NoSuchRouter(place) => RunFault::NoSuchRouter(place),
        }
    }
}

/// Files that can't be packed. Whatever is too large becomes a fault of the bundle.
impl From<PackFault> for RunFault {
    ghost from_gives = { λ packing fault. fault ≡ from_pack_fault packing };

    fn from(fault: PackFault) -> RunFault {
        match fault {
            PackFault::Topology(fault) => RunFault::Topology(fault),
            PackFault::TooLarge => RunFault::Bundle(BundleFault::TooLarge),
            PackFault::Read => RunFault::Read,
            PackFault::Write => RunFault::Write,
            PackFault::Memory => RunFault::Memory,
        }
    }
}

/// A refused certificate. `Memory` becomes the run's `Memory`.
impl From<CertFault> for RunFault {
    ghost from_gives = { λ certificate fault. fault ≡ from_cert_fault certificate };

    fn from(fault: CertFault) -> RunFault {
        match fault.kind {
            CertFaultKind::Memory => RunFault::Memory,
            _ => RunFault::Certificate(fault),
        }
    }
}

/// A refused report list. `Memory` becomes the run's `Memory`.
impl From<ListFault> for RunFault {
    ghost from_gives = { λ list fault. fault ≡ from_list_fault list };

    fn from(fault: ListFault) -> RunFault {
        match fault.kind {
            ListFaultKind::Memory => RunFault::Memory,
            _ => RunFault::Reports(fault),
        }
    }
}

impl From<NoMemory> for RunFault {
    ghost from_gives = { λ _ fault. fault ≡ Memory };

    fn from(_refused: NoMemory) -> RunFault {
        RunFault::Memory
    }
}

impl From<ReadFault> for RunFault {
    ghost from_gives = { λ read fault. fault ≡ from_read_fault read };

    fn from(fault: ReadFault) -> RunFault {
        match fault {
            ReadFault::Read => RunFault::Read,
            ReadFault::Memory => RunFault::Memory,
        }
    }
}
