//! Why a topology is refused.

ghost use Rattle.std.specs.Prelude.{◌≡◌, Some};
ghost use Rattle.mc_topology.specs.Answer.{out_of_memory};
ghost use Rattle.mc_topology.specs.Faults.{locate_fault, section_text};

use std::alloc::{AllocError, AllocFailed};
use std::fmt;
use thiserror::Error;

/// The section of a topology that a fault is in.
#[derive(Clone, Copy, Debug, PartialEq, Eq)]
pub enum Section {
    /// The text as a whole, its keys and its version.
    Top,
    /// The list of LANs.
    Lans,
    /// The routers.
    Router,
    /// The interfaces.
    Interface,
    /// The sources.
    Source,
    /// The flows.
    Flow,
}

impl fmt::Display for Section {
    ghost output = { λ section. Some (section_text section) };

    fn fmt<W: fmt::Write>(&self, f: &mut fmt::Formatter<W>) -> fmt::Result {
        f.write_str(match self {
            Section::Top => "top",
            Section::Lans => "lans",
            Section::Router => "router",
            Section::Interface => "interface",
            Section::Source => "source",
            Section::Flow => "flow",
        })
    }
}

/// What is wrong with a topology. The number in front of each kind never changes. Where a kind has a place
/// of its own, brackets name it, as in (`top`, 0): the section and the number of the fault.
#[derive(Clone, Copy, Debug, PartialEq, Eq)]
pub enum TopologyFaultKind {
    /// (1) The text is no UTF-8 or no TOML (`top`, 0).
    NotToml,
    /// (2) The version isn't 1 (`top`, 0).
    BadVersion,
    /// (3) A required key is missing.
    MissingKey,
    /// (4) A table has a key that no rule gives a meaning.
    UnknownKey,
    /// (5) A value is of the wrong type, or an order is neither `little` nor `big`.
    BadKind,
    /// (6) A text can't be the name of a LAN, of a router or of a device.
    BadName,
    /// (7) An earlier LAN or router has the name, or an earlier source the address.
    RepeatedName,
    /// (8) No router or LAN has the name, or no source the address.
    UnknownName,
    /// (9) An earlier interface has the router and the device.
    RepeatedInterface,
    /// (10) A text isn't the address that it has to be: of a host that may send, or of a group that
    /// routers forward.
    BadAddress,
    /// (11) A time to live isn't 1 to 255.
    BadTtl,
    /// (12) There is no flow (`flow`, 0).
    NoFlow,
    /// (13) An earlier flow has the source and the group.
    RepeatedFlow,
    /// (14) The text has too many bytes, or would take too much time or memory to read as TOML (`top`,
    /// 0), or a section has too many rows (its number 0).
    TooMany,
    /// (15) Memory ran out (`top`, 0).
    Memory,
}

impl TopologyFaultKind {
    /// The fault of this kind in the row of a section with this number, counted from 1, or in the
    /// section as a whole, with the number 0.
    pub(crate) fn at(self, section: Section, number: u32) -> TopologyFault
        ensures { result ≡ record { section = section; number = number; kind = self } }
    {
        TopologyFault {
            section,
            number,
            kind: self,
        }
    }
}

/// The first fault of a topology's text, and its place.
#[derive(Clone, Copy, Debug, PartialEq, Eq, Error)]
#[error("{section} {number}: {kind:?}")]
pub struct TopologyFault {
    /// The section.
    pub section: Section,
    /// The row of the section, counted from 1, or 0 for the section as a whole.
    pub number: u32,
    /// What is wrong there.
    pub kind: TopologyFaultKind,
}

/// The result of a step, with its fault placed in the row of a section with this number.
pub(crate) fn locate_fault<T>(
    section: Section,
    number: u32,
    step: Result<T, TopologyFaultKind>,
) -> Result<T, TopologyFault>
    ensures { result ≡ locate_fault section number step }
{
    step.map_err(|kind| kind.at(section, number))
}

impl From<AllocError> for TopologyFault {
    ghost from_gives = { λ _ fault. fault ≡ out_of_memory };

    fn from(_refused: AllocError) -> TopologyFault {
        TopologyFaultKind::Memory.at(Section::Top, 0)
    }
}

impl<T: Drop> From<AllocFailed<T>> for TopologyFault {
    ghost from_gives = { λ _ fault. fault ≡ out_of_memory };

    fn from(_refused: AllocFailed<T>) -> TopologyFault {
        TopologyFaultKind::Memory.at(Section::Top, 0)
    }
}
