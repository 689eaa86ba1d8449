//! Why a certificate is refused.

ghost use Rattle.std.specs.Prelude.{◌≡◌, Some};
ghost use Rattle.mc_cert.specs.Answer.{entry_place, out_of_memory};
ghost use Rattle.mc_cert.specs.Answer.{place_text};

use std::alloc::{AllocError, AllocFailed};
use std::fmt;
use thiserror::Error;

/// The place of a fault. Flows, trees and entries are counted from 1.
#[derive(Clone, Copy, Debug, PartialEq, Eq)]
pub enum At {
    /// The text as a whole, its keys, its version and its lists.
    Top,
    /// A flow.
    Flow(u32),
    /// An entry of a flow: the flow, and the entry (version 1).
    FlowEntry(u32, u32),
    /// A tree (version 2).
    Tree(u32),
    /// An entry of a tree: the tree, and the entry (version 2).
    TreeEntry(u32, u32),
}

impl At {
    /// The place of an entry of this flow or tree.
    pub(crate) fn entry(self, entry: u32) -> At
        ensures { result ≡ entry_place self entry }
    {
        match self {
            At::Top => At::Top,
            At::Flow(flow) | At::FlowEntry(flow, _) => At::FlowEntry(flow, entry),
            At::Tree(tree) | At::TreeEntry(tree, _) => At::TreeEntry(tree, entry),
        }
    }
}

impl fmt::Display for At {
    ghost output = { λ place. Some (place_text place) };

    fn fmt<W: fmt::Write>(&self, f: &mut fmt::Formatter<W>) -> fmt::Result {
        match self {
            At::Top => f.write_str("top"),
            At::Flow(flow) => write!(f, "flow {flow}"),
            At::FlowEntry(flow, entry) => write!(f, "flow {flow} entry {entry}"),
            At::Tree(tree) => write!(f, "tree {tree}"),
            At::TreeEntry(tree, entry) => write!(f, "tree {tree} entry {entry}"),
        }
    }
}

/// What is wrong with a certificate. The number in front of each never changes.
#[derive(Clone, Copy, Debug, PartialEq, Eq)]
pub enum CertFaultKind {
    /// (1) The text is no UTF-8 or no JSON (`top`).
    NotJson,
    /// (2) The version is neither 1 nor 2 (`top`).
    BadVersion,
    /// (3) A required key is missing.
    MissingKey,
    /// (4) An object has a key that no rule gives a meaning.
    UnknownKey,
    /// (5) A value is of the wrong type.
    BadKind,
    /// (6) A number isn't whole, or is out of its range.
    BadNumber,
    /// (7) No LAN or router has the name.
    UnknownName,
    /// (8) The flows aren't those of the topology, in its order.
    WrongFlows,
    /// (9) The text has too many bytes or trees (`top`), or a flow or a tree has too many entries.
    TooMany,
    /// (10) Memory ran out (`top`).
    Memory,
}

impl CertFaultKind {
    /// The fault of this kind at a place.
    pub(crate) fn at(self, place: At) -> CertFault
        ensures { result ≡ record { place = place; kind = self } }
    {
        CertFault { place, kind: self }
    }
}

/// The first fault of a certificate's text, and its place.
#[derive(Clone, Copy, Debug, PartialEq, Eq, Error)]
#[error("{place}: {kind:?}")]
pub struct CertFault {
    /// The place.
    pub place: At,
    /// What is wrong there.
    pub kind: CertFaultKind,
}

impl From<AllocError> for CertFault {
    ghost from_gives = { λ _ fault. fault ≡ out_of_memory };

    fn from(_refused: AllocError) -> CertFault {
        CertFaultKind::Memory.at(At::Top)
    }
}

impl<T: Drop> From<AllocFailed<T>> for CertFault {
    ghost from_gives = { λ _ fault. fault ≡ out_of_memory };

    fn from(_refused: AllocFailed<T>) -> CertFault {
        CertFaultKind::Memory.at(At::Top)
    }
}
