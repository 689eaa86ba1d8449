//! A slot of a domain: which of its parts it is, and the two names that the part has.

ghost use Rattle.std.specs.Prelude.{◌≡◌, ◌≢◌, ◌++◌, ℕ, Bool, IfOk, IfSome, IsTrue, List, None, codes};
ghost use Rattle.std.specs.Str.{bytes_eq};
ghost use Rattle.std.specs.String.{string_bytes};
ghost use Rattle.mc_bundle.specs.Bundle.{IsPartName};
ghost use Rattle.mc_files.specs.Layout.{cache_slot, certificate_slot, file_name};
ghost use Rattle.mc_files.specs.Layout.{kind_word, part_name, reports_slot};
ghost use Rattle.mc_files.specs.Layout.{table_slot, topology_slot, vif_slot};
ghost use Rattle.mc_topology.specs.Names.{is_name};

use mc_bundle::PartName;
use std::alloc::{AllocError, Global};
use std::marker::Model;

/// What a part of a domain is.
#[derive(Clone, Copy, Debug, PartialEq, Eq)]
enum SlotKind {
    /// The topology.
    Topology,
    /// A router's table of vifs.
    Vifs,
    /// A router's forwarding cache.
    Cache,
    /// The reports of a LAN.
    Reports,
    /// The certificate.
    Certificate,
}

impl SlotKind {
    /// Its word, with which both names of a part of this kind begin.
    fn word(self) -> &'static str
        ensures { result.now ≡ kind_word self }
    {
        match self {
            SlotKind::Topology => "topology",
            SlotKind::Vifs => "vif",
            SlotKind::Cache => "cache",
            SlotKind::Reports => "igmp",
            SlotKind::Certificate => "certificate",
        }
    }
}

/// One of the parts of a domain: its kind, and the router or LAN that it belongs to.
#[derive(Debug, Drop)]
pub struct Slot<'a> {
    kind: SlotKind,
    owner: Option<&'a str>,
}

impl<'a> Model for Slot<'a> {
    ghost use Rattle.std.specs.Prelude.{option_map};
    ghost use Rattle.mc_bundle.specs.Bundle.{IsPartName};
    ghost use Rattle.mc_files.specs.Layout.{Slot, kind_word, part_name};

    ghost Value = { Slot };

    ghost view = { λ s. record { kind = kind_word s.kind; owner = option_map (λ o. o.now) s.owner } };

    ghost invariant = { λ s. IsPartName (part_name (record {
      kind = kind_word s.kind;
      owner = option_map (λ o. o.now) s.owner;
    })) };
}

impl<'a> Slot<'a> {
    /// The slot of the topology.
    pub fn topology() -> Slot<'static>
        ensures { result ≡ topology_slot }
    {
        Slot {
            kind: SlotKind::Topology,
            owner: None,
        }
    }

    /// The slot of the vifs of the router with this name.
    pub fn vifs(router: &'a str) -> Slot<'a>
        requires valid { IsTrue (is_name router.now) }
        ensures value { result ≡ vif_slot router.now }
    {
        Slot {
            kind: SlotKind::Vifs,
            owner: Some(router),
        }
    }

    /// The slot of the forwarding cache of the router with this name.
    pub fn cache(router: &'a str) -> Slot<'a>
        requires valid { IsTrue (is_name router.now) }
        ensures value { result ≡ cache_slot router.now }
    {
        Slot {
            kind: SlotKind::Cache,
            owner: Some(router),
        }
    }

    /// The slot of the reports of the LAN with this name.
    pub fn reports(lan: &'a str) -> Slot<'a>
        requires valid { IsTrue (is_name lan.now) }
        ensures value { result ≡ reports_slot lan.now }
    {
        Slot {
            kind: SlotKind::Reports,
            owner: Some(lan),
        }
    }

    /// The slot of the certificate.
    pub(crate) fn certificate() -> Slot<'static>
        ensures { result ≡ certificate_slot }
    {
        Slot {
            kind: SlotKind::Certificate,
            owner: None,
        }
    }

    /// The router whose table is in it, and whether that is the table of vifs, or else the cache; `None`
    /// where no router's table is in it.
    pub fn router_table(&self) -> Option<(&'a str, bool)>
        ensures table { IfSome result (λ table. self.now ≡ table_slot table.1 table.0.now) }
        ensures none { result ≡ None → (vifs : Bool) (router : List ℕ) → self.now ≢ table_slot vifs router }
    {
        let Some(owner) = self.owner else {
            return None;
        };
        match self.kind {
            SlotKind::Vifs => Some((owner, true)),
            SlotKind::Cache => Some((owner, false)),
            SlotKind::Topology | SlotKind::Reports | SlotKind::Certificate => None,
        }
    }

    /// Whether these are the bytes of its name in a bundle.
    pub fn is_named(&self, name: &[u8]) -> bool
        ensures { result ≡ bytes_eq name.now (part_name self.now) }
    {
        match self.owner {
            None => name == self.kind.word().as_bytes(),
            Some(owner) => is_joined_by_slash(name, self.kind.word().as_bytes(), owner.as_bytes()),
        }
    }

    /// Its name in a bundle.
    pub fn part_name(&self, alloc: Global) -> Result<PartName, AllocError>
        ensures { IfOk result (λ name. name ≡ part_name self.now) }
    {
        let kind = self.kind.word();
        match self.owner {
            None => Ok(to_part_name(kind)),
            Some(owner) => {
                let name = format!(in alloc; "{kind}/{owner}")?;
                Ok(to_part_name(&name))
            }
        }
    }

    /// The name of its file in a folder.
    pub fn file_name(&self, alloc: Global) -> Result<String, AllocError>
        ensures { IfOk result (λ name. string_bytes name ≡ file_name self.now) }
    {
        let kind = self.kind.word();
        match self.owner {
            None => String::from_str(alloc, kind),
            Some(owner) => format!(in alloc; "{kind}-{owner}"),
        }
    }
}

/// A text as the name of a part.
fn to_part_name(name: &str) -> PartName
    requires valid { IsPartName name.now }
    ensures value { result ≡ name.now }
{
    let Some(name) = PartName::new(name.as_bytes()) else {
        unreachable!()
    };
    name
}

/// Whether the bytes are the first text and then the second.
fn is_joined(bytes: &[u8], front: &[u8], rest: &[u8]) -> bool
    ensures { result ≡ bytes_eq bytes.now (front.now ++ rest.now) }
{
    match bytes.strip_prefix(front) {
        Some(after) => after == rest,
        None => false,
    }
}

/// Whether the bytes are the first text, a slash and the second text.
fn is_joined_by_slash(bytes: &[u8], kind: &[u8], owner: &[u8]) -> bool
    ensures { result ≡ bytes_eq bytes.now (kind.now ++ (codes "/" ++ owner.now)) }
{
    match bytes.strip_prefix(kind) {
        Some(after) => is_joined(after, b"/", owner),
        None => false,
    }
}
