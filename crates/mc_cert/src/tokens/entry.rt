//! Reads the entries of a flow or a tree.

ghost use Rattle.std.specs.Prelude.{◌≡◌, None, IfSome, IfOk};
ghost use Rattle.serde_json.specs.Data.{Members, object};
ghost use Rattle.mc_topology.specs.Topology.{TopologyValue};
ghost use Rattle.mc_cert.specs.Denotation.{DenotesEntry, DenotesTree};
ghost use Rattle.mc_cert.specs.Tokens.{ReadsTo, IsForwarder, HoldsEntry};

use crate::entry::MAX_ENTRIES;
use crate::key::Key;
use crate::reached::Reached;
use crate::token_reader::TokenReader;
use crate::tokens::NotRead;
use crate::tokens::list::{TokenRows, read_list};
use crate::tokens::object::{Fields, read_object};
use crate::tokens::value::{lan_value, router_value, whole_value};
use mc_topology::{LanNo, RouterNo, Topology};
use std::alloc::Global;

/// What was read of an entry.
#[derive(Clone, Copy, Drop)]
struct EntryFields {
    lan: Option<LanNo>,
    need: Option<u8>,
    rank: Option<u8>,
    router: Option<RouterNo>,
    vif: Option<u8>,
}

impl Fields for EntryFields {
    ghost levels = { 0 };

    ghost holds = { λ t f. HoldsEntry t f.lan f.need f.rank f.router f.vif };

    fn read_field(
        self,
        _alloc: Global,
        topology: &Topology,
        key: Key,
        reader: &mut TokenReader<'_>,
    ) -> Result<EntryFields, NotRead> {
        match key {
            Key::Lan => {
                let lan = lan_value(topology, reader)?;
                Ok(EntryFields {
                    lan: Some(lan),
                    ..self
                })
            }
            Key::Need => {
                let need = whole_value(1, 255, reader)?;
                Ok(EntryFields {
                    need: Some(need as u8),
                    ..self
                })
            }
            Key::Rank => {
                let rank = whole_value(0, 255, reader)?;
                Ok(EntryFields {
                    rank: Some(rank as u8),
                    ..self
                })
            }
            Key::Router => {
                let router = router_value(topology, reader)?;
                Ok(EntryFields {
                    router: Some(router),
                    ..self
                })
            }
            Key::Vif => {
                let vif = whole_value(0, 31, reader)?;
                Ok(EntryFields {
                    vif: Some(vif as u8),
                    ..self
                })
            }
            _ => Err(NotRead),
        }
    }
}

/// The interface of a router and a vif, which are both there or both missing.
fn forwarder(router: Option<RouterNo>, vif: Option<u8>) -> Option<Option<(RouterNo, u8)>>
    ensures { IfSome result (IsForwarder router vif) }
{
    match (router, vif) {
        (None, None) => Some(None),
        (Some(router), Some(vif)) => Some(Some((router, vif))),
        _ => None,
    }
}

impl EntryFields {
    fn new() -> EntryFields
        ensures { result ≡ record { lan = None; need = None; rank = None; router = None; vif = None } }
    {
        EntryFields {
            lan: None,
            need: None,
            rank: None,
            router: None,
            vif: None,
        }
    }

    /// The entry, if it has what it must have.
    fn entry(self) -> Option<Reached>
        ensures { IfSome result (λ e. (topology : TopologyValue) (members : Members) →
            HoldsEntry topology self.lan self.need self.rank self.router self.vif members →
            DenotesEntry topology (object members) e) }
    {
        let lan = self.lan?;
        let need = self.need?;
        let rank = self.rank?;
        let forwarder = forwarder(self.router, self.vif)?;
        Some(Reached {
            lan,
            rank,
            need,
            forwarder,
        })
    }
}

/// Reads an entry.
fn entry_value(
    alloc: Global,
    topology: &Topology,
    reader: &mut TokenReader<'_>,
) -> Result<Reached, NotRead>
    ensures { IfOk result (λ e. ReadsTo 1 reader.old (λ d. DenotesEntry topology.now d e) reader.new) }
{
    let fields = read_object(alloc, topology, EntryFields::new(), reader)?;
    let Some(entry) = fields.entry() else {
        return Err(NotRead);
    };
    Ok(entry)
}

/// Reads each row as an entry.
#[derive(Drop)]
struct EntryRows<'t> {
    alloc: Global,
    topology: &'t Topology,
}

impl<'t> TokenRows for EntryRows<'t> {
    ghost use Rattle.std.specs.Prelude.{⊤};
    ghost use Rattle.mc_theory.specs.Certificates.{Entry};

    type Item = Reached;

    ghost Row = { Entry };

    ghost item_view = { λ entry. entry };

    ghost levels = { 1 };

    ghost is_row_number = { λ _ _. ⊤ };

    ghost denotes = { λ rows _. DenotesEntry rows.topology.now };

    fn read_row(&self, _number: usize, reader: &mut TokenReader<'_>) -> Result<Reached, NotRead> {
        entry_value(self.alloc, self.topology, reader)
    }
}

/// Reads a list of entries.
pub(crate) fn entries_value(
    alloc: Global,
    topology: &Topology,
    reader: &mut TokenReader<'_>,
) -> Result<Vec<Reached>, NotRead>
    ensures { IfOk result (λ entries.
        ReadsTo 2 reader.old (λ d. DenotesTree topology.now d entries.items) reader.new) }
{
    let entries = read_list(alloc, &EntryRows { alloc, topology }, MAX_ENTRIES, reader)?;
    Ok(entries)
}
