//! Reads the entries of a flow or a tree.

ghost use Rattle.std.specs.Prelude.{◌≡◌, ◌+◌, ◌<◌, ◌≤◌, map, length, option_map};
ghost use Rattle.serde_json.specs.View.{view, members_view};
ghost use Rattle.mc_topology.specs.Answer.{ResultsAgree};
ghost use Rattle.mc_cert.specs.Answer.{Gives, locate_fault, entry_place};
ghost use Rattle.mc_cert.specs.Entries.{lan_in, router_of, vif_of, forwarder_of, entry_of};
ghost use Rattle.mc_cert.specs.Entries.{entries_in_rows};

use crate::fault::{At, CertFault, CertFaultKind};
use crate::object::{in_range, number_of, object_of, text_at, text_of, value_at, whole_at};
use crate::reached::Reached;
use crate::rows::{RowReader, each_row};
use mc_topology::{LanNo, RouterNo, Topology};
use serde_json::{Map, Value};
use std::alloc::Global;

/// The greatest number of entries of a flow or a tree.
pub(crate) const MAX_ENTRIES: usize = 1024;

/// Reads the LAN, by its name under `lan`.
#[tactic(auto, unfolding(crate::specs::Entries::lan_in))]
fn lan_in(topology: &Topology, object: &Map<String, Value>) -> Result<LanNo, CertFaultKind>
    ensures { ResultsAgree (λ lan. lan) result
        (lan_in topology.now.lans (members_view object.now.entries)) }
{
    let name = text_at(object, "lan")?;
    topology.lan_no(name).ok_or(CertFaultKind::UnknownName)
}

/// Reads a router, by its name.
#[tactic(auto, unfolding(crate::specs::Entries::router_of))]
fn router_of(topology: &Topology, value: &Value) -> Result<RouterNo, CertFaultKind>
    ensures { ResultsAgree (λ router. router) result
        (router_of topology.now.routers (view value.now)) }
{
    let name = text_of(value)?;
    topology.router_no(name).ok_or(CertFaultKind::UnknownName)
}

/// Reads a vif, 0 to 31.
#[tactic(auto, unfolding(crate::specs::Entries::vif_of))]
fn vif_of(value: &Value) -> Result<u8, CertFaultKind>
    ensures { ResultsAgree (λ vif. vif) result (vif_of (view value.now)) }
{
    let number = number_of(value)?;
    in_range(0, 31, number)
}

/// Reads the interface that sends, by its router and its vif, which are both there or both missing.
#[tactic(auto, unfolding(crate::specs::Entries::forwarder_of))]
fn forwarder_of(
    topology: &Topology,
    router: Option<&Value>,
    vif: Option<&Value>,
) -> Result<Option<(RouterNo, u8)>, CertFaultKind>
    ensures { ResultsAgree (λ forwarder. forwarder) result
        (forwarder_of topology.now.routers (option_map (λ v. view v.now) router.entry)
        (option_map (λ v. view v.now) vif.entry)) }
{
    let Some(router) = router else {
        return match vif {
            None => Ok(None),
            Some(_) => Err(CertFaultKind::MissingKey),
        };
    };
    let router = router_of(topology, router)?;
    let vif = vif.ok_or(CertFaultKind::MissingKey)?;
    Ok(Some((router, vif_of(vif)?)))
}

/// Reads an entry.
#[tactic(auto, unfolding(crate::specs::Entries::entry_of))]
fn entry_of(topology: &Topology, value: &Value) -> Result<Reached, CertFaultKind>
    ensures { ResultsAgree (λ entry. entry) result (entry_of topology.now (view value.now)) }
{
    let object = object_of(value, &["lan", "need", "rank", "router", "vif"])?;
    let lan = lan_in(topology, object)?;
    let need = whole_at(object, "need", 1, 255)?;
    let rank = whole_at(object, "rank", 0, 255)?;
    let forwarder = forwarder_of(
        topology,
        value_at(object, "router"),
        value_at(object, "vif"),
    )?;
    Ok(Reached {
        lan,
        rank,
        need,
        forwarder,
    })
}

/// Reads the entries of the flow or the tree at a place.
#[derive(Drop)]
struct EntryReader<'t> {
    topology: &'t Topology,
    list: At,
}

impl<'t> RowReader for EntryReader<'t> {
    ghost use Rattle.mc_cert.specs.declared.entry.TheConstants.{MAX_ENTRIES};
    ghost use Rattle.mc_theory.specs.Certificates.{Entry};

    type Item = Reached;

    ghost Row = { Entry };

    ghost item_view = { λ entry. entry };

    ghost is_row_number = { λ _ n. n < MAX_ENTRIES };

    ghost row_value = { λ entries n d.
        locate_fault (entry_place entries.list (n + 1)) (entry_of entries.topology.now d) };

    /// Reads an entry, and gives a fault its place.
    fn read_row(&self, number: usize, value: &Value) -> Result<Reached, CertFault> {
        let number = number as u32 + 1;
        let place = self.list.entry(number);
        entry_of(self.topology, value).map_err(|kind| kind.at(place))
    }
}

/// Reads the entries of the flow or the tree at this place, one after the other.
#[tactic(auto, unfolding(crate::specs::Entries::entries_in_rows))]
pub(crate) fn entries_in_rows(
    alloc: Global,
    topology: &Topology,
    list: At,
    rows: &[Value],
) -> Result<Vec<Reached>, CertFault>
    requires bounded { length rows.now ≤ MAX_ENTRIES }
    ensures gives { Gives (λ entries. entries.items) result
        (entries_in_rows topology.now list (map view rows.now)) }
{
    each_row(alloc, &EntryReader { topology, list }, rows)
}
