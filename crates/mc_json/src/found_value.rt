//! The finding of a flow's travel, and the travel's events, as JSON values.

ghost use Rattle.std.specs.Prelude.{◌≡◌, ◌∷◌, ◌++◌, [], IfOk, OnOk, flat_map, map, codes};
ghost use Rattle.serde_json.specs.Data.{string};
ghost use Rattle.serde_json.specs.View.{view as data_of};
ghost use Rattle.mc_forward.specs.Domains.{oif_pairs};
ghost use Rattle.mc_forward.specs.FlightsInDomain.{net_in};
ghost use Rattle.mc_replay.specs.declared.finding.Finding.TheVariants.{Stray};
ghost use Rattle.mc_json.specs.FlowData.{event_data, event_with_copies_data, event_without_copies_data};
ghost use Rattle.mc_json.specs.FlowData.{finding_at_lan, finding_data, optional_finding_data, passed_vif};
ghost use Rattle.mc_json.specs.FlowData.{sent_vifs};
ghost use Rattle.mc_json.specs.RowData.{count_data, object_data};

use crate::fields::Fields;
use mc_forward::{Event, FlowView, Outcome, RowFor};
use mc_replay::Finding;
use mc_tables::Oif;
use mc_topology::{LanNo, RouterNo, Topology};
use serde_json::Value;
use std::alloc::{AllocError, Global};

/// Adds an outgoing vif, if a copy with this time to live passes its threshold.
fn push_passed_vif(values: &mut Vec<Value>, oif: Oif, ttl: u8) -> Result<(), AllocError>
    ensures { OnOk result (map data_of values.new.items ≡ map data_of values.old.items
        ++ map count_data (passed_vif ttl (oif.vif, oif.threshold))) }
{
    if oif.threshold < ttl {
        values.push(Value::from(oif.vif))?;
    }
    Ok(())
}

/// The vifs of these whose thresholds a copy with this time to live passes.
fn passed_vif_values(alloc: Global, oifs: &[Oif], ttl: u8) -> Result<Vec<Value>, AllocError>
    ensures { IfOk result (λ values. map data_of values.items
        ≡ map count_data (flat_map (passed_vif ttl) (oif_pairs oifs.now))) }
{
    let mut values = Vec::new(alloc);
    for oif in oifs {
        push_passed_vif(&mut values, *oif, ttl)?;
    }
    Ok(values)
}

/// The vifs by which the router of an event sent copies, strays among them.
fn sent_vif_values(
    alloc: Global,
    view: &FlowView<'_>,
    event: &Event,
) -> Result<Vec<Value>, AllocError>
    ensures { IfOk result (λ values.
        map data_of values.items ≡ map count_data (sent_vifs (net_in view.now) event.now)) }
{
    match view.row(event.router) {
        RowFor::Exact(entry) => passed_vif_values(alloc, entry.oifs, event.ttl),
        RowFor::Open | RowFor::NoRow => Ok(Vec::new(alloc)),
    }
}

/// An event that sent no copies.
fn event_without_copies(
    alloc: Global,
    topology: &Topology,
    event: &Event,
    outcome: &str,
) -> Result<Value, AllocError>
    ensures { IfOk result (λ value. data_of value
        ≡ event_without_copies_data topology.now event.now outcome.now) }
{
    let (vif, ttl) = (event.vif, event.ttl);
    Fields::new(alloc)
        .list("onto", Ok(Vec::new(alloc)))
        .text("outcome", outcome)
        .router("router", topology, event.router)
        .count("ttl", ttl as u64)
        .count("vif", vif as u64)
        .object()
}

/// An event that sent copies.
fn event_with_copies(
    alloc: Global,
    view: &FlowView<'_>,
    event: &Event,
    copies: u32,
    strays: u32,
) -> Result<Value, AllocError>
    ensures { IfOk result (λ value. data_of value
        ≡ event_with_copies_data view.now.domain.topology event.now copies strays
        (sent_vifs (net_in view.now) event.now)) }
{
    Fields::new(alloc)
        .count("copies", copies as u64)
        .list("onto", sent_vif_values(alloc, view, event))
        .text("outcome", "sent")
        .router("router", view.topology(), event.router)
        .count("strays", strays as u64)
        .count("ttl", event.ttl as u64)
        .count("vif", event.vif as u64)
        .object()
}

/// An event of a travel.
fn event_value(alloc: Global, view: &FlowView<'_>, event: &Event) -> Result<Value, AllocError>
    ensures { IfOk result (λ value. data_of value
        ≡ event_data view.now.domain.topology (net_in view.now) event.now) }
{
    let topology = view.topology();
    match event.outcome {
        Outcome::Open => event_without_copies(alloc, topology, event, "open"),
        Outcome::NoRow => event_without_copies(alloc, topology, event, "no row"),
        Outcome::OtherVif => event_without_copies(alloc, topology, event, "other vif"),
        Outcome::Sent { copies, strays } => event_with_copies(alloc, view, event, copies, strays),
    }
}

/// The events of a travel, in order.
///
/// # Errors
///
/// `AllocError` if an allocation fails.
pub fn event_values(
    alloc: Global,
    view: &FlowView<'_>,
    events: &[Event],
) -> Result<Vec<Value>, AllocError>
    ensures { IfOk result (λ values. map data_of values.items
        ≡ map (event_data view.now.domain.topology (net_in view.now)) events.now) }
{
    let mut values = Vec::new(alloc);
    for event in events {
        values.push(event_value(alloc, view, event)?)?;
    }
    Ok(values)
}

/// A finding at a LAN: a duplicate, a loop or a missed LAN.
fn finding_at_lan(
    alloc: Global,
    topology: &Topology,
    kind: &str,
    lan: LanNo,
) -> Result<Value, AllocError>
    ensures { IfOk result (λ value. data_of value ≡ finding_at_lan topology.now kind.now lan) }
{
    Fields::new(alloc)
        .text("kind", kind)
        .lan("lan", topology, lan)
        .object()
}

/// The finding of a travel without a fault.
fn clean_finding(alloc: Global) -> Result<Value, AllocError>
    ensures { IfOk result (λ value. data_of value
        ≡ object_data ((codes "kind", string (codes "Clean")) ∷ [])) }
{
    Fields::new(alloc).text("kind", "Clean").object()
}

/// A stray copy at a router's vif.
fn stray_finding(
    alloc: Global,
    topology: &Topology,
    router: RouterNo,
    vif: u8,
) -> Result<Value, AllocError>
    ensures { IfOk result (λ value. data_of value ≡ finding_data topology.now (Stray router vif)) }
{
    Fields::new(alloc)
        .text("kind", "Stray")
        .router("router", topology, router)
        .count("vif", vif as u64)
        .object()
}

/// The finding of a travel.
///
/// # Errors
///
/// `AllocError` if an allocation fails.
pub fn finding_value(
    alloc: Global,
    topology: &Topology,
    finding: Finding,
) -> Result<Value, AllocError>
    ensures { IfOk result (λ value. data_of value ≡ finding_data topology.now finding) }
{
    match finding {
        Finding::Clean => clean_finding(alloc),
        Finding::Duplicate(lan) => finding_at_lan(alloc, topology, "Duplicate", lan),
        Finding::Loop(lan) => finding_at_lan(alloc, topology, "Loop", lan),
        Finding::Stray(router, vif) => stray_finding(alloc, topology, router, vif),
        Finding::Missed(lan) => finding_at_lan(alloc, topology, "Missed", lan),
    }
}

/// A finding, null where there is none.
///
/// # Errors
///
/// `AllocError` if an allocation fails.
pub fn optional_finding_value(
    alloc: Global,
    topology: &Topology,
    found: Option<Finding>,
) -> Result<Value, AllocError>
    ensures { IfOk result (λ value. data_of value ≡ optional_finding_data topology.now found) }
{
    match found {
        Some(finding) => finding_value(alloc, topology, finding),
        None => Ok(Value::Null),
    }
}
