//! The rows of routers as JSON values.

ghost use Rattle.std.specs.Prelude.{◌≡◌, IfOk, map};
ghost use Rattle.std.specs.String.{string_bytes};
ghost use Rattle.serde_json.specs.View.{view as data_of};
ghost use Rattle.mc_topology.specs.Topology.{flow_at};
ghost use Rattle.mc_forward.specs.Domains.{oif_pairs};
ghost use Rattle.mc_forward.specs.FlightsInDomain.{net_in};
ghost use Rattle.mc_forward.specs.ListedTables.{facts};
ghost use Rattle.mc_search.specs.SearchLine.{every_source_of};
ghost use Rattle.mc_shown.specs.RowText.{address_text};
ghost use Rattle.mc_json.specs.RowData.{incoming_device, incoming_vif};
ghost use Rattle.mc_json.specs.RowData.{entry_data, every_source_data, flow_row_data, oif_data};

use crate::device_values::device_value;
use crate::fields::Fields;
use mc_forward::{FlowView, RowFor};
use mc_tables::{CacheSummary, Entry, Oif};
use mc_text::Addr;
use mc_topology::RouterNo;
use serde_json::Value;
use std::alloc::{AllocError, Global};

/// A row's source or group. The address 0.0.0.0 means every source or group, and is written `*`.
fn address_text(alloc: Global, address: Addr) -> Result<String, AllocError>
    ensures { IfOk result (λ text. string_bytes text ≡ address_text address) }
{
    if address.is_unspecified() {
        String::from_str(alloc, "*")
    } else {
        format!(in alloc; "{address}")
    }
}

/// An outgoing vif of a router's row.
fn oif_value(
    alloc: Global,
    view: &FlowView<'_>,
    router: RouterNo,
    oif: Oif,
) -> Result<Value, AllocError>
    ensures { IfOk result (λ value. data_of value
        ≡ oif_data (facts view.now.domain) router (oif.vif, oif.threshold)) }
{
    let Oif { vif, threshold } = oif;
    Fields::new(alloc)
        .value("device", device_value(alloc, view, router, vif))
        .count("threshold", threshold as u64)
        .count("vif", vif as u64)
        .object()
}

/// The outgoing vifs of a router's row.
fn oif_values(
    alloc: Global,
    view: &FlowView<'_>,
    router: RouterNo,
    oifs: &[Oif],
) -> Result<Vec<Value>, AllocError>
    ensures { IfOk result (λ values. map data_of values.items
        ≡ map (oif_data (facts view.now.domain) router) (oif_pairs oifs.now)) }
{
    let mut values = Vec::new(alloc);
    for oif in oifs {
        values.push(oif_value(alloc, view, router, *oif)?)?;
    }
    Ok(values)
}

/// The router, the source and the group of a row.
#[derive(Clone, Copy, Drop)]
struct RowKey {
    router: RouterNo,
    source: Addr,
    group: Addr,
}

/// A row with its incoming and outgoing vifs.
fn entry_value(
    alloc: Global,
    view: &FlowView<'_>,
    key: RowKey,
    incoming: u8,
    oifs: &[Oif],
) -> Result<Value, AllocError>
    ensures { IfOk result (λ value. data_of value ≡ entry_data (facts view.now.domain)
        key.router key.source key.group incoming (oif_pairs oifs.now)) }
{
    let from = Fields::new(alloc)
        .value("device", device_value(alloc, view, key.router, incoming))
        .count("vif", incoming as u64)
        .object();
    Fields::new(alloc)
        .value("from", from)
        .string("group", address_text(alloc, key.group))
        .router("router", view.topology(), key.router)
        .string("source", address_text(alloc, key.source))
        .list("to", oif_values(alloc, view, key.router, oifs))
        .object()
}

/// A router's row of a flow's source and group, or null if it has none.
///
/// # Errors
///
/// `AllocError` if an allocation fails.
pub fn row_value(alloc: Global, view: &FlowView<'_>, router: RouterNo) -> Result<Value, AllocError>
    ensures { IfOk result (λ value. data_of value
        ≡ flow_row_data (facts view.now.domain) view.now.flow router) }
{
    match view.row(router) {
        RowFor::Exact(entry) => {
            let flow = view.flow();
            let key = RowKey {
                router,
                source: flow.source,
                group: flow.group,
            };
            entry_value(alloc, view, key, entry.iif, entry.oifs)
        }
        RowFor::Open | RowFor::NoRow => Ok(Value::Null),
    }
}

/// A router's row for every source, with the row's group.
fn row_for_every_source<'n>(
    summary: &'n [CacheSummary],
    group: Addr,
    router: RouterNo,
) -> Option<(Addr, Entry<'n>)>
    ensures { result ≡ every_source_of summary.now group router }
{
    match summary.get(router.0 as usize) {
        Some(router_summary) => router_summary.row_for_every_source(group),
        None => None,
    }
}

/// A router's row for every source: that of the flow's group, or else that of the group 0.0.0.0. Null if the
/// summary of its cache has none.
///
/// # Errors
///
/// `AllocError` if an allocation fails.
pub fn every_source_value(
    alloc: Global,
    view: &FlowView<'_>,
    summary: &[CacheSummary],
    router: RouterNo,
) -> Result<Value, AllocError>
    ensures { IfOk result (λ value. data_of value ≡ every_source_data (facts view.now.domain)
        summary.now (flow_at view.now.domain.topology view.now.flow).group router) }
{
    match row_for_every_source(summary, view.flow().group, router) {
        Some(row) => {
            let (every, entry) = row;
            let key = RowKey {
                router,
                source: Addr::unspecified(),
                group: every,
            };
            entry_value(alloc, view, key, entry.iif, entry.oifs)
        }
        None => Ok(Value::Null),
    }
}

/// The incoming vif of a router's row for a flow, or null if it has no row of the flow's source and group.
pub fn incoming_vif(view: &FlowView<'_>, router: RouterNo) -> Value
    ensures { data_of result ≡ incoming_vif ((net_in view.now).row router) }
{
    match view.row(router) {
        RowFor::Exact(entry) => Value::from(entry.iif),
        RowFor::Open | RowFor::NoRow => Value::Null,
    }
}

/// The device of that vif, or null if there is none.
///
/// # Errors
///
/// `AllocError` if an allocation fails.
pub fn incoming_device(
    alloc: Global,
    view: &FlowView<'_>,
    router: RouterNo,
) -> Result<Value, AllocError>
    ensures { IfOk result (λ value. data_of value ≡ incoming_device (facts view.now.domain) router
        ((net_in view.now).row router)) }
{
    match view.row(router) {
        RowFor::Exact(entry) => device_value(alloc, view, router, entry.iif),
        RowFor::Open | RowFor::NoRow => Ok(Value::Null),
    }
}
