//! The lines of right flows and of their trees.

ghost use Rattle.std.specs.Prelude.{◌≡◌, ◌<◌, ◌++◌, IfOk, OnOk, codes, length, map};
ghost use Rattle.std.specs.String.{string_bytes};
ghost use Rattle.serde_json.specs.Data.{Members, put as with_member};
ghost use Rattle.serde_json.specs.View.{view as data_of};
ghost use Rattle.mc_topology.specs.Topology.{flow_at};
ghost use Rattle.mc_forward.specs.FlightsInDomain.{net_in};
ghost use Rattle.mc_json.specs.RowData.{lan_data};
ghost use Rattle.mc_json.specs.ObjectLines.{HasMembers};
ghost use Rattle.mc_json.specs.FlowData.{interface_router, interface_vif, reached_data, right_data};
ghost use Rattle.mc_json.specs.FlowData.{right_mark, tree_data};
ghost use Rattle.mc_json.specs.RowData.{line_of};

use crate::fields::Fields;
use crate::fields_of_flow::flow_fields;
use crate::line::push_line;
use crate::name_values::lan_names;
use crate::tree_keys::taking_interface;
use mc_cert::Reached;
use mc_forward::FlowView;
use mc_text::Memory;
use mc_topology::{Flow, LanNo, RouterNo, Topology};
use serde_json::Value;
use std::alloc::{AllocError, Global};

/// Adds the router of an interface, null for none.
fn with_sending_router(
    fields: Fields,
    topology: &Topology,
    interface: Option<(RouterNo, u8)>,
) -> Fields
    ensures { (members : Members) → HasMembers fields members
        → HasMembers result (with_member (codes "router") (interface_router topology.now interface)
        members) }
{
    match interface {
        Some((router, _)) => fields.router("router", topology, router),
        None => fields.null("router"),
    }
}

/// Adds the vif of an interface, null for none.
fn with_vif(fields: Fields, key: &str, interface: Option<(RouterNo, u8)>) -> Fields
    ensures { (members : Members) → HasMembers fields members
        → HasMembers result (with_member key.now (interface_vif interface) members) }
{
    match interface {
        Some((_, vif)) => fields.count(key, vif as u64),
        None => fields.null(key),
    }
}

/// A LAN of a tree.
fn reached_value(alloc: Global, view: &FlowView<'_>, entry: &Reached) -> Result<Value, AllocError>
    ensures { IfOk result (λ value. data_of value
        ≡ reached_data view.now.domain.topology (net_in view.now) entry.now) }
{
    let topology = view.topology();
    let fields = Fields::new(alloc)
        .lan("lan", topology, entry.lan)
        .count("need", entry.need as u64)
        .count("rank", entry.rank as u64);
    let fields = with_sending_router(fields, topology, entry.forwarder);
    let fields = with_vif(fields, "vif", entry.forwarder);
    with_vif(fields, "from_vif", taking_interface(view, entry.forwarder)).object()
}

/// The LANs of a tree.
fn reached_values(
    alloc: Global,
    view: &FlowView<'_>,
    entries: &[Reached],
) -> Result<Vec<Value>, AllocError>
    ensures { IfOk result (λ values. map data_of values.items
        ≡ map (reached_data view.now.domain.topology (net_in view.now)) entries.now) }
{
    let mut values = Vec::new(alloc);
    for entry in entries {
        values.push(reached_value(alloc, view, entry)?)?;
    }
    Ok(values)
}

/// A tree with its number.
fn tree_value(
    alloc: Global,
    view: &FlowView<'_>,
    entries: &[Reached],
    tree: u32,
) -> Result<Value, AllocError>
    ensures { IfOk result (λ value. data_of value
        ≡ tree_data view.now.domain.topology (net_in view.now) entries.now tree) }
{
    Fields::new(alloc)
        .list("entries", reached_values(alloc, view, entries))
        .count("tree", tree as u64)
        .object()
}

/// Writes the line of the tree with this number, of a flow.
///
/// # Errors
///
/// `Memory` if an allocation fails.
pub fn push_tree_line(
    alloc: Global,
    text: &mut String,
    view: &FlowView<'_>,
    entries: &[Reached],
    tree: u32,
) -> Result<(), Memory>
    ensures line { OnOk result (string_bytes text.new ≡ string_bytes text.old
        ++ line_of (tree_data view.now.domain.topology (net_in view.now) entries.now tree)) }
{
    let value = tree_value(alloc, view, entries, tree)?;
    push_line(alloc, text, &value)?;
    Ok(())
}

/// That a flow is right if the whole domain is known, or else null.
fn right_mark_value(whole: bool) -> Value
    ensures { data_of result ≡ right_mark whole }
{
    if whole {
        Value::from(true)
    } else {
        Value::Null
    }
}

/// A flow without a fault.
#[derive(Clone, Copy, Drop)]
pub struct RightFlow<'a> {
    /// The flow's number, counted from 0.
    pub flow: u32,
    /// How many LANs carry a copy of its packet.
    pub copies: usize,
    /// The number of its tree.
    pub tree: u32,
    /// The LANs that want it.
    pub wanted: &'a [LanNo],
}

/// A flow without a fault, with the names of the LANs that want it.
fn right_value(
    alloc: Global,
    whole: bool,
    right: &RightFlow<'_>,
    flow: &Flow,
    wanted: Vec<Value>,
) -> Result<Value, AllocError>
    ensures { IfOk result (λ value. data_of value ≡ right_data whole right.now.flow flow.now
        right.now.copies right.now.tree (map data_of wanted.items)) }
{
    flow_fields(alloc, right.flow, flow)
        .count("copies", right.copies as u64)
        .value("right", Ok(right_mark_value(whole)))
        .count("tree", right.tree as u64)
        .list("wanted", Ok(wanted))
        .object()
}

/// Writes the line of a flow without a fault: that it is right, if the `whole` domain is known, how many
/// LANs carry a copy of its packet, the number of its tree, and the LANs that want it.
///
/// # Errors
///
/// `Memory` if an allocation fails.
pub fn push_right_line(
    alloc: Global,
    text: &mut String,
    topology: &Topology,
    whole: bool,
    right: &RightFlow<'_>,
) -> Result<(), Memory>
    requires flow { right.now.flow < length topology.now.flows }
    ensures line { OnOk result (string_bytes text.new ≡ string_bytes text.old
        ++ line_of (right_data whole right.now.flow (flow_at topology.now right.now.flow) right.now.copies
        right.now.tree (map (lan_data topology.now) right.now.wanted.now))) }
{
    let wanted = lan_names(alloc, topology, right.wanted)?;
    let listed = topology.flow(right.flow);
    let value = right_value(alloc, whole, right, listed, wanted)?;
    push_line(alloc, text, &value)?;
    Ok(())
}
