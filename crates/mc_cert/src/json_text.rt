//! Writes the JSON text of a certificate, in version 2, piece by piece.

ghost use Rattle.std.specs.Prelude.{◌≡◌, ◌++◌, ◌<◌, All, length, map, IfSome, OnOk, codes, decimal};
ghost use Rattle.std.specs.Prelude.{string_bytes};
ghost use Rattle.mc_cert.specs.Certificate.{IsEntryOf, HasByteNumbers};
ghost use Rattle.mc_cert.specs.CertificateText.{listed, forwarder_text, entry_text, tree_text};
ghost use Rattle.mc_cert.specs.CertificateText.{flow_text, flow_texts};

use crate::reached::Reached;
use itoa::Buffer;
use mc_topology::{Flow, RouterNo, Topology};
use std::alloc::AllocError;
use std::rc::Rc;

/// Appends a number. A formatter would take most of the time of a large certificate.
fn push_number(text: &mut String, number: u8) -> Result<(), AllocError>
    ensures { OnOk result (string_bytes text.new ≡ string_bytes text.old ++ decimal number) }
{
    let mut digits = Buffer::new();
    text.push_str(digits.format(number))
}

/// Appends the keys of the interface that sends, if there is one.
fn push_forwarder(
    text: &mut String,
    topology: &Topology,
    forwarder: Option<(RouterNo, u8)>,
) -> Result<(), AllocError>
    requires within { IfSome forwarder (λ interface. interface.0 < length topology.now.routers) }
    ensures added { OnOk result (string_bytes text.new ≡
        string_bytes text.old ++ forwarder_text topology.now forwarder) }
{
    match forwarder {
        None => Ok(()),
        Some((router, vif)) => {
            text.push_str(r#","router":""#)?;
            text.push_str(topology.router_name(router))?;
            text.push_str(r#"","vif":"#)?;
            push_number(text, vif)
        }
    }
}

/// Appends an entry up to its rank.
fn push_entry_start(text: &mut String, name: &str, need: u8, rank: u8) -> Result<(), AllocError>
    ensures { OnOk result (string_bytes text.new ≡
        string_bytes text.old ++ codes "{\"lan\":\"" ++ name.now ++ codes "\",\"need\":"
        ++ decimal need ++ codes ",\"rank\":" ++ decimal rank) }
{
    text.push_str(r#"{"lan":""#)?;
    text.push_str(name)?;
    text.push_str(r#"","need":"#)?;
    push_number(text, need)?;
    text.push_str(r#","rank":"#)?;
    push_number(text, rank)
}

/// Appends an entry.
fn push_entry(text: &mut String, topology: &Topology, entry: &Reached) -> Result<(), AllocError>
    requires valid { IsEntryOf topology.now entry.now }
    ensures text { OnOk result (string_bytes text.new ≡
        string_bytes text.old ++ entry_text topology.now entry.now) }
    ensures bytes { HasByteNumbers entry.now }
{
    let (need, rank) = (entry.need, entry.rank);
    push_entry_start(text, topology.lan_name(entry.lan), need, rank)?;
    push_forwarder(text, topology, entry.forwarder)?;
    text.push_str("}")
}

/// Appends a tree as a list of entries.
fn push_tree(text: &mut String, topology: &Topology, entries: &[Reached]) -> Result<(), AllocError>
    requires valid { All (IsEntryOf topology.now) entries.now }
    ensures text { OnOk result (string_bytes text.new ≡
        string_bytes text.old ++ tree_text topology.now entries.now) }
    ensures bytes { OnOk result (All HasByteNumbers entries.now) }
{
    text.push_str("[")?;
    let mut separator = "";
    for entry in entries {
        text.push_str(separator)?;
        push_entry(text, topology, entry)?;
        separator = ",";
    }
    text.push_str("]")
}

/// How many bytes to reserve for the text of trees: 96 an entry, for names of some 15 letters. A text
/// that grows is copied each time; reserved bytes that aren't written cost nothing.
pub(crate) fn room_for(trees: &[Rc<Vec<Reached>>]) -> usize {
    let mut entries = 0usize;
    for tree in trees {
        entries = entries.saturating_add(tree.len());
    }
    entries.saturating_mul(96)
}

/// Appends trees, with commas between them.
pub(crate) fn push_trees(
    text: &mut String,
    topology: &Topology,
    trees: &[Rc<Vec<Reached>>],
) -> Result<(), AllocError>
    requires valid { All (All (IsEntryOf topology.now)) (map (λ tree. tree.value.items) trees.now) }
    ensures text { OnOk result (string_bytes text.new ≡ string_bytes text.old
        ++ listed (map (tree_text topology.now) (map (λ tree. tree.value.items) trees.now))) }
    ensures bytes { OnOk result (All (All HasByteNumbers) (map (λ tree. tree.value.items) trees.now)) }
{
    let mut separator = "";
    for tree in trees {
        text.push_str(separator)?;
        push_tree(text, topology, tree.as_slice())?;
        separator = ",";
    }
    Ok(())
}

/// Appends a flow of the topology and the number of its tree.
fn push_flow(text: &mut String, flow: &Flow, tree: u32) -> Result<(), AllocError>
    ensures { OnOk result (string_bytes text.new ≡
        string_bytes text.old ++ flow_text flow.now tree) }
{
    let (group, source) = (flow.group, flow.source);
    write!(
        text,
        r#"{{"group":"{group}","source":"{source}","tree":{tree}}}"#
    )
}

/// Appends the flows of the topology, each with the number of its tree, with commas between them.
pub(crate) fn push_flows(
    text: &mut String,
    topology: &Topology,
    numbers: &[u32],
) -> Result<(), AllocError>
    requires lengths { length numbers.now ≡ length topology.now.flows }
    ensures added { OnOk result (string_bytes text.new ≡
        string_bytes text.old ++ listed (flow_texts topology.now.flows numbers.now)) }
{
    let mut separator = "";
    for flow in 0..topology.flows() {
        text.push_str(separator)?;
        push_flow(text, topology.flow(flow), numbers[flow as usize])?;
        separator = ",";
    }
    Ok(())
}
