//! Writes the lines in JSON of a flow that is right: its tree, unless that was printed before, and the flow.

ghost use Rattle.std.specs.Prelude.{◌≡◌, ◌<◌, ◌++◌, IfOk, OnOk, length};
ghost use Rattle.std.specs.String.{string_bytes};
ghost use Rattle.mc_forward.specs.FlightsInDomain.{net_in};
ghost use Rattle.mc_forward.specs.ListedTables.{facts};
ghost use Rattle.mc_cert.specs.Distinct.{tree_number_of, with_tree};
ghost use Rattle.mc_json.specs.TreeKey.{tree_key};
ghost use Rattle.mc_run.specs.AuditObjects.{tree_line};
ghost use Rattle.mc_run.specs.AuditPieces.{key_of_shown_tree, right_objects_of};

use crate::audit::audited_domain::AuditedDomain;
use crate::audit::flow_status::MAX_FLOWS;
use mc_cert::{DistinctTrees, Reached};
use mc_forward::FlowView;
use mc_json::{RightFlow, push_right_line, push_tree_line, tree_key};
use mc_text::Memory;
use mc_topology::LanNo;
use std::alloc::Global;

/// Writes the tree of a flow unless it was printed before, and returns the tree's number.
fn push_tree_once(
    alloc: Global,
    text: &mut String,
    view: &FlowView<'_>,
    shown_trees: &mut DistinctTrees,
    entries: &[Reached],
) -> Result<u32, Memory>
    requires room { length shown_trees.old < MAX_FLOWS }
    ensures shown_trees { OnOk result
        (shown_trees.new ≡ with_tree shown_trees.old (tree_key (net_in view.now) entries.now)) }
    ensures number { IfOk result (λ number.
        number ≡ tree_number_of shown_trees.new (tree_key (net_in view.now) entries.now)) }
    ensures line { OnOk result (string_bytes text.new ≡ string_bytes text.old
        ++ tree_line (facts view.now.domain) shown_trees.old view.now.flow entries.now) }
{
    let printed = shown_trees.trees().len();
    let number = shown_trees.number_of(tree_key(alloc, view, entries)?)?;
    if shown_trees.trees().len() > printed {
        push_tree_line(alloc, text, view, entries, printed as u32)?;
    }
    Ok(number)
}

/// Writes the tree of a flow, unless it was printed before, and the flow with its number of copies and
/// the LANs that want it.
pub(crate) fn push_right_objects(
    alloc: Global,
    text: &mut String,
    audited: &AuditedDomain<'_>,
    flow: u32,
    entries: &[Reached],
    wanted: &[LanNo],
    shown_trees: &mut DistinctTrees,
) -> Result<(), Memory>
    requires flow { flow < length audited.now.domain.now.topology.flows }
    requires room { length shown_trees.old < MAX_FLOWS }
    ensures shown_trees { OnOk result
        (shown_trees.new ≡ with_tree shown_trees.old (key_of_shown_tree audited.now flow entries.now)) }
    ensures lines { OnOk result (string_bytes text.new ≡ string_bytes text.old
        ++ right_objects_of audited.now shown_trees.old flow entries.now wanted.now) }
{
    let topology = audited.domain.topology();
    let view = FlowView::new(audited.domain, flow);
    let whole = audited.without.is_empty();
    let copies = entries.len();
    let tree = push_tree_once(alloc, text, &view, shown_trees, entries)?;
    let right = RightFlow {
        flow,
        copies,
        tree,
        wanted,
    };
    push_right_line(alloc, text, topology, whole, &right)
}
