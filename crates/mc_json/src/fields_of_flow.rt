//! The members of each flow's line: its number, its source, its group and its TTL.

ghost use Rattle.mc_json.specs.ObjectLines.{HasMembers};
ghost use Rattle.mc_json.specs.FlowData.{flow_members};
ghost use Rattle.mc_json.specs.RowData.{members};

use crate::fields::Fields;
use mc_topology::Flow;
use std::alloc::Global;

/// These members of a flow. `number` counts from 0, and is written counted from 1.
pub fn flow_fields(alloc: Global, number: u32, flow: &Flow) -> Fields
    ensures { HasMembers result (members (flow_members number flow.now)) }
{
    let Flow {
        source,
        group,
        ttl,
        ..
    } = *flow;
    Fields::new(alloc)
        .count("flow", number as u64 + 1)
        .string("group", format!(in alloc; "{group}"))
        .string("source", format!(in alloc; "{source}"))
        .count("ttl", ttl as u64)
}
