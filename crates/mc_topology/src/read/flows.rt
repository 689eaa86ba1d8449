//! Reads the flows.

ghost use Rattle.std.specs.Prelude.{◌≡◌, ◌≢◌, ◌≤◌, map, length, false, Err, IfOk};
ghost use Rattle.toml.specs.View.{view, table_view};
ghost use Rattle.mc_topology.specs.declared.fault.Section.TheVariants as section;
ghost use Rattle.mc_topology.specs.Answer.{ResultsAgree, out_of_memory};
ghost use Rattle.mc_topology.specs.Flows.{has_flow, ttl_of, flow_of_values, flow_of};
ghost use Rattle.mc_topology.specs.Flows.{flow_rows, flows_in};

use crate::fault::{Section, TopologyFault, TopologyFaultKind, locate_fault};
use crate::flow::{Flow, MAX_FLOWS};
use crate::flows::Flows;
use crate::read::address::{group_address_of, source_address_of};
use crate::read::document::{known_table, number_at, optional_list_at, text_at};
use crate::read::rows::{SectionRows, each_row};
use crate::sources::Sources;
use std::alloc::Global;
use toml::{Table, Value};

/// The number as a time to live, 1 to 255.
fn ttl_of(ttl_number: i64) -> Result<u8, TopologyFaultKind>
    ensures { result ≡ ttl_of ttl_number }
{
    if !(1..=255).contains(&ttl_number) {
        return Err(TopologyFaultKind::BadTtl);
    }
    Ok(ttl_number as u8)
}

/// The flow of these values, whose source and group no earlier flow has.
#[tactic(auto, unfolding(crate::specs::Flows::flow_of_values))]
fn flow_of_values(
    sources: &Sources,
    earlier: &Flows,
    source_text: &str,
    group_text: &str,
    ttl_number: i64,
) -> Result<Flow, TopologyFaultKind>
    ensures flow { result ≡ flow_of_values sources.now earlier.now source_text.now group_text.now ttl_number }
    ensures new { IfOk result (λ flow. has_flow flow.source flow.group earlier.now ≡ false) }
{
    let source = source_address_of(source_text)?;
    let Some(lan) = sources.lan_of(source) else {
        return Err(TopologyFaultKind::UnknownName);
    };
    let group = group_address_of(group_text)?;
    let ttl = ttl_of(ttl_number)?;
    if earlier.has(source, group) {
        return Err(TopologyFaultKind::RepeatedFlow);
    }
    Ok(Flow {
        source,
        lan,
        group,
        ttl,
    })
}

/// Reads a flow, whose source and group no earlier flow has.
#[tactic(auto, unfolding(crate::specs::Flows::flow_of))]
fn flow_of(sources: &Sources, earlier: &Flows, value: &Value) -> Result<Flow, TopologyFaultKind>
    ensures flow { result ≡ flow_of sources.now earlier.now (view value.now) }
    ensures new { IfOk result (λ flow. has_flow flow.source flow.group earlier.now ≡ false) }
{
    let table = known_table(value, &["source", "group", "ttl"])?;
    let source_text = text_at(table, "source")?;
    let group_text = text_at(table, "group")?;
    let ttl_number = number_at(table, "ttl")?;
    flow_of_values(sources, earlier, source_text, group_text, ttl_number)
}

/// The list of flows, of which there is at least one.
#[tactic(auto, unfolding(crate::specs::Flows::flow_rows))]
fn flow_rows(table: &Table) -> Result<&[Value], TopologyFaultKind>
    ensures rows { ResultsAgree (λ rows. map view rows.now) result (flow_rows (table_view table.now)) }
    ensures few { IfOk result (λ rows. length rows.now ≤ MAX_FLOWS) }
{
    let rows = optional_list_at(table, "flow")?;
    if rows.is_empty() {
        return Err(TopologyFaultKind::NoFlow);
    }
    if rows.len() > MAX_FLOWS {
        return Err(TopologyFaultKind::TooMany);
    }
    Ok(rows)
}

impl SectionRows<Sources> for Flows {
    ghost use Rattle.mc_topology.specs.declared.flow.Flow.{Flow};

    ghost Row = { Flow };

    ghost rows = { λ flows. flows };

    ghost section = { section.Flow };

    ghost row_value = { flow_of };

    fn read_row(
        &mut self,
        _alloc: Global,
        sources: &Sources,
        number: u32,
        row: &Value,
    ) -> Result<(), TopologyFault> {
        let flow = locate_fault(Section::Flow, number, flow_of(sources, self, row))?;
        self.push(flow)
    }
}

/// Reads the flows, in order.
#[tactic(auto, unfolding(crate::specs::Flows::flows_in))]
pub(crate) fn flows_in(
    alloc: Global,
    sources: &Sources,
    table: &Table,
) -> Result<Flows, TopologyFault>
    ensures { result ≢ Err out_of_memory →
        result ≡ flows_in sources.now (table_view table.now) }
{
    let rows = locate_fault(Section::Flow, 0, flow_rows(table))?;
    each_row(alloc, sources, Flows::new(alloc), rows)
}
