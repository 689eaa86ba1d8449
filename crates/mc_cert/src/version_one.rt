//! Reads the flows of version 1, each with its own entries.

ghost use Rattle.std.specs.Prelude.{◌≡◌, ◌<◌, ◌≤◌, map, length, IfOk};
ghost use Rattle.std.specs.Str.{bytes_eq};
ghost use Rattle.serde_json.specs.View.{view, members_view};
ghost use Rattle.mc_text.specs.Addr.{IsAddr, dotted};
ghost use Rattle.mc_topology.specs.Answer.{ResultsAgree};
ghost use Rattle.mc_topology.specs.Topology.{IsValidFlow};
ghost use Rattle.mc_cert.specs.Answer.{Gives};
ghost use Rattle.mc_cert.specs.VersionOne.{are_texts_of_flow, flow_rows, reached_rows, flow_of, flows_in};

use crate::certificate::Certificate;
use crate::entry::{MAX_ENTRIES, entries_in_rows};
use crate::fault::{At, CertFault, CertFaultKind};
use crate::object::{at_most, list_at, object_of, text_at};
use crate::reached::Reached;
use crate::rows::{RowReader, each_row};
use mc_text::Addr;
use mc_topology::{Flow, Topology};
use serde_json::{Map, Value};
use std::alloc::Global;

/// The greatest number of flows.
pub(crate) const MAX_FLOWS: usize = 4096;

/// Whether the text is the address in dotted form.
fn is_address_text(text: &str, address: Addr) -> bool
    requires valid { IsAddr address }
    ensures value { result ≡ bytes_eq text.now (dotted address) }
{
    Addr::parse_dotted(text.as_bytes()) == Some(address)
}

/// Whether the texts are the flow's group and its source in dotted form.
pub(crate) fn are_texts_of_flow(flow: &Flow, group: &str, source: &str) -> bool
    requires group { IsAddr flow.now.group }
    requires source { IsAddr flow.now.source }
    ensures value { result ≡ are_texts_of_flow flow.now group.now source.now }
{
    is_address_text(group, flow.group) && is_address_text(source, flow.source)
}

/// The list of flows, one for each of the topology.
#[tactic(auto, unfolding(crate::specs::VersionOne::flow_rows))]
pub(crate) fn flow_rows<'a>(
    topology: &Topology,
    object: &'a Map<String, Value>,
) -> Result<&'a [Value], CertFaultKind>
    ensures rows { ResultsAgree (λ rows. map view rows.now) result
        (flow_rows topology.now (members_view object.now.entries)) }
    ensures count { IfOk result (λ rows. length rows.now ≡ length topology.now.flows) }
    ensures few { IfOk result (λ rows. length rows.now ≤ MAX_FLOWS) }
{
    let rows = list_at(object, "flows")?;
    if rows.len() != topology.flows() as usize {
        return Err(CertFaultKind::WrongFlows);
    }
    Ok(rows)
}

/// The list of a flow's entries.
#[tactic(auto, unfolding(crate::specs::VersionOne::reached_rows))]
fn reached_rows<'a>(flow: &Flow, value: &'a Value) -> Result<&'a [Value], CertFaultKind>
    requires group { IsAddr flow.now.group }
    requires source { IsAddr flow.now.source }
    ensures rows { ResultsAgree (λ rows. map view rows.now) result
        (reached_rows flow.now (view value.now)) }
    ensures few { IfOk result (λ rows. length rows.now ≤ MAX_ENTRIES) }
{
    let object = object_of(value, &["group", "reached", "source"])?;
    let group = text_at(object, "group")?;
    let rows = list_at(object, "reached")?;
    let source = text_at(object, "source")?;
    if !are_texts_of_flow(flow, group, source) {
        return Err(CertFaultKind::WrongFlows);
    }
    at_most(MAX_ENTRIES, rows)
}

/// Reads a flow as its list of entries.
#[derive(Drop)]
struct FlowReader<'t> {
    alloc: Global,
    topology: &'t Topology,
}

impl<'t> RowReader for FlowReader<'t> {
    ghost use Rattle.mc_cert.specs.declared.version_one.TheConstants.{MAX_FLOWS};
    ghost use Rattle.mc_cert.specs.Certificate.{Tree};

    type Item = Vec<Reached>;

    ghost Row = { Tree };

    ghost item_view = { λ entries. entries.items };

    ghost is_row_number = { λ lists n. (n < MAX_FLOWS) × (n < length lists.topology.now.flows) };

    ghost row_value = { λ lists. flow_of lists.topology.now };

    #[tactic(auto, unfolding(crate::specs::VersionOne::flow_of))]
    fn read_row(&self, number: usize, value: &Value) -> Result<Vec<Reached>, CertFault> {
        let place = At::Flow(number as u32 + 1);
        let flow = self.topology.flow(number as u32);
        let rows = reached_rows(flow, value).map_err(|kind| kind.at(place))?;
        entries_in_rows(self.alloc, self.topology, place, rows)
    }
}

/// Reads the certificate of an object of version 1.
#[tactic(auto, unfolding(crate::specs::VersionOne::flows_in))]
pub(crate) fn flows_in(
    alloc: Global,
    topology: &Topology,
    object: &Map<String, Value>,
) -> Result<Certificate, CertFault>
    ensures { Gives (λ c. c) result (flows_in topology.now (members_view object.now.entries)) }
{
    let rows = flow_rows(topology, object).map_err(|kind| kind.at(At::Top))?;
    let flows = each_row(alloc, &FlowReader { alloc, topology }, rows)?;
    Ok(Certificate::from_flows(flows))
}
