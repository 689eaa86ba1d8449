//! Reads the flows of version 1, each with its own entries.

ghost use Rattle.std.specs.Prelude.{◌≡◌, ◌<◌, None, IfSome, IfOk, length, map, option_map};
ghost use Rattle.serde_json.specs.Data.{Members, object};
ghost use Rattle.mc_cert.specs.Denotation.{DenotesFlow};
ghost use Rattle.mc_cert.specs.Tokens.{ReadsTo, DenotesFlows, HoldsFlow};

use crate::key::Key;
use crate::reached::Reached;
use crate::token_reader::TokenReader;
use crate::tokens::NotRead;
use crate::tokens::entry::entries_value;
use crate::tokens::list::{TokenRows, read_list};
use crate::tokens::object::{Fields, read_object};
use crate::tokens::value::address_value;
use mc_text::Addr;
use mc_topology::Topology;
use std::alloc::Global;

/// What was read of a flow.
#[derive(Drop)]
struct FlowFields {
    group: Option<Addr>,
    source: Option<Addr>,
    reached: Option<Vec<Reached>>,
}

impl Fields for FlowFields {
    ghost levels = { 2 };

    ghost holds = { λ t f. HoldsFlow t f.group f.source (option_map (λ es. es.items) f.reached) };

    fn read_field(
        self,
        alloc: Global,
        topology: &Topology,
        key: Key,
        reader: &mut TokenReader<'_>,
    ) -> Result<FlowFields, NotRead> {
        match key {
            Key::Group => {
                let group = address_value(reader)?;
                Ok(FlowFields {
                    group: Some(group),
                    ..self
                })
            }
            Key::Source => {
                let source = address_value(reader)?;
                Ok(FlowFields {
                    source: Some(source),
                    ..self
                })
            }
            Key::Reached => {
                let entries = entries_value(alloc, topology, reader)?;
                Ok(FlowFields {
                    reached: Some(entries),
                    ..self
                })
            }
            _ => Err(NotRead),
        }
    }
}

impl FlowFields {
    fn new() -> FlowFields
        ensures { result ≡ record { group = None; source = None; reached = None } }
    {
        FlowFields {
            group: None,
            source: None,
            reached: None,
        }
    }

    /// The entries, if this is the flow of the topology with this number.
    fn entries_of_flow(self, topology: &Topology, number: u32) -> Option<Vec<Reached>>
        requires listed { number < length topology.now.flows }
        ensures { IfSome result (λ entries. (members : Members) →
            HoldsFlow topology.now self.group self.source
            (option_map (λ entries. entries.items) self.reached) members →
            DenotesFlow topology.now number (object members) entries.items) }
    {
        let flow = topology.flow(number);
        if self.group != Some(flow.group) || self.source != Some(flow.source) {
            return None;
        }
        self.reached
    }
}

/// Reads the flow with this number.
fn flow_value(
    alloc: Global,
    topology: &Topology,
    number: u32,
    reader: &mut TokenReader<'_>,
) -> Result<Vec<Reached>, NotRead>
    requires listed { number < length topology.now.flows }
    ensures { IfOk result (λ entries. ReadsTo 3 reader.old
        (λ d. DenotesFlow topology.now number d entries.items) reader.new) }
{
    let fields = read_object(alloc, topology, FlowFields::new(), reader)?;
    let Some(entries) = fields.entries_of_flow(topology, number) else {
        return Err(NotRead);
    };
    Ok(entries)
}

/// Reads each row as a flow.
#[derive(Drop)]
struct OwnEntriesRows<'t> {
    alloc: Global,
    topology: &'t Topology,
}

impl<'t> TokenRows for OwnEntriesRows<'t> {
    ghost use Rattle.mc_cert.specs.Certificate.{Tree};

    type Item = Vec<Reached>;

    ghost Row = { Tree };

    ghost item_view = { λ entries. entries.items };

    ghost levels = { 3 };

    ghost is_row_number = { λ rows n. n < length rows.topology.now.flows };

    ghost denotes = { λ rows. DenotesFlow rows.topology.now };

    fn read_row(
        &self,
        number: usize,
        reader: &mut TokenReader<'_>,
    ) -> Result<Vec<Reached>, NotRead> {
        // This brings the topology's rules into the proof: its limits follow from them.
        let _rules = self.topology.flows();
        flow_value(self.alloc, self.topology, number as u32, reader)
    }
}

/// Reads the list of flows, one for each of the topology.
pub(crate) fn flows_value(
    alloc: Global,
    topology: &Topology,
    reader: &mut TokenReader<'_>,
) -> Result<Vec<Vec<Reached>>, NotRead>
    ensures { IfOk result (λ flows. ReadsTo 4 reader.old
        (λ d. DenotesFlows topology.now d (map (λ entries. entries.items) flows.items)) reader.new) }
{
    let count = topology.flows() as usize;
    let flows = read_list(alloc, &OwnEntriesRows { alloc, topology }, count, reader)?;
    if flows.len() != count {
        return Err(NotRead);
    }
    Ok(flows)
}
