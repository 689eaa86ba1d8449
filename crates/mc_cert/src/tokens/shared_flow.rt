//! Reads the flows of version 2, each with the number of its tree.

ghost use Rattle.std.specs.Prelude.{◌≡◌, ◌<◌, None, IfSome, IfOk, length};
ghost use Rattle.serde_json.specs.Data.{Members, object};
ghost use Rattle.mc_cert.specs.Tokens.{ReadsTo, DenotesNumber, DenotesNumbers, HoldsSharedFlow};

use crate::key::Key;
use crate::token_reader::TokenReader;
use crate::tokens::NotRead;
use crate::tokens::list::{TokenRows, read_list};
use crate::tokens::object::{Fields, read_object};
use crate::tokens::value::{address_value, whole_value};
use mc_text::Addr;
use mc_topology::Topology;
use std::alloc::Global;

/// The greatest number of a tree.
const LAST_TREE: u32 = 4095;

/// What was read of a flow.
#[derive(Clone, Copy, Drop)]
struct SharedFlowFields {
    group: Option<Addr>,
    source: Option<Addr>,
    tree: Option<u32>,
}

impl Fields for SharedFlowFields {
    ghost levels = { 0 };

    ghost holds = { λ _ f. HoldsSharedFlow f.group f.source f.tree };

    fn read_field(
        self,
        _alloc: Global,
        _topology: &Topology,
        key: Key,
        reader: &mut TokenReader<'_>,
    ) -> Result<SharedFlowFields, NotRead> {
        match key {
            Key::Tree => {
                let tree = whole_value(0, LAST_TREE, reader)?;
                Ok(SharedFlowFields {
                    tree: Some(tree),
                    ..self
                })
            }
            Key::Group => {
                let group = address_value(reader)?;
                Ok(SharedFlowFields {
                    group: Some(group),
                    ..self
                })
            }
            Key::Source => {
                let source = address_value(reader)?;
                Ok(SharedFlowFields {
                    source: Some(source),
                    ..self
                })
            }
            _ => Err(NotRead),
        }
    }
}

impl SharedFlowFields {
    fn new() -> SharedFlowFields
        ensures { result ≡ record { group = None; source = None; tree = None } }
    {
        SharedFlowFields {
            group: None,
            source: None,
            tree: None,
        }
    }

    /// The number of its tree, if this is the flow of the topology with this number.
    fn tree_of(self, topology: &Topology, number: u32) -> Option<u32>
        requires listed { number < length topology.now.flows }
        ensures { IfSome result (λ tree. (members : Members) →
            HoldsSharedFlow self.group self.source self.tree members →
            DenotesNumber topology.now number (object members) tree) }
    {
        let flow = topology.flow(number);
        if self.group != Some(flow.group) || self.source != Some(flow.source) {
            return None;
        }
        self.tree
    }
}

/// Reads the flow with this number, as the number of its tree.
fn tree_number_value(
    alloc: Global,
    topology: &Topology,
    number: u32,
    reader: &mut TokenReader<'_>,
) -> Result<u32, NotRead>
    requires listed { number < length topology.now.flows }
    ensures { IfOk result (λ tree. ReadsTo 1 reader.old
        (λ d. DenotesNumber topology.now number d tree) reader.new) }
{
    let fields = read_object(alloc, topology, SharedFlowFields::new(), reader)?;
    let Some(tree) = fields.tree_of(topology, number) else {
        return Err(NotRead);
    };
    Ok(tree)
}

/// Reads each row as a flow.
#[derive(Drop)]
struct TreeNumberRows<'t> {
    alloc: Global,
    topology: &'t Topology,
}

impl<'t> TokenRows for TreeNumberRows<'t> {
    ghost use Rattle.std.specs.Prelude.{ℕ};

    type Item = u32;

    ghost Row = { ℕ };

    ghost item_view = { λ number. number };

    ghost levels = { 1 };

    ghost is_row_number = { λ rows n. n < length rows.topology.now.flows };

    ghost denotes = { λ rows. DenotesNumber rows.topology.now };

    fn read_row(&self, number: usize, reader: &mut TokenReader<'_>) -> Result<u32, NotRead> {
        // This brings the topology's rules into the proof: its limits follow from them.
        let _rules = self.topology.flows();
        tree_number_value(self.alloc, self.topology, number as u32, reader)
    }
}

/// Reads the list of flows, one for each of the topology, as the numbers of their trees.
pub(crate) fn tree_numbers_value(
    alloc: Global,
    topology: &Topology,
    reader: &mut TokenReader<'_>,
) -> Result<Vec<u32>, NotRead>
    ensures { IfOk result (λ numbers. ReadsTo 2 reader.old
        (λ d. DenotesNumbers topology.now d numbers.items) reader.new) }
{
    let count = topology.flows() as usize;
    let numbers = read_list(alloc, &TreeNumberRows { alloc, topology }, count, reader)?;
    if numbers.len() != count {
        return Err(NotRead);
    }
    Ok(numbers)
}
