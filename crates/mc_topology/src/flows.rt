//! The flows of a topology, by source and group.

ghost use Rattle.std.specs.Prelude.{◌≡◌, ◌++◌, ◌<◌, [], ◌∷◌, false, length, slice_get, Some, IfErr};
ghost use Rattle.std.specs.Prelude.{OnOk};
ghost use Rattle.mc_topology.specs.Answer.{out_of_memory};
ghost use Rattle.mc_topology.specs.Flows.{has_flow};

use crate::fault::TopologyFault;
use crate::flow::Flow;
use indexmap::IndexMap;
use mc_text::Addr;
use std::alloc::Global;
use std::marker::Model;

/// The flows by source and group, in the order of the topology.
#[derive(Debug, Drop)]
pub(crate) struct Flows {
    flows: IndexMap<(Addr, Addr), Flow>,
}

impl Model for Flows {
    ghost use Rattle.std.specs.Prelude.{◌≡◌, List, map};
    ghost use Rattle.indexmap.specs.IndexMap.{keys, values};
    ghost use Rattle.mc_topology.specs.declared.flow.Flow.{Flow};
    ghost use Rattle.mc_topology.specs.Topology.{flow_key};

    ghost Value = { List Flow };

    ghost view = { λ a. values a.flows };

    ghost invariant = { λ a. keys a.flows ≡ map flow_key (values a.flows) };
}

impl Flows {
    /// No flows.
    pub(crate) fn new(alloc: Global) -> Flows
        ensures { result ≡ [] }
    {
        Flows {
            flows: IndexMap::new(alloc),
        }
    }

    /// How many there are.
    pub(crate) fn len(&self) -> usize
        ensures { result ≡ length self.now }
    {
        self.flows.len()
    }

    /// Whether a flow has the source and the group.
    pub(crate) fn has(&self, source: Addr, group: Addr) -> bool
        ensures { result ≡ has_flow source group self.now }
    {
        self.flows.contains_key(&(source, group))
    }

    /// The flow with this number.
    pub(crate) fn flow(&self, flow: u32) -> &Flow
        requires known { flow < length self.now }
        ensures item { slice_get self.now flow ≡ Some result.now }
    {
        &self.flows[flow as usize]
    }

    /// Adds a flow, whose source and group no other has.
    pub(crate) fn push(&mut self, flow: Flow) -> Result<(), TopologyFault>
        requires absent { has_flow flow.source flow.group self.old ≡ false }
        ensures added { OnOk result (self.new ≡ self.old ++ flow ∷ []) }
        ensures fault { IfErr result (λ fault. fault ≡ out_of_memory) }
    {
        self.flows.insert((flow.source, flow.group), flow)?;
        Ok(())
    }
}
