//! The routers of a topology, by name and by number.

ghost use Rattle.std.specs.Prelude.{◌≡◌, ◌++◌, ◌<◌, ◌≤◌, [], ◌∷◌, false, length, slice_get, Some};
ghost use Rattle.std.specs.Prelude.{option_map, IfErr, IfSome, OnOk};
ghost use Rattle.mc_topology.specs.Answer.{out_of_memory};
ghost use Rattle.mc_topology.specs.Lookup.{has_router, router_no_of};

use crate::fault::TopologyFault;
use crate::number::RouterNo;
use indexmap::IndexMap;
use mc_text::Order;
use std::alloc::Global;
use std::marker::Model;

/// The greatest number of routers.
pub(crate) const MAX_ROUTERS: usize = 256;

/// The names of the routers, each with the byte order of its machine, in the order of the topology.
#[derive(Debug, Drop)]
pub(crate) struct Routers {
    orders: IndexMap<String, Order>,
}

impl Model for Routers {
    ghost use Rattle.std.specs.Prelude.{List, map};
    ghost use Rattle.mc_topology.specs.SectionRows.{RouterRow, router_row};

    ghost Value = { List RouterRow };

    ghost view = { λ a. map router_row a.orders.entries };
}

impl Routers {
    /// No routers.
    pub(crate) fn new(alloc: Global) -> Routers
        ensures { result ≡ [] }
    {
        Routers {
            orders: IndexMap::new(alloc),
        }
    }

    /// How many there are.
    pub(crate) fn len(&self) -> usize
        ensures { result ≡ length self.now }
    {
        self.orders.len()
    }

    /// Whether a router has the name.
    pub(crate) fn has(&self, name: &str) -> bool
        ensures { result ≡ has_router name.now self.now }
    {
        self.orders.contains_key(name)
    }

    /// The number of the router with the name.
    pub(crate) fn number_of(&self, name: &str) -> Option<RouterNo>
        requires bounded { length self.now ≤ MAX_ROUTERS }
        ensures number { result ≡ router_no_of name.now self.now }
        ensures listed { IfSome result (λ router. router < length self.now) }
    {
        let index = self.orders.get_index_of(name)?;
        Some(RouterNo(index as u32))
    }

    /// The name of the router with this number.
    pub(crate) fn name(&self, router: RouterNo) -> &str
        requires known { router < length self.now }
        ensures item { option_map (λ row. row.name) (slice_get self.now router) ≡ Some result.now }
    {
        let names = self.orders.keys();
        let name = &names.as_slice()[router.0 as usize];
        name.as_str()
    }

    /// The byte order of the router's machine.
    pub(crate) fn order(&self, router: RouterNo) -> Order
        requires known { router < length self.now }
        ensures item { option_map (λ row. row.order) (slice_get self.now router) ≡ Some result }
    {
        self.orders[router.0 as usize]
    }

    /// Adds a router, whose name no other has.
    pub(crate) fn push(
        &mut self,
        alloc: Global,
        name: &str,
        order: Order,
    ) -> Result<(), TopologyFault>
        requires absent { has_router name.now self.old ≡ false }
        ensures added { OnOk result (self.new ≡
            self.old ++ (record { name = name.now; order = order }) ∷ []) }
        ensures fault { IfErr result (λ fault. fault ≡ out_of_memory) }
    {
        self.orders.insert(String::from_str(alloc, name)?, order)?;
        Ok(())
    }
}
