//! A topology, read from its text, and its look-ups.

ghost use Rattle.std.specs.Prelude.{◌≡◌, ◌<◌, ◌≤◌, length, Some, None, IfSome, IsTrue, option_map};
ghost use Rattle.std.specs.Prelude.{slice_get};
ghost use Rattle.mc_topology.specs.Lookup.{lan_of_interface, router_no_of};
ghost use Rattle.mc_topology.specs.Names.{is_name, index_of};
ghost use Rattle.mc_topology.specs.Topology.{IsValidInterface, IsValidSource, IsValidFlow};
ghost use Rattle.mc_topology.specs.Topology.{IsValidTopology, lan_name, router_name};

use crate::fault::TopologyFault;
use crate::flow::Flow;
use crate::flows::Flows;
use crate::interface::Interface;
use crate::interfaces::Interfaces;
use crate::lans::Lans;
use crate::number::{LanNo, RouterNo};
use crate::read::parse_topology;
use crate::routers::Routers;
use crate::source::Source;
use crate::sources::Sources;
use mc_text::Order;
use std::alloc::Global;
use std::marker::Model;

/// The LANs and routers of a domain by name, the LAN of each interface and of each source, and
/// the flows.
#[derive(Debug)]
pub struct Topology {
    lans: Lans,
    routers: Routers,
    interfaces: Interfaces,
    sources: Sources,
    flows: Flows,
}

// Written out, so that dropping a topology is one step in a caller's proof, and not one for each field.
impl Drop for Topology {
    fn drop(self) {
        let Self {
            lans,
            routers,
            interfaces,
            sources,
            flows,
        } = self;
    }
}

impl Model for Topology {
    ghost use Rattle.mc_topology.specs.Topology.{TopologyValue, topology_code, IsValidTopology};

    ghost Value = { TopologyValue };

    ghost coded = { topology_code };

    ghost view = { λ s. record {
      lans = s.lans;
      routers = s.routers;
      interfaces = s.interfaces;
      sources = s.sources;
      flows = s.flows;
    } };

    ghost invariant = { λ s. IsValidTopology (record {
      lans = s.lans;
      routers = s.routers;
      interfaces = s.interfaces;
      sources = s.sources;
      flows = s.flows;
    }) };
}

impl Topology {
    ghost use Rattle.std.specs.Prelude.{◌≢◌, IfOk, Ok, Err};
    ghost use Rattle.mc_topology.specs.Answer.{out_of_memory};
    ghost use Rattle.mc_topology.specs.Bounds.{is_bounded};
    ghost use Rattle.mc_topology.specs.Reading.{parse_topology};
    ghost use Rattle.mc_topology.specs.Denotation.{DenotesTopology};
    ghost use Rattle.mc_topology.specs.Topology.{TopologyValue};

    /// The topology with these sections.
    pub(crate) fn new(
        lans: Lans,
        routers: Routers,
        interfaces: Interfaces,
        sources: Sources,
        flows: Flows,
    ) -> Topology
        requires valid { IsValidTopology (record {
          lans = lans;
          routers = routers;
          interfaces = interfaces;
          sources = sources;
          flows = flows;
        }) }
        ensures value { result ≡ record {
          lans = lans;
          routers = routers;
          interfaces = interfaces;
          sources = sources;
          flows = flows;
        } }
    {
        Topology {
            lans,
            routers,
            interfaces,
            sources,
            flows,
        }
    }

    /// Reads a topology: at most 16,777,216 bytes of TOML, 1,024 LANs, 256 routers, 8,192
    /// interfaces, 4,096 sources and 1 to 4,096 flows.
    ///
    /// A text that would take much time or memory to parse is refused before it is read as TOML:
    /// outside of strings and comments it may have at most 131,072 of the marks `.`, `,`, `=`, `{`
    /// and `[`, and the headers above each `=` may have at most 268,435,456 bytes together.
    ///
    /// # Errors
    ///
    /// The first rule that the text breaks, with its place. The sections are checked in the order of
    /// `Section`, the rows of a section from the first one, and of a row the keys before the values.
    /// `TooMany`, at `top` 0, where the text is beyond a bound, and `Memory`, at `top` 0, where an
    /// allocation failed.
    pub fn read(alloc: Global, text: &[u8]) -> Result<Topology, TopologyFault>
        // What is read is what the text denotes.
        ensures found { IfOk result (DenotesTopology text.now) }
        // A text that denotes a topology and is within the bounds is read as that, unless memory runs
        // out.
        ensures only { (topology : TopologyValue) → DenotesTopology text.now topology →
            IsTrue (is_bounded text.now) → result ≢ Err out_of_memory → result ≡ Ok topology }
        // The fault is the first one of the text, unless memory runs out.
        ensures fault { result ≢ Err out_of_memory → result ≡ parse_topology text.now }
    {
        parse_topology(alloc, text)
    }

    /// How many LANs there are, at most 1,024.
    pub fn lans(&self) -> u32
        ensures count { result ≡ length self.now.lans }
        ensures rules { IsValidTopology self.now }
    {
        self.lans.len() as u32
    }

    /// How many routers there are, at most 256.
    pub fn routers(&self) -> u32
        ensures count { result ≡ length self.now.routers }
        ensures rules { IsValidTopology self.now }
    {
        self.routers.len() as u32
    }

    /// How many interfaces there are, at most 8,192.
    pub fn interfaces(&self) -> u32
        ensures count { result ≡ length self.now.interfaces }
        ensures rules { IsValidTopology self.now }
    {
        self.interfaces.len() as u32
    }

    /// How many sources there are, at most 4,096.
    pub fn sources(&self) -> u32
        ensures count { result ≡ length self.now.sources }
        ensures rules { IsValidTopology self.now }
    {
        self.sources.len() as u32
    }

    /// How many flows there are, 1 to 4,096.
    pub fn flows(&self) -> u32
        ensures count { result ≡ length self.now.flows }
        ensures rules { IsValidTopology self.now }
    {
        self.flows.len() as u32
    }

    /// The byte order of a router's machine.
    pub fn order(&self, router: RouterNo) -> Order
        requires known { router < length self.now.routers }
        ensures item { option_map (λ row. row.order) (slice_get self.now.routers router) ≡ Some result }
    {
        self.routers.order(router)
    }

    /// The LAN of the interface with this router and this device. None where the topology has no such
    /// interface.
    pub fn lan_of_device(&self, router: RouterNo, device: &[u8]) -> Option<LanNo>
        ensures lan { result ≡ lan_of_interface router device.now self.now.interfaces }
        ensures listed { IfSome result (λ lan. lan < length self.now.lans) }
        ensures no_router { length self.now.routers ≤ router → result ≡ None }
    {
        self.interfaces.lan_of(router, device)
    }

    /// The interface with this number, counted from 0 in the order of the topology.
    pub fn interface(&self, interface: u32) -> Interface<'_>
        requires known { interface < length self.now.interfaces }
        ensures interface { slice_get self.now.interfaces interface ≡ Some result }
        ensures valid { IsValidInterface self.now result }
    {
        self.interfaces.interface(interface)
    }

    /// The source with this number, counted from 0 in the order of the topology.
    pub fn source(&self, source: u32) -> Source
        requires known { source < length self.now.sources }
        ensures source { slice_get self.now.sources source ≡ Some result }
        ensures valid { IsValidSource self.now.lans result }
    {
        self.sources.source(source)
    }

    /// The flow with this number, counted from 0 in the order of the topology.
    pub fn flow(&self, flow: u32) -> &Flow
        requires known { flow < length self.now.flows }
        ensures flow { slice_get self.now.flows flow ≡ Some result.now }
        ensures valid { IsValidFlow self.now.lans result.now }
    {
        self.flows.flow(flow)
    }

    /// The name of the router with this number.
    pub fn router_name(&self, router: RouterNo) -> &str
        requires known { router < length self.now.routers }
        ensures name { option_map (λ row. row.name) (slice_get self.now.routers router) ≡
            Some result.now }
        ensures number { router_no_of result.now self.now.routers ≡ Some router }
        ensures named { IsTrue (is_name result.now) }
    {
        self.routers.name(router)
    }

    /// The name of the LAN with this number.
    pub fn lan_name(&self, lan: LanNo) -> &str
        requires known { lan < length self.now.lans }
        ensures name { slice_get self.now.lans lan ≡ Some result.now }
        ensures number { index_of result.now self.now.lans ≡ Some lan }
        ensures named { IsTrue (is_name result.now) }
    {
        self.lans.name(lan)
    }

    /// The name of the router with this number; empty where the topology has no such router.
    pub fn router_name_or_empty(&self, router: RouterNo) -> &str
        ensures { result.now ≡ router_name self.now router }
    {
        if router.0 < self.routers() {
            self.router_name(router)
        } else {
            ""
        }
    }

    /// The name of the LAN with this number; empty where the topology has no such LAN.
    pub fn lan_name_or_empty(&self, lan: LanNo) -> &str
        ensures { result.now ≡ lan_name self.now lan }
    {
        if lan.0 < self.lans() {
            self.lan_name(lan)
        } else {
            ""
        }
    }

    /// The number of the router with the name. None where no router has it.
    pub fn router_no(&self, name: &str) -> Option<RouterNo>
        ensures number { result ≡ router_no_of name.now self.now.routers }
        ensures listed { IfSome result (λ router. router < length self.now.routers) }
    {
        self.routers.number_of(name)
    }

    /// The number of the LAN with the name. None where no LAN has it.
    pub fn lan_no(&self, name: &str) -> Option<LanNo>
        ensures number { result ≡ index_of name.now self.now.lans }
        ensures listed { IfSome result (λ lan. lan < length self.now.lans) }
    {
        self.lans.number_of(name)
    }
}
