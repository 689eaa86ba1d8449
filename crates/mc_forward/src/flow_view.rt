//! A domain for the packets of one flow.

ghost use Rattle.std.specs.Prelude.{◌≡◌, ◌≢◌, ◌<◌, IfSome, None, length};
ghost use Rattle.std.specs.Option.{option_copied};
ghost use Rattle.mc_topology.specs.Topology.{flow_at};
ghost use Rattle.mc_theory.specs.Nets.{interfaces};
ghost use Rattle.mc_theory.specs.Findings.{from_lan, taken_from};
ghost use Rattle.mc_forward.specs.Domains.{vif_of};
ghost use Rattle.mc_forward.specs.FlightsInDomain.{net_in, IsFlowOfDomain};
ghost use Rattle.mc_forward.specs.RowValues.{row_value, HasValidEntry};
ghost use Rattle.mc_forward.specs.UnplacedReasons.{unplaced_reason};
ghost use Rattle.mc_forward.specs.declared.unplaced.UnplacedReason.TheVariants.{OnNoLan};

use crate::domain::Domain;
use crate::interfaces::Interfaces;
use crate::row::RowFor;
use crate::unplaced::{UnplacedReason, unplaced_reason};
use mc_tables::Vif;
use mc_topology::{Flow, LanNo, RouterNo, Topology};
use std::marker::Model;

/// A flow of a domain. Its value in contracts is the domain and the flow's number.
#[derive(Drop)]
pub struct FlowView<'d> {
    domain: &'d Domain,
    flow: u32,
}

impl<'d> Model for FlowView<'d> {
    ghost use Rattle.mc_forward.specs.FlightsInDomain.{FlowOfDomain, IsFlowOfDomain, flow_of_domain_code};

    ghost Value = { FlowOfDomain };

    ghost coded = { flow_of_domain_code };

    ghost view = { λ v. record { domain = v.domain.now; flow = v.flow } };

    ghost invariant = { λ v. IsFlowOfDomain (record { domain = v.domain.now; flow = v.flow }) };
}

impl<'d> FlowView<'d> {
    /// The flow with this number.
    pub fn new(domain: &'d Domain, flow: u32) -> FlowView<'d>
        requires listed_flow { flow < length domain.now.topology.flows }
        ensures flow { result ≡ record { domain = domain.now; flow = flow } }
        ensures rules { IsFlowOfDomain result }
    {
        // This brings the domain's rules into the proof: its limits follow from them.
        let _rules = domain.topology();
        FlowView { domain, flow }
    }

    /// The topology of the domain.
    pub fn topology(&self) -> &'d Topology
        ensures topology { result.now ≡ self.now.domain.topology }
        // What holds of every flow of a domain.
        ensures rules { IsFlowOfDomain self.now }
    {
        self.domain.topology()
    }

    /// The flow, as the topology lists it.
    pub fn flow(&self) -> Flow
        ensures { result ≡ flow_at self.now.domain.topology self.now.flow }
    {
        *self.topology().flow(self.flow)
    }

    /// How many routers there are.
    pub fn routers(&self) -> u32
        ensures count { result ≡ (net_in self.now).routers }
        ensures rules { IsFlowOfDomain self.now }
    {
        self.topology().routers()
    }

    /// How many LANs there are.
    pub fn lans(&self) -> u32
        ensures count { result ≡ length self.now.domain.topology.lans }
        ensures rules { IsFlowOfDomain self.now }
    {
        self.topology().lans()
    }

    /// The LAN on which the source is.
    pub fn source(&self) -> LanNo
        ensures lan { result ≡ (net_in self.now).source }
        ensures listed { result < length self.now.domain.topology.lans }
    {
        self.topology().flow(self.flow).lan
    }

    /// The least time to live of the flow's packets.
    pub fn ttl(&self) -> u8
        ensures { result ≡ (net_in self.now).ttl }
    {
        self.topology().flow(self.flow).ttl
    }

    /// Whether a LAN wants the flow.
    pub fn wants(&self, lan: LanNo) -> bool
        requires listed_lan { lan < length self.now.domain.topology.lans }
        ensures value { result ≡ (net_in self.now).wants lan }
    {
        self.domain.wants(lan, self.flow)
    }

    /// The LAN that a router's vif is placed on. None for a router that isn't in the topology.
    pub fn placed(&self, router: RouterNo, vif: u8) -> Option<LanNo>
        ensures lan { result ≡ (net_in self.now).placed router vif }
        ensures listed { IfSome result (λ lan. lan < length self.now.domain.topology.lans) }
    {
        if router.0 < self.routers() {
            self.domain.placed(router, vif)
        } else {
            None
        }
    }

    /// The vif of a router with this index, from its table. None where that has no line of the index,
    /// and for a router that isn't in the topology.
    pub fn vif(&self, router: RouterNo, vif: u8) -> Option<&'d Vif>
        ensures { option_copied result ≡ vif_of self.now.domain.vifs router vif }
    {
        self.domain.vif(router, vif)
    }

    /// Why a router's vif is placed on no LAN: `OnNoLan` also where it is placed on one.
    pub fn unplaced_reason(&self, router: RouterNo, vif: u8) -> UnplacedReason
        ensures reason { result ≡ unplaced_reason (vif_of self.now.domain.vifs router vif) }
        ensures unplaced { result ≢ OnNoLan → (net_in self.now).placed router vif ≡ None }
    {
        unplaced_reason(self.vif(router, vif))
    }

    /// What a router has for the flow: no row for a router that isn't in the topology.
    pub fn row(&self, router: RouterNo) -> RowFor<'d>
        ensures row { row_value result ≡ (net_in self.now).row router }
        ensures valid { HasValidEntry result }
    {
        if router.0 < self.routers() {
            self.domain.entry(router, self.flow)
        } else {
            RowFor::NoRow
        }
    }

    /// The interfaces of a LAN.
    pub fn interfaces(&self, lan: LanNo) -> Interfaces<'d>
        requires listed_lan { lan < length self.now.domain.topology.lans }
        ensures value { result ≡ interfaces (net_in self.now) lan }
    {
        self.domain.interfaces(lan)
    }

    /// The LAN that a router's row takes the flow from.
    fn taken_from(&self, router: RouterNo) -> Option<LanNo>
        ensures { result ≡ taken_from (net_in self.now) router ((net_in self.now).row router) }
    {
        match self.row(router) {
            RowFor::Exact(entry) => self.placed(router, entry.iif),
            RowFor::Open | RowFor::NoRow => None,
        }
    }

    /// The LAN that a sender took its copy from. None for the source, and where the sender's row or
    /// its incoming vif doesn't give one.
    pub fn from_lan(&self, sender: Option<(RouterNo, u8)>) -> Option<LanNo>
        ensures { result ≡ from_lan (net_in self.now) sender }
    {
        match sender {
            Some((router, _)) => self.taken_from(router),
            None => None,
        }
    }
}
