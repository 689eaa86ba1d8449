//! A domain, and its look-ups for each flow.

ghost use Rattle.std.specs.Prelude.{◌≡◌, ◌<◌, ℕ, None, IfSome, length, slice_get, unwrap_or};
ghost use Rattle.std.specs.Option.{option_copied};
ghost use Rattle.mc_theory.specs.Nets.{interfaces};
ghost use Rattle.mc_forward.specs.Domains.{IsDomain, net_of, placed_of, row_of, vif_of, wants_of};
ghost use Rattle.mc_forward.specs.Assembling.{domain_with};
ghost use Rattle.mc_forward.specs.DomainParts.{AreDerivedTables};
ghost use Rattle.mc_forward.specs.RowValues.{row_value, HasValidEntry};

use crate::flow_rows::RouterRows;
use crate::interfaces::Interfaces;
use crate::items::Items;
use crate::row::RowFor;
use crate::vif_lans::VifLans;
use mc_tables::{Vif, VifTable};
use mc_topology::{LanNo, RouterNo, Topology};
use std::marker::Model;

/// Look-up tables that are computed once from the parts of a domain.
#[derive(Drop)]
pub(crate) struct DerivedTables {
    /// For each router, the LAN of each vif.
    pub(crate) vif_lans: Vec<VifLans>,
    /// For each LAN, the vifs that are placed on it, with the router of each.
    pub(crate) interfaces: Vec<Items<(RouterNo, u8)>>,
}

/// A topology with the vifs of each router and its row for each flow, and which LAN wants which flow.
pub struct Domain {
    topology: Topology,
    /// For each router, its vifs.
    vifs: Vec<VifTable>,
    /// For each router, the row of each flow.
    rows: Vec<RouterRows>,
    /// For each LAN, whether it wants each flow.
    wants: Vec<Items<bool>>,
    derived: DerivedTables,
}

// Written by hand, so that a proof takes one step where a domain is dropped, and not one for each part.
impl Drop for Domain {
    fn drop(self) {
        let Self {
            topology,
            vifs,
            rows,
            wants,
            derived,
        } = self;
    }
}

impl Model for Domain {
    ghost use Rattle.mc_forward.specs.Assembling.{domain_with};
    ghost use Rattle.mc_forward.specs.Domains.{DomainValue};
    ghost use Rattle.mc_forward.specs.DomainParts.{domain_code, AreDerivedTables};

    ghost Value = { DomainValue };

    ghost coded = { domain_code };

    ghost view = { λ d. domain_with d.topology d.vifs.items d.rows.items d.wants.items };

    ghost invariant = { λ d.
        AreDerivedTables (domain_with d.topology d.vifs.items d.rows.items d.wants.items)
        d.derived.vif_lans.items d.derived.interfaces.items };
}

/// The LAN of a vif, from those of its router's vifs.
fn vif_lan(vif_lans: &[Option<LanNo>], vif: u8) -> Option<LanNo>
    ensures { result ≡ unwrap_or (slice_get vif_lans.now vif) None }
{
    match vif_lans.get(vif as usize) {
        Some(place) => *place,
        None => None,
    }
}

/// The vif of a router with this index.
fn vif_of_router(vifs: &[VifTable], router: RouterNo, vif: u8) -> Option<&Vif>
    ensures { option_copied result ≡ vif_of vifs.now router vif }
{
    match vifs.get(router.0 as usize) {
        Some(own) => own.vif(vif),
        None => None,
    }
}

impl Domain {
    /// The domain of these facts, with the look-up tables of them.
    pub(crate) fn new(
        topology: Topology,
        vifs: Vec<VifTable>,
        rows: Vec<RouterRows>,
        wants: Vec<Items<bool>>,
        derived: DerivedTables,
    ) -> Domain
        requires valid { AreDerivedTables (domain_with topology vifs.items rows.items wants.items)
            derived.vif_lans.items derived.interfaces.items }
        ensures value { result ≡ domain_with topology vifs.items rows.items wants.items }
    {
        Domain {
            topology,
            vifs,
            rows,
            wants,
            derived,
        }
    }

    /// The topology.
    pub fn topology(&self) -> &Topology
        ensures topology { result.now ≡ self.now.topology }
        // What holds of every domain.
        ensures rules { IsDomain self.now }
    {
        &self.topology
    }

    /// The LAN that a router's vif is placed on. None for a vif that isn't in its table, for a tunnel
    /// or a register interface, and for a device of which the topology has no interface.
    pub fn placed(&self, router: RouterNo, vif: u8) -> Option<LanNo>
        requires listed_router { router < length self.now.topology.routers }
        ensures lan { result ≡ placed_of self.now router vif }
        ensures listed { IfSome result (λ lan. lan < length self.now.topology.lans) }
    {
        let vif_lans = &self.derived.vif_lans[router.0 as usize];
        vif_lan(vif_lans, vif)
    }

    /// The vif of a router with this index, from its table. None where that has no line of the index,
    /// and for a router that isn't in the topology.
    pub fn vif(&self, router: RouterNo, vif: u8) -> Option<&Vif>
        ensures { option_copied result ≡ vif_of self.now.vifs router vif }
    {
        vif_of_router(&self.vifs, router, vif)
    }

    /// The vifs of a router.
    pub fn vifs(&self, router: RouterNo) -> &VifTable
        requires listed_router { router < length self.now.topology.routers }
        ensures { slice_get self.now.vifs router ≡ Some result.now }
    {
        &self.vifs[router.0 as usize]
    }

    /// What a router's forwarding cache has for a flow.
    pub fn entry(&self, router: RouterNo, flow: u32) -> RowFor<'_>
        requires router { router < length self.now.topology.routers }
        requires flow { flow < length self.now.topology.flows }
        ensures row { row_value result ≡ row_of self.now flow router }
        ensures valid { HasValidEntry result }
    {
        let rows = &self.rows[router.0 as usize];
        rows.row(flow)
    }

    /// Whether a LAN wants a flow: whether some record of its reports for the flow's group admits
    /// the flow's source.
    pub fn wants(&self, lan: LanNo, flow: u32) -> bool
        requires lan { lan < length self.now.topology.lans }
        requires flow { flow < length self.now.topology.flows }
        ensures value { result ≡ wants_of self.now flow lan }
    {
        let wanted = &self.wants[lan.0 as usize];
        wanted.items[flow as usize]
    }

    /// The vifs that are placed on a LAN, by router and then by vif.
    pub fn interfaces(&self, lan: LanNo) -> Interfaces<'_>
        requires listed_lan { lan < length self.now.topology.lans }
        ensures each_flow { (flow : ℕ) → result ≡ interfaces (net_of self.now flow) lan }
    {
        let interfaces = &self.derived.interfaces[lan.0 as usize];
        Interfaces::new(interfaces)
    }
}
