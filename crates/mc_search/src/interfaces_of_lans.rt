//! The interfaces that the topology has on each LAN.

ghost use Rattle.std.specs.Prelude.{◌≡◌, ◌<◌, ◌++◌, ℕ, [], All, IfOk, List, OnOk, length, map};
ghost use Rattle.mc_theory.specs.Lists.{below};
ghost use Rattle.mc_forward.specs.Domains.{vif_of};
ghost use Rattle.mc_forward.specs.ListedTables.{DomainFacts, facts};
ghost use Rattle.mc_search.specs.TopologyLans.{listed_interface_of, interfaces_of_router, interfaces_on_lan};
ghost use Rattle.mc_search.specs.TopologyLans.{interfaces_on_lans, vif_has_device, vif_of_device};
ghost use Rattle.mc_search.specs.BucketsAndMarks.{AreInterfacesByLan};

use crate::listed_interface::ListedInterface;
use mc_forward::Domain;
use mc_tables::MAX_VIFS;
use mc_text::Memory;
use mc_topology::{Interface, LanNo, RouterNo, Topology};
use std::alloc::Global;
use std::marker::Model;

/// One list of a list of lists.
#[derive(Debug, Drop)]
struct InnerList<T> {
    items: Vec<T>,
}

impl<T> Model for InnerList<T> {
    ghost use Rattle.std.specs.Prelude.{List};

    ghost Value = { List T };

    ghost view = { λ s. s.items.items };
}

/// The interfaces that the topology has on each LAN, by router and then in the topology's order. All
/// searches of a domain share them.
#[derive(Debug, Drop)]
pub struct InterfacesOfLans {
    lans: Vec<InnerList<ListedInterface>>,
}

impl Model for InterfacesOfLans {
    ghost use Rattle.std.specs.Prelude.{List};
    ghost use Rattle.mc_search.specs.declared.listed_interface.ListedInterface.{ListedInterface};

    ghost Value = { List (List ListedInterface) };

    ghost view = { λ i. i.lans.items };
}

/// `count` empty lists.
fn empty_lists<T: Drop>(alloc: Global, count: u32) -> Result<Vec<InnerList<T>>, Memory>
    ensures { IfOk result (λ lists. lists.items ≡ map (λ _. []) (below count)) }
{
    let mut lists = Vec::new(alloc);
    for _ in 0..count {
        lists.push(InnerList {
            items: Vec::new(alloc),
        })?;
    }
    Ok(lists)
}

/// The numbers of the interfaces of each router, in the topology's order.
fn interface_numbers_by_router(
    alloc: Global,
    topology: &Topology,
) -> Result<Vec<InnerList<u32>>, Memory>
    ensures { IfOk result (λ lists. lists.items ≡
        map (interfaces_of_router topology.now (below (length topology.now.interfaces)))
        (below (length topology.now.routers))) }
{
    let mut lists = empty_lists(alloc, topology.routers())?;
    for number in 0..topology.interfaces() {
        let router = topology.interface(number).router;
        let list = &mut lists[router.0 as usize];
        list.items.push(number)?;
    }
    Ok(lists)
}

/// Whether a router's vif has this device.
fn vif_has_device(domain: &Domain, router: RouterNo, vif: u8, device: &[u8]) -> bool
    ensures { result ≡ vif_has_device device.now (vif_of domain.now.vifs router vif) }
{
    match domain.vif(router, vif) {
        Some(found) => found.device() == device,
        None => false,
    }
}

/// The vif of a router that has this device.
pub fn vif_of_device(domain: &Domain, router: RouterNo, device: &[u8]) -> Option<u8>
    ensures { result ≡ vif_of_device (facts domain.now) router device.now }
{
    for vif in 0..MAX_VIFS {
        if vif_has_device(domain, router, vif, device) {
            return Some(vif);
        }
    }
    None
}

/// An interface's number, its router, and the router's vif of its device.
fn listed_interface_of(domain: &Domain, number: u32, interface: &Interface<'_>) -> ListedInterface
    ensures { result ≡ listed_interface_of (facts domain.now) number interface.now }
{
    ListedInterface {
        router: interface.router,
        interface: number,
        vif: vif_of_device(domain, interface.router, interface.device),
    }
}

/// Adds the interfaces with these numbers to the lists of their LANs.
fn add_interfaces(
    lists: &mut Vec<InnerList<ListedInterface>>,
    domain: &Domain,
    numbers: &[u32],
) -> Result<(), Memory>
    requires numbers { All (λ k. k < length domain.now.topology.interfaces) numbers.now }
    requires lans { length lists.old.items ≡ length domain.now.topology.lans }
    ensures count { length lists.new.items ≡ length domain.now.topology.lans }
    ensures each { OnOk result ((earlier : List ℕ) →
        AreInterfacesByLan (facts domain.now) lists.old.items earlier →
        AreInterfacesByLan (facts domain.now) lists.new.items (earlier ++ numbers.now)) }
{
    for number in numbers {
        let interface = domain.topology().interface(*number);
        let listed = listed_interface_of(domain, *number, &interface);
        let lan = interface.lan;
        let list = &mut lists[lan.0 as usize];
        list.items.push(listed)?;
    }
    Ok(())
}

/// The interfaces of each LAN.
fn interfaces_of_lans(
    alloc: Global,
    domain: &Domain,
) -> Result<Vec<InnerList<ListedInterface>>, Memory>
    ensures { IfOk result (λ lists. lists.items ≡ interfaces_on_lans (facts domain.now)) }
{
    let topology = domain.topology();
    let routers = interface_numbers_by_router(alloc, topology)?;
    let mut lists = empty_lists(alloc, topology.lans())?;
    for router in &routers {
        add_interfaces(&mut lists, domain, &router.items)?;
    }
    Ok(lists)
}

impl InterfacesOfLans {
    /// The interfaces of a domain's topology. The time is in proportion to the number of interfaces,
    /// routers and LANs.
    ///
    /// # Errors
    ///
    /// `Memory` if an allocation fails.
    pub fn new(alloc: Global, domain: &Domain) -> Result<InterfacesOfLans, Memory>
        ensures { IfOk result (λ interfaces. interfaces ≡ interfaces_on_lans (facts domain.now)) }
    {
        let lans = interfaces_of_lans(alloc, domain)?;
        Ok(InterfacesOfLans { lans })
    }

    /// The interfaces on a LAN.
    pub(crate) fn on(&self, lan: LanNo) -> &[ListedInterface]
        requires known { lan < length self.now }
        ensures item { (domain : DomainFacts) → self.now ≡ interfaces_on_lans domain
            → lan < length domain.topology.lans →
            result.now ≡ interfaces_on_lan domain lan }
    {
        &self.lans[lan.0 as usize].items
    }
}
