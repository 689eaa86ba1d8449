//! The slots of a domain in their fixed order, by their numbers.

ghost use Rattle.std.specs.Prelude.{◌≡◌, ◌<◌, ◌≤◌, ◌*◌, ◌++◌, List, Some, flat_map, length, slice_get};
ghost use Rattle.mc_files.specs.Layout.{Slot as SlotText};
ghost use Rattle.mc_files.specs.Layout.{first_lan_number, router_slots, slots};
ghost use Rattle.mc_topology.specs.Topology.{IsValidTopology};

use crate::slot::Slot;
use mc_topology::{LanNo, RouterNo, Topology};

/// The slot with a number among those of the routers: of vifs if it is even, else of a cache.
fn router_slot(topology: &Topology, number: u32) -> Slot<'_>
    requires within { number < 2 * length topology.now.routers }
    ensures item { (more : List SlotText)
        → slice_get (flat_map router_slots topology.now.routers ++ more) number ≡ Some result }
{
    let router = topology.router_name(RouterNo(number / 2));
    if number % 2 == 0 {
        return Slot::vifs(router);
    }
    Slot::cache(router)
}

/// The number of the slot of the first LAN's reports, behind those of the routers.
pub(crate) fn first_lan_slot_number(topology: &Topology) -> u32
    ensures value { result ≡ first_lan_number topology.now }
    ensures rules { IsValidTopology topology.now }
{
    1 + 2 * topology.routers()
}

/// The number of a domain's slots, with the certificate's if `certified`: at most 1,538.
pub fn slot_count(topology: &Topology, certified: bool) -> u32
    ensures count { result ≡ length (slots certified topology.now) }
    ensures bound { result ≤ 1538 }
{
    let count = first_lan_slot_number(topology) + topology.lans();
    if certified {
        return count + 1;
    }
    count
}

/// The slot with a number, counted from 0. The slots are the topology's, those of each router's vifs
/// and cache and of each LAN's reports in the topology's order, and the certificate's if `certified`.
/// `None` past the last.
pub fn slot_at(topology: &Topology, certified: bool, number: u32) -> Option<Slot<'_>>
    ensures { result ≡ slice_get (slots certified topology.now) number }
{
    if number >= slot_count(topology, certified) {
        return None;
    }
    if number == 0 {
        return Some(Slot::topology());
    }
    let tables = 2 * topology.routers();
    if number <= tables {
        return Some(router_slot(topology, number - 1));
    }
    let lan = number - 1 - tables;
    if lan < topology.lans() {
        return Some(Slot::reports(topology.lan_name(LanNo(lan))));
    }
    Some(Slot::certificate())
}
