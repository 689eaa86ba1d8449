//! On which LAN each vif of a router is placed.

ghost use Rattle.std.specs.Prelude.{◌≡◌, IfOk, length, map};
ghost use Rattle.std.specs.Prelude.{option_and_then};
ghost use Rattle.std.specs.FinMap as finite;
ghost use Rattle.mc_theory.specs.Lists.{below};
ghost use Rattle.mc_tables.specs.VifLookups.{IsValidVifTable};
ghost use Rattle.mc_forward.specs.Domains.{AreVifs, lan_of_vif, placed_in};
ghost use Rattle.mc_forward.specs.Assembling.{vif_lans_by_vifs};

use crate::tables::HasVifs;
use mc_tables::{MAX_VIFS, Vif, VifTable};
use mc_text::Memory;
use mc_topology::{LanNo, RouterNo, Topology};
use std::alloc::Global;

/// The LAN of each vif of a router, from vif 0.
pub(crate) type VifLans = [Option<LanNo>; MAX_VIFS as usize];

/// The LAN of a router's vif.
fn lan_of_vif(topology: &Topology, router: RouterNo, vif: &Vif) -> Option<LanNo>
    ensures { result ≡ lan_of_vif topology.now router vif.now }
{
    if vif.tunnel() || vif.register() || !vif.has_device() {
        return None;
    }
    topology.lan_of_device(router, vif.device())
}

/// The LAN of the vif with this index, if the router has one.
fn lan_of_vif_number(
    topology: &Topology,
    router: RouterNo,
    vifs: &VifTable,
    vif: u8,
) -> Option<LanNo>
    ensures { result ≡ option_and_then (lan_of_vif topology.now router) (finite.get vifs.now vif) }
{
    match vifs.vif(vif) {
        Some(found) => lan_of_vif(topology, router, found),
        None => None,
    }
}

/// The LANs of a router's vifs.
fn vif_lans_of_router(topology: &Topology, router: RouterNo, vifs: &VifTable) -> VifLans
    ensures vif_lans { result ≡ vif_lans_by_vifs topology.now router vifs.now }
    ensures rules { IsValidVifTable vifs.now }
{
    // what holds of every table is a fact of a look-up
    let _first = vifs.vif(0);
    let mut vif_lans = [None; MAX_VIFS as usize];
    for vif in 0..MAX_VIFS {
        vif_lans[vif as usize] = lan_of_vif_number(topology, router, vifs, vif);
    }
    vif_lans
}

/// The LANs of all routers' vifs.
pub(crate) fn vif_lans_of_routers<T: HasVifs>(
    alloc: Global,
    topology: &Topology,
    tables: &[T],
) -> Result<Vec<VifLans>, Memory>
    requires vifs_per_router { length tables.now ≡ length topology.now.routers }
    ensures vif_lans { IfOk result (λ vif_lans. vif_lans.items ≡
        map (λ router. map (placed_in topology.now (map T.vifs_of tables.now) router) (below 32))
        (below (length topology.now.routers))) }
    ensures rules { IfOk result (λ _. AreVifs topology.now (map T.vifs_of tables.now)) }
{
    let mut vif_lans = Vec::new(alloc);
    for number in 0..topology.routers() {
        let vifs = tables[number as usize].vif_table();
        vif_lans.push(vif_lans_of_router(topology, RouterNo(number), vifs))?;
    }
    Ok(vif_lans)
}
