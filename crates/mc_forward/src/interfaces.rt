//! The interfaces of a LAN.

ghost use Rattle.std.specs.Prelude.{◌≡◌, ◌<◌, ◌≤◌, ◌++◌, ◌∷◌, [], ℕ, IfOk, OnOk, Some, None};
ghost use Rattle.std.specs.Prelude.{length, map, slice_index_or};
ghost use Rattle.mc_theory.specs.Lists.{below};
ghost use Rattle.mc_forward.specs.Assembling.{vifs_on, vif_lan_in, interfaces_by_vif_lans};

use crate::items::Items;
use crate::vif_lans::VifLans;
use mc_tables::MAX_VIFS;
use mc_text::Memory;
use mc_topology::RouterNo;
use std::alloc::Global;
use std::marker::Model;

/// An iterator over the interfaces of a LAN, each a router and its vif. Its value in contracts is the
/// list of those that are left.
#[derive(Debug, Drop)]
pub struct Interfaces<'a> {
    left: &'a [(RouterNo, u8)],
}

impl<'a> Model for Interfaces<'a> {
    ghost use Rattle.std.specs.Prelude.{ℕ, List};

    ghost Value = { List (ℕ × ℕ) };

    ghost view = { λ s. s.left.now };
}

impl<'a> Interfaces<'a> {
    /// All of a LAN's interfaces.
    pub(crate) fn new(all: &'a Items<(RouterNo, u8)>) -> Interfaces<'a>
        ensures { result ≡ all.now }
    {
        Interfaces { left: &all.items }
    }
}

impl<'a> Iterator for Interfaces<'a> {
    type Item = (RouterNo, u8);

    ghost use Rattle.std.specs.Iterator.{YieldsFirst, item_count};

    ghost next_gives = { YieldsFirst (λ left. left) };

    ghost remaining = { item_count (λ left. left) };

    fn next(&mut self) -> Option<(RouterNo, u8)> {
        match self.left {
            [first, rest @ ..] => {
                self.left = rest;
                Some(*first)
            }
            [] => None,
        }
    }
}

/// An empty list of interfaces for each of so many LANs.
fn empty_interface_lists(alloc: Global, lans: u32) -> Result<Vec<Items<(RouterNo, u8)>>, Memory>
    ensures { IfOk result (λ lists. lists.items ≡ map (λ lan. []) (below lans)) }
{
    let mut lists = Vec::new(alloc);
    for _ in 0..lans {
        lists.push(Items {
            items: Vec::new(alloc),
        })?;
    }
    Ok(lists)
}

/// Adds a router's vifs to the LANs on which they are placed.
fn add_router(
    lists: &mut Vec<Items<(RouterNo, u8)>>,
    router: RouterNo,
    vif_lans: &VifLans,
) -> Result<(), Memory>
    requires listed_lans { (vif lan : ℕ) → slice_index_or vif_lans.now vif None ≡ Some lan →
        lan < length lists.old.items }
    ensures count { length lists.new.items ≡ length lists.old.items }
    ensures each { OnOk result ((lan : ℕ) → lan < length lists.old.items →
        slice_index_or lists.new.items lan [] ≡
        slice_index_or lists.old.items lan [] ++ vifs_on vif_lans.now router lan (below 32)) }
{
    for vif in 0..MAX_VIFS {
        if let Some(lan) = vif_lans[vif as usize] {
            let list = &mut lists[lan.0 as usize];
            list.push((router, vif))?;
        }
    }
    Ok(())
}

/// The interfaces of each LAN, from the LANs of the routers' vifs.
pub(crate) fn interfaces_of_lans(
    alloc: Global,
    lans: u32,
    vif_lans: &[VifLans],
) -> Result<Vec<Items<(RouterNo, u8)>>, Memory>
    requires at_most_256 { length vif_lans.now ≤ 256 }
    requires listed { (router vif lan : ℕ) →
        vif_lan_in vif_lans.now router vif ≡ Some lan → lan < lans }
    ensures ok { IfOk result (λ lists. lists.items ≡
        map (interfaces_by_vif_lans vif_lans.now (length vif_lans.now)) (below lans)) }
{
    let mut lists = empty_interface_lists(alloc, lans)?;
    for (number, own) in vif_lans.iter().enumerate() {
        add_router(&mut lists, RouterNo(number as u32), own)?;
    }
    Ok(lists)
}
