//! The path by which a copy came, hop by hop back, and which packets get through it.

ghost use Rattle.std.specs.Prelude.{◌≡◌, ◌≤◌, ◌==◌, IfOk, length};
ghost use Rattle.std.specs.List.{position};
ghost use Rattle.mc_theory.specs.Paths.{need};
ghost use Rattle.mc_theory.specs.Hops.{hops_back, hops_until, stopping_hop};
ghost use Rattle.mc_forward.specs.FlightsInDomain.{net_in};
ghost use Rattle.mc_forward.specs.PerLan.{HoldsFirstOfEachKey};

use crate::causes::hop::{Hop, hop_sent};
use mc_forward::{CarriedCopy, FlowView, sender_on};
use mc_search::FirstCopies;
use mc_text::Memory;
use mc_topology::LanNo;
use std::alloc::Global;

/// The hops by which a copy came from the source's LAN, the last one first. A travel's flight has fewer of
/// them than copies.
pub(crate) fn hops_back(
    alloc: Global,
    view: &FlowView<'_>,
    copies: &[CarriedCopy],
    first_copies: &FirstCopies,
    copy: &CarriedCopy,
) -> Result<Vec<Hop>, Memory>
    requires first_copies { HoldsFirstOfEachKey (λ copy. copy.lan) first_copies.now.by_lan copies.now }
    ensures ok { IfOk result (λ hops. hops.items ≡ hops_back (net_in view.now) copies.now
        (length copies.now) copy.now.lan copy.now.sender) }
{
    let mut hops = Vec::new(alloc);
    let mut sender = copy.sender;
    let mut onto = copy.lan;
    for _step in copies {
        let Some(hop) = hop_sent(view, sender, onto) else {
            return Ok(hops);
        };
        hops.push(hop)?;
        sender = sender_on(&first_copies.by_lan, hop.from);
        onto = hop.from;
    }
    Ok(hops)
}

/// The place of the first hop that takes from a LAN.
fn place_of_hop_from(hops: &[Hop], lan: LanNo) -> Option<usize>
    ensures { result ≡ position (λ hop. hop.from == lan) hops.now }
{
    hops.iter().position(|hop| hop.from == lan)
}

/// The hops by which a copy came from its own LAN, the last one first: of those back to the source's LAN,
/// the ones up to the first that takes from the copy's.
pub(crate) fn hops_around(
    alloc: Global,
    view: &FlowView<'_>,
    copies: &[CarriedCopy],
    first_copies: &FirstCopies,
    copy: &CarriedCopy,
) -> Result<Vec<Hop>, Memory>
    requires first_copies { HoldsFirstOfEachKey (λ copy. copy.lan) first_copies.now.by_lan copies.now }
    ensures ok { IfOk result (λ hops. hops.items ≡ hops_until (net_in view.now) copies.now
        copy.now.lan (length copies.now) copy.now.lan copy.now.sender) }
{
    let mut hops = hops_back(alloc, view, copies, first_copies, copy)?;
    let Some(place) = place_of_hop_from(&hops, copy.lan) else {
        return Ok(hops);
    };
    hops.truncate(place + 1);
    Ok(hops)
}

/// The least TTL with which packets get through these hops, which have the last one first.
pub(crate) fn need(hops: &[Hop]) -> u8
    requires bounded { need hops.now ≤ 255 }
    ensures value { result ≡ need hops.now }
{
    let mut least = 1;
    let mut before = hops.len();
    for hop in hops {
        before -= 1;
        least = least.max(before + usize::from(hop.threshold) + 1);
    }
    least as u8
}

/// The hop at which a packet that is sent with this TTL is stopped, and what is left of its TTL there. The
/// hops have the last one first.
pub(crate) fn first_stop(ttl: u8, hops: &[Hop]) -> Option<(Hop, u8)>
    ensures { result ≡ stopping_hop ttl hops.now }
{
    let mut left = ttl;
    for before in 0..hops.len() {
        let place = hops.len() - 1 - before;
        let hop = hops[place];
        if left <= hop.threshold {
            return Some((hop, left));
        }
        left -= 1;
    }
    None
}
