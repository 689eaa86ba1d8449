//! Reads the names in the entries of a tree. Those that are likely are compared first, since that is less
//! work than to look a name up.

ghost use Rattle.std.specs.Prelude.{◌≡◌, ◌++◌, ◌<◌, IfSome, length};
ghost use Rattle.mc_topology.specs.Topology.{lan_name, router_name};

use crate::pieces::{after_name, read_until_quote};
use crate::reached::Reached;
use mc_topology::{LanNo, RouterNo, Topology};

/// The names that an entry is likely to have: that of the LAN after the last entry's, and that of the last
/// entry's router or of the one after it.
#[derive(Clone, Copy, Drop)]
pub(crate) struct LikelyNames {
    lan: LanNo,
    router: RouterNo,
}

impl LikelyNames {
    /// The names that a tree's first entry is likely to have.
    pub(crate) fn of_first() -> LikelyNames {
        LikelyNames {
            lan: LanNo(0),
            router: RouterNo(0),
        }
    }

    /// The names that the entry after one of this LAN and this interface is likely to have.
    pub(crate) fn after(&self, lan: LanNo, forwarder: Option<(RouterNo, u8)>) -> LikelyNames {
        let router = match forwarder {
            Some((router, _vif)) => router,
            None => self.router,
        };
        LikelyNames {
            lan: LanNo(lan.0.wrapping_add(1)),
            router,
        }
    }
}

/// The rest of the text after the name of the LAN with this number, if there is one, and the text has it up
/// to a quotation mark.
#[inline(always)]
fn after_lan<'a>(topology: &Topology, lan: LanNo, text: &'a [u8]) -> Option<&'a [u8]>
    ensures text { IfSome result (λ rest. text.now ≡ lan_name topology.now lan ++ rest.now) }
    ensures listed { IfSome result (λ _. lan < length topology.now.lans) }
{
    if lan.0 >= topology.lans() {
        return None;
    }
    after_name(text, topology.lan_name_or_empty(lan))
}

/// The rest of the text after the name of the router with this number, if there is one, and the text has it
/// up to a quotation mark.
#[inline(always)]
fn after_router<'a>(topology: &Topology, router: RouterNo, text: &'a [u8]) -> Option<&'a [u8]>
    ensures text { IfSome result (λ rest. text.now ≡ router_name topology.now router ++ rest.now) }
    ensures listed { IfSome result (λ _. router < length topology.now.routers) }
{
    if router.0 >= topology.routers() {
        return None;
    }
    after_name(text, topology.router_name_or_empty(router))
}

/// Finds the LAN whose name stands before the next quotation mark; the rest begins with that.
fn find_lan<'a>(topology: &Topology, text: &'a [u8]) -> Option<(LanNo, &'a [u8])>
    ensures text { IfSome result (λ parsed. text.now ≡ lan_name topology.now parsed.0 ++ parsed.1.now) }
    ensures listed { IfSome result (λ parsed. parsed.0 < length topology.now.lans) }
{
    let (name, rest) = read_until_quote(text)?;
    let lan = topology.lan_no(name)?;
    Some((lan, rest))
}

/// Finds the router whose name stands before the next quotation mark; the rest begins with that.
fn find_router<'a>(topology: &Topology, text: &'a [u8]) -> Option<(RouterNo, &'a [u8])>
    ensures text { IfSome result (λ parsed. text.now ≡ router_name topology.now parsed.0
        ++ parsed.1.now) }
    ensures listed { IfSome result (λ parsed. parsed.0 < length topology.now.routers) }
{
    let (name, rest) = read_until_quote(text)?;
    let router = topology.router_no(name)?;
    Some((router, rest))
}

/// Reads a LAN, by its name up to the next quotation mark; the rest begins with that.
#[inline(always)]
pub(crate) fn read_lan<'a>(
    topology: &Topology,
    likely: &LikelyNames,
    text: &'a [u8],
) -> Option<(LanNo, &'a [u8])>
    ensures text { IfSome result (λ parsed. text.now ≡ lan_name topology.now parsed.0 ++ parsed.1.now) }
    ensures listed { IfSome result (λ parsed. parsed.0 < length topology.now.lans) }
{
    match after_lan(topology, likely.lan, text) {
        Some(rest) => Some((likely.lan, rest)),
        None => find_lan(topology, text),
    }
}

/// Reads a router, by its name up to the next quotation mark; the rest begins with that.
#[inline(always)]
pub(crate) fn read_router<'a>(
    topology: &Topology,
    likely: &LikelyNames,
    text: &'a [u8],
) -> Option<(RouterNo, &'a [u8])>
    ensures text { IfSome result (λ parsed. text.now ≡ router_name topology.now parsed.0
        ++ parsed.1.now) }
    ensures listed { IfSome result (λ parsed. parsed.0 < length topology.now.routers) }
{
    if let Some(rest) = after_router(topology, likely.router, text) {
        return Some((likely.router, rest));
    }
    let next = RouterNo(likely.router.0.wrapping_add(1));
    match after_router(topology, next, text) {
        Some(rest) => Some((next, rest)),
        None => find_router(topology, text),
    }
}
