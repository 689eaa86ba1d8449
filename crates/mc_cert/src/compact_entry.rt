//! Reads the entries of a tree in the form that `Certificate::to_json` writes.

ghost use Rattle.std.specs.Prelude.{◌≡◌, ◌++◌, ◌<◌, ◌≤◌, IfSome, codes, decimal, length};
ghost use Rattle.mc_cert.specs.CertificateText.{entry_text, forwarder_text};
ghost use Rattle.mc_cert.specs.Writable.{IsWritableEntryFor};

use crate::compact_names::{LikelyNames, read_lan, read_router};
use crate::pieces::{after_prefix, read_number};
use crate::reached::Reached;
use mc_topology::{RouterNo, Topology};

/// Reads a need and a rank with their keys, and gives the rest of the text.
#[inline(always)]
fn read_numbers(text: &[u8]) -> Option<(u8, u8, &[u8])>
    ensures text { IfSome result (λ parsed. text.now ≡
        (codes "\",\"need\":" ++ decimal parsed.0 ++ codes ",\"rank\":" ++ decimal parsed.1)
        ++ parsed.2.now) }
    ensures need { IfSome result (λ parsed. 1 ≤ parsed.0) }
{
    let rest = after_prefix(text, b"\",\"need\":")?;
    let (need, rest) = read_number(rest)?;
    let rest = after_prefix(rest, b",\"rank\":")?;
    let (rank, rest) = read_number(rest)?;
    if need == 0 || need > 255 || rank > 255 {
        return None;
    }
    Some((need as u8, rank as u8, rest))
}

/// Reads the interface that sends with its keys, if the text begins with them, and gives the rest.
#[inline(always)]
fn read_forwarder<'a>(
    topology: &Topology,
    likely: &LikelyNames,
    text: &'a [u8],
) -> Option<(Option<(RouterNo, u8)>, &'a [u8])>
    ensures text { IfSome result (λ parsed. text.now ≡ forwarder_text topology.now parsed.0
        ++ parsed.1.now) }
    ensures listed { IfSome result (λ parsed.
        IfSome parsed.0 (λ interface. interface.0 < length topology.now.routers)) }
    ensures vif { IfSome result (λ parsed. IfSome parsed.0 (λ interface. interface.1 ≤ 31)) }
{
    let Some(named) = after_prefix(text, b",\"router\":\"") else {
        return Some((None, text));
    };
    let Some((router, rest)) = read_router(topology, likely, named) else {
        return None;
    };
    let rest = after_prefix(rest, b"\",\"vif\":")?;
    let (vif, rest) = read_number(rest)?;
    if vif > 31 {
        return None;
    }
    Some((Some((router, vif as u8)), rest))
}

/// Reads an entry, which is likely to have these names, and gives the rest of the text.
#[inline(always)]
pub(crate) fn read_entry<'a>(
    topology: &Topology,
    likely: &LikelyNames,
    text: &'a [u8],
) -> Option<(Reached, &'a [u8])>
    ensures text { IfSome result (λ parsed. text.now ≡ entry_text topology.now parsed.0
        ++ parsed.1.now) }
    ensures writable { IfSome result (λ parsed. IsWritableEntryFor topology.now parsed.0) }
{
    let rest = after_prefix(text, b"{\"lan\":\"")?;
    let Some((lan, rest)) = read_lan(topology, likely, rest) else {
        return None;
    };
    let (need, rank, rest) = read_numbers(rest)?;
    let Some((forwarder, rest)) = read_forwarder(topology, likely, rest) else {
        return None;
    };
    let rest = after_prefix(rest, b"}")?;
    let entry = Reached {
        lan,
        rank,
        need,
        forwarder,
    };
    Some((entry, rest))
}
