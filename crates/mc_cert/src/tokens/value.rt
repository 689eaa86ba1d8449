//! Reads texts and numbers, and what they denote.

ghost use Rattle.std.specs.Prelude.{◌≡◌, ◌≤◌, None, IfOk, IfSome, MatchBool};
ghost use Rattle.mc_cert.specs.JsonString.{text_bytes};
ghost use Rattle.mc_cert.specs.Tokens.{ReadsAs, IsLanName, IsRouterName, IsWhole, IsAddress};

use crate::json_string::JsonText;
use crate::token_reader::TokenReader;
use crate::tokens::NotRead;
use mc_text::Addr;
use mc_topology::{LanNo, RouterNo, Topology};

/// A text as a name.
#[inline(always)]
fn name_of<'t>(text: &'t JsonText<'_>) -> Option<&'t str>
    ensures { IfSome result (λ name. name.now ≡ text_bytes text.now) }
{
    match str::from_utf8(text.as_bytes()) {
        Ok(name) => Some(name),
        Err(_) => None,
    }
}

/// Finds the LAN by the name that is read.
fn find_lan(topology: &Topology, reader: &mut TokenReader<'_>) -> Result<LanNo, NotRead>
    ensures { IfOk result (ReadsAs (IsLanName topology.now.lans) reader.old reader.new) }
{
    let text = reader.text()?;
    let Some(name) = name_of(&text) else {
        return Err(NotRead);
    };
    let Some(lan) = topology.lan_no(name) else {
        return Err(NotRead);
    };
    Ok(lan)
}

/// Finds the router by the name that is read.
fn find_router(topology: &Topology, reader: &mut TokenReader<'_>) -> Result<RouterNo, NotRead>
    ensures { IfOk result (ReadsAs (IsRouterName topology.now.routers) reader.old reader.new) }
{
    let text = reader.text()?;
    let Some(name) = name_of(&text) else {
        return Err(NotRead);
    };
    let Some(router) = topology.router_no(name) else {
        return Err(NotRead);
    };
    Ok(router)
}

/// Passes the name of the LAN with this number, if there is one and its name is next. Else the reader stays
/// where it is.
#[inline(always)]
fn pass_lan(topology: &Topology, lan: LanNo, reader: &mut TokenReader<'_>) -> bool
    ensures { MatchBool result (ReadsAs (IsLanName topology.now.lans) reader.old reader.new lan)
        (reader.new ≡ reader.old) }
{
    if lan.0 >= topology.lans() {
        return false;
    }
    reader.pass_name(topology.lan_name(lan))
}

/// Passes the name of the router with this number, if there is one and its name is next. Else the reader
/// stays where it is.
#[inline(always)]
fn pass_router(topology: &Topology, router: RouterNo, reader: &mut TokenReader<'_>) -> bool
    ensures { MatchBool result (ReadsAs (IsRouterName topology.now.routers) reader.old reader.new router)
        (reader.new ≡ reader.old) }
{
    if router.0 >= topology.routers() {
        return false;
    }
    reader.pass_name(topology.router_name(router))
}

/// Reads the name of a LAN. The one that is likely is compared first, since that is less work than to look
/// a name up: the LANs of a tree often ascend.
#[inline(always)]
pub(crate) fn lan_value(topology: &Topology, reader: &mut TokenReader<'_>) -> Result<LanNo, NotRead>
    ensures { IfOk result (ReadsAs (IsLanName topology.now.lans) reader.old reader.new) }
{
    let likely = reader.likely_lan();
    let lan = if pass_lan(topology, likely, reader) {
        likely
    } else {
        find_lan(topology, reader)?
    };
    reader.expect_lan(LanNo(lan.0.wrapping_add(1)));
    Ok(lan)
}

/// Passes the name of the router that is likely or of the one after it, if one of these is next. Else the
/// reader stays where it is.
#[inline(always)]
fn pass_likely_router(topology: &Topology, reader: &mut TokenReader<'_>) -> Option<RouterNo>
    ensures found { IfSome result (ReadsAs (IsRouterName topology.now.routers) reader.old reader.new) }
    ensures same { result ≡ None → reader.new ≡ reader.old }
{
    let likely = reader.likely_router();
    if pass_router(topology, likely, reader) {
        return Some(likely);
    }
    let next = RouterNo(likely.0.wrapping_add(1));
    if pass_router(topology, next, reader) {
        return Some(next);
    }
    None
}

/// Reads the name of a router. Those that are likely are compared first: a router often sends on several of
/// a tree's LANs.
#[inline(always)]
pub(crate) fn router_value(
    topology: &Topology,
    reader: &mut TokenReader<'_>,
) -> Result<RouterNo, NotRead>
    ensures { IfOk result (ReadsAs (IsRouterName topology.now.routers) reader.old reader.new) }
{
    let router = match pass_likely_router(topology, reader) {
        Some(router) => router,
        None => find_router(topology, reader)?,
    };
    reader.expect_router(router);
    Ok(router)
}

/// Reads an address.
pub(crate) fn address_value(reader: &mut TokenReader<'_>) -> Result<Addr, NotRead>
    ensures { IfOk result (ReadsAs IsAddress reader.old reader.new) }
{
    let text = reader.text()?;
    let Some(address) = Addr::parse_dotted(text.as_bytes()) else {
        return Err(NotRead);
    };
    Ok(address)
}

/// Reads a whole number from `low` to `high`, which is at most 9,999.
#[inline(always)]
pub(crate) fn whole_value(low: u32, high: u32, reader: &mut TokenReader<'_>) -> Result<u32, NotRead>
    ensures value { IfOk result (ReadsAs (IsWhole low high) reader.old reader.new) }
    ensures to { IfOk result (λ number. number ≤ high) }
{
    let number = reader.number()?;
    if number < low || number > high {
        return Err(NotRead);
    }
    Ok(number)
}
