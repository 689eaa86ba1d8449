//! The wants of all LANs that nothing answers, each with its LANs, and the services.

ghost use Rattle.std.specs.Prelude.{◌≡◌, ◌<◌, ◌≤◌, ◌*◌, ◌^◌, IfOk, flat_map, length, map, sum_by, take};
ghost use Rattle.std.specs.List.Sorted.{IsStrictlySortedBy};
ghost use Rattle.mc_tables.specs.CacheTable.{key_cmp};
ghost use Rattle.mc_asked.specs.AskedLines.{AreAskedLines, count_shown, count_wants};
ghost use Rattle.mc_asked.specs.AskedLines.{service_lines, service_pairs, services_of_lans};
ghost use Rattle.mc_asked.specs.AskedLines.{wants_of_lans};
ghost use Rattle.mc_asked.specs.PairParts.{shown_of_parts, with_parts};

use crate::lan_wants::{LanWants, shown_wants};
use crate::shared_pairs::{SharedPair, add_lan, without_lans};
use mc_tables::sorted_without_repeats;
use mc_text::{Addr, Memory};
use mc_topology::LanNo;
use std::alloc::Global;

/// The wants that are shown, and how many there are besides.
#[derive(Debug, Drop)]
pub struct AskedLines {
    /// The wants, each a group and a source, which is 0.0.0.0 for any, and the LANs whose want it is.
    pub lines: Vec<SharedPair>,
    /// How many wants of LANs are in none of these.
    pub further: u128,
}

/// The wants that are kept of all LANs, LAN by LAN.
fn kept_wants_of(alloc: Global, lans: &[LanWants]) -> Result<Vec<(Addr, Addr)>, Memory>
    ensures { IfOk result (λ wants. wants.items ≡ flat_map (λ own. own.lowest) lans.now) }
{
    let mut wants = Vec::new(alloc);
    for own in lans {
        wants.extend_from_slice(own.lowest())?;
    }
    Ok(wants)
}

/// The wants that are shown of all LANs.
fn shown_of_lans(alloc: Global, lans: &[LanWants], all: bool) -> Result<Vec<(Addr, Addr)>, Memory>
    ensures value { IfOk result (λ wants. wants.items ≡ shown_of_parts all (wants_of_lans lans.now)) }
    ensures ascending { IfOk result (λ wants. IsStrictlySortedBy key_cmp wants.items) }
{
    let wants = sorted_without_repeats(kept_wants_of(alloc, lans)?);
    Ok(shown_wants(wants, all))
}

/// These ascending wants, each with its LANs.
fn with_lans(
    alloc: Global,
    lans: &[LanWants],
    wants: &[(Addr, Addr)],
) -> Result<Vec<SharedPair>, Memory>
    requires sorted { IsStrictlySortedBy key_cmp wants.now }
    requires few { length lans.now < 2 ^ 32 }
    ensures ok { IfOk result (λ lines.
        lines.items ≡ map (with_parts (wants_of_lans lans.now)) wants.now) }
{
    let mut lines = without_lans(alloc, wants)?;
    for number in 0..lans.len() {
        add_lan(
            &mut lines,
            wants,
            lans[number].lowest(),
            LanNo(number as u32),
        )?;
    }
    Ok(lines)
}

/// How many wants of LANs these lines have.
fn count_shown(lines: &[SharedPair]) -> u128
    ensures { result ≡ count_shown lines.now }
{
    let mut count = 0;
    for line in lines {
        count += line.lans().len() as u128;
    }
    count
}

/// How many wants all LANs have that nothing answers, where a LAN and a want count one: those in the lines
/// of these LANs, and the further ones.
pub fn count_wants(lans: &[LanWants]) -> u128
    ensures { result ≡ count_wants lans.now }
{
    let mut count = 0;
    for own in lans {
        count += u128::from(own.count());
    }
    count
}

impl AskedLines {
    /// What is shown of the wants of these LANs, in their order: all wants, or the 20 lowest. The
    /// time is in proportion to n log n for n wants that are kept of all LANs.
    ///
    /// # Errors
    ///
    /// `Memory` if an allocation is refused.
    pub fn of(alloc: Global, lans: &[LanWants], all: bool) -> Result<AskedLines, Memory>
        requires few { length lans.now < 2 ^ 32 }
        ensures { IfOk result (AreAskedLines all lans.now) }
    {
        let wants = shown_of_lans(alloc, lans, all)?;
        let lines = with_lans(alloc, lans, &wants)?;
        let further = count_wants(lans).saturating_sub(count_shown(&lines));
        Ok(AskedLines { lines, further })
    }
}

/// The services of a LAN as wants of any source.
fn service_pairs(alloc: Global, own: &LanWants) -> Result<Vec<(Addr, Addr)>, Memory>
    ensures { IfOk result (λ pairs. pairs.items ≡ service_pairs own.now) }
{
    let any_source = Addr::unspecified();
    let mut pairs = Vec::with_capacity(alloc, own.services().len())?;
    for group in own.services() {
        pairs.push((*group, any_source))?;
    }
    Ok(pairs)
}

/// The services of all LANs, LAN by LAN.
fn all_service_pairs(alloc: Global, lans: &[LanWants]) -> Result<Vec<(Addr, Addr)>, Memory>
    ensures { IfOk result (λ pairs. pairs.items ≡ flat_map service_pairs lans.now) }
{
    let mut pairs = Vec::new(alloc);
    for own in lans {
        let own_pairs = service_pairs(alloc, own)?;
        pairs.extend_from_slice(&own_pairs)?;
    }
    Ok(pairs)
}

/// These ascending services, each with its LANs.
fn with_service_lans(
    alloc: Global,
    lans: &[LanWants],
    services: &[(Addr, Addr)],
) -> Result<Vec<SharedPair>, Memory>
    requires sorted { IsStrictlySortedBy key_cmp services.now }
    requires few { length lans.now < 2 ^ 32 }
    ensures { IfOk result (λ lines.
        lines.items ≡ map (with_parts (services_of_lans lans.now)) services.now) }
{
    let mut lines = without_lans(alloc, services)?;
    for number in 0..lans.len() {
        let own = service_pairs(alloc, &lans[number])?;
        add_lan(&mut lines, services, &own, LanNo(number as u32))?;
    }
    Ok(lines)
}

/// The groups of services for which hosts ask, ascending, each with the LANs whose hosts do. The second
/// address of each pair is 0.0.0.0.
///
/// # Errors
///
/// `Memory` if an allocation is refused.
pub fn service_lines(alloc: Global, lans: &[LanWants]) -> Result<Vec<SharedPair>, Memory>
    requires few { length lans.now < 2 ^ 32 }
    ensures { IfOk result (λ lines. lines.items ≡ service_lines lans.now) }
{
    let services = sorted_without_repeats(all_service_pairs(alloc, lans)?);
    with_service_lans(alloc, lans, &services)
}
