//! The verdict on one flow, and on all flows.

ghost use Rattle.std.specs.Prelude.{◌≡◌, ◌<◌, ◌^◌, All, IfOk, None, [], length};
ghost use Rattle.mc_theory.specs.Reasons.{first_reason, twice};
ghost use Rattle.mc_forward.specs.Domains.{net_of};
ghost use Rattle.mc_forward.specs.FlightsInDomain.{net_in};
ghost use Rattle.mc_check.specs.FedLans.{AreFed};
ghost use Rattle.mc_check.specs.Reasons.{optional_reason_value};
ghost use Rattle.mc_check.specs.Verdicts.{YesCountsEntries, NoGivesFirstReason, YesIffAccepted};
ghost use Rattle.mc_check.specs.Verdicts.{HoldsForEachFlow, IsCorrectVerdict};
ghost use Rattle.mc_check.specs.Verdicts.{verdict_by};
ghost use Rattle.mc_check.specs.Verdicts.{YesDelivers, YesIsRight, YesIsSafe, YesKeepsHeadline};

use crate::entries_by_lan::{EntriesByLan, put_first_entries};
use crate::fed::unmarked_reason;
use crate::routers::routers_reason;
use crate::served::{has_source, lans_reason};
use crate::verdict::{Reason, Verdict};
use mc_cert::{Certificate, Reached};
use mc_forward::{Domain, FlowView, PerLan};
use mc_text::Memory;
use std::alloc::Global;

/// The first reason to refuse a flow's entries, where no two of them name the same LAN. Of the LANs, those
/// that are known to be fed are marked.
fn reason_for_distinct_lans(
    view: &FlowView<'_>,
    by_lan: &EntriesByLan<'_>,
    mut fed: Vec<bool>,
) -> Option<Reason>
    requires distinct { twice [] by_lan.now ≡ None }
    requires lans { length fed.items ≡ length view.now.domain.topology.lans }
    requires fed { AreFed (net_in view.now) by_lan.now fed.items }
    ensures reason { optional_reason_value result ≡ first_reason (net_in view.now)
        (length view.now.domain.topology.lans) by_lan.now }
{
    if !has_source(view, by_lan) {
        return Some(Reason::BadSource);
    }
    if let Some(reason) = routers_reason(view, by_lan, &mut fed) {
        return Some(reason);
    }
    if let Some(reason) = unmarked_reason(view, by_lan, &fed) {
        return Some(reason);
    }
    lans_reason(view, by_lan)
}

/// The first reason to refuse a list of entries for a flow.
fn first_reason_of(
    alloc: Global,
    domain: &Domain,
    flow: u32,
    entries: &[Reached],
) -> Result<Option<Reason>, Memory>
    requires flow { flow < length domain.now.topology.flows }
    requires lans { All (λ entry. entry.lan < length domain.now.topology.lans) entries.now }
    ensures ok { IfOk result (λ reason. optional_reason_value reason ≡
        first_reason (net_of domain.now flow) (length domain.now.topology.lans) entries.now) }
{
    let mut firsts = PerLan::new(alloc, domain.topology().lans())?;
    if let Some(reason) = put_first_entries(&mut firsts, entries) {
        return Ok(Some(reason));
    }
    let by_lan = EntriesByLan::new(entries, firsts);
    let fed = vec![in alloc; false; domain.topology().lans() as usize]?;
    Ok(reason_for_distinct_lans(&FlowView::new(domain, flow), &by_lan, fed))
}

/// No with the first reason, or yes if there is none.
fn verdict_by(reason: Option<Reason>, entries: &[Reached]) -> Verdict
    requires bounded { reason ≡ None → length entries.now < 2 ^ 32 }
    ensures value { result ≡ verdict_by reason (length entries.now) }
{
    match reason {
        Some(reason) => Verdict::No(reason),
        None => Verdict::Yes {
            copies: entries.len() as u32,
        },
    }
}

/// The verdict on a flow's list of entries, with all that `check_flow` promises of it.
fn verdict_on(
    alloc: Global,
    domain: &Domain,
    flow: u32,
    entries: &[Reached],
) -> Result<Verdict, Memory>
    requires flow { flow < length domain.now.topology.flows }
    requires lans { All (λ entry. entry.lan < length domain.now.topology.lans) entries.now }
    ensures ok { IfOk result
        (IsCorrectVerdict (length domain.now.topology.lans) (net_of domain.now flow) entries.now) }
{
    // This brings in the domain's rules: one is that it has at most 1,024 LANs.
    let _rules = domain.topology();
    let reason = first_reason_of(alloc, domain, flow, entries)?;
    Ok(verdict_by(reason, entries))
}

/// Whether a list of entries certifies the flow with this number, counted from 0.
///
/// # Errors
///
/// `Memory` if an allocation fails.
pub fn check_flow(
    alloc: Global,
    domain: &Domain,
    flow: u32,
    entries: &[Reached],
) -> Result<Verdict, Memory>
    requires flow { flow < length domain.now.topology.flows }
    requires lans { All (λ entry. entry.lan < length domain.now.topology.lans) entries.now }
    // The verdict is yes exactly if the list is accepted.
    ensures accepted { IfOk result (YesIffAccepted (net_of domain.now flow) entries.now) }
    // A yes has the number of the list's entries.
    ensures copies { IfOk result (YesCountsEntries (net_of domain.now flow) entries.now) }
    // A no has the first reason.
    ensures reason { IfOk result (NoGivesFirstReason (length domain.now.topology.lans)
        (net_of domain.now flow) entries.now) }
    // After a yes, every run of every packet is safe, in any order and whatever is lost.
    ensures safe { IfOk result (YesIsSafe (net_of domain.now flow) entries.now) }
    // After a yes, each complete run without loss reaches exactly the named LANs whose need the TTL
    // meets.
    ensures delivered { IfOk result (YesDelivers (net_of domain.now flow) entries.now) }
    // After a yes, the flow is right.
    ensures right { IfOk result (YesIsRight (net_of domain.now flow) entries.now) }
    // After a yes, the headline holds for the flow.
    ensures headline { IfOk result (YesKeepsHeadline (net_of domain.now flow) entries.now) }
{
    verdict_on(alloc, domain, flow, entries)
}

/// The verdict on each flow, in the order of the topology, by a certificate that has a list of
/// entries for each flow of the domain's topology.
///
/// # Errors
///
/// `Memory` if an allocation fails.
pub fn check_all(
    alloc: Global,
    domain: &Domain,
    certificate: &Certificate,
) -> Result<Vec<Verdict>, Memory>
    requires flows { length certificate.now ≡ length domain.now.topology.flows }
    requires lans { All (All (λ entry. entry.lan < length domain.now.topology.lans)) certificate.now }
    // There is one verdict for each flow.
    ensures count { IfOk result (λ verdicts. length verdicts.items ≡ length certificate.now) }
    // Each verdict is what `check_flow` returns: yes exactly if the list is accepted.
    ensures accepted { IfOk result (λ verdicts.
        HoldsForEachFlow domain.now certificate.now verdicts.items YesIffAccepted) }
    // A yes has the number of the list's entries.
    ensures copies { IfOk result (λ verdicts.
        HoldsForEachFlow domain.now certificate.now verdicts.items YesCountsEntries) }
    // A no has the first reason.
    ensures reason { IfOk result (λ verdicts. HoldsForEachFlow domain.now certificate.now verdicts.items
        (NoGivesFirstReason (length domain.now.topology.lans))) }
    // After a yes, every run of every packet is safe, in any order and whatever is lost.
    ensures safe { IfOk result (λ verdicts.
        HoldsForEachFlow domain.now certificate.now verdicts.items YesIsSafe) }
    // After a yes, each complete run without loss reaches exactly the named LANs whose need the TTL
    // meets.
    ensures delivered { IfOk result (λ verdicts.
        HoldsForEachFlow domain.now certificate.now verdicts.items YesDelivers) }
    // After a yes, the flow is right.
    ensures right { IfOk result (λ verdicts.
        HoldsForEachFlow domain.now certificate.now verdicts.items YesIsRight) }
    // After a yes, the headline holds for the flow.
    ensures headline { IfOk result (λ verdicts.
        HoldsForEachFlow domain.now certificate.now verdicts.items YesKeepsHeadline) }
{
    let topology = domain.topology();
    let mut verdicts = Vec::with_capacity(alloc, certificate.flows() as usize)?;
    for flow in 0..certificate.flows() {
        let entries = certificate.flow(flow, topology).reached;
        let reason = first_reason_of(alloc, domain, flow, entries)?;
        verdicts.push(verdict_by(reason, entries))?;
    }
    Ok(verdicts)
}
