//! Examines a flow, and keeps the flights that show the fault.

ghost use Rattle.std.specs.Prelude.{◌≡◌, ◌↔◌, ◌<◌, All, IfNone, IfOk, IfSome, IsTrue};
ghost use Rattle.std.specs.Prelude.{length, map};
ghost use Rattle.std.specs.List.Sorted.{IsStrictlyIncreasing};
ghost use Rattle.mc_theory.specs.Certificates.{IsAccepted, IsReordering, IsRight};
ghost use Rattle.mc_theory.specs.CertificateOfCopies.{entries_of};
ghost use Rattle.mc_forward.specs.Domains.{net_of};
ghost use Rattle.mc_forward.specs.FlightsInDomain.{net_in};
ghost use Rattle.mc_cert.specs.Certificate.{IsEntryOf, IsWritableTree};
ghost use Rattle.mc_maker.specs.Examined.{AreCleanCopies, FindsFault, IfCertified, IfFound};
ghost use Rattle.mc_maker.specs.Examined.{AreEntriesOfCleanTravel};
ghost use Rattle.mc_maker.specs.Examined.{IsFirstPickTravel, IsTtlOfFault, is_certified};
ghost use Rattle.mc_maker.specs.ExaminedFlights.{HasExaminedFlights, without_flights};

use crate::clean_run::clean_entries;
use crate::entries::{entries_by_lan, entries_in_lan_order};
use crate::served::serves_all;
use mc_cert::Reached;
use mc_forward::{CarriedCopy, Domain, FlowView, FlowWithRows};
use mc_replay::{Finding, FinishedTravel, First, Travel, replay_to_end};
use mc_text::Memory;
use std::alloc::Global;

/// The result of examining a flow, with the flights that show the fault.
#[derive(Drop)]
pub enum ExaminedFlights<'d> {
    /// The flow is right, and these are the entries of its certificate.
    Certified(Vec<Reached>),
    /// A packet with TTL 255 meets a fault: its travel.
    FoundAtTtl255(FinishedTravel<'d>),
    /// A packet with the flow's TTL meets a fault, and one with TTL 255 meets none.
    FoundAtFlowTtl {
        /// The travel at TTL 255.
        greatest: FinishedTravel<'d>,
        /// The travel at the flow's TTL.
        least: FinishedTravel<'d>,
    },
}

/// The entries of the copies that a clean travel at TTL 255 carried, by ascending numbers of their
/// LANs, if they reach each LAN that wants the flow.
fn certificate_of(
    alloc: Global,
    flow: &FlowWithRows<'_>,
    copies: &[CarriedCopy],
) -> Result<Option<Vec<Reached>>, Memory>
    requires valid { AreCleanCopies flow.now.domain flow.now.flow copies.now }
    ensures accepted { IfOk result (λ made. IfSome made (λ entries.
        IsAccepted (net_in flow.now) entries.items)) }
    ensures ascending { IfOk result (λ made. IfSome made (λ entries.
        IsStrictlyIncreasing (map (λ entry. entry.lan) entries.items))) }
    ensures listed { IfOk result (λ made. IfSome made (λ entries.
        All (IsEntryOf flow.now.domain.topology) entries.items)) }
    ensures writable { IfOk result (λ made. IfSome made (λ entries. IsWritableTree entries.items)) }
    ensures entries { IfOk result (λ made. IfSome made (λ entries.
        IsReordering (entries_of (net_in flow.now) copies.now) entries.items)) }
    // Without entries, the travel at the flow's TTL finds a fault.
    ensures none { IfOk result (λ made. IfNone made ((travel : Travel) →
        IsFirstPickTravel flow.now.domain flow.now.flow (net_in flow.now).ttl travel → FindsFault travel)) }
{
    let by_lan = entries_by_lan(alloc, flow, copies)?;
    let entries = entries_in_lan_order(alloc, &by_lan, copies.len())?;
    if !serves_all(flow.view(), &entries) {
        return Ok(None);
    }
    Ok(Some(entries))
}

/// The entries of the flow's certificate, if its packet with TTL 255 meets no fault and each LAN that wants
/// it is served. There may be none also of a right flow.
fn certify(alloc: Global, domain: &Domain, flow: u32) -> Result<Option<Vec<Reached>>, Memory>
    requires known { flow < length domain.now.topology.flows }
    ensures accepted { IfOk result (λ made. IfSome made (λ entries.
        IsAccepted (net_of domain.now flow) entries.items)) }
    ensures ascending { IfOk result (λ made. IfSome made (λ entries.
        IsStrictlyIncreasing (map (λ entry. entry.lan) entries.items))) }
    ensures listed { IfOk result (λ made. IfSome made (λ entries.
        All (IsEntryOf domain.now.topology) entries.items)) }
    ensures writable { IfOk result (λ made. IfSome made (λ entries. IsWritableTree entries.items)) }
    ensures made { IfOk result (λ made. IfSome made (λ entries.
        AreEntriesOfCleanTravel domain.now flow entries.items)) }
{
    // This brings the domain's rules into the proof.
    let _rules = domain.topology();
    let view = FlowView::new(domain, flow);
    let Some(entries) = clean_entries(alloc, &view)? else {
        return Ok(None);
    };
    if !serves_all(&view, &entries) {
        return Ok(None);
    }
    Ok(Some(entries))
}

/// Examines the flow with this number, counted from 0, as [`examine`](crate::examine) does, and returns
/// the flights too.
///
/// # Errors
///
/// `Memory` if an allocation fails.
pub fn examine_to_end<'d>(
    alloc: Global,
    domain: &'d Domain,
    flow: u32,
) -> Result<ExaminedFlights<'d>, Memory>
    requires known { flow < length domain.now.topology.flows }
    // The entries of a certified flow are accepted.
    ensures accepted { IfOk result (λ examined_flights. IfCertified (IsAccepted (net_of domain.now flow))
        (without_flights domain.now flow examined_flights)) }
    // They are in the order of their LANs' numbers.
    ensures ascending { IfOk result (λ examined_flights.
        IfCertified (λ entries. IsStrictlyIncreasing (map (λ entry. entry.lan) entries))
        (without_flights domain.now flow examined_flights)) }
    // Their LANs and routers are the topology's.
    ensures listed { IfOk result (λ examined_flights. IfCertified (All (IsEntryOf domain.now.topology))
        (without_flights domain.now flow examined_flights)) }
    // A certificate can hold them.
    ensures writable { IfOk result (λ examined_flights. IfCertified IsWritableTree
        (without_flights domain.now flow examined_flights)) }
    // They are those of the copies that the travel at TTL 255 carried.
    ensures made { IfOk result (λ examined_flights. IfCertified (AreEntriesOfCleanTravel domain.now flow)
        (without_flights domain.now flow examined_flights)) }
    // A found travel is the one at that TTL in which the first waiting copy is handled each time, with
    // the flight that it ends with.
    ensures flights { IfOk result (HasExaminedFlights domain.now flow) }
    // A found travel finds a fault.
    ensures fault { IfOk result (λ examined_flights. IfFound (λ ttl travel. FindsFault travel)
        (without_flights domain.now flow examined_flights)) }
    // Its TTL is 255 if a fault is found there, and otherwise the flow's.
    ensures ttl { IfOk result (λ examined_flights. IfFound (λ ttl travel. IsTtlOfFault domain.now flow ttl)
        (without_flights domain.now flow examined_flights)) }
    // The flow is certified exactly if it is right.
    ensures right { IfOk result (λ examined_flights.
        IsTrue (is_certified (without_flights domain.now flow examined_flights))
        ↔ IsRight (net_of domain.now flow)) }
{
    let topology = domain.topology();
    if let Some(entries) = certify(alloc, domain, flow)? {
        return Ok(ExaminedFlights::Certified(entries));
    }
    let greatest = replay_to_end(alloc, domain, flow, 255, &mut First)?;
    let Finding::Clean = greatest.travel.finding else {
        return Ok(ExaminedFlights::FoundAtTtl255(greatest));
    };
    if let Some(entries) = certificate_of(
        alloc,
        greatest.flight.flow_with_rows(),
        greatest.flight.copies(),
    )? {
        return Ok(ExaminedFlights::Certified(entries));
    }
    let ttl = topology.flow(flow).ttl;
    let least = replay_to_end(alloc, domain, flow, ttl, &mut First)?;
    Ok(ExaminedFlights::FoundAtFlowTtl { greatest, least })
}
