//! Examines a flow: it has a certificate, or a travel finds a fault.

ghost use Rattle.std.specs.Prelude.{◌≡◌, ◌↔◌, ◌<◌, All, IfOk, IfSome, IsSome, IsTrue};
ghost use Rattle.std.specs.Prelude.{length, map};
ghost use Rattle.std.specs.List.Sorted.{IsStrictlyIncreasing};
ghost use Rattle.mc_theory.specs.Certificates.{IsAccepted, IsRight};
ghost use Rattle.mc_forward.specs.Domains.{net_of};
ghost use Rattle.mc_cert.specs.Certificate.{IsEntryOf, IsWritableTree};
ghost use Rattle.mc_maker.specs.Examined.{FindsFault, IfCertified, IfFound, IffTravelsFindNothing};
ghost use Rattle.mc_maker.specs.Examined.{AreEntriesOfCleanTravel, IsFirstPickTravel, IsTtlOfFault};
ghost use Rattle.mc_maker.specs.Examined.{is_certified};

use crate::examined_flights::{ExaminedFlights, examine_to_end};
use mc_cert::Reached;
use mc_forward::Domain;
use mc_replay::Travel;
use mc_text::Memory;
use std::alloc::Global;

/// The result of examining a flow.
#[derive(Debug, Drop)]
pub enum Examined {
    /// The flow is right, and these are the entries of its certificate.
    Certified(Vec<Reached>),
    /// The flow isn't right, as the travel of one packet shows.
    Found {
        /// The packet's time to live.
        ttl: u8,
        /// Its travel, in which the first waiting copy is handled each time.
        travel: Travel,
    },
}

/// Examines the flow with this number, counted from 0. Either the travel of a packet with TTL 255 finds
/// a fault, or its copies make the entries of a certificate, or these entries leave a LAN unserved, and
/// then the travel of a packet with the flow's TTL finds a fault.
///
/// # Errors
///
/// `Memory` if an allocation fails.
pub fn examine(alloc: Global, domain: &Domain, flow: u32) -> Result<Examined, Memory>
    requires known { flow < length domain.now.topology.flows }
    // The entries of a certified flow are accepted.
    ensures accepted { IfOk result (IfCertified (IsAccepted (net_of domain.now flow))) }
    // They are in the order of their LANs' numbers.
    ensures ascending { IfOk result (IfCertified
        (λ entries. IsStrictlyIncreasing (map (λ entry. entry.lan) entries))) }
    // Their LANs and routers are the topology's.
    ensures listed { IfOk result (IfCertified (All (IsEntryOf domain.now.topology))) }
    // A certificate can hold them.
    ensures writable { IfOk result (IfCertified IsWritableTree) }
    // They are those of the copies that the travel at TTL 255 carried.
    ensures made { IfOk result (IfCertified (AreEntriesOfCleanTravel domain.now flow)) }
    // A found travel is the one at that TTL in which the first waiting copy is handled each time.
    ensures travel { IfOk result (IfFound (IsFirstPickTravel domain.now flow)) }
    // A found travel finds a fault.
    ensures fault { IfOk result (IfFound (λ ttl travel. FindsFault travel)) }
    // Its TTL is 255 if a fault is found there, and otherwise the flow's.
    ensures ttl { IfOk result (IfFound (λ ttl travel. IsTtlOfFault domain.now flow ttl)) }
    // The flow is certified exactly if it is right.
    ensures right { IfOk result (λ examined.
        IsTrue (is_certified examined) ↔ IsRight (net_of domain.now flow)) }
{
    match examine_to_end(alloc, domain, flow)? {
        ExaminedFlights::Certified(entries) => Ok(Examined::Certified(entries)),
        ExaminedFlights::FoundAtTtl255(ended) => Ok(Examined::Found {
            ttl: 255,
            travel: ended.travel,
        }),
        ExaminedFlights::FoundAtFlowTtl { least, .. } => Ok(Examined::Found {
            ttl: domain.topology().flow(flow).ttl,
            travel: least.travel,
        }),
    }
}

/// The entries of a certificate for the flow with this number, counted from 0, if the flow is right.
///
/// # Errors
///
/// `Memory` if an allocation fails.
pub fn make(alloc: Global, domain: &Domain, flow: u32) -> Result<Option<Vec<Reached>>, Memory>
    requires known { flow < length domain.now.topology.flows }
    // The entries are accepted.
    ensures accepted { IfOk result (λ made. IfSome made (λ entries.
        IsAccepted (net_of domain.now flow) entries.items)) }
    // They are in the order of their LANs' numbers.
    ensures ascending { IfOk result (λ made. IfSome made (λ entries.
        IsStrictlyIncreasing (map (λ entry. entry.lan) entries.items))) }
    // Their LANs and routers are the topology's.
    ensures listed { IfOk result (λ made. IfSome made (λ entries.
        All (IsEntryOf domain.now.topology) entries.items)) }
    // A certificate can hold them.
    ensures writable { IfOk result (λ made. IfSome made (λ entries. IsWritableTree entries.items)) }
    // They are those of the copies that the travel at TTL 255 carried.
    ensures made { IfOk result (λ made. IfSome made (λ entries. AreEntriesOfCleanTravel domain.now flow
        entries.items)) }
    // There are entries exactly if the flow is right.
    ensures right { IfOk result (λ made. IsSome made ↔ IsRight (net_of domain.now flow)) }
    // There are entries exactly if the travels at TTL 255 and at the flow's TTL both find nothing.
    ensures travels { IfOk result (λ made. IffTravelsFindNothing domain.now flow (IsSome made)) }
{
    // This brings the domain's rules into the proof: its limits follow from them.
    let _rules = domain.topology();
    match examine(alloc, domain, flow)? {
        Examined::Certified(entries) => Ok(Some(entries)),
        Examined::Found { .. } => Ok(None),
    }
}
