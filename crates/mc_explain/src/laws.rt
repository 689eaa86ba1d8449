//! Theorems: the causes that are reported are true.

mod behind_laws;

ghost use Rattle.std.specs.Prelude.{◌≡◌, ◌≢◌, ◌<◌, ◌≤◌, ◌↔◌, ℕ, List, Some};
ghost use Rattle.mc_theory.specs.Lists.{In};
ghost use Rattle.mc_theory.specs.Nets.{Net, Interface};
ghost use Rattle.mc_theory.specs.Flights.{Copy, Pick, run, start};
ghost use Rattle.mc_theory.specs.Findings.Finding.{Loop};
ghost use Rattle.mc_theory.specs.Paths.{Hop, IsHop, IsReached, IsReachedWithTtl, take_out};
ghost use Rattle.mc_forward.specs.Domains.{DomainValue, IsDomain, net_of};
ghost use Rattle.mc_replay.specs.FindingValues.{finding_value};
ghost use Rattle.mc_replay.specs.declared.travel.FinishedTravel.{FinishedTravel};
ghost use Rattle.mc_maker.specs.declared.examined_flights.ExaminedFlights.{ExaminedFlights};
ghost use Rattle.mc_maker.specs.declared.examined_flights.ExaminedFlights.TheVariants.{FoundAtFlowTtl};
ghost use Rattle.mc_explain.specs.declared.causes.Cause.{Cause};
ghost use Rattle.mc_explain.specs.declared.causes.Cause.TheVariants.{SentOnto, Circle, TakeOut};
ghost use Rattle.mc_explain.specs.declared.causes.Cause.TheVariants.{Unplaced, LeastTtl, OnlyEverySource};
ghost use Rattle.mc_explain.specs.declared.causes.Cause.TheVariants.{StoppedAt};
ghost use Rattle.mc_explain.specs.Explained.{IsExplained, circle_cause};
ghost use Rattle.mc_explain.specs.CauseFacts.{AreCausesOf, CarriesAsMuch, IsClosedCircle, IsExaminedFlow};
ghost use Rattle.mc_explain.specs.CauseFacts.{IsMissedOrClean, IsRemedyForTtl, IsReported, LeadsOut};
ghost use Rattle.mc_explain.specs.CauseFacts.{ReachesAsMuch, ReachesEverySourceRow, SendsOnto, StaysReached};
ghost use Rattle.mc_explain.specs.CauseFacts.{StopsShortOfLan, final_finding};

pub use behind_laws::what_is_behind_a_stray_is_of_a_run;

/// The row of a reported sender is of the flow's source and group, and has the vif among its outgoing
/// ones, which is placed on the LAN.
pub fn reported_sender_sends_onto_lan()
    ensures { (domain : DomainValue) (flow lan router vif : ℕ) →
        IsReported domain flow (SentOnto lan router vif) → SendsOnto (net_of domain flow) router vif lan }
{}

/// The rows that are reported for a loop lead from the LAN around to it.
pub fn circle_of_loop_is_closed()
    ensures closed { (domain : DomainValue) (flow lan : ℕ) (flights : ExaminedFlights) (causes : List Cause) →
        AreCausesOf domain flow flights causes → final_finding flights ≡ Loop lan →
        IsClosedCircle (net_of domain flow) lan causes }
    // Each cause is a row's hop: it takes from the one LAN and sends onto the other.
    ensures hops { (domain : DomainValue) (flow from onto router vif : ℕ) →
        IsReported domain flow (Circle from onto router vif) →
        (hop : Hop) × IsHop (net_of domain flow) hop × (circle_cause hop ≡ Circle from onto router vif) }
{}

/// An interface that is reported as a remedy can be taken out of its router's row.
pub fn remedy_keeps_reached_lans()
    // It sends onto the LAN.
    ensures sends { (domain : DomainValue) (flow lan router vif least : ℕ) →
        IsReported domain flow (TakeOut lan router vif least) →
        SendsOnto (net_of domain flow) router vif lan }
    // Without it the LAN is reached with the reported TTL.
    ensures stays { (domain : DomainValue) (flow lan router vif least : ℕ) →
        IsReported domain flow (TakeOut lan router vif least) →
        StaysReached (net_of domain flow) (router, vif) lan least }
    // Each LAN that was reached before is reached.
    ensures reached { (domain : DomainValue) (flow lan router vif least other : ℕ) →
        IsReported domain flow (TakeOut lan router vif least) → IsReached (net_of domain flow) other →
        IsReached (take_out (router, vif) (net_of domain flow)) other }
    // It is reached by packets with the same TTL, if that is at least the reported one.
    ensures reached_with { (domain : DomainValue) (flow router vif ttl : ℕ) →
        IsRemedyForTtl domain flow router vif ttl →
        ReachesAsMuch (take_out (router, vif) (net_of domain flow)) (net_of domain flow) ttl }
    // A complete run of a packet with such a TTL brings a copy to each LAN to which any run brought one
    // before.
    ensures carried { (domain : DomainValue) (flow router vif ttl : ℕ) (picks_without picks : List Pick) →
        IsRemedyForTtl domain flow router vif ttl →
        CarriesAsMuch (take_out (router, vif) (net_of domain flow)) (net_of domain flow) ttl
        picks_without picks }
    // No run sends a copy by the interface.
    ensures unsent { (net : Net) (interface : Interface) (ttl : ℕ) (picks : List Pick) (copy : Copy) →
        In copy (run (take_out interface net) picks (start (take_out interface net) ttl)).carried →
        copy.sender ≢ Some interface }
{}

/// A vif that is reported as unplaced is an outgoing one of its router's row of the flow's source and
/// group, and is placed on no LAN.
pub fn unplaced_vif_leads_out()
    ensures { (domain : DomainValue) (flow router vif : ℕ) → IsReported domain flow (Unplaced router vif) →
        LeadsOut (net_of domain flow) router vif }
{}

/// A router whose row for every source is reported has no row of the flow's source and group, and the vif
/// is placed on a LAN that the flow's packets reach.
pub fn every_source_row_is_reached()
    ensures { (domain : DomainValue) (flow router vif : ℕ) →
        IsReported domain flow (OnlyEverySource router vif) →
        ReachesEverySourceRow (net_of domain flow) router vif }
{}

/// Packets with the reported least TTL or more reach the LAN, and none with less. The flow's TTL is less.
pub fn reported_ttl_is_least()
    ensures least { (domain : DomainValue) (flow lan least ttl : ℕ) →
        IsReported domain flow (LeastTtl lan least) → 1 ≤ ttl → ttl ≤ 255 →
        IsReachedWithTtl (net_of domain flow) ttl lan ↔ (least ≤ ttl) }
    ensures range { (domain : DomainValue) (flow lan least : ℕ) →
        IsReported domain flow (LeastTtl lan least) → ((net_of domain flow).ttl < least) × (least ≤ 255) }
{}

/// A packet with the flow's TTL is stopped at the reported vif, on a path to the LAN whose least TTL is
/// reported.
pub fn reported_stop_stops_packet()
    ensures { (domain : DomainValue) (flow router vif threshold left : ℕ) →
        (reported : IsReported domain flow (StoppedAt router vif threshold left)) →
        StopsShortOfLan (net_of domain flow) reported.causes (StoppedAt router vif threshold left) }
{}

/// The domain and the flights determine the causes: no others explain the flow.
pub fn causes_are_unique()
    ensures { (domain : DomainValue) (flow : ℕ) (flights : ExaminedFlights) (causes others : List Cause) →
        IsDomain domain → IsExplained domain flow flights causes →
        IsExplained domain flow flights others → causes ≡ others }
{}

/// If a packet with TTL 255 has no finding, then one with the flow's TTL has none, or misses a LAN.
pub fn low_ttl_finding_is_missed_or_clean()
    ensures { (domain : DomainValue) (flow : ℕ) (greatest least : FinishedTravel) →
        IsExaminedFlow domain flow (FoundAtFlowTtl greatest least) →
        IsMissedOrClean (finding_value least.travel.finding) }
{}
