//! The theorems of `mc_theory`, for a flow of a domain.

ghost use Rattle.std.specs.Prelude.{◌≡◌, ◌≢◌, ◌↔◌, ◌<◌, ◌≤◌, ◌++◌, ◌∷◌, [], ℕ, List, None};
ghost use Rattle.std.specs.Prelude.{length};
ghost use Rattle.mc_theory.specs.Nets.{Net, placed_interfaces};
ghost use Rattle.mc_theory.specs.Flights.{Flight, Pick, EveryRun, InRange, apply_pick, picked_index, run};
ghost use Rattle.mc_theory.specs.Certificates.{Entry, IsTree, IsAccepted, IsRight};
ghost use Rattle.mc_theory.specs.Certificates.{IsSafe, IsDeliveredWhole};
ghost use Rattle.mc_theory.specs.Headline.{HeadlineHolds};
ghost use Rattle.mc_theory.specs.Reasons.{first_reason};
ghost use Rattle.mc_theory.specs.Findings.{Finding, Choices};
ghost use Rattle.mc_theory.specs.Findings.Finding.{Clean};
ghost use Rattle.mc_theory.specs.CertificateOfCopies.{IsCertifiedBy};
ghost use Rattle.mc_forward.specs.Domains.{DomainValue, IsDomain, net_of, ttl_of};
ghost use Rattle.mc_forward.specs.FlightsInDomain.{IsFlowTravel, OnFlowFinding};

use crate::laws::domains_are_nets;

/// Under all conditions of a certificate but the last, every run of a flow's packet, complete or
/// not, is safe: no LAN carries two copies, none strays, each copy is as its LAN's entry says, and
/// the copies and the steps are bounded.
pub fn every_run_of_a_flow_is_safe()
    ensures { (domain : DomainValue) (flow : ℕ) (entries : List Entry) → IsDomain domain
        → IsTree (net_of domain flow) entries →
        EveryRun (net_of domain flow) 1 (IsSafe (net_of domain flow) entries) }
{
    domains_are_nets();
    mc_theory::every_run_is_safe();
}

/// A complete run without loss carries exactly the named LANs whose need the packet's TTL meets.
pub fn every_complete_run_of_a_flow_delivers()
    ensures { (domain : DomainValue) (flow : ℕ) (entries : List Entry) → IsDomain domain
        → IsTree (net_of domain flow) entries →
        EveryRun (net_of domain flow) 1 (IsDeliveredWhole entries) }
{
    domains_are_nets();
    mc_theory::every_complete_run_delivers();
}

/// An accepted list keeps the headline's promise for its flow, in every order.
pub fn an_accepted_list_keeps_the_headline()
    ensures { (domain : DomainValue) (flow : ℕ) (entries : List Entry) → IsDomain domain →
        flow < length domain.topology.flows → IsAccepted (net_of domain flow) entries →
        HeadlineHolds (net_of domain flow) (length entries) }
{
    domains_are_nets();
    mc_theory::accepted_flow_keeps_headline();
}

/// A flow of a domain has an accepted list exactly if it is right.
pub fn flow_is_right_iff_a_list_is_accepted()
    ensures { (domain : DomainValue) (flow : ℕ) → IsDomain domain → flow < length domain.topology.flows
        →
        ((entries : List Entry) × IsAccepted (net_of domain flow) entries)
        ↔ IsRight (net_of domain flow) }
{
    domains_are_nets();
    mc_theory::certificate_exists_iff_flow_is_right();
}

/// There is no reason to refuse a list exactly where it is accepted.
pub fn no_reason_iff_list_is_accepted()
    ensures { (domain : DomainValue) (flow : ℕ) (entries : List Entry) → IsDomain domain →
        (first_reason (net_of domain flow) (length domain.topology.lans) entries ≡ None)
        ↔ IsAccepted (net_of domain flow) entries }
{
    domains_are_nets();
    mc_theory::no_reason_iff_accepted();
}

/// A travel at a TTL from the flow's to 255 that finds something else than `Clean` shows that the flow
/// is not right.
pub fn finding_shows_that_a_flow_is_wrong()
    ensures { (domain : DomainValue) (flow ttl : ℕ) (finding : Finding) → IsDomain domain →
        ttl_of domain flow ≤ ttl → ttl ≤ 255 → finding ≢ Clean →
        OnFlowFinding domain flow ttl finding (λ f. ¬ IsRight (net_of domain flow)) }
{
    domains_are_nets();
    mc_theory::non_clean_finding_means_a_wrong_flow();
}

/// A travel has at most as many events as there are placed interfaces.
pub fn a_travel_through_a_domain_ends()
    ensures { (domain : DomainValue) (flow ttl : ℕ) (choices : Choices) (picks : List ℕ)
        (finding : Finding) →
        IsDomain domain → IsFlowTravel domain flow ttl choices picks finding →
        length picks ≤ length (placed_interfaces (net_of domain flow)) }
{
    domains_are_nets();
    mc_theory::a_travel_ends();
}

/// Two clean travels, one at TTL 255 and one at the flow's, certify it by the entries that the
/// first makes.
pub fn clean_travels_certify_a_flow()
    ensures { (domain : DomainValue) (flow : ℕ) → IsDomain domain → flow < length domain.topology.flows
        →
        OnFlowFinding domain flow 255 Clean (λ f. OnFlowFinding domain flow (ttl_of domain flow) Clean
        (λ g.
        IsCertifiedBy (net_of domain flow) f)) }
{
    domains_are_nets();
    mc_theory::clean_travels_certify();
}

/// A run with one pick more is the run, and then what this pick makes happen; the picks are in
/// range if those before are, and a copy waits at the last one's place.
pub fn run_with_one_more_pick()
    ensures flight { (net : Net) (picks : List Pick) (pick : Pick) (flight : Flight) →
        run net (picks ++ pick ∷ []) flight ≡ apply_pick net pick (run net picks flight) }
    ensures in_range { (net : Net) (picks : List Pick) (pick : Pick) (flight : Flight) →
        InRange net (picks ++ pick ∷ []) flight
        ↔ (InRange net picks flight × (picked_index pick < length (run net picks flight).waiting)) }
{}
