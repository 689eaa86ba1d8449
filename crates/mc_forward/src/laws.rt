//! Laws of domains that follow from the definitions alone.

mod flow_laws;

ghost use Rattle.std.specs.Prelude.{◌≡◌, ◌<◌, ◌≤◌, ℕ, List, length, map};
ghost use Rattle.std.specs.List.Sorted.{IsStrictlyIncreasing};
ghost use Rattle.mc_theory.specs.Nets.{IsNet, WantsBelow};
ghost use Rattle.mc_theory.specs.Nets.Row.{Exact};
ghost use Rattle.mc_forward.specs.Domains.{DomainValue, IsDomain, net_of, row_of, source_of};
ghost use Rattle.mc_forward.specs.Domains.{ttl_of};

pub use flow_laws::{
    a_travel_through_a_domain_ends, an_accepted_list_keeps_the_headline,
    clean_travels_certify_a_flow, every_complete_run_of_a_flow_delivers,
    every_run_of_a_flow_is_safe, finding_shows_that_a_flow_is_wrong,
    flow_is_right_iff_a_list_is_accepted, no_reason_iff_list_is_accepted, run_with_one_more_pick,
};

/// Every domain meets the premises of the theorems about a flow: its net keeps the rules of one, wanting
/// LANs and the source's are LANs of the topology, and its packets have a time to live of 1 to 255.
pub fn domains_are_nets()
    ensures net { (domain : DomainValue) (flow : ℕ) → IsDomain domain → IsNet (net_of domain flow) }
    ensures wanting { (domain : DomainValue) (flow : ℕ) → IsDomain domain →
        WantsBelow (net_of domain flow) (length domain.topology.lans) }
    ensures source { (domain : DomainValue) (flow : ℕ) → IsDomain domain
        → flow < length domain.topology.flows →
        source_of domain flow < length domain.topology.lans }
    ensures ttl_from { (domain : DomainValue) (flow : ℕ) → IsDomain domain
        → flow < length domain.topology.flows →
        1 ≤ ttl_of domain flow }
    ensures ttl_to { (domain : DomainValue) (flow : ℕ) → IsDomain domain
        → flow < length domain.topology.flows →
        ttl_of domain flow ≤ 255 }
{}

/// The outgoing pairs of a router's exact row ascend by vif, so that a step sends by ascending vif.
pub fn outgoing_vifs_ascend()
    ensures { (domain : DomainValue) (flow router incoming : ℕ) (pairs : List (ℕ × ℕ))
        → IsDomain domain →
        row_of domain flow router ≡ Exact incoming pairs →
        IsStrictlyIncreasing (map (λ (pair : ℕ × ℕ). pair.0) pairs) }
{}
