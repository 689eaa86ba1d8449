//! What the routers of a domain do with the copies of one flow's packets, what certifies the
//! flow, and why a certificate covers every order in which routers handle copies.
//!
//! The definitions are in `specs/`, to be read in this order: `Nets`, `Flights`, `Headline`,
//! `Certificates`, `Reasons`, `Events`, `Findings`, `FindingMeaning`, `CopyOrigins`,
//! `CertificateOfCopies`, `Paths`, `Hops`, `ShownFrom`, `ExcludedRouters`; `ExampleNetworks` has small
//! networks to try them on. Nothing here runs: each function below is a law about them.

#![tactic(auto)]

mod certificate_laws;
mod example_path_laws;
mod excluded_laws;
mod headline_laws;
mod hop_laws;
mod path_laws;
mod shown_from_laws;
mod travel_laws;

pub use certificate_laws::{
    a_right_flow_is_accepted, accepted_flow_keeps_headline, an_accepted_flow_is_right,
    certificate_exists_iff_flow_is_right, every_complete_run_delivers, every_run_is_safe,
    no_reason_iff_accepted, order_of_entries_does_not_matter,
};
pub use example_path_laws::{
    closed_diamond_has_a_remedy, diamond_has_an_upper_path, diamond_stops_low_ttl_packets,
    hops_are_read_from_rows, line_with_loop_copy_came_from_its_lan, line_with_loop_has_a_remedy,
    only_the_interface_is_taken_out, other_choices_may_delay_a_first_copy,
    remedy_may_lose_packets_below_need,
};
pub use excluded_laws::{
    fault_without_routers_is_fault_with_them, r1_acts_alike_without_r2,
    run_without_routers_occurs_with_them,
};
pub use headline_laws::{
    fork_needs_ttl_above_threshold, stray_copy_is_wrong, the_headline_in_counts, the_line_is_right,
    twice_served_lan_is_wrong, unserved_lan_is_wrong,
};
pub use hop_laws::{
    fewer_hops_than_carried_copies, hop_is_found_by_its_interface, hops_are_found_one_by_one,
    hops_of_a_copy_are_unique, loop_copy_came_from_its_own_lan, need_of_hops_is_least_ttl,
    packet_below_need_stops_at_one_hop, stopping_hop_is_found, walk_back_finds_the_hops,
};
pub use path_laws::{
    carried_copy_came_by_a_path, complete_run_carries_reached_lans, first_copy_has_the_least_rank,
    need_is_the_least_reaching_ttl, packet_passes_iff_ttl_meets_need,
    second_copy_came_by_another_path, spare_interface_removal_keeps_reach,
};
pub use shown_from_laws::{
    finding_is_shown_from_its_need, greatest_need_shows_the_finding, need_of_finding_is_unique,
};
pub use travel_laws::{
    a_clean_travel_makes_a_tree, a_travel_ends, clean_travels_certify,
    each_copy_was_sent_on_from_an_earlier_one, event_counts_what_its_step_did,
    finding_is_what_the_flight_shows, needs_decide_the_second_travel,
    non_clean_finding_means_a_wrong_flow, the_walk_back_ends, travel_so_far_is_bounded,
};
