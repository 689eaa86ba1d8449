//! Theorems over the definitions alone, for crates that use them.

ghost use Rattle.std.specs.Prelude.{◌≡◌, ◌↔◌, ℕ, List, Some, Ok, option_map, slice_get};
ghost use Rattle.std.specs.Ordering.{nat_cmp};
ghost use Rattle.mc_topology.specs.Names.{index_of};
ghost use Rattle.mc_topology.specs.Reading.{parse_topology, parse_unbounded_topology};
ghost use Rattle.mc_topology.specs.Lookup.{router_no_of};
ghost use Rattle.mc_topology.specs.Denotation.{DenotesTopology, DenotesBoundedTopology};
ghost use Rattle.mc_topology.specs.Topology.{HasInterface, TopologyValue, IsValidTopology, lan_of_interface};

use crate::number::{LanNo, RouterNo};

/// Reading gives a topology exactly where the text denotes it and is within the bounds, and without the
/// bounds exactly where the text denotes it; so a text denotes one topology at most.
pub fn read_gives_the_denoted_topology()
    ensures unbounded { (text : List ℕ) (topology : TopologyValue) →
        ((parse_unbounded_topology text ≡ Ok topology) ↔ DenotesTopology text topology) }
    ensures read { (text : List ℕ) (topology : TopologyValue) →
        ((parse_topology text ≡ Ok topology) ↔ DenotesBoundedTopology text topology) }
    ensures unique { (text : List ℕ) (topology u : TopologyValue) → DenotesTopology text topology →
        DenotesTopology text u → topology ≡ u }
{}

/// What a text denotes is a valid topology. Each topology in memory is valid too, by the clauses
/// `rules` of `lans`, `routers`, `interfaces`, `sources` and `flows`.
pub fn denoted_topology_is_valid()
    ensures { (text : List ℕ) (topology : TopologyValue) → DenotesTopology text topology
        → IsValidTopology topology }
{}

/// `lan_no` and `lan_name` are inverse: the number of a LAN's name is the LAN's, and the name of a
/// name's number is that name.
pub fn lan_numbers_and_names_are_inverse()
    ensures number_of_name { (topology : TopologyValue) (lan : ℕ) (name : List ℕ)
        → IsValidTopology topology →
        slice_get topology.lans lan ≡ Some name → index_of name topology.lans ≡ Some lan }
    ensures name_of_number { (topology : TopologyValue) (lan : ℕ) (name : List ℕ) →
        index_of name topology.lans ≡ Some lan → slice_get topology.lans lan ≡ Some name }
{}

/// `router_no` and `router_name` are inverse: the number of a router's name is the router's, and the
/// name of a name's number is that name.
pub fn router_numbers_and_names_are_inverse()
    ensures number_of_name { (topology : TopologyValue) (router : ℕ) (name : List ℕ)
        → IsValidTopology topology →
        option_map (λ row. row.name) (slice_get topology.routers router) ≡ Some name →
        router_no_of name topology.routers ≡ Some router }
    ensures name_of_number { (topology : TopologyValue) (router : ℕ) (name : List ℕ) →
        router_no_of name topology.routers ≡ Some router →
        option_map (λ row. row.name) (slice_get topology.routers router) ≡ Some name }
{}

/// `lan_of_device` gives a LAN exactly where the topology has an interface of the router and the device
/// on this LAN.
pub fn interfaces_are_found_by_router_and_device()
    ensures { (topology : TopologyValue) (router lan : ℕ) (device : List ℕ) → IsValidTopology topology →
        ((lan_of_interface router device topology.interfaces ≡ Some lan)
        ↔ HasInterface topology router device lan) }
{}

/// LANs and routers are ordered by their numbers.
pub fn lans_and_routers_are_ordered_by_number()
    ensures lans { (first second : ℕ) → ⟦<LanNo as Ord>⟧.cmp first second ≡ nat_cmp first second }
    ensures routers { (first second : ℕ) → ⟦<RouterNo as Ord>⟧.cmp first second ≡ nat_cmp first second }
{}
