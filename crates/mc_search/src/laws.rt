//! Theorems: a search ends, and names each router.

ghost use Rattle.std.specs.Prelude.{◌≡◌, ◌<◌, ◌≤◌, ℕ, length};
ghost use Rattle.mc_theory.specs.Lists.{Distinct, In};
ghost use Rattle.mc_topology.specs.SectionRows.{InterfaceRow};
ghost use Rattle.mc_topology.specs.Topology.{IsIn};
ghost use Rattle.mc_forward.specs.Domains.{DomainValue};
ghost use Rattle.mc_search.specs.SearchNames.{NamesRouter};
ghost use Rattle.mc_search.specs.SearchLine.{IsSearchIn, Search, lans_of_search, visited_lans};
ghost use Rattle.mc_search.specs.SearchLine.{search_lines};

/// The LANs of a search are the missed one and those that are reached from there, each once.
pub fn a_search_ends()
    // The missed LAN is among them.
    ensures missed { (searched : Search) (missed : ℕ) → In missed (lans_of_search searched missed) }
    // Each is searched once, and is a LAN of the domain.
    ensures distinct { (searched : Search) (missed : ℕ) → Distinct (lans_of_search searched missed) }
    ensures listed { (domain : DomainValue) (searched : Search) (missed lan : ℕ) →
        IsSearchIn domain searched → missed < length domain.topology.lans →
        In lan (lans_of_search searched missed) →
        lan < length domain.topology.lans }
    // No more are reached, however long the search goes on.
    ensures ends { (domain : DomainValue) (searched : Search) (missed steps : ℕ) →
        IsSearchIn domain searched → missed < length domain.topology.lans →
        length domain.topology.lans ≤ steps →
        visited_lans searched missed steps ≡ lans_of_search searched missed }
{}

/// Each router that has an interface on a LAN of the search, in the topology, is named by a line about
/// that LAN.
pub fn a_search_names_each_router()
    ensures { (domain : DomainValue) (searched : Search) (missed : ℕ) (interface : InterfaceRow) →
        IsSearchIn domain searched → IsIn domain.topology.interfaces interface →
        In interface.lan (lans_of_search searched missed) →
        NamesRouter interface.lan interface.router (search_lines searched missed) }
{}
