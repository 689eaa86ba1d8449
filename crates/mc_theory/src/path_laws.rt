//! By which paths a flow's packets reach a LAN, and which interface can be spared where one of its
//! LANs gets two copies.

ghost use Rattle.std.specs.Prelude.{◌≡◌, ◌↔◌, ◌≤◌, ◌+◌, ℕ, List, [], ◌∷◌, length, Some};
ghost use Rattle.mc_theory.specs.Lists.{In};
ghost use Rattle.mc_theory.specs.Nets.{Net, IsNet, Interface};
ghost use Rattle.mc_theory.specs.Flights.{Copy, Pick, IsCompleteRun};
ghost use Rattle.mc_theory.specs.Certificates.{Entry, IsTree, CarriesCopy};
ghost use Rattle.mc_theory.specs.Findings.{first_copy_on, OnTravel, OnFifoTravel};
ghost use Rattle.mc_theory.specs.Findings.Finding.{Duplicate, Loop};
ghost use Rattle.mc_theory.specs.FindingMeaning.{IsFirstDouble, Shows};
ghost use Rattle.mc_theory.specs.Paths.{Hop, IsPath, PassesHops, need, IsReached, IsReachedWithTtl};
ghost use Rattle.mc_theory.specs.Paths.{IsLeastReachingTtl, CameByHops, take_out, KeepsReach, KeepsDelivery};
ghost use Rattle.mc_theory.specs.Paths.{IsSpareInterface, ReachedByTwoPaths, LoopedBack};

/// A packet gets through by a path exactly if its TTL is at least the path's need.
pub fn packet_passes_iff_ttl_meets_need()
    ensures { (ttl : ℕ) (hops : List Hop) → 1 ≤ ttl → PassesHops ttl hops ↔ (need hops ≤ ttl) }
{}

/// Where a list of entries meets all conditions but the last, an entry's need is the least TTL
/// that reaches its LAN.
pub fn need_is_the_least_reaching_ttl()
    ensures { (net : Net) (entries : List Entry) (entry : Entry) → IsTree net entries → In entry entries →
        IsLeastReachingTtl net entry.lan entry.need }
{}

/// In every run each LAN that carried a copy is reached by a path that such a packet gets through.
/// In the flight that a travel ends with each copy came by hops, and these are such a path, at
/// each hop of which it lost one TTL.
pub fn carried_copy_came_by_a_path()
    ensures reached { (net : Net) (ttl : ℕ) (picks : List Pick) (lan : ℕ) →
        CarriesCopy net ttl picks lan → IsReachedWithTtl net ttl lan }
    ensures came_by_hops { (net : Net) (count ttl : ℕ) (copy : Copy) → OnTravel net count ttl (λ flight.
        In copy flight.carried → (hops : List Hop) × CameByHops net flight.carried copy hops) }
    ensures path { (net : Net) (count ttl : ℕ) (copy : Copy) (hops : List Hop) → IsNet net →
        OnTravel net count ttl (λ flight. In copy flight.carried → CameByHops net flight.carried copy hops →
        IsPath net net.source hops copy.lan × PassesHops ttl hops) }
    ensures ttl_left { (net : Net) (count ttl : ℕ) (copy : Copy) (hops : List Hop) → IsNet net →
        OnTravel net count ttl (λ flight. In copy flight.carried → CameByHops net flight.carried copy hops →
        copy.ttl + length hops ≡ ttl) }
{}

/// In each complete run without loss, in any order, exactly the LANs carry a copy that are reached
/// by a path that such a packet gets through.
pub fn complete_run_carries_reached_lans()
    ensures { (net : Net) (ttl : ℕ) (picks : List Pick) (lan : ℕ) → IsNet net →
        IsCompleteRun net ttl picks →
        CarriesCopy net ttl picks lan ↔ IsReachedWithTtl net ttl lan }
{}

/// In a travel that handles the first waiting copy each time a LAN's first copy has the least rank:
/// it lost no more TTL than there are hops in any path that such a packet gets through.
pub fn first_copy_has_the_least_rank()
    ensures { (net : Net) (count ttl lan : ℕ) (copy : Copy) (hops : List Hop) → IsNet net →
        OnFifoTravel net count ttl (λ flight. first_copy_on flight.carried lan ≡ Some copy →
        IsPath net net.source hops lan → PassesHops ttl hops → ttl ≤ copy.ttl + length hops) }
{}

/// Where a travel's flight has a second copy on a LAN, the interface that sent it can be taken out
/// of its router's row: what the flow's packets reach they reach without it.
pub fn spare_interface_removal_keeps_reach()
    // There is such an interface,
    ensures one_exists { (net : Net) (count ttl : ℕ) (copy : Copy) → OnTravel net count ttl (λ flight.
        IsFirstDouble flight.carried copy →
        (interface : Interface) × (hops : List Hop) × IsSpareInterface net flight copy interface hops) }
    // and without it the LAN of the second copy is reached by the first copy's path,
    ensures first_path_kept { (net : Net) (count ttl : ℕ) (copy : Copy) (interface : Interface)
        (hops : List Hop) →
        IsNet net → OnTravel net count ttl (λ flight.
        IsSpareInterface net flight copy interface hops →
        IsPath (take_out interface net) net.source hops copy.lan) }
    // and each LAN that was reached is reached.
    ensures reach_kept { (net : Net) (count ttl : ℕ) (copy : Copy) (interface : Interface)
        (hops : List Hop) (lan : ℕ) →
        IsNet net → OnTravel net count ttl (λ flight.
        IsSpareInterface net flight copy interface hops → IsReached net lan →
        IsReached (take_out interface net) lan) }
    // If the first waiting copy was handled each time, it is reached with the same TTL, where that
    // isn't below the need of the first copy's path, nor greater than the travel's.
    ensures ttl_reach_kept { (net : Net) (count travel_ttl ttl : ℕ) (copy : Copy)
        (interface : Interface) (hops : List Hop) →
        IsNet net →
        OnFifoTravel net count travel_ttl (λ flight. IsSpareInterface net flight copy interface hops →
        need hops ≤ ttl → ttl ≤ travel_ttl → KeepsReach net (take_out interface net) ttl) }
    // So each LAN on which any run of a packet with this TTL has a copy carries one without it, in
    // each complete run without loss.
    ensures delivery_kept { (net : Net) (count travel_ttl ttl : ℕ) (copy : Copy)
        (interface : Interface) (hops : List Hop) →
        IsNet net →
        OnFifoTravel net count travel_ttl (λ flight. IsSpareInterface net flight copy interface hops →
        need hops ≤ ttl → ttl ≤ travel_ttl → KeepsDelivery net (take_out interface net) ttl) }
    // What is left is a domain, so that all laws hold of it.
    ensures is_net { (net : Net) (interface : Interface) → IsNet net → IsNet (take_out interface net) }
{}

/// A loop is a path from a LAN back to it, and a duplicate is two paths from the source's LAN.
pub fn second_copy_came_by_another_path()
    ensures loop_came_back { (net : Net) (count ttl lan : ℕ) → OnTravel net count ttl (λ flight.
        Shows net flight (Loop lan) → LoopedBack net flight.carried lan) }
    ensures duplicate_came_twice { (net : Net) (count ttl lan : ℕ) → IsNet net →
        OnTravel net count ttl (λ flight.
        Shows net flight (Duplicate lan) → ReachedByTwoPaths net flight.carried lan) }
{}
