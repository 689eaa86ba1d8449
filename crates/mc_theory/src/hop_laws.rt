//! By which hops a copy came, how these are found one after the other, which packets get through
//! by them, and where another is stopped.

ghost use Rattle.std.specs.Prelude.{◌≡◌, ◌≢◌, ◌↔◌, ◌<◌, ◌≤◌, ℕ, List, [], ◌∷◌, ◌++◌, length};
ghost use Rattle.std.specs.Prelude.{Some, None};
ghost use Rattle.mc_theory.specs.Lists.{In};
ghost use Rattle.mc_theory.specs.Nets.{Net, IsNet, Interface};
ghost use Rattle.mc_theory.specs.Flights.{Copy};
ghost use Rattle.mc_theory.specs.Certificates.{Entry, IsTree, IsNamedWithNeed};
ghost use Rattle.mc_theory.specs.Findings.{first_copy_on, OnTravel, OnFinding};
ghost use Rattle.mc_theory.specs.Findings.Finding.{Clean, Loop};
ghost use Rattle.mc_theory.specs.CertificateOfCopies.{entries_of};
ghost use Rattle.mc_theory.specs.FindingMeaning.{IsFirstDouble, Shows};
ghost use Rattle.mc_theory.specs.Paths.{Hop, IsHop, IsPath, PassesLan, PassesHops, need, IsStopped};
ghost use Rattle.mc_theory.specs.Paths.{IsLeastReachingTtl, CameByHops, IsSentByHop, CameFromLan};
ghost use Rattle.mc_theory.specs.Hops.{hop_by, hops_back, hops_until, hops_of_copy, hops_of_copy_until};
ghost use Rattle.mc_theory.specs.Hops.{IsHopFound, IsPathPart, stopping_hop};

/// Where a flight shows a loop, its first double copy came from its own LAN. The hops by which a
/// copy came from a LAN are a path from there.
pub fn loop_copy_came_from_its_own_lan()
    ensures came_from_lan { (net : Net) (count ttl lan : ℕ) (copy : Copy) →
        OnTravel net count ttl (λ flight.
        Shows net flight (Loop lan) → IsFirstDouble flight.carried copy →
        (copy.lan ≡ lan) × ((hops : List Hop) × CameFromLan net flight.carried lan copy hops)) }
    ensures path { (net : Net) (copies : List Copy) (lan : ℕ) (copy : Copy) (hops : List Hop) →
        CameFromLan net copies lan copy hops → IsPath net lan hops copy.lan }
    // The hops by which the copy came from the source pass the LAN.
    ensures all_hops_pass_lan { (net : Net) (copies : List Copy) (lan : ℕ) (copy : Copy)
        (hops all_hops : List Hop) →
        CameFromLan net copies lan copy hops → CameByHops net copies copy all_hops →
        PassesLan lan all_hops }
{}

/// The hops by which a copy of a travel's flight came are fewer than the carried copies.
pub fn fewer_hops_than_carried_copies()
    ensures came_by_hops { (net : Net) (count ttl : ℕ) (copy : Copy) (hops : List Hop) →
        OnTravel net count ttl (λ flight.
        In copy flight.carried → CameByHops net flight.carried copy hops →
        length hops < length flight.carried) }
    ensures came_from_lan { (net : Net) (count ttl lan : ℕ) (copy : Copy) (hops : List Hop) →
        OnTravel net count ttl (λ flight.
        In copy flight.carried → CameFromLan net flight.carried lan copy hops →
        length hops < length flight.carried) }
{}

/// The domain and the carried copies determine by which hops a copy came.
pub fn hops_of_a_copy_are_unique()
    ensures came_by_hops { (net : Net) (copies : List Copy) (copy : Copy) (hops others : List Hop) →
        IsNet net →
        CameByHops net copies copy hops → CameByHops net copies copy others → hops ≡ others }
    ensures came_from_lan { (net : Net) (copies : List Copy) (lan : ℕ) (copy : Copy)
        (hops others : List Hop) →
        IsNet net → CameFromLan net copies lan copy hops → CameFromLan net copies lan copy others →
        hops ≡ others }
    ensures hop { (net : Net) (hop other : Hop) → IsNet net → IsHop net hop → IsHop net other →
        hop.router ≡ other.router → hop.vif ≡ other.vif → hop ≡ other }
    ensures sent_by_hop { (net : Net) (copy : Copy) (hop other : Hop) → IsNet net →
        IsSentByHop net copy hop → IsSentByHop net copy other → hop ≡ other }
{}

/// A hop is found by its interface and its LAN. So the hop that a copy was sent by, the first of
/// those by which it came, is found by the copy's sender.
pub fn hop_is_found_by_its_interface()
    ensures hop { (net : Net) (hop : Hop) → IsNet net → IsHop net hop →
        hop_by net (hop.router, hop.vif) hop.onto ≡ Some hop }
    ensures sent_by_hop { (net : Net) (copy : Copy) (hop : Hop) (interface : Interface) → IsNet net →
        IsSentByHop net copy hop → copy.sender ≡ Some interface → hop_by net interface copy.lan ≡ Some hop }
    ensures first_of_hops { (net : Net) (copies : List Copy) (copy : Copy) (hop : Hop) (hops : List Hop)
        (interface : Interface) → IsNet net → CameByHops net copies copy (hop ∷ hops) →
        copy.sender ≡ Some interface →
        hop_by net interface copy.lan ≡ Some hop }
    // In a travel's flight there is one for each sender, from a LAN that has a first copy.
    ensures in_travel { (net : Net) (count ttl : ℕ) (copy : Copy) (interface : Interface) → IsNet net →
        OnTravel net count ttl (λ flight.
        In copy flight.carried → copy.sender ≡ Some interface →
        IsHopFound net flight.carried copy interface) }
{}

/// A walk back that is followed hop by hop finds the hops by which its copy came.
pub fn walk_back_finds_the_hops()
    // From a copy that an interface sent the walk goes on by that interface's hop,
    ensures next_hop { (net : Net) (copies : List Copy) (copy reached first : Copy) (hops : List Hop)
        (hop : Hop) →
        IsPathPart net copies copy hops reached → IsSentByHop net reached hop →
        first_copy_on copies hop.from ≡ Some first →
        IsPathPart net copies copy (hops ++ hop ∷ []) first }
    // and at the source's copy it ends.
    ensures ends_at_source { (net : Net) (copies : List Copy) (copy : Copy) (hops : List Hop)
        (reached : Copy) →
        IsPathPart net copies copy hops reached → reached.sender ≡ None → CameByHops net copies copy hops }
    // Where it first comes to a LAN, the copy came from there by its hops.
    ensures reaches_lan { (net : Net) (copies : List Copy) (lan : ℕ) (copy reached : Copy)
        (hops : List Hop) (hop : Hop) →
        IsPathPart net copies copy hops reached → ¬ PassesLan lan hops → IsSentByHop net reached hop →
        hop.from ≡ lan →
        CameFromLan net copies lan copy (hops ++ hop ∷ []) }
    // The hops that are left are those by which the copy came that the walk has come to.
    ensures rest { (net : Net) (copies : List Copy) (copy : Copy) (hops : List Hop) (reached : Copy)
        (others : List Hop) → IsPathPart net copies copy hops reached →
        CameByHops net copies reached others → CameByHops net copies copy (hops ++ others) }
    // The walk comes to carried copies alone, in a travel's flight over fewer hops than there are.
    ensures carried { (net : Net) (copies : List Copy) (copy : Copy) (hops : List Hop) (reached : Copy) →
        In copy copies → IsPathPart net copies copy hops reached → In reached copies }
    ensures fewer_than_copies { (net : Net) (count ttl : ℕ) (copy reached : Copy) (hops : List Hop) →
        OnTravel net count ttl (λ flight.
        In copy flight.carried → IsPathPart net flight.carried copy hops reached →
        length hops < length flight.carried) }
{}

/// The hops by which a copy of a travel's flight came are found one after the other: all of them,
/// and those back to a LAN that it came from.
pub fn hops_are_found_one_by_one()
    ensures all_hops { (net : Net) (count ttl : ℕ) (copy : Copy) → IsNet net →
        OnTravel net count ttl (λ flight.
        In copy flight.carried →
        CameByHops net flight.carried copy (hops_of_copy net flight.carried copy)) }
    ensures hops_from_lan { (net : Net) (count ttl lan : ℕ) (copy : Copy) (hops : List Hop) → IsNet net →
        OnTravel net count ttl (λ flight. In copy flight.carried →
        CameFromLan net flight.carried lan copy hops →
        hops_of_copy_until net flight.carried lan copy ≡ hops) }
    // So are those of a loop, for its first double copy.
    ensures hops_of_loop { (net : Net) (count ttl lan : ℕ) (copy : Copy) → IsNet net →
        OnTravel net count ttl (λ flight.
        Shows net flight (Loop lan) → IsFirstDouble flight.carried copy →
        CameFromLan net flight.carried lan copy (hops_of_copy_until net flight.carried lan copy)) }
    // Among any copies, every bound on the number of hops finds them that isn't less than it.
    ensures enough { (net : Net) (copies : List Copy) (limit : ℕ) (copy : Copy) (hops : List Hop) →
        IsNet net →
        CameByHops net copies copy hops → length hops ≤ limit →
        hops_back net copies limit copy.lan copy.sender ≡ hops }
    ensures enough_until { (net : Net) (copies : List Copy) (lan limit : ℕ) (copy : Copy) (hops : List Hop) →
        IsNet net → CameFromLan net copies lan copy hops → length hops ≤ limit →
        hops_until net copies lan limit copy.lan copy.sender ≡ hops }
{}

/// A packet is stopped somewhere exactly if its TTL is below the need, and at one hop only.
pub fn packet_below_need_stops_at_one_hop()
    ensures stopped { (ttl : ℕ) (hops : List Hop) → 1 ≤ ttl →
        (ttl < need hops) ↔ ((hop : Hop) × (left : ℕ) × IsStopped ttl hops hop left) }
    ensures one_hop { (ttl : ℕ) (hops : List Hop) (hop : Hop) (left : ℕ) (other : Hop) (more : ℕ) →
        IsStopped ttl hops hop left → IsStopped ttl hops other more → (hop ≡ other) × (left ≡ more) }
{}

/// The hop that stops a packet is found hop by hop, and none is found exactly if it gets through.
pub fn stopping_hop_is_found()
    ensures found { (ttl : ℕ) (hops : List Hop) (hop : Hop) (left : ℕ) →
        (stopping_hop ttl hops ≡ Some (hop, left)) ↔ IsStopped ttl hops hop left }
    ensures gets_through { (ttl : ℕ) (hops : List Hop) →
        (stopping_hop ttl hops ≡ None) ↔ PassesHops ttl hops }
{}

/// In the flight of a clean travel of TTL 255 the need of the hops by which a copy came is the
/// least TTL that reaches its LAN by any path.
pub fn need_of_hops_is_least_ttl()
    ensures least { (net : Net) (count : ℕ) (copy : Copy) (hops : List Hop) → IsNet net →
        OnFinding net count 255 Clean (λ flight. In copy flight.carried →
        CameByHops net flight.carried copy hops → IsLeastReachingTtl net copy.lan (need hops)) }
    // It is the need of the LAN's entry in the certificate that the travel makes.
    ensures entry { (net : Net) (count : ℕ) (copy : Copy) (hops : List Hop) → IsNet net →
        OnFinding net count 255 Clean (λ flight. In copy flight.carried →
        CameByHops net flight.carried copy hops →
        IsNamedWithNeed (entries_of net flight.carried) copy.lan (need hops)) }
    // Where a list of entries meets all conditions but the last, the need of any path is that TTL
    // by which some packet gets through.
    ensures of_any_path { (net : Net) (entries : List Entry) (hops : List Hop) (lan : ℕ) →
        IsTree net entries →
        IsPath net net.source hops lan → PassesHops 255 hops → IsLeastReachingTtl net lan (need hops) }
{}
