//! From which TTL on packets show what a travel found.

ghost use Rattle.std.specs.Prelude.{◌≡◌, ◌≤◌, ℕ, List, [], ◌∷◌};
ghost use Rattle.mc_theory.specs.Nets.{Net, IsNet, WantsBelow};
ghost use Rattle.mc_theory.specs.Flights.{Copy, run, start};
ghost use Rattle.mc_theory.specs.Findings.{Finding, OnFinding, handles};
ghost use Rattle.mc_theory.specs.Findings.Finding.{Duplicate, Loop, Stray};
ghost use Rattle.mc_theory.specs.ExcludedRouters.{IsSecondCopyOrStray};
ghost use Rattle.mc_theory.specs.ShownFrom.{IsShownFrom, EachCompleteRunHasFault, HasFault};
ghost use Rattle.mc_theory.specs.ExampleNetworks.{fifo_flight, line_with_a_leak, line_with_an_open_row};
ghost use Rattle.mc_theory.specs.ExampleNetworks.{line_with_loop, twins};

/// A travel's second copy of a LAN, or its stray, comes of each packet with at least the greatest need of the
/// copies that it rests on, in whatever order copies are handled, if none is lost.
pub fn finding_is_shown_from_its_need()
    ensures shown { (net : Net) (count travel_ttl ttl least_ttl : ℕ) (found : Finding) → IsNet net →
        OnFinding net count travel_ttl found (λ flight. IsShownFrom net flight.carried found least_ttl →
        least_ttl ≤ ttl → EachCompleteRunHasFault net ttl found) }
    // There is such a need, and the travel's own TTL meets it.
    ensures exists { (net : Net) (count travel_ttl : ℕ) (found : Finding) → IsNet net →
        WantsBelow net count → 1 ≤ travel_ttl →
        IsSecondCopyOrStray found → OnFinding net count travel_ttl found (λ flight.
        (least_ttl : ℕ) × IsShownFrom net flight.carried found least_ttl × (least_ttl ≤ travel_ttl)) }
{}

/// The domain and the carried copies determine that need.
pub fn need_of_finding_is_unique()
    ensures { (net : Net) (copies : List Copy) (found : Finding) (least_ttl other : ℕ) → IsNet net →
        IsShownFrom net copies found least_ttl → IsShownFrom net copies found other → least_ttl ≡ other }
{}

/// Both copies count. Of the twins' copies on l1 r2's needs TTL 2, and r1's 65: with TTL 64 there is one
/// alone. On the first LAN of the line with a loop the source's copy needs TTL 1, and the second 4.
pub fn greatest_need_shows_the_finding()
    ensures twins { IsShownFrom twins (fifo_flight twins 2).carried (Duplicate 1) 65 }
    ensures one_twin { HasFault (Duplicate 1) (run twins (handles (0 ∷ 0 ∷ [])) (start twins 64)) → ⊥ }
    ensures loop_back { IsShownFrom (line_with_loop 3) (fifo_flight (line_with_loop 3) 4).carried (Loop 0) 4 }
    // A copy that r2 sends out of the domain has passed r1 and r2's own threshold; one that r2's row for
    // every source takes has passed r1.
    ensures leak { IsShownFrom line_with_a_leak (fifo_flight line_with_a_leak 2).carried (Stray 1 2) 3 }
    ensures open_row { IsShownFrom line_with_an_open_row (fifo_flight line_with_an_open_row 2).carried
        (Stray 1 0) 2 }
{}
