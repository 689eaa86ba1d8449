//! What the headline promises, in words of other definitions: in counts, and for small networks that
//! are judged by hand.

ghost use Rattle.std.specs.Prelude.{◌≡◌, ◌≤◌, ◌==◌, ℕ, List, [], ◌∷◌, filter, length, map, true};
ghost use Rattle.mc_theory.specs.Nets.{Net};
ghost use Rattle.mc_theory.specs.Flights.{Flight, Pick, start, run, InRange};
ghost use Rattle.mc_theory.specs.Flights.Pick.{Handles};
ghost use Rattle.mc_theory.specs.Certificates.{IsRight, IsSafe};
ghost use Rattle.mc_theory.specs.Headline.{HeadlineHolds, EveryHandledFlight};
ghost use Rattle.mc_theory.specs.ExampleNetworks.{line, line_entries, line_end, line_with_a_leak};
ghost use Rattle.mc_theory.specs.ExampleNetworks.{line_with_an_open_row, line_that_sends_back};
ghost use Rattle.mc_theory.specs.ExampleNetworks.{diamond, closed_diamond, closed_diamond_end};
ghost use Rattle.mc_theory.specs.ExampleNetworks.{fork, fork_end};

/// What the headline promises of a packet sent with the flow's TTL or more, after any picks of
/// waiting copies, in counts of what was carried.
pub fn the_headline_in_counts()
    // No LAN carried two copies,
    ensures no_two_copies { (net : Net) (named ttl : ℕ) (picks : List Pick) (lan : ℕ)
        → HeadlineHolds net named → net.ttl ≤ ttl → ttl ≤ 255 → InRange net picks (start net ttl)
        → length (filter (λ copy. copy.lan == lan) (run net picks (start net ttl)).carried) ≤ 1 }
    // none left the known domain,
    ensures none_leaves { (net : Net) (named ttl : ℕ) (picks : List Pick)
        → HeadlineHolds net named → net.ttl ≤ ttl → ttl ≤ 255 → InRange net picks (start net ttl)
        → (run net picks (start net ttl)).strays ≡ [] }
    // and no more were made than are named.
    ensures no_more_than_named { (net : Net) (named ttl : ℕ) (picks : List Pick)
        → HeadlineHolds net named → net.ttl ≤ ttl → ttl ≤ 255 → InRange net picks (start net ttl)
        → length (run net picks (start net ttl)).carried ≤ named }
    // Where each pick handled its copy, and none waits, each wanting LAN carried exactly one.
    ensures each_wanting_one { (net : Net) (named lan : ℕ)
        → HeadlineHolds net named → net.wants lan ≡ true
        → EveryHandledFlight net (λ flight. length (filter (λ copy. copy.lan == lan) flight.carried) ≡ 1) }
{}

/// The line, where r1 forwards from l0 to l1 and r2 on to l2, keeps the headline at TTL 3.
pub fn the_line_is_right()
    // l0, l1 and l2 carry one copy each, with TTL 3, 2 and 1.
    ensures travel { run (line 3) (Handles 0 ∷ Handles 0 ∷ []) (start (line 3) 3) ≡ line_end }
    ensures headline_holds { HeadlineHolds (line 3) 3 }
    ensures right { IsRight (line 3) }
    // A certificate that names one LAN less allows too few copies.
    ensures too_few_named { HeadlineHolds (line 3) 2 → ⊥ }
    // Copies are handled at the four interfaces at most: a fifth step is one too many.
    ensures one_step_too_many { (first second third fourth fifth : ℕ) (flight : Flight) →
        IsSafe (line 3) line_entries 3
        (Handles first ∷ Handles second ∷ Handles third ∷ Handles fourth ∷ Handles fifth ∷ [])
        flight → ⊥ }
{}

/// With a TTL of 2 r2 doesn't send on, since 1 isn't greater than its threshold 1, and l2 isn't served.
pub fn unserved_lan_is_wrong()
    ensures headline_broken { (named : ℕ) → HeadlineHolds (line 2) named → ⊥ }
    ensures not_right { IsRight (line 2) → ⊥ }
{}

/// A copy leaves the known domain by a vif without a LAN, or at a row that isn't followed.
pub fn stray_copy_is_wrong()
    ensures headline_broken { (named : ℕ) → HeadlineHolds line_with_a_leak named → ⊥ }
    ensures not_right { IsRight line_with_a_leak → ⊥ }
    // r2's row for every source isn't followed: the copy strays at the vif that it came in by.
    ensures open_row { (run line_with_an_open_row (Handles 0 ∷ Handles 0 ∷ [])
        (start line_with_an_open_row 3)).strays ≡ (1, 0) ∷ [] }
    ensures open_row_headline_broken { (named : ℕ) → HeadlineHolds line_with_an_open_row named → ⊥ }
{}

/// A LAN is served twice by the diamond's two paths, or by a row that sends back.
pub fn twice_served_lan_is_wrong()
    // The diamond is right as long as one of its paths is closed.
    ensures headline_holds { HeadlineHolds diamond 4 }
    // r3 and r4 send on l3, hear each other there, and don't forward what comes by that vif.
    ensures travel { run closed_diamond (map Handles (0 ∷ 0 ∷ 0 ∷ 0 ∷ 0 ∷ 0 ∷ []))
        (start closed_diamond 4) ≡ closed_diamond_end }
    ensures headline_broken { (named : ℕ) → HeadlineHolds closed_diamond named → ⊥ }
    ensures not_right { IsRight closed_diamond → ⊥ }
    // Two copies are too many before the rest of the flight is over, too.
    ensures broken_in_flight { (named : ℕ) → HeadlineHolds line_that_sends_back named → ⊥ }
{}

/// The fork sends on l2 only what comes with a TTL greater than 64.
pub fn fork_needs_ttl_above_threshold()
    ensures headline_holds { HeadlineHolds (fork 65) 3 }
    ensures travel { run (fork 65) (Handles 0 ∷ []) (start (fork 65) 65) ≡ fork_end }
    ensures headline_broken { (named : ℕ) → HeadlineHolds (fork 64) named → ⊥ }
    ensures not_right { IsRight (fork 64) → ⊥ }
{}
