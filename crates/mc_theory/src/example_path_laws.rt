//! Paths, hops and remedies on small networks that are judged by hand.

ghost use Rattle.std.specs.Prelude.{◌≡◌, ℕ, true, false, [], ◌∷◌, Some, None};
ghost use Rattle.mc_theory.specs.Nets.Row.{Exact};
ghost use Rattle.mc_theory.specs.Flights.{start, run};
ghost use Rattle.mc_theory.specs.Headline.{HeadlineHolds};
ghost use Rattle.mc_theory.specs.Findings.{first_copy_on, IsTravel, handles};
ghost use Rattle.mc_theory.specs.Findings.Finding.{Duplicate, Loop};
ghost use Rattle.mc_theory.specs.Paths.{Hop, IsHop, IsPath, PassesHops, need, IsStopped, IsReachedWithTtl};
ghost use Rattle.mc_theory.specs.Paths.{take_out, CameFromLan, IsSpareInterface, ReachedByTwoPaths};
ghost use Rattle.mc_theory.specs.Paths.{LoopedBack};
ghost use Rattle.mc_theory.specs.Hops.{hop_by, hops_back, hops_until, IsPathPart, stopping_hop};
ghost use Rattle.mc_theory.specs.ExampleNetworks.{copy, fifo_flight, onward, onward_hop, hop_above};
ghost use Rattle.mc_theory.specs.ExampleNetworks.{line_with_loop, line_with_shortcut};
ghost use Rattle.mc_theory.specs.ExampleNetworks.{diamond, upper_path, closed_diamond, fork, twins};

/// In the diamond a path leads by r1 and r3 to l3. At r3 a packet has lost one TTL, and what is left
/// has to be greater than 1.
pub fn diamond_has_an_upper_path()
    ensures path { IsPath diamond 0 upper_path 3 }
    // r3 takes from l1 alone
    ensures other_lan { IsHop diamond (onward_hop 2 2 3) → ⊥ }
    ensures least_ttl { need upper_path ≡ 3 }
    ensures gets_through { PassesHops 3 upper_path }
    ensures too_low { PassesHops 2 upper_path → ⊥ }
{}

/// In the diamond a packet of TTL 2 comes to r3 with TTL 1, which is not greater than the threshold,
/// and stops there; one of TTL 1 stops at r1, and never comes to r3.
pub fn diamond_stops_low_ttl_packets()
    ensures last_hop { IsStopped 2 upper_path (onward_hop 1 2 3) 1 }
    ensures first_hop { IsStopped 1 upper_path (onward_hop 0 0 1) 1 }
    ensures not_again { IsStopped 1 upper_path (onward_hop 1 2 3) 0 → ⊥ }
    ensures least_ttl { (hop : Hop) (left : ℕ) → IsStopped 3 upper_path hop left → ⊥ }
    ensures last_found { stopping_hop 2 upper_path ≡ Some (onward_hop 1 2 3, 1) }
    ensures first_found { stopping_hop 1 upper_path ≡ Some (onward_hop 0 0 1, 1) }
    ensures none_found { stopping_hop 3 upper_path ≡ None }
{}

/// A hop is read from its router's row: from where it takes, and above which threshold it sends.
pub fn hops_are_read_from_rows()
    ensures lan { hop_by closed_diamond (3, 1) 3 ≡ Some (onward_hop 2 3 3) }
    ensures threshold { hop_by twins (0, 1) 1 ≡ Some (hop_above 64 0 0 1) }
    // r4 has no row
    ensures no_row { hop_by diamond (3, 1) 3 ≡ None }
{}

/// Only the interface is taken out: the fork's other vif stays, and so do the rows of others.
pub fn only_the_interface_is_taken_out()
    ensures row { (take_out (0, 1) (fork 65)).row 0 ≡ Exact 0 ((2, 64) ∷ []) }
    ensures other_row { (take_out (2, 1) (line_with_loop 3)).row 0 ≡ onward }
{}

/// In the closed diamond r3 and r4 both send onto l3. What r4 sends is the second copy there, and
/// without it the diamond is right.
pub fn closed_diamond_has_a_remedy()
    ensures travel { IsTravel closed_diamond 4 [] false (0 ∷ 0 ∷ 0 ∷ 0 ∷ [])
        (start closed_diamond 255) (Duplicate 3) }
    ensures came_twice { ReachedByTwoPaths closed_diamond (fifo_flight closed_diamond 4).carried 3 }
    ensures spare { IsSpareInterface closed_diamond (fifo_flight closed_diamond 4)
        (copy 3 253 (Some (3, 1))) (3, 1) upper_path }
    ensures right { HeadlineHolds (take_out (3, 1) closed_diamond) 4 }
{}

/// In the line with a loop a path leads by r1, r2 and r3 from l0 back to l0. What r3 sends is the
/// second copy there, the first is the source's, and without r3's vif the line is left.
pub fn line_with_loop_has_a_remedy()
    ensures travel { IsTravel (line_with_loop 3) 3 [] false (0 ∷ 0 ∷ 0 ∷ 0 ∷ [])
        (start (line_with_loop 3) 255) (Loop 0) }
    ensures came_back { LoopedBack (line_with_loop 3) (fifo_flight (line_with_loop 3) 4).carried 0 }
    ensures spare { IsSpareInterface (line_with_loop 3) (fifo_flight (line_with_loop 3) 4)
        (copy 0 252 (Some (2, 1))) (2, 1) [] }
    ensures right { HeadlineHolds (take_out (2, 1) (line_with_loop 3)) 3 }
{}

/// In the line with a loop the second copy on l0 came from l0 by all three hops, from l1 by the last
/// two, and not from l0 by the last alone. The walk back over the last hop comes to the copy on l2.
pub fn line_with_loop_copy_came_from_its_lan()
    ensures from_l0 { CameFromLan (line_with_loop 3) (fifo_flight (line_with_loop 3) 4).carried 0
        (copy 0 252 (Some (2, 1))) (onward_hop 2 2 0 ∷ onward_hop 1 1 2 ∷ onward_hop 0 0 1 ∷ []) }
    ensures from_l1 { CameFromLan (line_with_loop 3) (fifo_flight (line_with_loop 3) 4).carried 1
        (copy 0 252 (Some (2, 1))) (onward_hop 2 2 0 ∷ onward_hop 1 1 2 ∷ []) }
    ensures not_by_last_hop { CameFromLan (line_with_loop 3)
        (fifo_flight (line_with_loop 3) 4).carried 0
        (copy 0 252 (Some (2, 1))) (onward_hop 2 2 0 ∷ []) → ⊥ }
    ensures path_part { IsPathPart (line_with_loop 3) (fifo_flight (line_with_loop 3) 4).carried
        (copy 0 252 (Some (2, 1))) (onward_hop 2 2 0 ∷ []) (copy 2 253 (Some (1, 1))) }
    // From r3's vif and l0 both are found: all hops, and those back to l1.
    ensures all_found { hops_back (line_with_loop 3) (fifo_flight (line_with_loop 3) 4).carried 4 0
        (Some (2, 1)) ≡ onward_hop 2 2 0 ∷ onward_hop 1 1 2 ∷ onward_hop 0 0 1 ∷ [] }
    ensures found_until_l1 { hops_until (line_with_loop 3)
        (fifo_flight (line_with_loop 3) 4).carried 1 4 0
        (Some (2, 1)) ≡ onward_hop 2 2 0 ∷ onward_hop 1 1 2 ∷ [] }
{}

/// Of the twins r2 sends the second copy onto l1. Without it the flow is right, whose packets have
/// TTL 65; but r2 alone passes one with TTL 2, which is less than the first copy's path needs.
pub fn remedy_may_lose_packets_below_need()
    ensures travel { IsTravel twins 2 [] false (0 ∷ 0 ∷ []) (start twins 255) (Duplicate 1) }
    ensures spare { IsSpareInterface twins (fifo_flight twins 2)
        (copy 1 254 (Some (1, 1))) (1, 1) (hop_above 64 0 0 1 ∷ []) }
    ensures least_ttl { need (hop_above 64 0 0 1 ∷ []) ≡ 65 }
    ensures right { HeadlineHolds (take_out (1, 1) twins) 2 }
    ensures reached_before { IsReachedWithTtl twins 2 1 }
    ensures not_reached_after { IsReachedWithTtl (take_out (1, 1) twins) 2 1 → ⊥ }
{}

/// If not always the first waiting copy is handled, a LAN's first copy may have come by a longer path:
/// where r1 and r2 handle theirs before r3, l2 has its first from r2.
pub fn other_choices_may_delay_a_first_copy()
    ensures travel { IsTravel (line_with_shortcut 3) 3 (0 ∷ []) true (0 ∷ 1 ∷ 1 ∷ 0 ∷ [])
        (start (line_with_shortcut 3) 255) (Duplicate 2) }
    ensures late { first_copy_on (run (line_with_shortcut 3) (handles (0 ∷ 1 ∷ 1 ∷ 0 ∷ []))
        (start (line_with_shortcut 3) 255)).carried 2 ≡ Some (copy 2 253 (Some (1, 1))) }
    ensures shorter { IsPath (line_with_shortcut 3) 0 (onward_hop 0 2 2 ∷ []) 2 }
    ensures gets_through { PassesHops 255 (onward_hop 0 2 2 ∷ []) }
{}
