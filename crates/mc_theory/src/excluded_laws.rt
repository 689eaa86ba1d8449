//! What a run shows of a whole net that excludes the routers whose tables aren't known.

ghost use Rattle.std.specs.Prelude.{◌≤◌, ◌==◌, ℕ, Bool, false, List, [], ◌∷◌};
ghost use Rattle.mc_theory.specs.Nets.{Net};
ghost use Rattle.mc_theory.specs.Flights.{Pick, InRange, start, EveryRun};
ghost use Rattle.mc_theory.specs.Certificates.{IsClean, IsRight};
ghost use Rattle.mc_theory.specs.Findings.{Finding, IsTravel, OnFinding};
ghost use Rattle.mc_theory.specs.Findings.Finding.{Missed};
ghost use Rattle.mc_theory.specs.ExcludedRouters.{ExcludesRouters, HasSameCopiesAndStrays};
ghost use Rattle.mc_theory.specs.ExcludedRouters.{IsSecondCopyOrStray};
ghost use Rattle.mc_theory.specs.ExampleNetworks.{line, line_that_sends_back, onward, r1_alone, sends_back};

/// What comes of a packet without the excluded routers comes of it in the whole net as well,
/// whatever their tables are: the same copies are carried, and the same strays are there.
pub fn run_without_routers_occurs_with_them()
    ensures { (excluded : ℕ → Bool) (part whole : Net) (ttl : ℕ) (picks : List Pick) →
        ExcludesRouters excluded part whole → InRange part picks (start part ttl) →
        HasSameCopiesAndStrays part whole ttl picks }
{}

/// The whole flow isn't right where a run without them, of a packet with the flow's TTL or more, has
/// two copies on a LAN or a stray, or where a travel finds that.
pub fn fault_without_routers_is_fault_with_them()
    ensures runs { (excluded : ℕ → Bool) (part whole : Net) → ExcludesRouters excluded part whole →
        EveryRun part part.ttl (λ ttl picks flight. ¬ IsClean flight → ¬ IsRight whole) }
    ensures travels { (excluded : ℕ → Bool) (part whole : Net) (count ttl : ℕ) (found : Finding) →
        ExcludesRouters excluded part whole → part.ttl ≤ ttl → ttl ≤ 255 → IsSecondCopyOrStray found →
        OnFinding part count ttl found (λ flight. ¬ IsRight whole) }
{}

/// On the line r1 does without r2 what it does with it.
pub fn r1_acts_alike_without_r2()
    ensures onward { ExcludesRouters (λ router. router == 1) (r1_alone onward) (line 3) }
    ensures sends_back { ExcludesRouters (λ router. router == 1) (r1_alone sends_back) line_that_sends_back }
    // With another row of r1, or with r2's vifs, it isn't that line without r2.
    ensures own_row { ¬ ExcludesRouters (λ router. router == 1) (r1_alone onward) line_that_sends_back }
    ensures own_vifs { ¬ ExcludesRouters (λ router. router == 1) (line 3) (line 3) }
    // l2 is missed without r2, though the line is right: a missed LAN shows nothing of the whole.
    ensures missed { IsTravel (r1_alone onward) 3 [] false (0 ∷ []) (start (r1_alone onward) 3)
        (Missed 2) × ¬ IsSecondCopyOrStray (Missed 2) }
{}
