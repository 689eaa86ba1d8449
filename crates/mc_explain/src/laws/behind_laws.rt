//! Theorem: what is reported behind a stray is true.

ghost use Rattle.std.specs.Prelude.{◌≡◌, ◌++◌, ℕ, Bool, List, [], false};
ghost use Rattle.mc_theory.specs.Nets.{Interface, Net};
ghost use Rattle.mc_theory.specs.Flights.{Flight};
ghost use Rattle.mc_theory.specs.Findings.{Finding, IsTravel};
ghost use Rattle.mc_forward.specs.Domains.{DomainValue, IsDomain};
ghost use Rattle.mc_replay.specs.PastStrays.{IsRunPastStrays};
ghost use Rattle.mc_explain.specs.Behind.{IsBehind};
ghost use Rattle.mc_explain.specs.BehindFacts.{IsTrueBehind};
ghost use Rattle.mc_explain.specs.declared.causes.behind.Behind.{Behind};

/// What is reported behind a stray is true of one run of the flow: the loop or the duplicate with its
/// causes, which each packet shows that is sent with at least the reported TTL, the strays, and the LANs
/// that are missed.
pub fn what_is_behind_a_stray_is_of_a_run()
    ensures of_run { (whole : Bool) (domain : DomainValue) (flow : ℕ) (own : Interface)
        (behind : Behind) → IsDomain domain → IsBehind whole domain flow own behind →
        IsTrueBehind domain flow behind }
    // The run begins as the travel that finds the stray.
    ensures begins { (net : Net) (count : ℕ) (travel_picks run_picks : List ℕ) (flight : Flight)
        (found : Finding) → IsTravel net count [] false travel_picks flight found →
        IsRunPastStrays net run_picks flight → (more : List ℕ) × (run_picks ≡ travel_picks ++ more) }
{}
