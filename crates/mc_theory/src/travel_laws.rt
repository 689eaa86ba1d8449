//! What the travels of a packet show of its flow.

ghost use Rattle.std.specs.Prelude.{◌≡◌, ◌≢◌, ◌↔◌, ◌≤◌, ◌+◌, ℕ, Bool, List, [], length, slice_get, Some};
ghost use Rattle.mc_theory.specs.Nets.{Net, IsNet, WantsBelow, placed_interfaces};
ghost use Rattle.mc_theory.specs.Flights.{Flight, Pick, Waiting, start, step, run};
ghost use Rattle.mc_theory.specs.Certificates.{Entry, IsTree, IsServed, IsRight};
ghost use Rattle.mc_theory.specs.Findings.{Finding, IsTravel, IsTravelUnfinished, AllWalksEnd};
ghost use Rattle.mc_theory.specs.Findings.{OnTravel, OnFinding};
ghost use Rattle.mc_theory.specs.Findings.Finding.{Clean};
ghost use Rattle.mc_theory.specs.CertificateOfCopies.{entries_of, IsCertifiedBy};
ghost use Rattle.mc_theory.specs.Events.{event_of, copies_in, strays_in};
ghost use Rattle.mc_theory.specs.FindingMeaning.{Shows};
ghost use Rattle.mc_theory.specs.CopyOrigins.{AreInSendingOrder};

/// A travel at a TTL from the flow's to 255 that finds something else than `Clean` shows that the
/// flow isn't right.
pub fn non_clean_finding_means_a_wrong_flow()
    ensures { (net : Net) (count ttl : ℕ) (found : Finding) → IsNet net → WantsBelow net count →
        net.ttl ≤ ttl → ttl ≤ 255 → found ≢ Clean →
        OnFinding net count ttl found (λ flight. ¬ IsRight net) }
{}

/// A travel has at most as many events as there are placed interfaces.
pub fn a_travel_ends()
    ensures { (net : Net) (count ttl : ℕ) (numbers : List ℕ) (last : Bool) (places : List ℕ)
        (found : Finding) →
        IsNet net → IsTravel net count numbers last places (start net ttl) found →
        length places ≤ length (placed_interfaces net) }
{}

/// An unfinished travel has at most as many events, too: as long as no flight shows anything, the
/// next event is one of them.
pub fn travel_so_far_is_bounded()
    ensures { (net : Net) (count ttl : ℕ) (numbers : List ℕ) (last : Bool) (places : List ℕ) →
        IsTravelUnfinished net count numbers last places (start net ttl) →
        length places ≤ length (placed_interfaces net) }
{}

/// Two clean travels, one at TTL 255 and one at the flow's, give an accepted list: the entries
/// that the first makes.
pub fn clean_travels_certify()
    ensures { (net : Net) (count : ℕ) → IsNet net → WantsBelow net count → 1 ≤ net.ttl → net.ttl ≤ 255 →
        OnFinding net count 255 Clean (λ flight.
        OnFinding net count net.ttl Clean (λ second. IsCertifiedBy net flight)) }
{}

/// A clean travel at TTL 255 makes entries that meet all conditions but the last.
pub fn a_clean_travel_makes_a_tree()
    ensures { (net : Net) (count : ℕ) → IsNet net →
        OnFinding net count 255 Clean (λ flight. IsTree net (entries_of net flight.carried)) }
{}

/// Where all conditions but the last are met, the needs decide what a travel at the flow's TTL
/// finds: it is clean exactly if each wanting LAN is named with a need that this TTL meets.
pub fn needs_decide_the_second_travel()
    ensures { (net : Net) (count : ℕ) (entries : List Entry) (found : Finding) →
        IsNet net → WantsBelow net count → 1 ≤ net.ttl → net.ttl ≤ 255 → IsTree net entries →
        OnFinding net count net.ttl found (λ flight. (found ≡ Clean) ↔ IsServed net entries) }
{}

/// In every run each carried copy but the source's was sent on from one that was carried before it.
pub fn each_copy_was_sent_on_from_an_earlier_one()
    ensures { (net : Net) (ttl : ℕ) (picks : List Pick) →
        AreInSendingOrder net [] (run net picks (start net ttl)).carried }
{}

/// In the flight that a travel ends with, the walk back from each copy ends at the source's copy,
/// over fewer LANs than there are carried copies, and `walk_visits` says whether it passes a LAN.
/// So the walk distinguishes `Loop` from `Duplicate`.
pub fn the_walk_back_ends()
    ensures { (net : Net) (count ttl : ℕ) →
        OnTravel net count ttl (λ flight. AllWalksEnd net flight.carried) }
{}

/// The flight that a travel ends with shows what the travel finds.
pub fn finding_is_what_the_flight_shows()
    ensures { (net : Net) (count ttl : ℕ) (found : Finding) → WantsBelow net count →
        OnFinding net count ttl found (λ flight. Shows net flight found) }
{}

/// An event's counts are what its step did: so many more copies were carried, and so many more
/// strays are there.
pub fn event_counts_what_its_step_did()
    ensures copies { (net : Net) (place : ℕ) (flight : Flight) (waiting : Waiting) →
        slice_get flight.waiting place ≡ Some waiting →
        length (step net place flight).carried
        ≡ length flight.carried + copies_in (event_of net waiting).outcome }
    ensures strays { (net : Net) (place : ℕ) (flight : Flight) (waiting : Waiting) →
        slice_get flight.waiting place ≡ Some waiting →
        length (step net place flight).strays
        ≡ length flight.strays + strays_in (event_of net waiting).outcome }
{}
