//! What holds of every run where a list of entries is accepted, and which flows have such a list.

ghost use Rattle.std.specs.Prelude.{◌≡◌, ◌↔◌, ◌≤◌, ℕ, List, None, length};
ghost use Rattle.std.specs.List.Sorted.{IsPermutation};
ghost use Rattle.mc_theory.specs.Nets.{Net, IsNet, WantsBelow};
ghost use Rattle.mc_theory.specs.Flights.{EveryRun};
ghost use Rattle.mc_theory.specs.Certificates.{Entry, IsTree, IsServed, IsAccepted, IsReordering};
ghost use Rattle.mc_theory.specs.Certificates.{IsSafe, IsDeliveredWhole};
ghost use Rattle.mc_theory.specs.Certificates.{IsRight};
ghost use Rattle.mc_theory.specs.Headline.{HeadlineHolds};
ghost use Rattle.mc_theory.specs.Reasons.{first_reason};

/// Every run of a packet is safe, complete or not: no LAN carries two copies, none strays, each
/// copy is as its LAN's entry says, and the copies and the steps are bounded.
pub fn every_run_is_safe()
    ensures { (net : Net) (entries : List Entry) → IsNet net → IsTree net entries →
        EveryRun net 1 (IsSafe net entries) }
{}

/// A complete run without loss carries exactly the named LANs whose need the packet's TTL meets.
pub fn every_complete_run_delivers()
    ensures { (net : Net) (entries : List Entry) → IsNet net → IsTree net entries
        → EveryRun net 1 (IsDeliveredWhole entries) }
{}

/// An accepted flow keeps the headline's promise, in every order: no LAN carries two copies, none
/// leaves the known domain, no more copies are made than the certificate names, and, if none was
/// lost, once none waits each wanting LAN has carried exactly one.
pub fn accepted_flow_keeps_headline()
    ensures { (net : Net) (entries : List Entry) → IsNet net → 1 ≤ net.ttl → IsAccepted net entries
        → HeadlineHolds net (length entries) }
{}

/// An accepted flow is right.
pub fn an_accepted_flow_is_right()
    ensures { (net : Net) (entries : List Entry) → IsNet net → 1 ≤ net.ttl → IsAccepted net entries →
        IsRight net }
{}

/// A right flow has an accepted list.
pub fn a_right_flow_is_accepted()
    ensures { (net : Net) → IsNet net → 1 ≤ net.ttl → net.ttl ≤ 255 → IsRight net
        → (entries : List Entry) × IsAccepted net entries }
{}

/// A flow has an accepted list exactly if it is right.
pub fn certificate_exists_iff_flow_is_right()
    ensures { (net : Net) → IsNet net → 1 ≤ net.ttl → net.ttl ≤ 255
        → ((entries : List Entry) × IsAccepted net entries) ↔ IsRight net }
{}

/// There is no reason to refuse a list exactly where it is accepted.
pub fn no_reason_iff_accepted()
    ensures { (net : Net) (count : ℕ) (entries : List Entry) → IsNet net → WantsBelow net count
        → (first_reason net count entries ≡ None) ↔ IsAccepted net entries }
{}

/// The order of entries doesn't matter: a list with the same entries meets the same conditions, and a
/// permutation of an accepted list is accepted.
pub fn order_of_entries_does_not_matter()
    ensures tree { (net : Net) (entries others : List Entry) → IsReordering entries others
        → IsTree net entries → IsTree net others }
    ensures served { (net : Net) (entries others : List Entry) → IsReordering entries others
        → IsServed net entries → IsServed net others }
    ensures permutation { (net : Net) (entries others : List Entry) → IsPermutation entries others
        → IsAccepted net entries → IsAccepted net others }
{}
