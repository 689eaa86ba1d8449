//! How far a packet came in a search: which routers sent copies on, and which took none.

ghost use Rattle.std.specs.Prelude.{◌≡◌, ◌<◌, ◌≤◌, ◌||◌, ◌∷◌, ℕ, [], All, IfOk, OnOk, false, filter};
ghost use Rattle.std.specs.Prelude.{◌&&◌, Bool, length, map, not, replicate, slice_index_or};
ghost use Rattle.mc_forward.specs.OutcomeValues.{outcome_value};
ghost use Rattle.mc_search.specs.LanProbe.{IsLanProbe, search_in};
ghost use Rattle.mc_search.specs.BucketsAndMarks.{AreMarksOfListed, AreMarksOf};
ghost use Rattle.mc_search.specs.SearchLine.{append_new, router_of_group, routers_on};
ghost use Rattle.mc_search.specs.SearchReach.{has_event, is_of_handling, routers_of_lans, sent_on};
ghost use Rattle.mc_search.specs.SearchReach.{took_none};
ghost use Rattle.mc_search.specs.declared.reach.Handling.TheVariants.{SentOn};

use crate::lan_probe::LanProbe;
use mc_forward::{Event, Outcome};
use mc_text::Memory;
use mc_topology::{LanNo, RouterNo};
use std::alloc::Global;

/// How far a packet came among the routers of a search, in the search's order, each router once.
#[derive(Debug, Drop)]
pub struct Reach {
    /// The routers that sent copies on.
    pub sent_on: Vec<RouterNo>,
    /// The other routers that a copy came to and that took none: they have no row, or one with another
    /// incoming vif.
    pub took_none: Vec<RouterNo>,
}

/// What a router did with a copy that came to it.
#[derive(Clone, Copy)]
enum Handling {
    /// It sent copies on.
    SentOn,
    /// It took none: it has no row, or one with another incoming vif.
    TookNone,
}

/// Whether an outcome is of this handling. That of a row for every source is of neither.
fn is_of_handling(outcome: Outcome, handling: Handling) -> bool
    ensures { result ≡ is_of_handling handling (outcome_value outcome) }
{
    match outcome {
        Outcome::Sent { .. } => matches!(handling, Handling::SentOn),
        Outcome::NoRow | Outcome::OtherVif => matches!(handling, Handling::TookNone),
        Outcome::Open => false,
    }
}

/// Marks the routers with an event of this handling.
fn mark_routers(marks: &mut [bool], events: &[Event], handling: Handling)
    ensures count { length marks.new ≡ length marks.old }
    ensures marks { (router : ℕ) → router < length marks.old →
        slice_index_or marks.new router false
        ≡ (slice_index_or marks.old router false || has_event handling events.now router) }
{
    for event in events {
        let router = event.router.0 as usize;
        if router < marks.len() && is_of_handling(event.outcome, handling) {
            marks[router] = true;
        }
    }
}

/// Unmarks the routers that sent a copy on.
fn unmark_senders(marks: &mut [bool], events: &[Event])
    ensures count { length marks.new ≡ length marks.old }
    ensures marks { (router : ℕ) → router < length marks.old →
        slice_index_or marks.new router false
        ≡ (slice_index_or marks.old router false && not (has_event SentOn events.now router)) }
{
    for event in events {
        let router = event.router.0 as usize;
        if router < marks.len() && is_of_handling(event.outcome, Handling::SentOn) {
            marks[router] = false;
        }
    }
}

/// Marks for so many routers, of which none is set.
fn no_marks(alloc: Global, routers: u32) -> Result<Vec<bool>, Memory>
    ensures { IfOk result (λ marks. marks.items ≡ replicate routers false) }
{
    Ok(vec![in alloc; false; routers as usize]?)
}

/// Adds a router, unless it is listed already.
fn add_router(
    routers: &mut Vec<RouterNo>,
    listed: &mut [bool],
    router: RouterNo,
) -> Result<(), Memory>
    requires router { router < length listed.old }
    requires listed { AreMarksOfListed routers.old.items listed.old }
    ensures count { length listed.new ≡ length listed.old }
    ensures routers { OnOk result (routers.new.items ≡ append_new routers.old.items (router ∷ [])) }
    ensures listed { OnOk result (AreMarksOfListed routers.new.items listed.new) }
{
    let number = router.0 as usize;
    if !listed[number] {
        routers.push(router)?;
        listed[number] = true;
    }
    Ok(())
}

/// Adds the routers on a LAN that aren't listed yet.
fn add_routers(
    lan_probe: &LanProbe<'_>,
    routers: &mut Vec<RouterNo>,
    listed: &mut [bool],
    lan: LanNo,
) -> Result<(), Memory>
    requires lan_probe { IsLanProbe lan_probe.now }
    requires lan { lan < length lan_probe.now.view.now.domain.topology.lans }
    requires listed { AreMarksOfListed routers.old.items listed.old }
    requires room { length lan_probe.now.view.now.domain.topology.routers ≤ length listed.old }
    ensures count { length listed.new ≡ length listed.old }
    ensures routers { OnOk result (routers.new.items ≡ append_new routers.old.items
        (map router_of_group (routers_on (search_in lan_probe.now) lan))) }
    ensures listed { OnOk result (AreMarksOfListed routers.new.items listed.new) }
{
    for router_on_lan in lan_probe.routers_on(lan) {
        add_router(routers, listed, router_on_lan.router)?;
    }
    Ok(())
}

/// The routers on these LANs, each once.
fn routers_of_lans(
    alloc: Global,
    lan_probe: &LanProbe<'_>,
    lans: &[LanNo],
) -> Result<Vec<RouterNo>, Memory>
    requires lan_probe { IsLanProbe lan_probe.now }
    requires lans { All (λ lan. lan < length lan_probe.now.view.now.domain.topology.lans) lans.now }
    ensures routers { IfOk result (λ routers.
        routers.items ≡ routers_of_lans (search_in lan_probe.now) lans.now) }
    ensures within { IfOk result (λ routers. All (λ router.
        router < length lan_probe.now.view.now.domain.topology.routers) routers.items) }
{
    let mut listed = no_marks(alloc, lan_probe.view.topology().routers())?;
    let mut routers = Vec::new(alloc);
    for lan in lans {
        add_routers(lan_probe, &mut routers, &mut listed, *lan)?;
    }
    Ok(routers)
}

/// The routers that are marked.
fn marked_routers(
    alloc: Global,
    routers: &[RouterNo],
    marks: &[bool],
) -> Result<Vec<RouterNo>, Memory>
    requires within { All (λ router. router < length marks.now) routers.now }
    ensures marked { (passes : ℕ → Bool) → AreMarksOf passes marks.now →
        IfOk result (λ found. found.items ≡ filter passes routers.now) }
{
    let mut found = Vec::new(alloc);
    for router in routers {
        if marks[router.0 as usize] {
            found.push(*router)?;
        }
    }
    Ok(found)
}

/// Which of these routers, of so many, sent copies on, and which others took none.
fn reach_among(
    alloc: Global,
    routers: &[RouterNo],
    count: u32,
    events: &[Event],
) -> Result<Reach, Memory>
    requires within { All (λ router. router < count) routers.now }
    ensures sent_on { IfOk result (λ reach.
        reach.sent_on.items ≡ sent_on events.now routers.now) }
    ensures took_none { IfOk result (λ reach.
        reach.took_none.items ≡ took_none events.now routers.now) }
{
    let mut sent_on = no_marks(alloc, count)?;
    mark_routers(&mut sent_on, events, Handling::SentOn);
    let mut took_none = no_marks(alloc, count)?;
    mark_routers(&mut took_none, events, Handling::TookNone);
    unmark_senders(&mut took_none, events);
    Ok(Reach {
        sent_on: marked_routers(alloc, routers, &sent_on)?,
        took_none: marked_routers(alloc, routers, &took_none)?,
    })
}

/// Which routers of these LANs sent copies on, and which others took none.
pub(crate) fn reach_of(
    alloc: Global,
    lan_probe: &LanProbe<'_>,
    lans: &[LanNo],
    events: &[Event],
) -> Result<Reach, Memory>
    requires lan_probe { IsLanProbe lan_probe.now }
    requires lans { All (λ lan. lan < length lan_probe.now.view.now.domain.topology.lans) lans.now }
    ensures sent_on { IfOk result (λ reach. reach.sent_on.items ≡
        sent_on events.now (routers_of_lans (search_in lan_probe.now) lans.now)) }
    ensures took_none { IfOk result (λ reach. reach.took_none.items ≡
        took_none events.now (routers_of_lans (search_in lan_probe.now) lans.now)) }
{
    let routers = routers_of_lans(alloc, lan_probe, lans)?;
    let count = lan_probe.view.topology().routers();
    reach_among(alloc, &routers, count, events)
}
