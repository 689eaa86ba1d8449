//! The reasons of a flow's finding: its causes, a search, what is behind a stray, and which packets show it.

ghost use Rattle.std.specs.Prelude.{◌≡◌, ◌<◌, IfOk, length};
ghost use Rattle.mc_maker.specs.ExaminedFlights.{IsFinishedTravelOf};
ghost use Rattle.mc_maker.specs.declared.examined_flights.ExaminedFlights.TheVariants.{FoundAtTtl255};
ghost use Rattle.mc_run.specs.AuditPieces.{HasItsMarksAndInterfaces, audited_value, search_context_of};
ghost use Rattle.mc_run.specs.AuditExplanation.{IsBehindIfStray, IsFoundBelow, IsSearchIfMissed};
ghost use Rattle.mc_run.specs.AuditExplanation.{IsShownBy, IsShownFromAt255, certain_finding};
ghost use Rattle.mc_run.specs.AuditExplanation.{is_known_wrong as says_known_wrong};
ghost use Rattle.mc_run.specs.AuditedFiles.{is_whole};

use crate::audit::audited_domain::AuditedDomain;
use mc_explain::{Behind, Cause, ShownBy, behind_stray, shown_from};
use mc_forward::{FlowView, Stray};
use mc_replay::{Finding, FinishedTravel, First, replay};
use mc_search::{LanSearch, search};
use mc_text::Memory;
use std::alloc::Global;

/// Why a flow has the finding of a packet, and which packets show it.
#[derive(Drop)]
pub(crate) struct Reasons {
    /// The causes of the finding.
    pub(crate) causes: Vec<Cause>,
    /// The search for the LAN that the packet missed, if there was one.
    pub(crate) search: Option<LanSearch>,
    /// What is behind a stray, if the finding is one and that is said.
    pub(crate) behind: Option<Behind>,
    /// Which packets show the finding.
    pub(crate) shown_by: ShownBy,
}

impl Reasons {
    /// Whether it is known that the flow isn't right, by the search if there was one.
    pub(crate) fn is_known_wrong(&self, whole: bool) -> bool
        ensures { result ≡ says_known_wrong whole self.now.search }
    {
        match &self.search {
            Some(found) => whole || !found.names_excluded_router(),
            None => true,
        }
    }
}

/// Searches why a packet with TTL 255 missed a LAN, if it missed one.
pub(crate) fn search_if_missed(
    alloc: Global,
    audited: &AuditedDomain<'_>,
    flow: u32,
    ended: &FinishedTravel<'_>,
) -> Result<Option<LanSearch>, Memory>
    requires flow { flow < length audited.now.domain.now.topology.flows }
    requires ready { HasItsMarksAndInterfaces audited.now }
    requires ended { IsFinishedTravelOf audited.now.domain.now flow 255 ended.now }
    ensures search { IfOk result (IsSearchIfMissed (search_context_of audited.now flow ended.now)
        ended.now.travel.events.items ended.now.travel.finding) }
{
    let Finding::Missed(lan) = ended.travel.finding else {
        return Ok(None);
    };
    let found = search(
        alloc,
        audited.summary,
        audited.excluded,
        audited.interfaces,
        &ended.flight,
        &ended.travel.events,
        lan,
    )?;
    Ok(Some(found))
}

/// The TTL from which on packets show the finding of the travel at TTL 255. None is said where the flow's own
/// TTL is 255.
fn shown_from_if_less(
    alloc: Global,
    audited: &AuditedDomain<'_>,
    flow: u32,
    ended: &FinishedTravel<'_>,
) -> Result<Option<u8>, Memory>
    requires flow { flow < length audited.now.domain.now.topology.flows }
    requires ended { IsFinishedTravelOf audited.now.domain.now flow 255 ended.now }
    ensures shown { IfOk result (λ shown_from. IsShownFromAt255 audited.now.domain.now flow
        (FoundAtTtl255 ended.now) shown_from) }
{
    let view = FlowView::new(audited.domain, flow);
    let ttl = view.ttl();
    if ttl == 255 {
        return Ok(None);
    }
    shown_from(alloc, audited.domain, flow, ended)
}

/// A finding of a packet with the flow's own TTL; without the whole domain, only if no tables of the excluded
/// routers take it away.
fn certain_finding(whole: bool, finding: Finding) -> Option<Finding>
    ensures { result ≡ certain_finding whole finding }
{
    match finding {
        Finding::Clean | Finding::Missed(_) => { if whole { Some(finding) } else { None } }
        Finding::Duplicate(_) | Finding::Loop(_) | Finding::Stray(_, _) => Some(finding),
    }
}

/// What a packet with the flow's own TTL meets, where packets show the finding at TTL 255 only from a greater
/// one on.
fn found_below(
    alloc: Global,
    audited: &AuditedDomain<'_>,
    flow: u32,
    shown_from: Option<u8>,
) -> Result<Option<Finding>, Memory>
    requires flow { flow < length audited.now.domain.now.topology.flows }
    ensures found { IfOk result (IsFoundBelow (is_whole (audited_value audited.now))
        audited.now.domain.now flow shown_from) }
{
    let ttl = audited.domain.topology().flow(flow).ttl;
    let Some(from) = shown_from else {
        return Ok(None);
    };
    if from <= ttl {
        return Ok(None);
    }
    let travel = replay(alloc, audited.domain, flow, ttl, &mut First)?;
    Ok(certain_finding(audited.without.is_empty(), travel.finding))
}

/// Which packets show the finding of the travel at TTL 255.
pub(crate) fn shown_by(
    alloc: Global,
    audited: &AuditedDomain<'_>,
    flow: u32,
    ended: &FinishedTravel<'_>,
) -> Result<ShownBy, Memory>
    requires flow { flow < length audited.now.domain.now.topology.flows }
    requires ended { IsFinishedTravelOf audited.now.domain.now flow 255 ended.now }
    ensures shown { IfOk result (IsShownBy (is_whole (audited_value audited.now))
        audited.now.domain.now flow (FoundAtTtl255 ended.now)) }
{
    let from = shown_from_if_less(alloc, audited, flow, ended)?;
    let at_flow_ttl = found_below(alloc, audited, flow, from)?;
    Ok(ShownBy { from, at_flow_ttl })
}

/// What is behind a stray of a packet with TTL 255, if its finding is one.
pub(crate) fn behind_if_stray(
    alloc: Global,
    audited: &AuditedDomain<'_>,
    flow: u32,
    finding: Finding,
) -> Result<Option<Behind>, Memory>
    requires flow { flow < length audited.now.domain.now.topology.flows }
    ensures behind { IfOk result (IsBehindIfStray (is_whole (audited_value audited.now))
        audited.now.domain.now flow finding) }
{
    match finding {
        Finding::Stray(router, vif) => {
            let own = Stray { router, vif };
            let whole = audited.without.is_empty();
            let behind = behind_stray(alloc, audited.domain, whole, flow, own)?;
            Ok(Some(behind))
        }
        Finding::Clean | Finding::Duplicate(_) | Finding::Loop(_) | Finding::Missed(_) => Ok(None),
    }
}
