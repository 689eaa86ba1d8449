//! The search for why a LAN carried no copy: the LAN, and those from which its routers would take one.

ghost use Rattle.std.specs.Prelude.{◌≡◌, ◌<◌, ◌++◌, All, IfOk, IfSome, OnOk, length};
ghost use Rattle.std.specs.List.{filter_map};
ghost use Rattle.mc_forward.specs.ListedTables.{facts};
ghost use Rattle.mc_search.specs.LanProbe.{IsLanProbe, search_in};
ghost use Rattle.mc_search.specs.LanProbe.{IsVisitedLans};
ghost use Rattle.mc_search.specs.SearchLine.{append_new, next_lan, next_lans, lines_of_lan, search_lines};
ghost use Rattle.mc_search.specs.SearchLine.{lans_of_search, search_of};
ghost use Rattle.mc_search.specs.TopologyLans.{interfaces_on_lans};
ghost use Rattle.mc_search.specs.SearchReach.{IsLanSearch, name_excluded_router};

use crate::first_copies::FirstCopies;
use crate::interfaces_of_lans::InterfacesOfLans;
use crate::lan_probe::LanProbe;
use crate::reach::{Reach, reach_of};
use crate::search_line::SearchLine;
use crate::visited_lans::VisitedLans;
use mc_forward::{Event, Flight};
use mc_tables::CacheSummary;
use mc_text::Memory;
use mc_topology::LanNo;
use std::alloc::Global;

/// The result of the search for a missed LAN.
#[derive(Debug, Drop)]
pub struct LanSearch {
    /// Its lines.
    pub lines: Vec<SearchLine>,
    /// How far the packet came among its routers.
    pub reach: Reach,
}

impl LanSearch {
    /// Whether one of its lines, shown or not, says that a router is excluded.
    pub fn names_excluded_router(&self) -> bool
        ensures { result ≡ name_excluded_router self.now.lines.items }
    {
        self.lines
            .iter()
            .any(|line| matches!(line, SearchLine::Excluded { .. }))
    }
}

/// Adds the LANs that these lines lead to.
fn add_next_lans(
    lan_probe: &LanProbe<'_>,
    visited_lans: &mut VisitedLans,
    lines: &[SearchLine],
) -> Result<(), Memory>
    requires lan_probe { IsLanProbe lan_probe.now }
    requires visited_lans { IsVisitedLans (length lan_probe.now.view.now.domain.topology.lans)
        visited_lans.old }
    requires lines { All (λ line. IfSome (next_lan (search_in lan_probe.now) line)
        (λ lan. lan < length lan_probe.now.view.now.domain.topology.lans)) lines.now }
    ensures lans { OnOk result (visited_lans.new.lans.items ≡
        append_new visited_lans.old.lans.items (filter_map (next_lan (search_in lan_probe.now)) lines.now)) }
    ensures visited_lans { OnOk result (IsVisitedLans (length lan_probe.now.view.now.domain.topology.lans)
        visited_lans.new) }
{
    for line in lines {
        if let Some(lan) = lan_probe.next_lan(line) {
            visited_lans.add(lan)?;
        }
    }
    Ok(())
}

/// Searches one LAN: adds its lines, and the LANs that they lead to.
fn search_one_lan(
    lan_probe: &LanProbe<'_>,
    lines_so_far: &mut Vec<SearchLine>,
    visited_lans: &mut VisitedLans,
    lan: LanNo,
) -> Result<(), Memory>
    requires lan_probe { IsLanProbe lan_probe.now }
    requires visited_lans { IsVisitedLans (length lan_probe.now.view.now.domain.topology.lans)
        visited_lans.old }
    requires lan { lan < length lan_probe.now.view.now.domain.topology.lans }
    ensures lines_so_far { OnOk result (lines_so_far.new.items ≡
        lines_so_far.old.items ++ lines_of_lan (search_in lan_probe.now) lan) }
    ensures lans { OnOk result (visited_lans.new.lans.items ≡
        append_new visited_lans.old.lans.items (next_lans (search_in lan_probe.now) lan)) }
    ensures visited_lans { OnOk result (IsVisitedLans (length lan_probe.now.view.now.domain.topology.lans)
        visited_lans.new) }
{
    // This brings the topology's rules into the proof: its limits follow from them.
    let _rules = lan_probe.view.topology();
    let before = lines_so_far.len();
    lan_probe.add_lan_lines(lines_so_far, lan)?;
    add_next_lans(lan_probe, visited_lans, &lines_so_far[before..])
}

/// The lines of a missed LAN and of those that it leads to, and all these LANs.
fn search_lans(
    alloc: Global,
    lan_probe: &LanProbe<'_>,
    missed: LanNo,
) -> Result<(Vec<SearchLine>, VisitedLans), Memory>
    requires lan_probe { IsLanProbe lan_probe.now }
    requires missed { missed < length lan_probe.now.view.now.domain.topology.lans }
    ensures lines { IfOk result (λ found.
        found.0.items ≡ search_lines (search_in lan_probe.now) missed) }
    ensures lans { IfOk result (λ found.
        found.1.lans.items ≡ lans_of_search (search_in lan_probe.now) missed) }
    ensures visited_lans { IfOk result (λ found.
        IsVisitedLans (length lan_probe.now.view.now.domain.topology.lans) found.1) }
{
    let lans = lan_probe.view.lans();
    let mut visited_lans = VisitedLans::new(alloc, lans, missed)?;
    let mut lines_so_far = Vec::new(alloc);
    for position in 0..lans {
        if let Some(lan) = visited_lans.at(position) {
            search_one_lan(lan_probe, &mut lines_so_far, &mut visited_lans, lan)?;
        }
    }
    Ok((lines_so_far, visited_lans))
}

/// The lines of a missed LAN and of those that it leads to, and how far the packet came.
fn search_with_reach(
    alloc: Global,
    lan_probe: &LanProbe<'_>,
    events: &[Event],
    missed: LanNo,
) -> Result<LanSearch, Memory>
    requires lan_probe { IsLanProbe lan_probe.now }
    requires missed { missed < length lan_probe.now.view.now.domain.topology.lans }
    ensures ok { IfOk result (IsLanSearch (search_in lan_probe.now) events.now missed) }
{
    let (lines, visited_lans) = search_lans(alloc, lan_probe, missed)?;
    let reach = reach_of(alloc, lan_probe, visited_lans.lans(), events)?;
    Ok(LanSearch { lines, reach })
}

/// Searches why the LAN `missed` carried no copy in the flight of a packet, by the travel's events.
/// `summary` has the summary of each router's cache, `excluded` a mark for each router, both in the
/// topology's order, and `interfaces` the interfaces of the domain. Routers without a mark aren't
/// excluded. The time is in proportion to the number of LANs and copies, and to the interfaces on the
/// searched LANs and the size of their routers' rows.
///
/// # Errors
///
/// `Memory` if an allocation fails.
pub fn search(
    alloc: Global,
    summary: &[CacheSummary],
    excluded: &[bool],
    interfaces: &InterfacesOfLans,
    flight: &Flight<'_>,
    events: &[Event],
    missed: LanNo,
) -> Result<LanSearch, Memory>
    requires interfaces { interfaces.now ≡ interfaces_on_lans (facts flight.now.domain) }
    requires missed { missed < length flight.now.domain.topology.lans }
    ensures ok { IfOk result (IsLanSearch (search_of flight.now.domain flight.now.flow summary.now
        excluded.now flight.now.flight.carried) events.now missed) }
{
    let view = flight.flow_view();
    let first_copies = FirstCopies::new(alloc, view, flight.copies())?;
    let lan_probe = LanProbe {
        view,
        summary,
        excluded,
        interfaces,
        first_copies: &first_copies,
    };
    search_with_reach(alloc, &lan_probe, events, missed)
}
