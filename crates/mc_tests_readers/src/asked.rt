//! Tests of what hosts ask for and no flow answers, on two LANs that both have the reports of `filter`:
//! the wants that are left are counted by hand.

ghost use Rattle.std.specs.Prelude.{◌≡◌, IfOk, length, map};
ghost use Rattle.std.specs.List.Sorted.{IsStrictlySortedBy};
ghost use Rattle.mc_tables.specs.CacheTable.{key_cmp};

use crate::filter::REPORTS;
use mc_asked::*;
use mc_filter::Channels;
use mc_igmp::ReportList;
use mc_tables::{Entry, RowFold, VifTable};
use mc_text::{Addr, GroupRange};
use mc_topology::{LanNo, Topology};
use std::alloc::Global;
use std::process::Abort;
use std::test::Fail;

// The source 10.0.0.1 is on the first LAN, and 10.0.0.2 on the second.
const TOPOLOGY: &[u8] = b"\
version = 1\n\
lans = [\"l0\", \"l1\"]\n\
router = [{name = \"r1\"}]\n\
interface = [\n\
{router = \"r1\", device = \"eth0\", lan = \"l0\"},\n\
{router = \"r1\", device = \"eth1\", lan = \"l1\"},\n\
]\n\
source = [{address = \"10.0.0.1\", lan = \"l0\"}, {address = \"10.0.0.2\", lan = \"l1\"}]\n\
flow = [\n\
{source = \"10.0.0.1\", group = \"239.1.2.1\", ttl = 9},\n\
{source = \"10.0.0.1\", group = \"239.1.2.2\", ttl = 9},\n\
]\n";

// The flows of TOPOLOGY, each a source and a group.
fn flows(alloc: Global) -> Result<Vec<(Addr, Addr)>, Fail> {
    let source = Addr::from_octets([10, 0, 0, 1]);
    let mut flows = Vec::new(alloc);
    flows.push((source, Addr::from_octets([239, 1, 2, 1])))?;
    flows.push((source, Addr::from_octets([239, 1, 2, 2])))?;
    Ok(flows)
}

// The groups 239.1.2.8 and 239.1.2.9 are left aside.
fn ignored(alloc: Global) -> Result<Vec<GroupRange>, Fail> {
    let mut ranges = Vec::new(alloc);
    if let Some(range) = GroupRange::parse(b"239.1.2.8/31") {
        ranges.push(range)?;
    }
    Ok(ranges)
}

// What is kept of the wants of a LAN with these reports.
fn wants_of_lan(
    alloc: Global,
    topology: &Topology,
    lan: u32,
    reports: &[u8],
) -> Result<LanWants, Fail> {
    let flows = flows(alloc)?;
    let list = ReportList::read(alloc, reports)?;
    let wants = Channels::of(alloc, &flows)?.wanted(alloc, &list)?;
    let answers = WantAnswers::of(alloc, topology, flows, ignored(alloc)?)?;
    Ok(answers.lan_wants(alloc, LanNo(lan), &list, &wants, false)?)
}

// What is kept of the wants of the two LANs with these reports.
fn wants_of_lans(alloc: Global, first: &[u8], second: &[u8]) -> Result<Vec<LanWants>, Fail>
    ensures { IfOk result (λ lans. length lans.items ≡ 2) }
{
    let topology = Topology::read(alloc, TOPOLOGY)?;
    wants_in_topology(alloc, &topology, first, second)
}

// (The topology is borrowed here, since holding it across steps that may fail takes long to prove.)
fn wants_in_topology(
    alloc: Global,
    topology: &Topology,
    first: &[u8],
    second: &[u8],
) -> Result<Vec<LanWants>, Fail>
    ensures { IfOk result (λ lans. length lans.items ≡ 2) }
{
    let mut lans = Vec::new(alloc);
    lans.push(wants_of_lan(alloc, topology, 0, first)?)?;
    lans.push(wants_of_lan(alloc, topology, 1, second)?)?;
    Ok(lans)
}

// Whether there are two LANs, with so many wants.
fn have_counts(lans: &[LanWants], first: u64, second: u64) -> bool {
    match lans {
        [one, other] => one.count() == first && other.count() == second,
        _ => false,
    }
}

// Whether these are the group and the source with these last numbers; 0 is any source.
fn is_want(pair: &(Addr, Addr), group: u8, source: u8) -> bool {
    let wanted = if source == 0 {
        [0, 0, 0, 0]
    } else {
        [10, 0, 0, source]
    };
    pair.0.octets() == [239, 1, 2, group] && pair.1.octets() == wanted
}

// The lines: the last numbers of group and source, and the LANs.
const LINES: [(u8, u8, &[u32]); 9] = [
    (1, 2, &[0]),
    (1, 3, &[0, 1]),
    (3, 0, &[0, 1]),
    (4, 0, &[0, 1]),
    (5, 0, &[0, 1]),
    (6, 0, &[0, 1]),
    (7, 0, &[0, 1]),
    (10, 1, &[1]),
    (10, 2, &[0]),
];

// Whether these are the LANs with these numbers.
fn are_lans(lans: &[LanNo], numbers: &[u32]) -> bool {
    for (lan, number) in lans.iter().zip(numbers) {
        if lan.0 != *number {
            return false;
        }
    }
    lans.len() == numbers.len()
}

// Whether the lines are those of LINES.
fn are_lines(lines: &[SharedPair]) -> bool {
    for (line, (group, source, lans)) in lines.iter().zip(&LINES) {
        if !is_want(line.pair(), *group, *source) || !are_lans(line.lans(), lans) {
            return false;
        }
    }
    lines.len() == LINES.len()
}

#[test]
fn wants_that_nothing_answers_have_lines(rt: HostRuntime) -> Result<(), Fail> {
    let lans = wants_of_lans(rt.alloc(), REPORTS, REPORTS)?;
    assert!(rt; have_counts(&lans, 8, 7));
    let asked = AskedLines::of(rt.alloc(), &lans, false)?;
    assert!(rt; are_lines(&asked.lines));
    assert!(rt; asked.further == 0);
    Ok(())
}

// EXCLUDE 10.0.0.1 and 10.0.0.2 of 239.1.2.3, and EXCLUDE 10.0.0.2 and 10.0.0.3 of it.
const FIRST_LIST: &[u8] = b"2200d6f40000000102000002ef0102030a0000010a000002\n";

const SECOND_LIST: &[u8] = b"2200d6f20000000102000002ef0102030a0000020a000003\n";

const NO_VIFS: &[u8] = b"Interface      BytesIn  PktsIn  BytesOut PktsOut Flags Local    Remote\n";

// The one want of the two lists with its unadmitted sources.
fn want_of_two_lists(alloc: Global) -> Result<Vec<AskedWant>, Fail>
    ensures { IfOk result (λ wants. IsStrictlySortedBy key_cmp (map (λ w. w.0) wants.items)) }
{
    let lans = wants_of_lans(alloc, FIRST_LIST, SECOND_LIST)?;
    let asked = AskedLines::of(alloc, &lans, false)?;
    let mut sources = UnadmittedSources::of_lines(alloc, &asked.lines)?;
    for (own, reports) in lans.iter().zip(&[FIRST_LIST, SECOND_LIST]) {
        add_list(alloc, &mut sources, own, reports)?;
    }
    Ok(sources.into_wants(alloc)?)
}

// Takes the list with this text, if it is needed.
fn add_list(
    alloc: Global,
    sources: &mut UnadmittedSources,
    own: &LanWants,
    reports: &[u8],
) -> Result<(), Fail> {
    if sources.needs_list(own) {
        let list = ReportList::read(alloc, reports)?;
        sources.add_list(alloc, own, &list)?;
    }
    Ok(())
}

// What a router has for these wants, of which there is one, by an entry without outgoing vifs of this group,
// for the source with this last number, or for every source where that is 0.
fn state_with_row(
    alloc: Global,
    wants: &[AskedWant],
    source: u8,
    group: [u8; 4],
) -> Result<RouterState, Fail>
    requires { IsStrictlySortedBy key_cmp (map (λ w. w.0) wants.now) }
{
    let origin = if source == 0 {
        [0, 0, 0, 0]
    } else {
        [10, 0, 0, source]
    };
    let vifs = VifTable::read(alloc, NO_VIFS)?;
    let mut states = WantStates::new(alloc, &vifs, wants)?;
    let entry = Entry { iif: 0, oifs: &[] };
    states.add(
        &(Addr::from_octets(origin), Addr::from_octets(group)),
        &entry,
    )?;
    let states = states.states(alloc)?;
    match states.as_slice() {
        [state] => Ok(*state),
        _ => Err(Fail::from("not one state")),
    }
}

// The rows: the last number of the source, the last number of the group, and what the router has by it.
const ROWS: [(u8, u8, RouterState); 5] = [
    (1, 3, RouterState::NoneOut),
    (2, 3, RouterState::Nothing),
    (3, 3, RouterState::NoneOut),
    (0, 3, RouterState::EverySource),
    (0, 4, RouterState::Nothing),
];

#[test]
fn sources_that_one_lan_admits_count(rt: HostRuntime) -> Result<(), Fail> {
    let alloc = rt.alloc();
    let wants = want_of_two_lists(alloc)?;
    for (source, group, state) in &ROWS {
        let group = [239, 1, 2, *group];
        assert!(rt; state_with_row(alloc, &wants, *source, group)? == *state);
    }
    let every_group = state_with_row(alloc, &wants, 0, [0, 0, 0, 0])?;
    assert!(rt; every_group == RouterState::EverySource);
    Ok(())
}

#[test]
fn services_have_names(rt: HostRuntime) {
    assert!(rt; service_name(Addr::from_octets([239, 255, 255, 250])) == Some("SSDP"));
    assert!(rt; service_name(Addr::from_octets([224, 0, 1, 129])).is_none());
}
