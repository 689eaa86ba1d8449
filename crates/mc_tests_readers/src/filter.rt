//! Tests of source filters that no run of the program covers: their modes and lists, and what a call
//! leaves when memory runs out. `rt try --test --fail-alloc N` refuses the Nth growth: the filter is then
//! as it was before, and the call is repeated.

use mc_filter::*;
use mc_igmp::{Record, ReportList};
use mc_text::{Addr, Memory};
use std::alloc::Global;
use std::process::Abort;
use std::test::Fail;

// Reports of one record each, for the groups 239.1.2.0 to 239.1.2.10 in turn. With A, B and C for
// 10.0.0.1, 10.0.0.2 and 10.0.0.3 they are: none; INCLUDE AB, INCLUDE BC; EXCLUDE AB, EXCLUDE BC;
// EXCLUDE AB, EXCLUDE BC, INCLUDE B; INCLUDE B, EXCLUDE BC, EXCLUDE AB; INCLUDE A, EXCLUDE AB;
// EXCLUDE AB, INCLUDE A; EXCLUDE A, INCLUDE A; INCLUDE A, EXCLUDE A; EXCLUDE AB, type 9 A; INCLUDE BAB.
pub(crate) const REPORTS: &[u8] = b"\
2200d7f60000000101000002ef0102010a0000010a000002\n\
2200d7f40000000101000002ef0102010a0000020a000003\n\
2200d6f50000000102000002ef0102020a0000010a000002\n\
2200d6f30000000102000002ef0102020a0000020a000003\n\
2200d6f40000000102000002ef0102030a0000010a000002\n\
2200d6f20000000102000002ef0102030a0000020a000003\n\
2200e1f60000000101000001ef0102030a000002\n\
2200e1f50000000101000001ef0102040a000002\n\
2200d6f10000000102000002ef0102040a0000020a000003\n\
2200d6f30000000102000002ef0102040a0000010a000002\n\
2200e1f50000000101000001ef0102050a000001\n\
2200d6f20000000102000002ef0102050a0000010a000002\n\
2200d6f10000000102000002ef0102060a0000010a000002\n\
2200e1f40000000101000001ef0102060a000001\n\
2200e0f30000000102000001ef0102070a000001\n\
2200e1f30000000101000001ef0102070a000001\n\
2200e1f20000000101000001ef0102080a000001\n\
2200e0f20000000102000001ef0102080a000001\n\
2200d6ee0000000102000002ef0102090a0000010a000002\n\
2200d9f10000000109000001ef0102090a000001\n\
2200cdea0000000101000003ef01020a0a0000020a0000010a000002\n";

// The filter that the records of each group merge to: I for Include or E for Exclude, and the last numbers
// of the sources.
const FILTERS: &str = "I;I123;E2;E;E;E2;E2;E;E;E12;I12";

// Whether the sources are those with these last numbers.
fn are_sources(sources: &[Addr], digits: &[u8]) -> bool {
    for (source, digit) in sources.iter().zip(digits) {
        if source.octets() != [10, 0, 0, *digit & 15] {
            return false;
        }
    }
    sources.len() == digits.len()
}

// Whether the filter is this one, written as in FILTERS.
fn is_filter(filter: &Filter, wanted: &str) -> bool {
    match wanted.as_bytes() {
        [b'I', digits @ ..] => filter.mode() == Mode::Include
            && are_sources(filter.sources(), digits),
        [b'E', digits @ ..] => filter.mode() == Mode::Exclude
            && are_sources(filter.sources(), digits),
        _ => false,
    }
}

// Whether the filter admits the same of the sources 1 to 4 as this one, written as in FILTERS.
fn admits_as(filter: &Filter, wanted: &str) -> bool {
    let [mode, listed @ ..] = wanted.as_bytes() else {
        return false;
    };
    for last in 1..5u8 {
        let is_wanted = listed.contains(&(b'0' + last)) == (*mode == b'I');
        if filter.admits(Addr::from_octets([10, 0, 0, last])) != is_wanted {
            return false;
        }
    }
    true
}

// The mode and the sources of a filter.
#[derive(Drop)]
struct FilterSnapshot {
    mode: Mode,
    sources: Vec<Addr>,
}

// Merges a record. If memory runs out the filter is as it was before, and the merge is repeated.
fn merge_or_unchanged(
    rt: &impl Abort,
    filter: &mut Filter,
    group_record: &Record<'_>,
    before: &FilterSnapshot,
) -> Result<(), Memory> {
    if filter.merge(group_record).is_ok() {
        return Ok(());
    }
    assert!(rt; filter.mode() == before.mode);
    assert!(rt; filter.sources() == before.sources.as_slice());
    filter.merge(group_record)
}

fn merge_with_retry(
    rt: &impl Abort,
    alloc: Global,
    filter: &mut Filter,
    group_record: &Record<'_>,
) -> Result<(), Memory> {
    let before = FilterSnapshot {
        mode: filter.mode(),
        sources: filter.sources().to_vec(alloc)?,
    };
    merge_or_unchanged(rt, filter, group_record, &before)
}

// The filter of a group's records, merged one after the other.
fn merged_filter(
    rt: &impl Abort,
    alloc: Global,
    list: &ReportList,
    group: Addr,
) -> Result<Filter, Memory> {
    let mut filter = Filter::none(alloc);
    for next_record in list.records() {
        if next_record.group == group {
            merge_with_retry(rt, alloc, &mut filter, &next_record)?;
        }
    }
    Ok(filter)
}

// The filter of a group's records, merged by one call, which is repeated if memory runs out.
fn wants_with_retry(alloc: Global, list: &ReportList, group: Addr) -> Result<Filter, Memory> {
    match wants_of(alloc, list, group) {
        Ok(filter) => Ok(filter),
        Err(Memory) => wants_of(alloc, list, group),
    }
}

// Merges the records of a group, one after the other and by one call.
fn check_group(
    rt: &impl Abort,
    alloc: Global,
    list: &ReportList,
    last: u8,
    wanted: &str,
) -> Result<(), Memory> {
    let group = Addr::from_octets([239, 1, 2, last]);
    let filter = merged_filter(rt, alloc, list, group)?;
    assert!(rt; is_filter(&filter, wanted), "merged, of {last}");
    assert!(rt; admits_as(&filter, wanted), "admitted, of {last}");
    assert!(rt;
        is_filter(&wants_with_retry(alloc, list, group)?, wanted),
        "of {last}"
    );
    Ok(())
}

// Sources and groups that are queried together, in any order and the last one twice: the last numbers of
// the source and of the group, and whether a record admits the source, as FILTERS says. Group 11 has no
// record.
const QUERIES: [([u8; 2], bool); 13] = [
    ([1, 11], false),
    ([2, 10], true),
    ([3, 9], true),
    ([1, 9], false),
    ([1, 5], true),
    ([2, 5], false),
    ([2, 3], true),
    ([2, 2], false),
    ([1, 2], true),
    ([4, 1], false),
    ([3, 1], true),
    ([1, 0], false),
    ([1, 0], false),
];

// The source and the group with these last numbers.
fn pair(last: [u8; 2]) -> (Addr, Addr) {
    let [source, group] = last;
    (
        Addr::from_octets([10, 0, 0, source]),
        Addr::from_octets([239, 1, 2, group]),
    )
}

// Queries one after the other.
fn check_each_query(rt: &impl Abort, list: &ReportList) {
    for (last, wanted) in &QUERIES {
        let (source, group) = pair(*last);
        assert!(rt;
            is_wanted(list.records(), group, source) == *wanted,
            "{wanted}"
        );
    }
}

fn queried_pairs(alloc: Global) -> Result<Vec<(Addr, Addr)>, Memory> {
    let mut pairs = Vec::with_capacity(alloc, QUERIES.len())?;
    for (last, _) in &QUERIES {
        pairs.push(pair(*last))?;
    }
    Ok(pairs)
}

// What one walk over the list finds for these sources and groups.
fn channel_answers(
    alloc: Global,
    pairs: &[(Addr, Addr)],
    list: &ReportList,
) -> Result<Vec<bool>, Memory> {
    Ok(Channels::of(alloc, pairs)?.wanted(alloc, list)?.wanted)
}

// Whether the answers are those of QUERIES.
fn are_expected(channel_answers: &[bool]) -> bool {
    for (answer, (_, wanted)) in channel_answers.iter().zip(&QUERIES) {
        if answer != wanted {
            return false;
        }
    }
    channel_answers.len() == QUERIES.len()
}

// Queries the sources of many groups in one walk over the list, and then none.
fn check_channels(rt: &impl Abort, alloc: Global, list: &ReportList) -> Result<(), Memory> {
    assert!(rt; are_expected(&channel_answers(alloc, &queried_pairs(alloc)?, list)?));
    assert!(rt; channel_answers(alloc, &[], list)?.is_empty());
    Ok(())
}

#[test]
fn merges_after_a_refused_growth(rt: HostRuntime) -> Result<(), Fail> {
    let list = ReportList::read(rt.alloc(), REPORTS)?;
    for (last, wanted) in (0..11).zip(FILTERS.split(';')) {
        check_group(&rt, rt.alloc(), &list, last, wanted)?;
    }
    check_each_query(&rt, &list);
    check_channels(&rt, rt.alloc(), &list)?;
    Ok(())
}

// Reports of one record each, as above: INCLUDE A of group 5, and EXCLUDE A of group 7.
const INCLUDE_A: &[u8] = b"2200e1f50000000101000001ef0102050a000001\n";

const EXCLUDE_A: &[u8] = b"2200e0f30000000102000001ef0102070a000001\n";

// Whether one report may ask for something else than the sources and groups with these last numbers.
fn asks_more(alloc: Global, report: &[u8], channels: &[[u8; 2]]) -> Result<bool, Memory> {
    let Ok(list) = ReportList::read(alloc, report) else {
        return Err(Memory);
    };
    let mut pairs = Vec::new(alloc);
    for last in channels {
        pairs.push(pair(*last))?;
    }
    Ok(Channels::of(alloc, &pairs)?.wanted(alloc, &list)?.asks_more)
}

#[test]
fn knows_lists_that_ask_for_channels_alone(rt: HostRuntime) -> Result<(), Fail> {
    let alloc = rt.alloc();
    assert!(rt; !asks_more(alloc, INCLUDE_A, &[[1, 5]])?);
    assert!(rt; !asks_more(alloc, INCLUDE_A, &[[2, 5], [1, 5], [1, 6]])?);
    assert!(rt; asks_more(alloc, INCLUDE_A, &[[2, 5]])?);
    assert!(rt; asks_more(alloc, INCLUDE_A, &[[1, 6]])?);
    assert!(rt; !asks_more(alloc, EXCLUDE_A, &[[2, 7], [1, 5]])?);
    assert!(rt; asks_more(alloc, EXCLUDE_A, &[[1, 7]])?);
    assert!(rt; asks_more(alloc, EXCLUDE_A, &[[2, 5]])?);
    assert!(rt; !asks_more(alloc, b"", &[[2, 5]])?);
    Ok(())
}
