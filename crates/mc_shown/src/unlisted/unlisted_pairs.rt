//! The pairs of a group and a source that are no flow's: the shown ones, and how many further rows exist.

ghost use Rattle.std.specs.Prelude.{◌≡◌, ◌≤◌, ◌*◌, ◌+◌, [], IfOk, OnOk, length, map, slice_get};
ghost use Rattle.std.specs.Prelude.{sum_by};
ghost use Rattle.std.specs.List.Sorted.{IsStrictlySortedBy};
ghost use Rattle.mc_tables.specs.CacheTable.{key_cmp};
ghost use Rattle.mc_tables.specs.Summary.{in_order, shown_pairs};
ghost use Rattle.mc_asked.specs.PairParts.{push_unless_last};
ghost use Rattle.mc_shown.specs.UnlistedPairs.{AreUnlistedPairs, with_routers};
ghost use Rattle.mc_shown.specs.UnlistedPairs.{with_routers_below};
ghost use Rattle.mc_shown.specs.UnlistedText.{shown_unlisted_pairs, pairs_in, count_unlisted_rows};

use mc_tables::{CacheSummary, sorted_without_repeats};
use mc_text::{Addr, Memory};
use mc_topology::{RouterNo, Topology};
use std::alloc::Global;
use std::marker::Model;

/// The greatest number of pairs that are shown, unless all are.
const MAX_SHOWN_PAIRS: usize = 20;

/// A pair of a group and a source that is no flow's, and the routers that have a row of it. Its value in
/// contracts is the pair of both.
#[derive(Debug, Drop)]
pub struct UnlistedPair {
    group: Addr,
    source: Addr,
    routers: Vec<RouterNo>,
}

impl Model for UnlistedPair {
    ghost use Rattle.std.specs.Prelude.{ℕ, List};

    ghost Value = { (ℕ × ℕ) × List ℕ };

    ghost view = { λ p. ((p.group, p.source), p.routers.items) };
}

impl UnlistedPair {
    /// The group.
    pub fn group(&self) -> Addr
        ensures { result ≡ self.now.0.0 }
    {
        self.group
    }

    /// The source.
    pub fn source(&self) -> Addr
        ensures { result ≡ self.now.0.1 }
    {
        self.source
    }

    /// The routers, in the topology's order.
    pub fn routers(&self) -> &[RouterNo]
        ensures { result.now ≡ self.now.1 }
    {
        &self.routers
    }

    /// Adds a router, unless it is the last one already.
    fn add(&mut self, router: RouterNo) -> Result<(), Memory>
        ensures { OnOk result (self.new ≡ (self.old.0, push_unless_last router self.old.1)) }
    {
        let is_last = match self.routers.last() {
            Some(last) => *last == router,
            None => false,
        };
        if !is_last {
            self.routers.push(router)?;
        }
        Ok(())
    }
}

/// The shown pairs of those that are no flow's, and how many further rows there are.
#[derive(Debug, Drop)]
pub struct UnlistedPairs {
    /// The pairs, by group and then by source.
    pub shown: Vec<UnlistedPair>,
    /// How many resolved rows there are of other pairs that are no flow's.
    pub further: u128,
}

/// These pairs in ascending order, each once: all, or the lowest 20.
fn shown_pairs(pairs: Vec<(Addr, Addr)>, all: bool) -> Vec<(Addr, Addr)>
    ensures { result.items ≡ shown_pairs all (in_order pairs.items) }
{
    let mut pairs = sorted_without_repeats(pairs);
    if all {
        return pairs;
    }
    pairs.truncate(MAX_SHOWN_PAIRS);
    pairs
}

/// The pairs of all routers that are shown.
fn shown_unlisted_pairs(
    alloc: Global,
    summary: &[CacheSummary],
    all: bool,
) -> Result<Vec<(Addr, Addr)>, Memory>
    ensures { IfOk result (λ pairs. pairs.items ≡ shown_unlisted_pairs all summary.now) }
{
    let mut pairs = Vec::new(alloc);
    for own in summary {
        pairs.extend_from_slice(own.lowest_unlisted())?;
    }
    Ok(shown_pairs(pairs, all))
}

/// Pairs without routers.
fn without_routers(alloc: Global, pairs: &[(Addr, Addr)]) -> Result<Vec<UnlistedPair>, Memory>
    ensures { IfOk result (λ shown. shown.items ≡ map (λ pair. (pair, [])) pairs.now) }
{
    let mut shown = Vec::new(alloc);
    for (group, source) in pairs {
        shown.push(UnlistedPair {
            group: *group,
            source: *source,
            routers: Vec::new(alloc),
        })?;
    }
    Ok(shown)
}

/// The unlisted pairs that the summary of a router's cache has.
fn pairs_in<'n>(summary: &'n [CacheSummary], router: RouterNo) -> &'n [(Addr, Addr)]
    ensures { result.now ≡ pairs_in (slice_get summary.now router) }
{
    match summary.get(router.0 as usize) {
        Some(own) => own.lowest_unlisted(),
        None => &[],
    }
}

/// Adds a router to those of the pairs that the summary of its cache has.
fn add_router(
    shown: &mut Vec<UnlistedPair>,
    pairs: &[(Addr, Addr)],
    summary: &[CacheSummary],
    router: RouterNo,
) -> Result<(), Memory>
    requires sorted { IsStrictlySortedBy key_cmp pairs.now }
    requires shown { shown.old.items ≡ map (with_routers_below summary.now router) pairs.now }
    ensures ok { OnOk result (shown.new.items ≡ map (with_routers_below summary.now (router + 1)) pairs.now) }
{
    let own = pairs_in(summary, router);
    for pair in own {
        if let Ok(place) = pairs.binary_search(pair) {
            shown[place].add(router)?;
        }
    }
    Ok(())
}

/// These ascending pairs, each with its routers.
fn with_routers(
    alloc: Global,
    topology: &Topology,
    summary: &[CacheSummary],
    pairs: &[(Addr, Addr)],
) -> Result<Vec<UnlistedPair>, Memory>
    requires sorted { IsStrictlySortedBy key_cmp pairs.now }
    ensures ok { IfOk result (λ shown.
        shown.items ≡ map (with_routers topology.now summary.now) pairs.now) }
{
    let mut shown = without_routers(alloc, pairs)?;
    for number in 0..topology.routers() {
        add_router(&mut shown, pairs, summary, RouterNo(number))?;
    }
    Ok(shown)
}

/// How many rows these pairs have.
fn count_rows_of_pairs(shown: &[UnlistedPair]) -> u128
    ensures { result ≡ sum_by (λ pair. length pair.1) shown.now }
{
    let mut rows = 0;
    for pair in shown {
        rows += pair.routers.len() as u128;
    }
    rows
}

/// How many unlisted rows the summaries of all caches count.
fn count_unlisted_rows(summary: &[CacheSummary]) -> u128
    ensures rows { result ≡ count_unlisted_rows summary.now }
    ensures bounded { result ≤ length summary.now * 4294967295 }
{
    let mut rows = 0;
    for own in summary {
        rows += u128::from(own.unlisted_count());
    }
    rows
}

impl UnlistedPairs {
    /// The unlisted pairs of a topology's routers: all pairs that the summaries of their caches have, or
    /// the 20 lowest. `summary` has the summary of each router's cache, in the topology's order. The time
    /// is in proportion to n log n for n pairs in all summaries.
    ///
    /// # Errors
    ///
    /// `Memory` if an allocation fails.
    pub fn new(
        alloc: Global,
        topology: &Topology,
        summary: &[CacheSummary],
        all: bool,
    ) -> Result<UnlistedPairs, Memory>
        ensures { IfOk result (AreUnlistedPairs all topology.now summary.now) }
    {
        let pairs = shown_unlisted_pairs(alloc, summary, all)?;
        let shown = with_routers(alloc, topology, summary, &pairs)?;
        let further = count_unlisted_rows(summary).saturating_sub(count_rows_of_pairs(&shown));
        Ok(UnlistedPairs { shown, further })
    }
}
