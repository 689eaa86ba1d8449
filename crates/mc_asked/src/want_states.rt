//! What a router has for each of several wants, row by row.

ghost use Rattle.std.specs.Prelude.{◌≡◌, ◌≤◌, IfOk, length, map};
ghost use Rattle.std.specs.List.Sorted.{IsStrictlyIncreasing, IsStrictlySortedBy};
ghost use Rattle.mc_tables.specs.CacheTable.{EntryValue, key_cmp};
ghost use Rattle.mc_asked.specs.GroupRun.{with_run};
ghost use Rattle.mc_asked.specs.WantStates.{is_among_wants, may_change_states, states_start};
ghost use Rattle.mc_asked.specs.WantStates.{states_with_row, states_with_row_if_want};
ghost use Rattle.mc_asked.specs.WantStates.{states_with_row_if_group, unstated, want_with_row};

use crate::answers::index_of_pairs;
use crate::forwarding::{RouterState, state_with_row};
use crate::group_run::run_of_group;
use crate::wants::has_number;
use mc_tables::{Entry, RowFold, VifTable};
use mc_text::{Addr, Index, Memory, pair_number};
use std::alloc::{AllocError, Global};
use std::marker::Model;

/// A want, a group and a source, and the sources that the filter of none of its LANs admits, ascending. Its
/// value in contracts is the pair of both.
#[derive(Debug, Drop)]
pub struct AskedWant {
    want: (Addr, Addr),
    unadmitted: Vec<Addr>,
}

impl Model for AskedWant {
    ghost use Rattle.std.specs.Prelude.{ℕ, List};
    ghost use Rattle.std.specs.List.Sorted.{IsStrictlyIncreasing};
    ghost use Rattle.mc_asked.specs.ListWants.{Want};

    ghost Value = { Want × List ℕ };

    ghost view = { λ w. (w.want, w.unadmitted.items) };

    ghost invariant = { λ w. IsStrictlyIncreasing w.unadmitted.items };
}

impl AskedWant {
    /// A want with ascending sources.
    pub fn new(want: (Addr, Addr), unadmitted: Vec<Addr>) -> AskedWant
        requires ascending { IsStrictlyIncreasing unadmitted.items }
        ensures { result ≡ (want, unadmitted.items) }
    {
        AskedWant { want, unadmitted }
    }

    /// Before the first row of a router.
    fn unstated(&self) -> Result<StatedWant, AllocError>
        ensures { IfOk result (λ stated. stated ≡ unstated self.now) }
    {
        Ok(StatedWant {
            want: self.want,
            unadmitted: self.unadmitted.clone()?,
            state: RouterState::Nothing,
        })
    }
}

/// A want, and what a router has for it by the rows so far.
#[derive(Debug, Drop)]
pub struct StatedWant {
    want: (Addr, Addr),
    // the sources that the filter of none of its LANs admits, ascending
    unadmitted: Vec<Addr>,
    state: RouterState,
}

impl Model for StatedWant {
    ghost use Rattle.std.specs.List.Sorted.{IsStrictlyIncreasing};
    ghost use Rattle.mc_asked.specs.WantStates.{StatedWantValue};

    ghost Value = { StatedWantValue };

    ghost view = { λ w. record { want = w.want; unadmitted = w.unadmitted.items; state = w.state } };

    ghost invariant = { λ w. IsStrictlyIncreasing w.unadmitted.items };
}

impl StatedWant {
    /// Takes one more resolved row.
    fn add_row(&mut self, vifs: &VifTable, key: &(Addr, Addr), entry: &Entry<'_>)
        ensures { self.new ≡ want_with_row vifs.now key.now entry.now self.old }
    {
        self.state = state_with_row(self.state, vifs, &self.unadmitted, &self.want, key, entry);
    }
}

/// Several wants, ascending and each once, and what a router has for each by the rows so far.
#[derive(Debug, Drop)]
pub struct WantStates<'v> {
    vifs: &'v VifTable,
    // the wants, in the order of `wants`
    keys: Vec<(Addr, Addr)>,
    // and once more, to look quickly whether one is there
    index: Index,
    wants: Vec<StatedWant>,
}

impl<'v> Model for WantStates<'v> {
    ghost use Rattle.std.specs.Prelude.{◌≡◌, map};
    ghost use Rattle.std.specs.List.Sorted.{IsStrictlySortedBy};
    ghost use Rattle.mc_tables.specs.CacheTable.{key_cmp};
    ghost use Rattle.std.specs.Coded.{codes};
    ghost use Rattle.mc_asked.specs.Indexes.{IsIndexOfPairs};
    ghost use Rattle.mc_asked.specs.WantStates.{WantStatesValue, vifs_code};

    ghost Value = { WantStatesValue };

    ghost coded = { Prim.hlevel (codes, vifs_code) };

    ghost view = { λ s. record { vifs = s.vifs.now; wants = s.wants.items } };

    ghost invariant = { λ s. (s.keys.items ≡ map (λ w. w.want) s.wants.items)
        × IsStrictlySortedBy key_cmp s.keys.items
        × IsIndexOfPairs s.keys.items s.index };
}

impl<'v> WantStates<'v> {
    /// Before the first row of a router with these vifs. The wants ascend, and each is there once.
    ///
    /// # Errors
    ///
    /// `Memory` if an allocation is refused.
    pub fn new(
        alloc: Global,
        vifs: &'v VifTable,
        wants: &[AskedWant],
    ) -> Result<WantStates<'v>, Memory>
        requires sorted { IsStrictlySortedBy key_cmp (map (λ words. words.0) wants.now) }
        ensures { IfOk result (λ states. states ≡ states_start vifs.now wants.now) }
    {
        let keys = keys_of(alloc, wants)?;
        let index = index_of_pairs(alloc, &keys)?;
        let wants = unstated_wants(alloc, wants)?;
        Ok(WantStates {
            vifs,
            keys,
            index,
            wants,
        })
    }

    /// What the router has for each of the wants, in their order.
    ///
    /// # Errors
    ///
    /// `Memory` if an allocation is refused.
    pub fn states(&self, alloc: Global) -> Result<Vec<RouterState>, Memory>
        ensures { IfOk result (λ states. states.items ≡ map (λ w. w.state) self.now.wants) }
    {
        let mut states = Vec::with_capacity(alloc, self.wants.len())?;
        for want in &self.wants {
            states.push(want.state)?;
        }
        Ok(states)
    }

    /// Whether one of the wants is this one.
    fn has(&self, want: &(Addr, Addr)) -> bool
        ensures { result ≡ is_among_wants self.now want.now }
    {
        has_number(&self.index, pair_number(want.0, want.1))
    }

    /// Takes one more resolved row for one of the wants, if it is there.
    fn add_at(&mut self, want: &(Addr, Addr), key: &(Addr, Addr), entry: &Entry<'_>)
        ensures { self.new ≡ states_with_row_if_want want.now self.old key.now entry.now }
    {
        if let Ok(place) = self.keys.binary_search(want) {
            self.wants[place].add_row(self.vifs, key, entry);
        }
    }

    /// Takes one more resolved row for each of the wants of a group.
    fn add_to_group(&mut self, group: Addr, key: &(Addr, Addr), entry: &Entry<'_>)
        ensures { self.new ≡ states_with_row_if_group group self.old key.now entry.now }
    {
        let run = run_of_group(&self.keys, group);
        add_to_run(&mut self.wants, run, self.vifs, key, entry);
    }

    /// Takes one more resolved row for each of the wants.
    fn add_to_all(&mut self, key: &(Addr, Addr), entry: &Entry<'_>)
        ensures { self.new ≡ states_with_row self.old key.now entry.now }
    {
        let all = (0, self.wants.len());
        add_to_run(&mut self.wants, all, self.vifs, key, entry);
    }
}

/// Takes one more resolved row for each of the wants from one place up to another.
fn add_to_run(
    wants: &mut Vec<StatedWant>,
    run: (usize, usize),
    vifs: &VifTable,
    key: &(Addr, Addr),
    entry: &Entry<'_>,
)
    requires ordered { run.0 ≤ run.1 }
    requires within { run.1 ≤ length wants.old.items }
    ensures { wants.new.items ≡ with_run (want_with_row vifs.now key.now entry.now) run wants.old.items }
{
    for place in run.0..run.1 {
        wants[place].add_row(vifs, key, entry);
    }
}

impl<'v> RowFold for WantStates<'v> {
    ghost after = { states_with_row };

    ghost concerns = { may_change_states };

    fn concerns(&self, key: &(Addr, Addr)) -> bool {
        let (origin, group) = *key;
        origin.is_unspecified()
            || self.has(&(group, Addr::unspecified()))
            || self.has(&(group, origin))
    }

    fn add(&mut self, key: &(Addr, Addr), entry: &Entry<'_>) -> Result<(), AllocError> {
        let (origin, group) = *key;
        if !origin.is_unspecified() {
            self.add_at(&(group, Addr::unspecified()), key, entry);
            self.add_at(&(group, origin), key, entry);
        } else if group.is_unspecified() {
            self.add_to_all(key, entry);
        } else {
            self.add_to_group(group, key, entry);
        }
        Ok(())
    }
}

/// The wants themselves.
fn keys_of(alloc: Global, wants: &[AskedWant]) -> Result<Vec<(Addr, Addr)>, Memory>
    ensures { IfOk result (λ keys. keys.items ≡ map (λ words. words.0) wants.now) }
{
    let mut keys = Vec::with_capacity(alloc, wants.len())?;
    for want in wants {
        keys.push(want.want)?;
    }
    Ok(keys)
}

/// The wants before the first row.
fn unstated_wants(alloc: Global, wants: &[AskedWant]) -> Result<Vec<StatedWant>, Memory>
    ensures { IfOk result (λ stated. stated.items ≡ map unstated wants.now) }
{
    let mut stated = Vec::with_capacity(alloc, wants.len())?;
    for want in wants {
        stated.push(want.unstated()?)?;
    }
    Ok(stated)
}
