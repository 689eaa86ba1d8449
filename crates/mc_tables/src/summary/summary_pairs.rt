//! The listed sources and groups, and the keys of the rows for every source that concern them.

ghost use Rattle.std.specs.Prelude.{◌≡◌, ◌↔◌, ℕ, ◌∷◌, Contains, IfOk};
ghost use Rattle.std.specs.FinSet as set;
ghost use Rattle.mc_tables.specs.CacheTable.{key_cmp};
ghost use Rattle.mc_tables.specs.Summary.{keys_for_every_source};

use crate::listed::listed_pairs::ListedPairs;
use mc_text::{Addr, Memory};
use std::alloc::{AllocError, Global};
use std::marker::Model;

/// The listed sources and groups for a `SummaryReader`, each pair once. Clones share them, as those
/// of `ListedPairs` do. The value in contracts is the list of pairs.
#[derive(Debug, Drop)]
pub struct SummaryPairs {
    pairs: ListedPairs,
    // the same pairs for the table, beside those for the summary: cloned here, since beginning a
    // reader can't fail
    pairs_copy: ListedPairs,
    // the source 0.0.0.0 with each of their groups, and with the group 0.0.0.0
    for_every_source: ListedPairs,
}

impl Model for SummaryPairs {
    ghost use Rattle.std.specs.Prelude.{◌≡◌, ℕ, List};
    ghost use Rattle.std.specs.FinSet as set;
    ghost use Rattle.mc_tables.specs.CacheTable.{key_cmp};
    ghost use Rattle.mc_tables.specs.Summary.{keys_for_every_source};

    ghost Value = { List (ℕ × ℕ) };

    ghost view = { λ s. s.pairs };

    ghost invariant = { λ s. (s.pairs_copy ≡ s.pairs)
        × (set.from_list {R = key_cmp} s.for_every_source
        ≡ set.from_list (keys_for_every_source s.pairs)) };
}

impl SummaryPairs {
    /// Lists these sources and groups.
    ///
    /// # Errors
    ///
    /// `Memory` if memory runs out.
    pub fn of(alloc: Global, pairs: &[(Addr, Addr)]) -> Result<SummaryPairs, Memory>
        ensures { IfOk result (λ listed. (pair : ℕ × ℕ) →
            Contains listed pair ↔ Contains pairs.now pair) }
    {
        let for_every_source = ListedPairs::of(alloc, &pairs_for_every_source(alloc, pairs)?)?;
        let pairs = ListedPairs::of(alloc, pairs)?;
        Ok(SummaryPairs {
            pairs_copy: pairs.clone()?,
            pairs,
            for_every_source,
        })
    }

    /// The pairs for the summary, those for the table, and the keys of rows for every source.
    pub(crate) fn into_lists(self) -> (ListedPairs, ListedPairs, ListedPairs)
        ensures pairs { result.0 ≡ self }
        ensures pairs_copy { result.1 ≡ self }
        ensures for_every_source { set.from_list {R = key_cmp} result.2
            ≡ set.from_list (keys_for_every_source self) }
    {
        let SummaryPairs {
            pairs,
            pairs_copy,
            for_every_source,
        } = self;
        (pairs, pairs_copy, for_every_source)
    }
}

/// The clone shares the pairs.
impl Clone for SummaryPairs {
    ghost is_clone = { λ listed copy. copy ≡ listed };

    fn clone(&self) -> Result<SummaryPairs, AllocError> {
        Ok(SummaryPairs {
            pairs: self.pairs.clone()?,
            pairs_copy: self.pairs_copy.clone()?,
            for_every_source: self.for_every_source.clone()?,
        })
    }
}

/// The source 0.0.0.0 with each group of these pairs, and with the group 0.0.0.0.
fn pairs_for_every_source(
    alloc: Global,
    pairs: &[(Addr, Addr)],
) -> Result<Vec<(Addr, Addr)>, Memory>
    ensures { IfOk result (λ keys. keys.items ≡ keys_for_every_source pairs.now) }
{
    let unspecified = Addr::unspecified();
    let mut keys = Vec::with_capacity(alloc, pairs.len())?;
    keys.push((unspecified, unspecified))?;
    for pair in pairs {
        keys.push((unspecified, pair.1))?;
    }
    Ok(keys)
}
