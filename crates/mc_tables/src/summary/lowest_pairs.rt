//! Keeps the lowest of many pairs of addresses.

ghost use Rattle.std.specs.Prelude.{◌≡◌, [], OnOk, take};
ghost use Rattle.mc_tables.specs.SummarySoFar.{put_pair};

use mc_text::Addr;
use std::alloc::{AllocError, Global};
use std::marker::Model;

/// The greatest number of pairs that are kept.
const MAX_PAIRS: usize = 20;

/// The lowest of the pairs that were added, ascending and each once. The value in contracts is their
/// list.
#[derive(Debug, Drop)]
pub struct LowestPairs {
    pairs: Vec<(Addr, Addr)>,
}

impl Model for LowestPairs {
    ghost use Rattle.std.specs.Prelude.{ℕ, List, ◌≤◌, length};
    ghost use Rattle.std.specs.List.Sorted.{IsStrictlySortedBy};
    ghost use Rattle.mc_tables.specs.CacheTable.{key_cmp};
    ghost use Rattle.mc_tables.specs.declared.summary.lowest_pairs.TheConstants.{MAX_PAIRS};

    ghost Value = { List (ℕ × ℕ) };

    ghost view = { λ s. s.pairs.items };

    ghost invariant = { λ s. IsStrictlySortedBy key_cmp s.pairs.items × (length s.pairs.items ≤ MAX_PAIRS) };
}

impl LowestPairs {
    /// No pairs.
    pub fn new(alloc: Global) -> LowestPairs
        ensures { result ≡ [] }
    {
        LowestPairs {
            pairs: Vec::new(alloc),
        }
    }

    /// Adds a pair. Most are only compared with the greatest that is kept.
    pub fn add(&mut self, pair: (Addr, Addr)) -> Result<(), AllocError>
        ensures { OnOk result (self.new ≡ take MAX_PAIRS (put_pair pair self.old)) }
    {
        if self.pairs.len() >= MAX_PAIRS && self.pairs[MAX_PAIRS - 1] <= pair {
            return Ok(());
        }
        if let Err(place) = self.pairs.binary_search(&pair) {
            self.pairs.insert(place, pair)?;
            self.pairs.truncate(MAX_PAIRS);
        }
        Ok(())
    }

    /// The pairs that are kept.
    pub fn into_vec(self) -> Vec<(Addr, Addr)>
        ensures { result.items ≡ self }
    {
        let LowestPairs { pairs } = self;
        pairs
    }
}
