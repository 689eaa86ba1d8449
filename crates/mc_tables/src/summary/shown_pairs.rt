//! The pairs of addresses that a summary shows: all that were added, or the lowest.

ghost use Rattle.std.specs.Prelude.{◌≡◌, [], OnOk};
ghost use Rattle.mc_tables.specs.SummarySoFar.{with_pair};

use crate::summary::lowest_pairs::LowestPairs;
use crate::summary::pair_order::sorted_without_repeats;
use mc_text::Addr;
use std::alloc::{AllocError, Global};
use std::marker::Model;

/// All pairs that were added, or the lowest of them.
#[derive(Debug, Drop)]
pub struct ShownPairs {
    all: bool,
    // used only if all are kept: in the order in which they were added, until they are sorted at last
    every: Vec<(Addr, Addr)>,
    // used only if the lowest are kept
    lowest: LowestPairs,
}

impl Model for ShownPairs {
    ghost use Rattle.std.specs.Prelude.{if◌then◌else◌};
    ghost use Rattle.mc_tables.specs.Summary.{in_order};
    ghost use Rattle.mc_tables.specs.SummarySoFar.{KeptPairs};

    ghost Value = { KeptPairs };

    ghost view = { λ s. record {
      all = s.all;
      pairs = if s.all then in_order s.every.items else s.lowest;
    } };
}

impl ShownPairs {
    /// No pairs.
    pub fn new(alloc: Global, all: bool) -> ShownPairs
        ensures { result ≡ record { all = all; pairs = [] } }
    {
        ShownPairs {
            all,
            every: Vec::new(alloc),
            lowest: LowestPairs::new(alloc),
        }
    }

    /// Adds a pair.
    pub fn add(&mut self, pair: (Addr, Addr)) -> Result<(), AllocError>
        ensures { OnOk result (self.new ≡ with_pair pair self.old) }
    {
        if self.all {
            self.every.push(pair)?;
            return Ok(());
        }
        self.lowest.add(pair)
    }

    /// The pairs that are kept, ascending and each once.
    pub fn into_vec(self) -> Vec<(Addr, Addr)>
        ensures { result.items ≡ self.pairs }
    {
        let ShownPairs { all, every, lowest } = self;
        if all {
            sorted_without_repeats(every)
        } else {
            lowest.into_vec()
        }
    }
}
