//! Pairs of addresses that several LANs have, such as wants, and which LANs have them.

ghost use Rattle.std.specs.Prelude.{◌≡◌, ◌∷◌, ◌++◌, ℕ, [], List, IfOk, OnOk, length, map, flat_map};
ghost use Rattle.std.specs.List.Sorted.{IsStrictlySortedBy};
ghost use Rattle.mc_tables.specs.CacheTable.{key_cmp};
ghost use Rattle.mc_asked.specs.PairParts.{push_unless_last, with_parts};

use mc_text::{Addr, Memory};
use mc_topology::LanNo;
use std::alloc::{AllocError, Global};
use std::marker::Model;

/// A pair of addresses, and the LANs that have it. Its value in contracts is the pair of both.
#[derive(Debug, Drop)]
pub struct SharedPair {
    pair: (Addr, Addr),
    lans: Vec<LanNo>,
}

impl Model for SharedPair {
    ghost use Rattle.std.specs.Prelude.{ℕ, List};

    ghost Value = { (ℕ × ℕ) × List ℕ };

    ghost view = { λ p. (p.pair, p.lans.items) };
}

impl SharedPair {
    /// The pair.
    pub fn pair(&self) -> &(Addr, Addr)
        ensures { result.now ≡ self.now.0 }
    {
        &self.pair
    }

    /// The LANs that have it, in the topology's order.
    pub fn lans(&self) -> &[LanNo]
        ensures { result.now ≡ self.now.1 }
    {
        &self.lans
    }

    /// Adds a LAN, unless it is the last one already.
    fn add(&mut self, lan: LanNo) -> Result<(), AllocError>
        ensures { OnOk result (self.new ≡ (self.old.0, push_unless_last lan self.old.1)) }
    {
        let is_last = match self.lans.last() {
            Some(last) => *last == lan,
            None => false,
        };
        if !is_last {
            self.lans.push(lan)?;
        }
        Ok(())
    }
}

/// Pairs that no LAN has.
pub(crate) fn without_lans(alloc: Global, pairs: &[(Addr, Addr)]) -> Result<Vec<SharedPair>, Memory>
    ensures { IfOk result (λ shared. shared.items ≡ map (λ pair. (pair, [])) pairs.now) }
{
    let mut shared = Vec::with_capacity(alloc, pairs.len())?;
    for pair in pairs {
        shared.push(SharedPair {
            pair: *pair,
            lans: Vec::new(alloc),
        })?;
    }
    Ok(shared)
}

/// Adds the next LAN to those of its pairs that are among these ascending ones.
pub(crate) fn add_lan(
    shared: &mut Vec<SharedPair>,
    pairs: &[(Addr, Addr)],
    own: &[(Addr, Addr)],
    lan: LanNo,
) -> Result<(), Memory>
    requires sorted { IsStrictlySortedBy key_cmp pairs.now }
    requires count { length shared.old.items ≡ length pairs.now }
    ensures count { OnOk result (length shared.new.items ≡ length pairs.now) }
    ensures added { OnOk result ((parts : List (List (ℕ × ℕ))) → length parts ≡ lan →
        shared.old.items ≡ map (with_parts parts) pairs.now →
        shared.new.items ≡ map (with_parts (parts ++ own.now ∷ [])) pairs.now) }
{
    for pair in own {
        if let Ok(place) = pairs.binary_search(pair) {
            shared[place].add(lan)?;
        }
    }
    Ok(())
}
