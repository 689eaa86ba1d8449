//! The listed sources and groups, and the place of each in their list.

ghost use Rattle.std.specs.Prelude.{◌≡◌, ◌↔◌, ℕ, Contains, IfNone, IfOk, IfSome, false, length};
ghost use Rattle.std.specs.List.{IsDistinct, list_any};
ghost use Rattle.mc_tables.specs.CacheNumbers.{IsPlaceOf};
ghost use Rattle.mc_tables.specs.CacheTable.{same_key};

use mc_text::{Addr, Index, Memory, pair_number, pair_numbers};
use std::alloc::{AllocError, Global};
use std::marker::Model;
use std::rc::Rc;

/// The listed sources and groups, each pair once, which the readers of many caches share. The value in
/// contracts is the list of pairs.
#[derive(Debug, Drop)]
pub struct ListedPairs {
    index: Rc<Index>,
}

impl Model for ListedPairs {
    ghost use Rattle.std.specs.Prelude.{ℕ, List, map};
    ghost use Rattle.mc_text.specs.Pair.{pair_of};

    ghost Value = { List (ℕ × ℕ) };

    ghost view = { λ s. map pair_of s.index.value };
}

impl ListedPairs {
    /// Lists these sources and groups.
    ///
    /// # Errors
    ///
    /// `Memory` if memory runs out.
    pub fn of(alloc: Global, pairs: &[(Addr, Addr)]) -> Result<ListedPairs, Memory>
        ensures { IfOk result (λ listed. (pair : ℕ × ℕ) →
            Contains listed pair ↔ Contains pairs.now pair) }
    {
        let index = Index::of(alloc, pair_numbers(alloc, pairs)?)?;
        Ok(ListedPairs {
            index: Rc::new(alloc, index)?,
        })
    }

    /// How many pairs there are.
    pub(crate) fn count(&self) -> usize
        ensures { result ≡ length self.now }
    {
        self.index.count()
    }

    /// The place of a source and a group in the list.
    pub(crate) fn place_of(&self, key: &(Addr, Addr)) -> Option<usize>
        ensures found { IfSome result (IsPlaceOf self.now key.now) }
        ensures none { IfNone result (list_any (same_key key.now) self.now ≡ false) }
        ensures distinct { IsDistinct same_key self.now }
    {
        self.index.place_of(pair_number(key.0, key.1))
    }

    /// Like `place_of`. A right `hint` saves a search.
    pub(crate) fn place_with_hint(&self, key: &(Addr, Addr), hint: usize) -> Option<usize>
        ensures found { IfSome result (IsPlaceOf self.now key.now) }
        ensures none { IfNone result (list_any (same_key key.now) self.now ≡ false) }
        ensures distinct { IsDistinct same_key self.now }
    {
        self.index.place_with_hint(pair_number(key.0, key.1), hint)
    }
}

/// The clone shares the pairs.
impl Clone for ListedPairs {
    ghost is_clone = { λ listed copy. copy ≡ listed };

    fn clone(&self) -> Result<ListedPairs, AllocError> {
        Ok(ListedPairs {
            index: self.index.clone()?,
        })
    }
}
