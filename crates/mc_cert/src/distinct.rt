//! Distinct trees, found by their entries.

ghost use Rattle.std.specs.Prelude.{◌≡◌, [], ◌<◌, length, map, IfOk, OnOk, OnErr, Some};
ghost use Rattle.mc_cert.specs.Distinct.{find_tree, with_tree};

use crate::reached::Reached;
use std::alloc::{AllocError, Global};
use std::collections::BTreeMap;
use std::marker::Model;
use std::rc::Rc;

/// The distinct trees among those that were added, in the order of first use. In contracts this is their
/// list. An ordered map finds them: a network chooses their entries, so no hash with a fixed seed does.
#[derive(Debug, Drop)]
pub struct DistinctTrees {
    alloc: Global,
    trees: Vec<Rc<Vec<Reached>>>,
    /// The number of each tree among these, counted from 0.
    numbers: BTreeMap<Rc<Vec<Reached>>, u32>,
}

impl Model for DistinctTrees {
    ghost use Rattle.std.specs.Prelude.{List, map};
    ghost use Rattle.mc_cert.specs.Certificate.{Tree};
    ghost use Rattle.mc_cert.specs.Trees.{IsTreeNumberMap};

    ghost Value = { List Tree };

    ghost view = { λ d. map (λ t. t.value.items) d.trees.items };

    ghost invariant = { λ d. IsTreeNumberMap ⟦<Reached as Ord>⟧.cmp (λ t. t.value.items)
        d.numbers (map (λ t. t.value.items) d.trees.items) };
}

impl DistinctTrees {
    /// No trees.
    pub fn new(alloc: Global) -> DistinctTrees
        ensures { result ≡ [] }
    {
        DistinctTrees {
            alloc,
            trees: Vec::new(alloc),
            numbers: BTreeMap::new(alloc),
        }
    }

    /// The trees, in the order of their numbers.
    pub fn trees(&self) -> &[Rc<Vec<Reached>>]
        ensures { map (λ tree. tree.value.items) result.now ≡ self.now }
    {
        &self.trees
    }

    /// The number of a tree, counted from 0, which is added at the end if it is new.
    ///
    /// # Errors
    ///
    /// `AllocError` where an allocation failed. The trees are then unchanged.
    pub fn number_of(&mut self, tree: Vec<Reached>) -> Result<u32, AllocError>
        requires bounded { length self.old < 4096 }
        ensures trees { OnOk result (self.new ≡ with_tree self.old tree.items) }
        ensures number { IfOk result (λ number. find_tree self.new tree.items ≡ Some number) }
        ensures unchanged { OnErr result (self.new ≡ self.old) }
    {
        let tree = Rc::new(self.alloc, tree)?;
        if let Some(number) = self.numbers.get(&tree).copied() {
            return Ok(number);
        }
        let number = self.trees.len() as u32;
        self.trees.reserve(1)?;
        let key = tree.clone()?;
        self.numbers.insert(key, number)?;
        self.trees.push(tree)?;
        Ok(number)
    }
}
