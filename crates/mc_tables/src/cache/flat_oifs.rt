//! Lists of outgoing vifs, all in one vector.

ghost use Rattle.std.specs.Prelude.{◌≡◌, ◌≤◌, ◌<◌, ◌+◌, ◌^◌, [], ◌∷◌, ◌++◌, length, slice_get, Some};
ghost use Rattle.std.specs.Prelude.{IfOk, IsOk, OnErr, OnOk, vec_capacity, vec_len};
ghost use Rattle.mc_tables.specs.FlatRows.{HasRoom};

use crate::cache::entry::Oif;
use std::alloc::{AllocError, Global};
use std::marker::Model;

/// Where the outgoing vifs of a list are among those of all lists, and its head. The head comes last,
/// so that a list with a small one takes eight bytes: fields are laid out in the order written.
#[derive(Clone, Copy, Debug)]
struct FlatList<H: Copy> {
    /// The place of the first outgoing vif.
    start: u32,
    /// How many there are.
    count: u8,
    head: H,
}

/// Adds outgoing vifs behind others. Most lists have one, for which a copy of memory takes longer.
#[inline(always)]
fn push_oifs(all: &mut Vec<Oif>, oifs: &[Oif]) -> Result<(), AllocError>
    ensures items { OnOk result (all.new.items ≡ all.old.items ++ oifs.now) }
    ensures refused { OnErr result (all.new.items ≡ all.old.items) }
    ensures room { vec_len all.old + length oifs.now ≤ vec_capacity all.old → IsOk result }
{
    match oifs {
        [oif] => all.push(*oif)?,
        _ => all.extend_from_slice(oifs)?,
    }
    Ok(())
}

/// Lists of outgoing vifs, each with a head, such as an incoming vif. The value in contracts is the
/// heads with their lists, and for how many more lists and outgoing vifs there is room.
#[derive(Debug, Drop)]
pub struct FlatOifs<H: Copy> {
    lists: Vec<FlatList<H>>,
    // the outgoing vifs of all lists, one list after another
    oifs: Vec<Oif>,
}

impl<H: Copy> Model for FlatOifs<H> {
    ghost use Rattle.std.specs.Prelude.{◌-◌, vec_len, vec_capacity};
    ghost use Rattle.mc_tables.specs.FlatRows.{FlatListsValue, lists_of, AreFlatLists};

    ghost Value = { FlatListsValue H };

    ghost view = { λ s. record {
      lists = lists_of s.lists.items s.oifs.items;
      lists_left = vec_capacity s.lists - vec_len s.lists;
      oifs_left = vec_capacity s.oifs - vec_len s.oifs;
    } };

    ghost invariant = { λ s. AreFlatLists s.lists.items s.oifs.items };
}

impl<H: Copy> FlatOifs<H> {
    /// No lists.
    pub fn new(alloc: Global) -> FlatOifs<H>
        ensures { result.lists ≡ [] }
    {
        FlatOifs {
            lists: Vec::new(alloc),
            oifs: Vec::new(alloc),
        }
    }

    /// No lists, and room for so many.
    ///
    /// # Errors
    ///
    /// `AllocError` if memory runs out.
    pub fn with_capacity(alloc: Global, lists: usize) -> Result<FlatOifs<H>, AllocError>
        ensures none { IfOk result (λ s. s.lists ≡ []) }
        ensures room { IfOk result (λ s. lists ≤ s.lists_left) }
    {
        Ok(FlatOifs {
            lists: Vec::with_capacity(alloc, lists)?,
            oifs: Vec::new(alloc),
        })
    }

    /// How many lists there are.
    pub fn len(&self) -> usize
        ensures { result ≡ length self.now.lists }
    {
        self.lists.len()
    }

    /// Adds a list behind the others: at most 32 outgoing vifs, and at most 65,536 lists.
    ///
    /// # Errors
    ///
    /// `AllocError` if there is no room and memory runs out.
    #[inline(always)]
    #[tactic(auto, using(crate::proofs::FlatLemmas::lists_of_push))]
    pub fn push(&mut self, head: H, oifs: &[Oif]) -> Result<(), AllocError>
        requires count { length self.old.lists < 65536 }
        requires few { length oifs.now ≤ 32 }
        ensures lists { OnOk result (self.new.lists ≡ self.old.lists ++ (head, oifs.now) ∷ []) }
        ensures refused { OnErr result (self.new.lists ≡ self.old.lists) }
        ensures room { HasRoom self.old (length oifs.now) → IsOk result }
    {
        self.lists.reserve(1)?;
        let start = self.oifs.len() as u32;
        push_oifs(&mut self.oifs, oifs)?;
        self.lists.push(FlatList {
            start,
            count: oifs.len() as u8,
            head,
        })?;
        Ok(())
    }

    /// The head and the list with this number.
    pub fn at(&self, number: u32) -> (H, &[Oif])
        requires known { number < length self.now.lists }
        ensures item { slice_get self.now.lists number ≡ Some (result.0, result.1.now) }
    {
        let list = &self.lists[number as usize];
        let start = list.start as usize;
        let oifs = &self.oifs[start..start + usize::from(list.count)];
        (list.head, oifs)
    }
}
