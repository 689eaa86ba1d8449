//! The number of each listed source and group that has an entry in a cache.

ghost use Rattle.std.specs.Prelude.{◌≡◌, ℕ, [], ◌<◌, ◌≤◌, ◌++◌, IfNone, IfOk, IfSome, OnErr, OnOk};
ghost use Rattle.std.specs.Prelude.{Some, false};
ghost use Rattle.std.specs.Prelude.{get_or, length, replicate};
ghost use Rattle.std.specs.FinSet as set;
ghost use Rattle.std.specs.List.{IsDistinct};
ghost use Rattle.mc_tables.specs.CacheNumbers.{IsNumberInserted, number_of_key, decoded_number};
ghost use Rattle.mc_tables.specs.CacheNumbers.{IsVacancyFor, lists_with_new};
ghost use Rattle.mc_tables.specs.CacheTable.{same_key};

use crate::cache::{FlatOifs, Oif};
use crate::listed::listed_pairs::ListedPairs;
use mc_text::Addr;
use std::alloc::{AllocError, Global};
use std::marker::Model;

/// Whether a source and a group got a number, or why not.
#[derive(Clone, Copy, Debug, PartialEq, Eq)]
pub enum Inserted {
    /// They got it.
    New,
    /// They had one already.
    Repeated,
    /// They aren't listed.
    Unlisted,
}

/// Where the number of a source and a group may be stored, or why it can't.
#[derive(Clone, Copy, Debug)]
enum Vacancy {
    /// At this place, which is theirs and has no number.
    At(usize),
    /// They have a number already.
    Repeated,
    /// They aren't listed.
    Unlisted,
}

/// The listed sources and groups, and the number of each that has one.
#[derive(Debug, Drop)]
pub struct ListedEntryNumbers {
    pairs: ListedPairs,
    // at the place of a pair its number plus one, or 0 if it has none; a pair past the end has none
    numbers: Vec<u32>,
}

impl Model for ListedEntryNumbers {
    ghost use Rattle.std.specs.Prelude.{Some};
    ghost use Rattle.std.specs.Coded.{codes};
    ghost use Rattle.std.specs.FinSet as set;
    ghost use Rattle.mc_tables.specs.CacheNumbers.{EntryNumbersValue, numbers_at_places};
    ghost use Rattle.mc_tables.specs.ListedRows.{key_set_code};

    ghost Value = { EntryNumbersValue };

    ghost coded = { Prim.hlevel (codes, key_set_code) };

    ghost view = { λ s. record {
      listed = Some (set.from_list s.pairs);
      numbers = numbers_at_places s.pairs s.numbers.items;
    } };
}

impl ListedEntryNumbers {
    /// No numbers. These sources and groups are listed.
    pub fn of(alloc: Global, pairs: ListedPairs) -> ListedEntryNumbers
        ensures listed { result.listed ≡ Some (set.from_list pairs) }
        ensures numbers { result.numbers ≡ [] }
    {
        ListedEntryNumbers {
            pairs,
            numbers: Vec::new(alloc),
        }
    }

    /// The number of a source and a group. `hint` is their place, if it is known, and is set to it.
    pub fn number_with_hint(&self, key: &(Addr, Addr), hint: &mut usize) -> Option<u32>
        ensures { result ≡ number_of_key self.now.numbers key.now }
    {
        let place = self.pairs.place_with_hint(key, *hint)?;
        *hint = place;
        number_at_place(&self.numbers, place)
    }

    /// Gives a source and a group the number 0, if they are listed and don't have one: for who asks only
    /// which have one.
    pub fn add(&mut self, key: &(Addr, Addr)) -> Result<Inserted, AllocError>
        ensures numbered { IfOk result (IsNumberInserted key.now 0 self.old self.new) }
        ensures refused { OnErr result (self.new ≡ self.old) }
    {
        match vacancy_for(&self.pairs, &mut self.numbers, key)? {
            Vacancy::At(place) => {
                self.numbers[place] = 1;
                Ok(Inserted::New)
            }
            Vacancy::Repeated => Ok(Inserted::Repeated),
            Vacancy::Unlisted => Ok(Inserted::Unlisted),
        }
    }

    /// Adds an entry behind the others and gives its number to its source and group, if they are listed
    /// and don't have one.
    #[inline(always)]
    pub fn add_entry(
        &mut self,
        key: &(Addr, Addr),
        entries: &mut FlatOifs<u8>,
        iif: u8,
        oifs: &[Oif],
    ) -> Result<Inserted, AllocError>
        requires room { length entries.old.lists < 65536 }
        requires at_most_32 { length oifs.now ≤ 32 }
        ensures numbered { IfOk result
            (IsNumberInserted key.now (length entries.old.lists) self.old self.new) }
        ensures lists { IfOk result (λ inserted. entries.new.lists
            ≡ lists_with_new entries.old.lists (iif, oifs.now) inserted) }
        ensures refused { OnErr result (self.new ≡ self.old) }
        ensures same { OnErr result (entries.new.lists ≡ entries.old.lists) }
    {
        match vacancy_for(&self.pairs, &mut self.numbers, key)? {
            Vacancy::At(place) => {
                let number = entries.len() as u32;
                entries.push(iif, oifs)?;
                self.numbers[place] = number + 1;
                Ok(Inserted::New)
            }
            Vacancy::Repeated => Ok(Inserted::Repeated),
            Vacancy::Unlisted => Ok(Inserted::Unlisted),
        }
    }
}

/// Where the number of a source and a group may be stored. Places without a number may be added.
#[inline(always)]
fn vacancy_for(
    pairs: &ListedPairs,
    numbers: &mut Vec<u32>,
    key: &(Addr, Addr),
) -> Result<Vacancy, AllocError>
    ensures more { (zeros : ℕ) × (numbers.new.items ≡ numbers.old.items ++ replicate zeros 0) }
    ensures vacancy { IfOk result (IsVacancyFor pairs.now numbers.new.items key.now) }
    ensures distinct { IsDistinct same_key pairs.now }
{
    let Some(place) = pairs.place_of(key) else {
        return Ok(Vacancy::Unlisted);
    };
    ensure_places(numbers, pairs.count())?;
    if numbers[place] != 0 {
        return Ok(Vacancy::Repeated);
    }
    Ok(Vacancy::At(place))
}

/// The number at a place.
fn number_at_place(numbers: &[u32], place: usize) -> Option<u32>
    ensures { result ≡ decoded_number (get_or numbers.now place 0) }
{
    let next = *numbers.get(place)?;
    if next == 0 {
        return None;
    }
    Some(next - 1)
}

/// Adds places without a number until there are so many.
fn ensure_places(numbers: &mut Vec<u32>, count: usize) -> Result<(), AllocError>
    ensures more { (zeros : ℕ) × (numbers.new.items ≡ numbers.old.items ++ replicate zeros 0) }
    ensures room { OnOk result (count ≤ length numbers.new.items) }
{
    if numbers.len() < count {
        numbers.resize(count, 0)?;
    }
    Ok(())
}
