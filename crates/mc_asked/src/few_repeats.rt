//! Numbers without most of their repeats, in room in proportion to those that differ.

ghost use Rattle.std.specs.Prelude.{◌≡◌, ◌<◌, ◌≤◌, ◌↔◌, ◌++◌, ◌∷◌, [], ℕ, Contains, OnOk, get_or, length};
ghost use Rattle.std.specs.Prelude.{true};

use mc_tables::drop_repeats;
use std::alloc::{AllocError, Global};
use std::marker::Model;

/// The greatest count of numbers that are kept with all their repeats: to sort so many takes far longer than
/// to fill the 1 MiB of those that are remembered.
const MAX_WITH_ALL_REPEATS: usize = 16_384;

/// The greatest count of numbers, 2 MiB of them, that are kept with the repeats that weren't found, of which
/// a list of many hosts is full.
const MAX_WITH_REPEATS: usize = 1 << 18;

/// How many recent numbers are remembered at most: a prime, so that numbers that differ in high bits alone
/// have different places.
const MAX_RECENT: usize = 131_071;

/// Numbers, in any order. Its value in contracts is the list of them, of which most are there once.
#[derive(Debug, Drop)]
pub(crate) struct FewRepeats {
    numbers: Vec<u64>,
    // at each place a number of those above, mostly the last that came to it; empty while they are few
    recent: Vec<u64>,
    // the greatest count for which no repeats are dropped
    limit: usize,
}

impl Model for FewRepeats {
    ghost use Rattle.std.specs.Prelude.{ℕ, List, Contains};
    ghost use Rattle.std.specs.List.{All};

    ghost Value = { List ℕ };

    ghost view = { λ s. s.numbers.items };

    ghost invariant = { λ s. All (λ number. Contains s.numbers.items number) s.recent.items };
}

/// The place of a number among the recent ones.
fn place_of(number: u64) -> usize
    ensures { result < 131_071 }
{
    (number % MAX_RECENT as u64) as usize
}

/// Whether the number is at this place.
fn is_number_at(numbers: &[u64], number: u64, place: usize) -> bool
    ensures { result ≡ true → (place < length numbers.now) × (get_or numbers.now place 0 ≡ number) }
{
    numbers.get(place) == Some(&number)
}

/// The next limit, where this many numbers are left: at least twice as many, so that they are sorted seldom.
fn next_limit(count: usize) -> usize
    ensures within { count ≤ result }
    ensures least { 262_144 ≤ result }
{
    MAX_WITH_REPEATS.max(count.saturating_mul(2))
}

impl FewRepeats {
    /// No numbers.
    pub(crate) fn none(alloc: Global) -> FewRepeats
        ensures { result ≡ [] }
    {
        FewRepeats {
            numbers: Vec::new(alloc),
            recent: Vec::new(alloc),
            limit: MAX_WITH_ALL_REPEATS,
        }
    }

    /// Whether the number is remembered. If so, it is among the numbers.
    pub(crate) fn is_recent(&self, number: u64) -> bool
        ensures { result ≡ true → Contains self.now number }
    {
        is_number_at(&self.recent, number, place_of(number))
    }

    /// Remembers one of the numbers.
    fn remember(&mut self, number: u64)
        requires among { Contains self.old number }
        ensures same { self.new ≡ self.old }
    {
        let place = place_of(number);
        if place < self.recent.len() {
            self.recent[place] = number;
        }
    }

    /// Drops the repeats that weren't found. That none is left isn't proved, since what becomes of the
    /// numbers is the same with repeats.
    fn drop_other_repeats(&mut self)
        ensures same { (number : ℕ) → Contains self.new number ↔ Contains self.old number }
    {
        drop_repeats(&mut self.numbers);
        self.limit = next_limit(self.numbers.len());
    }

    /// Remembers numbers from now on: at first one of them at each place.
    fn begin_to_remember(&mut self) -> Result<(), AllocError>
        ensures same { OnOk result (self.new ≡ self.old) }
    {
        if let Some(first) = self.numbers.first() {
            let alloc = *self.numbers.allocator();
            self.recent = vec![in alloc; *first; MAX_RECENT]?;
            self.limit = MAX_WITH_REPEATS;
        }
        Ok(())
    }

    /// Remembers numbers from now on, or, where they are remembered already, drops repeats.
    fn pass_limit(&mut self) -> Result<(), AllocError>
        ensures { OnOk result ((number : ℕ) → Contains self.new number ↔ Contains self.old number) }
    {
        if self.recent.is_empty() {
            self.begin_to_remember()?;
        } else {
            self.drop_other_repeats();
        }
        Ok(())
    }

    /// Adds a number.
    pub(crate) fn push(&mut self, number: u64) -> Result<(), AllocError>
        ensures { OnOk result ((other : ℕ) →
            Contains self.new other ↔ Contains (self.old ++ number ∷ []) other) }
    {
        self.numbers.push(number)?;
        self.remember(number);
        if self.numbers.len() > self.limit {
            self.pass_limit()?;
        }
        Ok(())
    }

    /// The numbers.
    pub(crate) fn into_numbers(self) -> Vec<u64>
        ensures { result.items ≡ self }
    {
        let FewRepeats { numbers, .. } = self;
        numbers
    }
}
