//! An index of numbers, for repeated lookups.

ghost use Rattle.std.specs.Prelude.{◌≡◌, ◌≢◌, ◌↔◌, ℕ, ◌<◌, Contains, IfOk, IfNone, IfSome};
ghost use Rattle.std.specs.Prelude.{length, get_or, true};
ghost use Rattle.std.specs.List.Sorted.{IsStrictlyIncreasing};
ghost use Rattle.mc_text.specs.Index.{AreMarked, index_slot};

use crate::memory::Memory;
use std::alloc::Global;
use std::marker::Model;

/// The multiplier of the hash: 2^64 divided by the golden ratio (D. E. Knuth, The Art of Computer
/// Programming, volume 3, section 6.4).
const HASH_MULTIPLIER: u64 = 0x9E37_79B9_7F4A_7C15;

/// The number of slots for each number.
const SLOTS_PER_NUMBER: usize = 32;

/// The greatest number of slots: as many as 16 bits can number.
const MAX_SLOTS: usize = 65_536;

/// The slot of a number, among `slots`.
fn index_slot(number: u64, slots: usize) -> usize
    requires positive { 0 < slots }
    ensures within { result < slots }
    ensures value { result ≡ index_slot slots number }
{
    (number.wrapping_mul(HASH_MULTIPLIER) >> 48) as usize & (slots - 1)
}

/// The number of slots for `count` numbers: a power of two.
fn slots_for(count: usize) -> usize
    ensures { 0 < result }
{
    count
        .saturating_mul(SLOTS_PER_NUMBER)
        .clamp(SLOTS_PER_NUMBER, MAX_SLOTS)
        .next_power_of_two()
}

/// The mark of a place, which is never 0: one more than the place modulo 65,535. (In two bytes, so that
/// the marks of 4,096 numbers take 128 KiB.)
fn mark_of_place(place: usize) -> u16
    ensures { result ≢ 0 }
{
    (place % 65_535) as u16 + 1
}

/// The slots, with a mark at that of each number. If two numbers share a slot, the later one marks it.
fn marks_of_places(alloc: Global, numbers: &[u64]) -> Result<Vec<u16>, Memory>
    ensures some { IfOk result (λ marks. 0 < length marks.items) }
    ensures each { IfOk result (λ marks. AreMarked marks.items numbers.now) }
{
    let slots = slots_for(numbers.len());
    let mut marks = vec![in alloc; 0; slots]?;
    for place in 0..numbers.len() {
        marks[index_slot(numbers[place], slots)] = mark_of_place(place);
    }
    Ok(marks)
}

/// Distinct numbers in ascending order, with a guess of the place of each. A guess is checked before
/// the binary search, so that most lookups take one step, and each takes `log n` steps at most,
/// whatever the numbers are. Its value in contracts is the list of the numbers.
#[derive(Debug, Drop)]
pub struct Index {
    numbers: Vec<u64>,
    // for each slot the mark of the place of a number of that slot, or 0 if there is none
    marks: Vec<u16>,
}

impl Model for Index {
    ghost use Rattle.std.specs.Prelude.{ℕ, List};
    ghost use Rattle.mc_text.specs.Index.{IsIndex};

    ghost Value = { List ℕ };

    ghost view = { λ s. s.numbers.items };

    ghost invariant = { λ s. IsIndex s.numbers.items s.marks.items };
}

impl Index {
    /// An index of these numbers, which may be in any order and repeat.
    ///
    /// # Errors
    ///
    /// `Memory` if an allocation is refused.
    pub fn of(alloc: Global, mut numbers: Vec<u64>) -> Result<Index, Memory>
        ensures { IfOk result (λ index. (number : ℕ) →
            Contains index number ↔ Contains numbers.items number) }
    {
        numbers.sort_unstable();
        numbers.dedup();
        let marks = marks_of_places(alloc, &numbers)?;
        Ok(Index { numbers, marks })
    }

    /// The number of distinct numbers.
    pub fn count(&self) -> usize
        ensures { result ≡ length self.now }
    {
        self.numbers.len()
    }

    /// Whether the number is at this place.
    fn is_number_at(&self, number: u64, place: usize) -> bool
        ensures place { result ≡ true →
            (place < length self.now) × (get_or self.now place 0 ≡ number) }
        ensures ascending { IsStrictlyIncreasing self.now }
    {
        self.numbers.get(place) == Some(&number)
    }

    /// The place of the number among all in ascending order, counted from 0.
    pub fn place_of(&self, number: u64) -> Option<usize>
        ensures found { IfSome result (λ place.
            (place < length self.now) × (get_or self.now place 0 ≡ number)) }
        ensures none { IfNone result (¬ Contains self.now number) }
        ensures ascending { IsStrictlyIncreasing self.now }
    {
        let mark = self.marks[index_slot(number, self.marks.len())];
        if mark == 0 {
            return None;
        }
        let guess = (mark - 1) as usize;
        if self.is_number_at(number, guess) {
            return Some(guess);
        }
        self.numbers.binary_search(&number).ok()
    }

    /// As `place_of`, with a guess of the place. A right guess saves the search.
    pub fn place_with_hint(&self, number: u64, hint: usize) -> Option<usize>
        ensures found { IfSome result (λ place.
            (place < length self.now) × (get_or self.now place 0 ≡ number)) }
        ensures none { IfNone result (¬ Contains self.now number) }
        ensures ascending { IsStrictlyIncreasing self.now }
    {
        if self.is_number_at(number, hint) {
            return Some(hint);
        }
        self.place_of(number)
    }
}
