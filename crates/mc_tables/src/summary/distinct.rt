//! Whether the keys of rows differ, tested by a hash table and a sort of what collides.

ghost use Rattle.std.specs.Prelude.{◌≡◌, ◌<◌, ◌^◌, true, IfOk, length, map};
ghost use Rattle.std.specs.List.Sorted.{IsStrictlyIncreasing};
ghost use Rattle.mc_tables.specs.Distinct.{AreDistinct, IsPut, mark_of, slot_of};
ghost use Rattle.mc_tables.specs.UnlistedRows.{key_number};

use crate::summary::unlisted_rows::UnlistedRow;
use mc_text::pair_number;
use std::alloc::{AllocError, Global};

/// The greatest number of rows that get four slots each.
const MAX_SLOTTED: usize = 65_536;

/// An odd number, by which a number is multiplied for its slot.
const SLOT_MULTIPLIER: u64 = 11_400_714_819_323_198_485;

/// Another odd number, by which it is multiplied for its mark.
const MARK_MULTIPLIER: u64 = 14_029_467_366_897_019_727;

/// The slot of a number among so many.
fn slot_of(number: u64, slots: usize) -> usize
    requires nonempty { 0 < slots }
    requires bounded { slots < 2 ^ 32 }
    ensures slot { result ≡ slot_of slots number }
    ensures within { result < slots }
{
    let mixed = number.wrapping_mul(SLOT_MULTIPLIER) >> 32;
    ((mixed * slots as u64) >> 32) as usize
}

/// The mark of a number. (It takes half the room of the number, so that more slots stand near the processor.)
fn mark_of(number: u64) -> u32
    ensures { result ≡ mark_of number }
{
    (number.wrapping_mul(MARK_MULTIPLIER) >> 32) as u32
}

/// Marks the slot of a number, or puts it behind the others if there is another mark. Returns whether it
/// is new, as far as its slot shows.
fn put_in_slot(slots: &mut Vec<u32>, others: &mut Vec<u64>, number: u64) -> Result<bool, AllocError>
    requires nonempty { 0 < length slots.old.items }
    requires bounded { length slots.old.items < 2 ^ 32 }
    ensures put { IfOk result (λ new. new ≡ true →
        IsPut slots.old.items others.old.items number slots.new.items others.new.items) }
{
    let slot = slot_of(number, slots.len());
    let mark = mark_of(number);
    let there = slots[slot];
    if there == mark {
        return Ok(false);
    }
    if there == 0 {
        slots[slot] = mark;
    } else {
        others.push(number)?;
    }
    Ok(true)
}

/// Whether each number is less than the next.
fn is_ascending(numbers: &[u64]) -> bool
    ensures { result ≡ true → IsStrictlyIncreasing numbers.now }
{
    numbers.is_sorted_by(|x, y| x < y)
}

/// A row's key as a number.
fn key_number(row: &UnlistedRow) -> u64
    ensures { result ≡ key_number row.now }
{
    let (source, group) = row.0;
    pair_number(source, group)
}

/// Whether no two of the rows have the same key. Most have a slot of their own; the keys of the others are
/// sorted. A key whose mark is 0, which looks like an empty slot, and one that shares slot and mark with
/// another give `false`, though it may be wrong.
pub fn are_keys_distinct(alloc: Global, rows: &[UnlistedRow]) -> Result<bool, AllocError>
    ensures { IfOk result (λ apart. apart ≡ true → AreDistinct (map key_number rows.now)) }
{
    let count = 4 * rows.len().min(MAX_SLOTTED) + 1;
    let mut slots = vec![in alloc; 0; count]?;
    let mut others = Vec::new(alloc);
    for i in 0..rows.len() {
        if !put_in_slot(&mut slots, &mut others, key_number(&rows[i]))? {
            return Ok(false);
        }
    }
    others.sort_unstable();
    Ok(is_ascending(&others))
}
