//! A source and a group as one number, which is faster to compare and to look up than the pair.

ghost use Rattle.std.specs.Prelude.{◌≡◌, ◌↔◌, ℕ, Contains, IfOk, map};
ghost use Rattle.mc_text.specs.Pair.{pair_number, pair_of};

use crate::index::Index;
use crate::memory::Memory;
use crate::text::Addr;
use std::alloc::Global;

/// The number of a source and a group, with the source in the upper half. Numbers are ordered as the
/// pairs are, by source and then by group.
pub fn pair_number(source: Addr, group: Addr) -> u64
    ensures number { result ≡ pair_number (source, group) }
    ensures pair { pair_of result ≡ (source, group) }
{
    u64::from(source.to_bits()) * (1 << 32) + u64::from(group.to_bits())
}

/// The source and the group that a number stands for.
pub fn pair_of_number(number: u64) -> (Addr, Addr)
    ensures { result ≡ pair_of number }
{
    let source = Addr::from_bits((number >> 32) as u32);
    let group = Addr::from_bits((number % (1 << 32)) as u32);
    (source, group)
}

/// The number of each pair, in their order.
///
/// # Errors
///
/// `Memory` if an allocation is refused.
pub fn pair_numbers(alloc: Global, pairs: &[(Addr, Addr)]) -> Result<Vec<u64>, Memory>
    ensures numbers { IfOk result (λ numbers. numbers.items ≡ map pair_number pairs.now) }
    ensures pairs { IfOk result (λ numbers. map pair_of numbers.items ≡ pairs.now) }
{
    let mut numbers = Vec::with_capacity(alloc, pairs.len())?;
    for pair in pairs {
        numbers.push(pair_number(pair.0, pair.1))?;
    }
    Ok(numbers)
}

/// The group of each pair of a source and a group, as a number, in their order.
fn group_numbers(alloc: Global, pairs: &[(Addr, Addr)]) -> Result<Vec<u64>, Memory>
    ensures { IfOk result (λ numbers. numbers.items ≡ map (λ pair. pair.1) pairs.now) }
{
    let mut numbers = Vec::with_capacity(alloc, pairs.len())?;
    for pair in pairs {
        numbers.push(u64::from(pair.1.to_bits()))?;
    }
    Ok(numbers)
}

/// An index of the groups of pairs of a source and a group.
///
/// # Errors
///
/// `Memory` if an allocation is refused.
pub fn index_of_groups(alloc: Global, pairs: &[(Addr, Addr)]) -> Result<Index, Memory>
    ensures { IfOk result (λ groups. (group : ℕ) →
        Contains groups group ↔ Contains (map (λ pair. pair.1) pairs.now) group) }
{
    let numbers = group_numbers(alloc, pairs)?;
    Index::of(alloc, numbers)
}
