//! Sets of addresses, as ascending lists.

ghost use Rattle.std.specs.Prelude.{◌≡◌, ◌++◌, ◌&&◌, ℕ, not, OnOk};
ghost use Rattle.std.specs.List.Sorted.{IsStrictlyIncreasing};
ghost use Rattle.mc_filter.specs.SourceFilter.{has};

use mc_igmp::Sources;
use mc_text::Addr;
use std::alloc::AllocError;

/// Appends the sources of a record.
pub(crate) fn append_sources(
    addresses: &mut Vec<Addr>,
    sources: &Sources<'_>,
) -> Result<(), AllocError>
    ensures { OnOk result (addresses.new.items ≡ addresses.old.items ++ sources.now) }
{
    for source in sources.iter() {
        addresses.push(source)?;
    }
    Ok(())
}

/// Sorts addresses in ascending order and removes duplicates.
pub(crate) fn sort_and_dedup(addresses: &mut Vec<Addr>)
    ensures ascending { IsStrictlyIncreasing addresses.new.items }
    ensures same { (address : ℕ)
        → has addresses.new.items address ≡ has addresses.old.items address }
{
    addresses.sort_unstable();
    addresses.dedup();
}

/// Whether the address is in the ascending list.
pub(crate) fn is_listed(addresses: &[Addr], address: Addr) -> bool
    requires ascending { IsStrictlyIncreasing addresses.now }
    ensures value { result ≡ has addresses.now address }
{
    addresses.binary_search(&address).is_ok()
}

/// Keeps only the addresses that are also in `others`.
pub(crate) fn retain_common(addresses: &mut Vec<Addr>, others: &[Addr])
    requires ascending { IsStrictlyIncreasing addresses.old.items }
    requires others_ascending { IsStrictlyIncreasing others.now }
    ensures ascending { IsStrictlyIncreasing addresses.new.items }
    ensures kept { (address : ℕ) → has addresses.new.items address ≡
        (has addresses.old.items address && has others.now address) }
{
    addresses.retain(|address| is_listed(others, *address));
}

/// Removes the addresses that are also in `others`.
pub(crate) fn remove_common(addresses: &mut Vec<Addr>, others: &[Addr])
    requires ascending { IsStrictlyIncreasing addresses.old.items }
    requires others_ascending { IsStrictlyIncreasing others.now }
    ensures ascending { IsStrictlyIncreasing addresses.new.items }
    ensures kept { (address : ℕ) → has addresses.new.items address ≡
        (has addresses.old.items address && not (has others.now address)) }
{
    addresses.retain(|address| !is_listed(others, *address));
}
