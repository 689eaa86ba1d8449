//! The pairs of one group, which are next to each other among ascending pairs.

ghost use Rattle.std.specs.Prelude.{◌≡◌, ◌==◌, IfOk, filter, map};
ghost use Rattle.std.specs.List.Sorted.{IsStrictlySortedBy};
ghost use Rattle.mc_tables.specs.CacheTable.{key_cmp};
ghost use Rattle.mc_asked.specs.GroupRun.{IsRunOf, seconds_of};

use mc_text::Addr;
use std::alloc::{AllocError, Global};

/// Where the pairs of a group begin and end among these ascending ones.
pub(crate) fn run_of_group(pairs: &[(Addr, Addr)], group: Addr) -> (usize, usize)
    requires sorted { IsStrictlySortedBy key_cmp pairs.now }
    ensures { IsRunOf group pairs.now result }
{
    let start = pairs.partition_point(|pair| pair.0 < group);
    let end = pairs.partition_point(|pair| pair.0 <= group);
    (start, end)
}

/// The second address of each of these ascending pairs whose first one is the group.
pub(crate) fn seconds_of(
    alloc: Global,
    pairs: &[(Addr, Addr)],
    group: Addr,
) -> Result<Vec<Addr>, AllocError>
    requires sorted { IsStrictlySortedBy key_cmp pairs.now }
    ensures { IfOk result (λ seconds. seconds.items ≡ seconds_of group pairs.now) }
{
    let (start, end) = run_of_group(pairs, group);
    let mut seconds = Vec::new(alloc);
    for place in start..end {
        seconds.push(pairs[place].1)?;
    }
    Ok(seconds)
}
