//! The lines of resolved rows whose source and group are no flow's.

ghost use Rattle.std.specs.Prelude.{◌≡◌, ◌++◌, OnOk, Some, flat_map};
ghost use Rattle.std.specs.String.{string_bytes};
ghost use Rattle.mc_shown.specs.UnlistedText.{byte_order_text, further_text, is_multicast};
ghost use Rattle.mc_shown.specs.UnlistedText.{unlisted_pair_text, unlisted_text};

use crate::shown_names::ShownRouters;
use crate::unlisted::unlisted_pairs::{UnlistedPair, UnlistedPairs};
use mc_tables::CacheSummary;
use mc_text::{Addr, Memory};
use mc_topology::Topology;
use std::alloc::{AllocError, Global};
use std::fmt;

/// Whether an address is a multicast group, 224.0.0.0 to 239.255.255.255.
fn is_multicast(group: Addr) -> bool
    ensures { result ≡ is_multicast group }
{
    matches!(group.octets()[0], 224..=239)
}

/// The line that asks about the byte order if a group isn't multicast, or nothing.
#[derive(Clone, Copy, Drop)]
struct ShownByteOrderQuestion {
    group: Addr,
}

impl fmt::Display for ShownByteOrderQuestion {
    ghost output = { λ shown. Some (byte_order_text shown.group) };

    fn fmt<W: fmt::Write>(&self, f: &mut fmt::Formatter<W>) -> fmt::Result {
        if is_multicast(self.group) {
            Ok(())
        } else {
            f.write_str(
                "  no multicast group: is the byte order of these routers right in the topology?\n",
            )
        }
    }
}

/// The line that counts further rows, or nothing if there are none.
#[derive(Clone, Copy, Drop)]
struct ShownFurther {
    further: u128,
}

impl fmt::Display for ShownFurther {
    ghost output = { λ shown. Some (further_text shown.further) };

    fn fmt<W: fmt::Write>(&self, f: &mut fmt::Formatter<W>) -> fmt::Result {
        let further = self.further;
        if further == 0 {
            Ok(())
        } else {
            writeln!(f, "unlisted and {further} further rows")
        }
    }
}

/// Writes the line of a pair and its routers.
fn push_pair(text: &mut String, topology: &Topology, pair: &UnlistedPair) -> Result<(), AllocError>
    ensures { OnOk result (string_bytes text.new ≡
        string_bytes text.old ++ unlisted_pair_text topology.now pair.now.0 pair.now.1) }
{
    let routers = pair.routers();
    let count = routers.len();
    let routers = ShownRouters { routers, topology };
    let group = pair.group();
    let source = pair.source();
    let question = ShownByteOrderQuestion { group };
    write!(
        text,
        "unlisted {source} {group} routers {count}:{routers}\n{question}"
    )
}

/// Writes the lines of these pairs.
fn push_pairs(
    text: &mut String,
    topology: &Topology,
    pairs: &[UnlistedPair],
) -> Result<(), AllocError>
    ensures { OnOk result (string_bytes text.new ≡ string_bytes text.old
        ++ flat_map (λ pair. unlisted_pair_text topology.now pair.0 pair.1) pairs.now) }
{
    for pair in pairs {
        push_pair(text, topology, pair)?;
    }
    Ok(())
}

/// Writes the resolved rows whose source and group are no listed flow's: a line for each pair of a group
/// and a source, for all pairs or for the 20 lowest, and how many further rows there are. `summary` has
/// the summary of each router's cache, in the topology's order.
///
/// # Errors
///
/// `Memory` if an allocation fails.
pub fn push_unlisted(
    alloc: Global,
    text: &mut String,
    topology: &Topology,
    summary: &[CacheSummary],
    all: bool,
) -> Result<(), Memory>
    ensures lines { OnOk result (string_bytes text.new ≡
        string_bytes text.old ++ unlisted_text all topology.now summary.now) }
{
    let unlisted = UnlistedPairs::new(alloc, topology, summary, all)?;
    push_pairs(text, topology, &unlisted.shown)?;
    let further = ShownFurther {
        further: unlisted.further,
    };
    write!(text, "{further}")?;
    Ok(())
}
