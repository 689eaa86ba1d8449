//! The key of a tree. Trees are one if they have the same entries, and their routers take the packets at
//! the same interfaces. The key has the entries, which say where the routers send, and then the same
//! entries with the interfaces that take the packets, since neither follows from the other.

ghost use Rattle.std.specs.Prelude.{◌≡◌, IfOk};
ghost use Rattle.mc_forward.specs.FlightsInDomain.{net_in};
ghost use Rattle.mc_json.specs.TreeKey.{taking_entry, taking_interface, tree_key};

use mc_cert::Reached;
use mc_forward::{FlowView, RowFor};
use mc_topology::RouterNo;
use std::alloc::{AllocError, Global};

/// The interface at which the router of a sending interface takes a flow's packets, by its row. None for
/// the source.
pub(crate) fn taking_interface(
    view: &FlowView<'_>,
    sender: Option<(RouterNo, u8)>,
) -> Option<(RouterNo, u8)>
    ensures { result ≡ taking_interface (net_in view.now) sender }
{
    let Some((router, _)) = sender else {
        return None;
    };
    match view.row(router) {
        RowFor::Exact(entry) => Some((router, entry.iif)),
        RowFor::Open | RowFor::NoRow => None,
    }
}

/// An entry with that interface in place of the sending one.
fn taking_entry(view: &FlowView<'_>, entry: &Reached) -> Reached
    ensures { result ≡ taking_entry (net_in view.now) entry.now }
{
    Reached {
        lan: entry.lan,
        rank: entry.rank,
        need: entry.need,
        forwarder: taking_interface(view, entry.forwarder),
    }
}

/// What tells a flow's tree from others: its entries, and the same entries with the interfaces at which
/// their routers take the packets.
///
/// # Errors
///
/// `AllocError` if an allocation fails.
pub fn tree_key(
    alloc: Global,
    view: &FlowView<'_>,
    entries: &[Reached],
) -> Result<Vec<Reached>, AllocError>
    ensures { IfOk result (λ key. key.items ≡ tree_key (net_in view.now) entries.now) }
{
    let mut key = Vec::from_slice(alloc, entries)?;
    for entry in entries {
        key.push(taking_entry(view, entry))?;
    }
    Ok(key)
}
