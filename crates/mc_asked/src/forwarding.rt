//! What a router has for a want that no flow answers.

ghost use Rattle.std.specs.Prelude.{◌≡◌, ◌++◌, ◌∷◌, [], List, Some};
ghost use Rattle.std.specs.List.Sorted.{IsStrictlyIncreasing};
ghost use Rattle.mc_tables.specs.CacheTable.{RowValue};
ghost use Rattle.mc_asked.specs.Forwarding.{goes_to_lan, greater, is_counted_source, is_forwarded};
ghost use Rattle.mc_asked.specs.Forwarding.{router_state, row_of};

use mc_tables::{Entry, Oif, VifTable};
use mc_text::Addr;

/// What a router has for a want: the first of these, from the last, that holds.
#[derive(Clone, Copy, Debug, PartialEq, Eq)]
pub enum RouterState {
    /// No entry that counts.
    Nothing,
    /// Only entries for every source.
    EverySource,
    /// An entry that counts, and none that goes out to a LAN.
    NoneOut,
    /// An entry that counts and goes out to a LAN.
    Forwards,
}

/// Whether copies that go out there can reach a LAN.
fn goes_to_lan(vifs: &VifTable, oif: &Oif) -> bool
    ensures { result ≡ goes_to_lan vifs.now oif.now }
{
    match vifs.vif(oif.vif) {
        Some(vif) => vif.has_device() && !vif.register(),
        None => false,
    }
}

/// Whether an entry has an outgoing vif that leads to a LAN.
fn is_forwarded(vifs: &VifTable, entry: &Entry<'_>) -> bool
    ensures { result ≡ is_forwarded vifs.now (Some entry.now) }
{
    entry.oifs.iter().any(|oif| goes_to_lan(vifs, oif))
}

/// Whether an entry of the want's group from this source counts.
fn is_counted_source(unadmitted: &[Addr], want: &(Addr, Addr), origin: Addr) -> bool
    requires ascending { IsStrictlyIncreasing unadmitted.now }
    ensures { result ≡ is_counted_source unadmitted.now want.now origin }
{
    if want.1.is_unspecified() {
        unadmitted.binary_search(&origin).is_err()
    } else {
        origin == want.1
    }
}

/// The greater one of two states.
fn greater(state: RouterState, other: RouterState) -> RouterState
    ensures { result ≡ greater state other }
{
    match (state, other) {
        (RouterState::Forwards, _) | (_, RouterState::Forwards) => RouterState::Forwards,
        (RouterState::NoneOut, _) | (_, RouterState::NoneOut) => RouterState::NoneOut,
        (RouterState::EverySource, _) | (_, RouterState::EverySource) => RouterState::EverySource,
        (RouterState::Nothing, RouterState::Nothing) => RouterState::Nothing,
    }
}

/// What a resolved row alone has for a want. The row's key is its source and its group.
fn state_of_row(
    vifs: &VifTable,
    unadmitted: &[Addr],
    want: &(Addr, Addr),
    key: &(Addr, Addr),
    entry: &Entry<'_>,
) -> RouterState
    requires ascending { IsStrictlyIncreasing unadmitted.now }
    ensures { result ≡ router_state vifs.now unadmitted.now want.now (row_of key.now entry.now ∷ []) }
{
    let (origin, group) = *key;
    if origin.is_unspecified() {
        if group == want.0 || group.is_unspecified() {
            RouterState::EverySource
        } else {
            RouterState::Nothing
        }
    } else if group != want.0 || !is_counted_source(unadmitted, want, origin) {
        RouterState::Nothing
    } else if is_forwarded(vifs, entry) {
        RouterState::Forwards
    } else {
        RouterState::NoneOut
    }
}

/// What a router has for a want, by one more resolved row. `unadmitted` has the sources that the filter of
/// no LAN with this want admits, ascending. Unresolved rows change nothing.
pub fn state_with_row(
    state: RouterState,
    vifs: &VifTable,
    unadmitted: &[Addr],
    want: &(Addr, Addr),
    key: &(Addr, Addr),
    entry: &Entry<'_>,
) -> RouterState
    requires ascending { IsStrictlyIncreasing unadmitted.now }
    // The greater one of what was and of what the row alone has.
    ensures value { result ≡ greater state
        (router_state vifs.now unadmitted.now want.now (row_of key.now entry.now ∷ [])) }
    // So it is what the rows before and this one have.
    ensures rows { (rows : List RowValue) → state ≡ router_state vifs.now unadmitted.now want.now rows →
        result ≡ router_state vifs.now unadmitted.now want.now (rows ++ row_of key.now entry.now ∷ []) }
{
    greater(state, state_of_row(vifs, unadmitted, want, key, entry))
}
