//! An entry of the forwarding cache: where a router forwards the packets of a source to a group.

use std::marker::Model;

/// An outgoing vif, and the TTL that a packet has to exceed to be sent there.
#[derive(Clone, Copy, Debug, PartialEq, Eq)]
pub struct Oif {
    /// The vif, 0 to 31.
    pub vif: u8,
    /// The threshold, 1 to 254.
    pub threshold: u8,
}

/// What a resolved row says: the incoming vif and the outgoing ones.
#[derive(Debug, Drop)]
pub struct Entry<'a> {
    /// The incoming vif, 0 to 31.
    pub iif: u8,
    /// The outgoing vifs, by ascending vif.
    pub oifs: &'a [Oif],
}

impl<'a> Model for Entry<'a> {
    ghost use Rattle.mc_tables.specs.CacheTable.{EntryValue};

    ghost Value = { EntryValue };

    ghost view = { λ e. record { iif = e.iif; oifs = e.oifs.now } };
}
