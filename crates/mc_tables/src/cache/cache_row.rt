//! A row of the forwarding cache, without its outgoing vifs.

use mc_text::Addr;

/// A row without its outgoing vifs: a group, an origin and an incoming vif.
#[derive(Clone, Copy, Debug)]
pub struct CacheRow {
    /// The group.
    pub group: Addr,
    /// The source, or 0.0.0.0 in a row for every source.
    pub origin: Addr,
    /// The incoming vif, unless the row is unresolved.
    pub iif: Option<u8>,
}
