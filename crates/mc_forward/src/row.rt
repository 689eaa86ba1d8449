//! What a router has for a flow.

use mc_tables::Entry;

/// What a router's forwarding cache has for a flow.
#[derive(Debug, Drop)]
pub enum RowFor<'a> {
    /// The entry of the resolved row for the flow's source and group.
    Exact(Entry<'a>),
    /// No such row, but a resolved row for every source, of the flow's group or of every group.
    /// What the kernel then does with the flow's packets is not followed here.
    Open,
    /// No row.
    NoRow,
}
