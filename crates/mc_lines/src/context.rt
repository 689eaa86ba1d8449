//! What the lines of a flow are made from.

use mc_forward::FlowView;
use mc_tables::CacheSummary;

/// What the lines of a flow are made from.
#[derive(Clone, Copy, Drop)]
pub struct LineContext<'v> {
    /// The flow in its domain.
    pub view: &'v FlowView<'v>,
    /// The summary of each router's cache, in the topology's order.
    pub summary: &'v [CacheSummary],
}
