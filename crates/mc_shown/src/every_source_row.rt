//! The text of a router's row for every source.

ghost use Rattle.std.specs.Prelude.{◌≡◌, Some};
ghost use Rattle.mc_topology.specs.Topology.{flow_at};
ghost use Rattle.mc_forward.specs.ListedTables.{facts};
ghost use Rattle.mc_shown.specs.EverySourceText.{every_source_text};

use crate::row_text::ShownEntry;
use mc_forward::FlowView;
use mc_tables::CacheSummary;
use mc_text::Addr;
use mc_topology::RouterNo;
use std::fmt;

/// A router's row for every source, such as `entry (*,239.1.2.3) from eth0 to eth1 eth2:5 in cache-r1`: the
/// first of the group, or else of the group 0.0.0.0, which is written `*` too. It is empty if the summary
/// of the router's cache has none.
#[derive(Clone, Copy, Drop)]
pub struct ShownEverySource<'v> {
    /// The flow in its domain.
    pub view: &'v FlowView<'v>,
    /// The summary of each router's cache, in the topology's order.
    pub summary: &'v [CacheSummary],
    /// The router.
    pub router: RouterNo,
}

impl<'v> fmt::Display for ShownEverySource<'v> {
    ghost output = { λ shown. Some (every_source_text (facts shown.view.now.domain)
        shown.summary.now (flow_at shown.view.now.domain.topology shown.view.now.flow).group shown.router) };

    fn fmt<W: fmt::Write>(&self, f: &mut fmt::Formatter<W>) -> fmt::Result {
        let (view, router) = (self.view, self.router);
        let Some(summary) = self.summary.get(router.0 as usize) else {
            return Ok(());
        };
        match summary.row_for_every_source(view.flow().group) {
            Some(row) => {
                let (group, entry) = row;
                let row = ShownEntry {
                    view,
                    router,
                    source: Addr::unspecified(),
                    group,
                    incoming: entry.iif,
                    oifs: entry.oifs,
                };
                write!(f, "{row}")
            }
            None => Ok(()),
        }
    }
}
