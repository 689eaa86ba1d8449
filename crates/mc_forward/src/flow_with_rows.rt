//! A flow of a domain, with each router's row for it. All rows are looked up at once, since a processor
//! then waits for those of many routers at the same time, and not for one after another.

ghost use Rattle.std.specs.Prelude.{◌≡◌, IfOk};
ghost use Rattle.mc_forward.specs.FlightsInDomain.{net_in};
ghost use Rattle.mc_forward.specs.RowValues.{AreRowsOf, HasValidEntry, row_value};

use crate::flow_view::FlowView;
use crate::row::RowFor;
use mc_tables::Entry;
use mc_text::Memory;
use mc_topology::RouterNo;
use std::alloc::Global;
use std::marker::Model;

/// A flow whose rows were looked up. Its value in contracts is that of the flow's view.
#[derive(Drop)]
pub struct FlowWithRows<'d> {
    view: FlowView<'d>,
    /// What each router has for the flow.
    rows: Vec<RowFor<'d>>,
}

impl<'d> Model for FlowWithRows<'d> {
    ghost use Rattle.mc_forward.specs.FlightsInDomain.{FlowOfDomain, flow_of_domain_code, net_in};
    ghost use Rattle.mc_forward.specs.RowValues.{AreRowsOf};

    ghost Value = { FlowOfDomain };

    ghost coded = { flow_of_domain_code };

    ghost view = { λ s. s.view };

    ghost invariant = { λ s. AreRowsOf (net_in s.view) s.rows.items };
}

/// A copy of a row.
fn copy_row<'d>(row: &RowFor<'d>) -> RowFor<'d>
    requires valid { HasValidEntry row.now }
    ensures row { row_value result ≡ row_value row.now }
    ensures valid { HasValidEntry result }
{
    match row {
        RowFor::Exact(entry) => RowFor::Exact(Entry {
            iif: entry.iif,
            oifs: entry.oifs,
        }),
        RowFor::Open => RowFor::Open,
        RowFor::NoRow => RowFor::NoRow,
    }
}

/// What each router has for a flow.
fn rows_of<'d>(alloc: Global, view: &FlowView<'d>) -> Result<Vec<RowFor<'d>>, Memory>
    ensures { IfOk result (λ rows. AreRowsOf (net_in view.now) rows.items) }
{
    let routers = view.routers();
    let mut rows = Vec::with_capacity(alloc, routers as usize)?;
    for number in 0..routers {
        rows.push(view.row(RouterNo(number)))?;
    }
    Ok(rows)
}

impl<'d> FlowWithRows<'d> {
    /// Looks up the rows of a flow.
    pub(crate) fn new(alloc: Global, view: FlowView<'d>) -> Result<FlowWithRows<'d>, Memory>
        ensures { IfOk result (λ flow. flow ≡ view.entry) }
    {
        let rows = rows_of(alloc, &view)?;
        Ok(FlowWithRows { view, rows })
    }

    /// The flow.
    pub fn view(&self) -> &FlowView<'d>
        ensures { result.now ≡ self.now }
    {
        &self.view
    }

    /// What a router has for the flow: no row for a router that isn't in the topology.
    pub fn row(&self, router: RouterNo) -> RowFor<'d>
        ensures row { row_value result ≡ (net_in self.now).row router }
        ensures valid { HasValidEntry result }
    {
        match self.rows.get(router.0 as usize) {
            Some(row) => copy_row(row),
            None => self.view.row(router),
        }
    }
}
