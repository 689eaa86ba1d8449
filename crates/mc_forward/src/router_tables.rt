//! The tables of a topology's routers, of which only what the flows need is kept.

ghost use Rattle.std.specs.Prelude.{◌≡◌, [], IfOk, OnErr, OnOk, length};
ghost use Rattle.mc_forward.specs.RouterTables.{router_tables_with, with_router};

use crate::flow_rows::{RouterRows, flow_rows_of};
use crate::tables::Tables;
use mc_tables::VifTable;
use mc_text::Memory;
use mc_topology::Topology;
use std::alloc::Global;
use std::marker::Model;

/// What is kept of the tables of a topology's routers: the vifs of each, and its row for each flow. Each
/// router's tables are reduced to that as they are added, so that no two caches are held at once.
#[derive(Drop)]
pub struct RouterTables {
    pub(crate) vifs: Vec<VifTable>,
    pub(crate) rows: Vec<RouterRows>,
    /// For each flow the place at which the last router's cache had its entry.
    hints: Vec<usize>,
}

impl Model for RouterTables {
    ghost use Rattle.std.specs.Prelude.{length};
    ghost use Rattle.mc_forward.specs.RouterTables.{AreRouterTables, RouterTablesValue};
    ghost use Rattle.mc_forward.specs.RouterTables.{router_tables_code, router_tables_with};

    ghost Value = { RouterTablesValue };

    ghost coded = { router_tables_code };

    ghost view = { λ kept. router_tables_with (length kept.hints.items) kept.vifs.items kept.rows.items };

    ghost invariant = { λ kept. AreRouterTables
        (router_tables_with (length kept.hints.items) kept.vifs.items kept.rows.items) };
}

impl RouterTables {
    /// No tables yet, for the flows of a topology.
    ///
    /// # Errors
    ///
    /// `Memory` where a growth was refused.
    pub fn new(alloc: Global, topology: &Topology) -> Result<RouterTables, Memory>
        ensures { IfOk result (λ kept. kept ≡ router_tables_with (length topology.now.flows) [] []) }
    {
        Ok(RouterTables {
            vifs: Vec::new(alloc),
            rows: Vec::new(alloc),
            hints: vec![in alloc; 0; topology.flows() as usize]?,
        })
    }

    /// Adds the tables of the next router. Its cache is reduced to the rows of the topology's flows.
    ///
    /// # Errors
    ///
    /// `Memory` where a growth was refused. The tables of the routers before stay.
    pub fn add(&mut self, alloc: Global, topology: &Topology, tables: Tables) -> Result<(), Memory>
        requires flows { self.old.flows ≡ length topology.now.flows }
        ensures added { OnOk result (self.new ≡ with_router topology.now.flows self.old tables) }
        ensures kept { OnErr result (self.new ≡ self.old) }
    {
        let rows = flow_rows_of(alloc, topology, &tables.cache, &mut self.hints)?;
        self.vifs.reserve(1)?;
        self.rows.reserve(1)?;
        self.vifs.push_reserved(tables.vifs);
        self.rows.push_reserved(rows);
        Ok(())
    }
}
