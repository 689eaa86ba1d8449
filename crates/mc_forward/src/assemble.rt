//! How a domain is put together.

ghost use Rattle.std.specs.Prelude.{◌≡◌, ◌≤◌, ◌↔◌, [], IfOk, IfErr, IsErrAnd, length, map, vec_capacity};
ghost use Rattle.mc_forward.specs.declared.refused.DomainFault.TheVariants.{Count};
ghost use Rattle.mc_forward.specs.Assembling.{AreAnswers, HaveMatchingCounts, IsAssembled, domain_with};
ghost use Rattle.mc_forward.specs.Assembling.{vifs_by_tables};
ghost use Rattle.mc_forward.specs.Domains.{IsDomain};
ghost use Rattle.mc_forward.specs.DomainParts.{AreDerivedFrom, AreDerivedTables};
ghost use Rattle.mc_forward.specs.RouterTables.{AreTablesFor};

use crate::domain::{DerivedTables, Domain};
use crate::flow_rows::{RouterRows, rows_of_routers};
use crate::interfaces::interfaces_of_lans;
use crate::items::Items;
use crate::refused::{DomainFault, Refused};
use crate::router_tables::RouterTables;
use crate::tables::{HasVifs, Tables};
use crate::vif_lans::vif_lans_of_routers;
use crate::wants::wants_of_lans;
use mc_igmp::ReportList;
use mc_tables::VifTable;
use mc_text::Memory;
use mc_topology::Topology;
use std::alloc::Global;

/// The look-up tables of a topology and the routers' vifs.
fn derive_tables<T: HasVifs>(
    alloc: Global,
    topology: &Topology,
    tables: &[T],
) -> Result<DerivedTables, Memory>
    requires { length tables.now ≡ length topology.now.routers }
    ensures { IfOk result (λ w. AreDerivedFrom topology.now (map T.vifs_of tables.now)
        w.vif_lans.items w.interfaces.items) }
{
    let vif_lans = vif_lans_of_routers(alloc, topology, tables)?;
    let interfaces = interfaces_of_lans(alloc, topology.lans(), &vif_lans)?;
    Ok(DerivedTables {
        vif_lans,
        interfaces,
    })
}

/// What is worked out of the routers' tables and the LANs' reports, and room for the routers' vifs.
#[derive(Drop)]
struct AssembledParts {
    vifs: Vec<VifTable>,
    rows: Vec<RouterRows>,
    wants: Vec<Items<bool>>,
    derived: DerivedTables,
}

/// Works out what the tables and the reports have for the flows of a topology.
fn assemble_parts(
    alloc: Global,
    topology: &Topology,
    tables: &[Tables],
    reports: &[ReportList],
) -> Result<AssembledParts, Memory>
    requires matching_counts { HaveMatchingCounts topology.now tables.now reports.now }
    ensures none { IfOk result (λ parts. parts.vifs.items ≡ []) }
    ensures room { IfOk result (λ parts. length tables.now ≤ vec_capacity parts.vifs) }
    ensures derived { IfOk result (λ parts. AreDerivedTables
        (domain_with topology.now (vifs_by_tables tables.now) parts.rows.items parts.wants.items)
        parts.derived.vif_lans.items parts.derived.interfaces.items) }
    ensures assembled { IfOk result (λ parts. IsAssembled topology.now tables.now reports.now
        (domain_with topology.now (vifs_by_tables tables.now) parts.rows.items parts.wants.items)) }
{
    let vifs = Vec::with_capacity(alloc, tables.len())?;
    let rows = rows_of_routers(alloc, topology, tables)?;
    let wants = wants_of_lans(alloc, topology, reports)?;
    let derived = derive_tables(alloc, topology, tables)?;
    Ok(AssembledParts {
        vifs,
        rows,
        wants,
        derived,
    })
}

/// Moves the vifs out of tables, whose caches are dropped, to where there is room for them.
fn move_vifs(tables: Vec<Tables>, vifs: Vec<VifTable>) -> Vec<VifTable>
    requires none { vifs.items ≡ [] }
    requires room { length tables.items ≤ vec_capacity vifs }
    ensures { result.items ≡ vifs_by_tables tables.items }
{
    let mut vifs = vifs;
    for own in tables {
        vifs.push_reserved(own.vifs);
    }
    vifs
}

impl Domain {
    /// Puts a domain together: its topology, the tables of each router and the reports of each LAN,
    /// in the topology's order of routers and LANs. The reports are dropped once it is known which LAN
    /// wants which flow, and the caches once it is known what each router has for each flow.
    ///
    /// # Errors
    ///
    /// `Count` where there is not one `Tables` for each router and one list for each LAN, and
    /// `Memory` where a growth was refused, each with the three arguments as they were.
    pub fn assemble(
        alloc: Global,
        topology: Topology,
        tables: Vec<Tables>,
        reports: Vec<ReportList>,
    ) -> Result<Domain, Refused>
        ensures assembled { IfOk result (IsAssembled topology tables.items reports.items) }
        ensures rules { IfOk result IsDomain }
        ensures count { IsErrAnd result (λ refused. refused.fault ≡ Count) ↔
            ¬ (HaveMatchingCounts topology tables.items reports.items) }
        ensures topology { IfErr result (λ refused. refused.topology ≡ topology) }
        ensures tables { IfErr result (λ refused. refused.tables ≡ tables) }
        ensures reports { IfErr result (λ refused. refused.reports ≡ reports) }
    {
        if tables.len() != topology.routers() as usize
            || reports.len() != topology.lans() as usize
        {
            return Err(Refused {
                topology,
                tables,
                reports,
                fault: DomainFault::Count,
            });
        }
        match assemble_parts(alloc, &topology, &tables, &reports) {
            Ok(parts) => {
                let vifs = move_vifs(tables, parts.vifs);
                Ok(Domain::new(topology, vifs, parts.rows, parts.wants, parts.derived))
            }
            Err(Memory) => Err(Refused {
                topology,
                tables,
                reports,
                fault: DomainFault::Memory,
            }),
        }
    }

    /// Puts a domain together: its topology, what is kept of the tables of each router, and for each LAN
    /// whether it wants each flow, in the topology's order of routers, LANs and flows. There have to be
    /// as many of each.
    ///
    /// # Errors
    ///
    /// `Memory` where a growth was refused.
    pub fn from_wants(
        alloc: Global,
        topology: Topology,
        tables: RouterTables,
        wants: Vec<Items<bool>>,
    ) -> Result<Domain, Memory>
        requires tables { AreTablesFor topology tables }
        requires answers { AreAnswers topology wants.items }
        ensures domain { IfOk result (λ domain.
            domain ≡ domain_with topology tables.vifs tables.rows wants.items) }
        ensures rules { IfOk result IsDomain }
    {
        let derived = derive_tables(alloc, &topology, &tables.vifs)?;
        Ok(Domain::new(topology, tables.vifs, tables.rows, wants, derived))
    }
}
