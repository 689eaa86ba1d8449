//! Marks the routers that are excluded by their names.

ghost use Rattle.std.specs.Prelude.{◌≡◌, ◌<◌, IfOk, length, map};
ghost use Rattle.mc_topology.specs.Topology.{router_name};
ghost use Rattle.mc_run.specs.AuditBegin.{is_among, excluded_marks};

use mc_input::is_excluded;
use mc_text::Memory;
use mc_topology::{RouterNo, Topology};
use std::alloc::Global;

/// Whether a router has one of these names.
fn has_excluded_name(topology: &Topology, without: &[&str], router: RouterNo) -> bool
    requires known { router < length topology.now.routers }
    ensures value { result ≡ is_among (map (λ name. name.now) without.now) (router_name topology.now router) }
{
    is_excluded(without, topology.router_name_or_empty(router))
}

/// A mark for each router: whether it has one of these names.
pub(crate) fn excluded_marks(
    alloc: Global,
    topology: &Topology,
    without: &[&str],
) -> Result<Vec<bool>, Memory>
    ensures { IfOk result (λ marks.
        marks.items ≡ excluded_marks topology.now (map (λ name. name.now) without.now)) }
{
    let mut marks = Vec::new(alloc);
    for number in 0..topology.routers() {
        marks.push(has_excluded_name(topology, without, RouterNo(number)))?;
    }
    Ok(marks)
}
