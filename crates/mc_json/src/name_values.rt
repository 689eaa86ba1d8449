//! Names of LANs and routers as JSON strings.

ghost use Rattle.std.specs.Prelude.{◌≡◌, IfOk, map};
ghost use Rattle.serde_json.specs.View.{view as data_of};
ghost use Rattle.mc_json.specs.RowData.{lan_data, router_data};

use mc_topology::{LanNo, RouterNo, Topology};
use serde_json::Value;
use std::alloc::{AllocError, Global};

/// The names of LANs.
///
/// # Errors
///
/// `AllocError` if an allocation fails.
pub fn lan_names(
    alloc: Global,
    topology: &Topology,
    lans: &[LanNo],
) -> Result<Vec<Value>, AllocError>
    ensures { IfOk result (λ values. map data_of values.items ≡ map (lan_data topology.now) lans.now) }
{
    let mut values = Vec::new(alloc);
    for lan in lans {
        let name = topology.lan_name_or_empty(*lan);
        values.push(Value::try_from_str(alloc, name)?)?;
    }
    Ok(values)
}

/// The names of routers.
///
/// # Errors
///
/// `AllocError` if an allocation fails.
pub fn router_names(
    alloc: Global,
    topology: &Topology,
    routers: &[RouterNo],
) -> Result<Vec<Value>, AllocError>
    ensures { IfOk result (λ values.
        map data_of values.items ≡ map (router_data topology.now) routers.now) }
{
    let mut values = Vec::new(alloc);
    for router in routers {
        let name = topology.router_name_or_empty(*router);
        values.push(Value::try_from_str(alloc, name)?)?;
    }
    Ok(values)
}
