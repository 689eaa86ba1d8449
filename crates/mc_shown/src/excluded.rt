//! The routers that are excluded.

mod excluded_text;

ghost use Rattle.std.specs.Prelude.{◌≡◌, IfOk};
ghost use Rattle.mc_shown.specs.ExcludedText.{excluded_routers};

pub use excluded_text::{push_excluded_routers, push_verdict_reason};
use mc_search::is_excluded;
use mc_topology::{RouterNo, Topology};
use std::alloc::{AllocError, Global};

/// The routers that are marked as excluded, in the topology's order. Routers without a mark aren't.
///
/// # Errors
///
/// `AllocError` if an allocation fails.
pub fn list_excluded_routers(
    alloc: Global,
    topology: &Topology,
    excluded: &[bool],
) -> Result<Vec<RouterNo>, AllocError>
    ensures { IfOk result (λ routers. routers.items ≡ excluded_routers topology.now excluded.now) }
{
    let mut routers = Vec::new(alloc);
    for number in 0..topology.routers() {
        let router = RouterNo(number);
        if is_excluded(excluded, router) {
            routers.push(router)?;
        }
    }
    Ok(routers)
}
