//! The lines that name the excluded routers.

ghost use Rattle.std.specs.Prelude.{◌≡◌, ◌++◌, OnOk, flat_map};
ghost use Rattle.std.specs.String.{string_bytes};
ghost use Rattle.mc_shown.specs.ExcludedText.{verdict_reason, excluded_line};

use crate::shown_names::ShownRouters;
use mc_text::Memory;
use mc_topology::{RouterNo, Topology};

/// Writes a line for each of the excluded routers.
///
/// # Errors
///
/// `Memory` if an allocation fails.
pub fn push_excluded_routers(
    text: &mut String,
    topology: &Topology,
    routers: &[RouterNo],
) -> Result<(), Memory>
    ensures { OnOk result (string_bytes text.new ≡ string_bytes text.old
        ++ flat_map (excluded_line topology.now) routers.now) }
{
    for router in routers {
        let name = topology.router_name_or_empty(*router);
        writeln!(text, "excluded {name}")?;
    }
    Ok(())
}

/// Writes why the verdict is no if routers are excluded: a line that names the first 8 of them. It writes
/// nothing if none is.
///
/// # Errors
///
/// `Memory` if an allocation fails.
pub fn push_verdict_reason(
    text: &mut String,
    topology: &Topology,
    routers: &[RouterNo],
) -> Result<(), Memory>
    ensures { OnOk result (string_bytes text.new ≡ string_bytes text.old
        ++ verdict_reason topology.now routers.now) }
{
    if !routers.is_empty() {
        let routers = ShownRouters { routers, topology };
        writeln!(
            text,
            "  excluded:{routers}: the verdict is no; a yes requires all routers"
        )?;
    }
    Ok(())
}
