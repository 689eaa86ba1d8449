//! The lines of what is behind a stray, but for a second copy.

ghost use Rattle.std.specs.Prelude.{◌≡◌, ◌<◌, ◌++◌, OnOk, length};
ghost use Rattle.std.specs.String.{string_bytes};
ghost use Rattle.mc_forward.specs.ListedTables.{facts};
ghost use Rattle.mc_lines.specs.BehindText.{also_leaves_text, leaks_behind_text, missed_behind_text};
ghost use Rattle.mc_lines.specs.BehindText.{not_known_past_text};

use crate::behind::shown_leaks::ShownLeaks;
use mc_explain::Behind;
use mc_forward::{Domain, FlowView, Stray};
use mc_shown::{ShownLans, ShownRouters};
use mc_text::Memory;
use mc_topology::{LanNo, RouterNo, Topology};

/// Writes by which interfaces copies also leave the known domain, if there are any.
fn push_also_leaves(text: &mut String, view: &FlowView<'_>, strays: &[Stray]) -> Result<(), Memory>
    ensures { OnOk result (string_bytes text.new ≡ string_bytes text.old
        ++ also_leaves_text (facts view.now.domain) strays.now) }
{
    if !strays.is_empty() {
        let leaks = ShownLeaks { view, strays };
        writeln!(text, "  behind it: also leaves by{leaks}")?;
    }
    Ok(())
}

/// Writes past which routers nothing is known, if there are any.
fn push_not_known_past(
    text: &mut String,
    topology: &Topology,
    routers: &[RouterNo],
) -> Result<(), Memory>
    ensures { OnOk result (string_bytes text.new ≡ string_bytes text.old
        ++ not_known_past_text topology.now routers.now) }
{
    if !routers.is_empty() {
        let routers = ShownRouters { routers, topology };
        writeln!(text, "  behind it: not known past{routers}")?;
    }
    Ok(())
}

/// Writes which LANs are missed, if there are any.
fn push_missed_behind(text: &mut String, topology: &Topology, lans: &[LanNo]) -> Result<(), Memory>
    ensures { OnOk result (string_bytes text.new ≡ string_bytes text.old
        ++ missed_behind_text topology.now lans.now) }
{
    if !lans.is_empty() {
        let lans = ShownLans { lans, topology };
        writeln!(
            text,
            "  behind it: missed, unless what leaves there reaches it:{lans}"
        )?;
    }
    Ok(())
}

/// Writes by which interfaces copies leave the known domain behind a stray, past which routers nothing is
/// known, and which LANs are missed: a line each, with the first 8 names. `flow` counts from 0.
///
/// # Errors
///
/// `Memory` if an allocation fails.
pub fn push_leaks_behind(
    text: &mut String,
    domain: &Domain,
    flow: u32,
    behind: &Behind,
) -> Result<(), Memory>
    requires flow { flow < length domain.now.topology.flows }
    ensures lines { OnOk result (string_bytes text.new ≡ string_bytes text.old
        ++ leaks_behind_text (facts domain.now) behind.now.strays.items behind.now.open_routers.items
        behind.now.missed.items) }
{
    let view = FlowView::new(domain, flow);
    let topology = domain.topology();
    push_also_leaves(text, &view, &behind.strays)?;
    push_not_known_past(text, topology, &behind.open_routers)?;
    push_missed_behind(text, topology, &behind.missed)
}
