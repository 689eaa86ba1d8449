//! The lines of the LANs that want a flow, and of those that its packet also missed.

ghost use Rattle.std.specs.Prelude.{◌≡◌, ◌++◌, OnOk};
ghost use Rattle.std.specs.String.{string_bytes};
ghost use Rattle.mc_shown.specs.WantedText.{also_missed_text, wanted_text};

use crate::shown_names::ShownLans;
use mc_text::Memory;
use mc_topology::{LanNo, Topology};

/// Writes how many LANs want a flow, and the names of the first 8 of these LANs.
///
/// # Errors
///
/// `Memory` if an allocation fails.
pub fn push_wanted(text: &mut String, topology: &Topology, lans: &[LanNo]) -> Result<(), Memory>
    ensures { OnOk result (string_bytes text.new ≡ string_bytes text.old
        ++ wanted_text topology.now lans.now) }
{
    if lans.is_empty() {
        text.push_str("  wanted 0: no report asks for it\n")?;
    } else {
        let count = lans.len();
        let lans = ShownLans { lans, topology };
        writeln!(text, "  wanted {count}:{lans}")?;
    }
    Ok(())
}

/// Writes the names of the first 8 of the LANs that a flow's packet also missed, and how many more there
/// are. It writes nothing if there are none.
///
/// # Errors
///
/// `Memory` if an allocation fails.
pub fn push_also_missed(
    text: &mut String,
    topology: &Topology,
    lans: &[LanNo],
) -> Result<(), Memory>
    ensures { OnOk result (string_bytes text.new ≡ string_bytes text.old
        ++ also_missed_text topology.now lans.now) }
{
    if !lans.is_empty() {
        let lans = ShownLans { lans, topology };
        writeln!(text, "  also missed:{lans}")?;
    }
    Ok(())
}
