//! Theorems about how the lines of excluded routers begin.

ghost use Rattle.std.specs.Prelude.{Bool, List};
ghost use Rattle.mc_topology.specs.Topology.{IsValidTopology, TopologyValue};
ghost use Rattle.mc_shown.specs.Indented.{AreIndented};
ghost use Rattle.mc_shown.specs.ExcludedText.{AreExcludedLines, excluded_text, excluded_lines};

/// The lines that name excluded routers begin with `excluded `, and the line that says why the verdict is
/// no begins with two spaces, whatever the routers' names are.
pub fn excluded_lines_have_prefix()
    ensures routers { (topology : TopologyValue) (marks : List Bool) → IsValidTopology topology →
        AreExcludedLines (excluded_lines topology marks) }
    ensures reason { (topology : TopologyValue) (marks : List Bool) → IsValidTopology topology →
        AreIndented (excluded_text topology marks) }
{}
