//! A theorem about how the lines of unlisted rows begin.

ghost use Rattle.std.specs.Prelude.{Bool, List};
ghost use Rattle.mc_tables.specs.Summary.{SummaryValue};
ghost use Rattle.mc_topology.specs.Topology.{IsValidTopology, TopologyValue};
ghost use Rattle.mc_shown.specs.UnlistedLines.{AreUnlistedLines};
ghost use Rattle.mc_shown.specs.UnlistedText.{unlisted_text};

/// Each line of unlisted rows begins with `unlisted ` or with two spaces, whatever the names of the routers
/// of a valid topology are.
pub fn unlisted_lines_have_prefix()
    ensures { (all : Bool) (topology : TopologyValue) (summary : List SummaryValue) →
        IsValidTopology topology → AreUnlistedLines (unlisted_text all topology summary) }
{}
