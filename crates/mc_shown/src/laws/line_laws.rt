//! Theorems about how the lines of the LANs that want a flow begin.

ghost use Rattle.std.specs.Prelude.{ℕ, List};
ghost use Rattle.mc_topology.specs.Topology.{IsValidTopology, TopologyValue};
ghost use Rattle.mc_forward.specs.ListedTables.{DomainFacts};
ghost use Rattle.mc_shown.specs.Indented.{AreIndented};
ghost use Rattle.mc_shown.specs.WantedText.{also_missed_text, wanted_text};

/// The lines of the LANs that want a flow, and of those that its packet also missed, begin with two spaces,
/// whatever the LANs' names are.
pub fn wanted_lines_begin_with_two_spaces()
    ensures wanted { (topology : TopologyValue) (lans : List ℕ) → IsValidTopology topology →
        AreIndented (wanted_text topology lans) }
    ensures missed { (topology : TopologyValue) (lans : List ℕ) → IsValidTopology topology →
        AreIndented (also_missed_text topology lans) }
{}
