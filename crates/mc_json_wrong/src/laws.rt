//! Theorems about the line of a flow with a finding.

ghost use Rattle.std.specs.Prelude.{ℕ};
ghost use Rattle.mc_topology.specs.declared.flow.Flow.{Flow};
ghost use Rattle.mc_json.specs.ObjectLines.{AreObjectLines};
ghost use Rattle.mc_json.specs.RowData.{line_of};
ghost use Rattle.mc_json_wrong.specs.WrongData.{WrongFlow, wrong_data};

/// The line begins an object other than the verdict, and its only line feed ends it, whatever names of LANs,
/// routers and devices it has.
pub fn the_line_of_a_wrong_flow_is_an_object()
    ensures { (number : ℕ) (flow : Flow) (wrong : WrongFlow) →
        AreObjectLines (line_of (wrong_data number flow wrong)) }
{}
