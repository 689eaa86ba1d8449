//! Writes which packets show a finding.

ghost use Rattle.std.specs.Prelude.{◌≡◌, ◌++◌, OnOk};
ghost use Rattle.std.specs.String.{string_bytes};
ghost use Rattle.mc_run.specs.AuditText.{at_flow_ttl_text, shown_by_text, shown_from_text};

use mc_explain::ShownBy;
use mc_replay::Finding;
use mc_text::Memory;
use mc_topology::Topology;

/// Writes from which TTL on packets show a finding, if that is said: a line that begins with this indent.
pub(crate) fn push_shown_from(
    text: &mut String,
    indent: &str,
    shown_from: Option<u8>,
) -> Result<(), Memory>
    ensures { OnOk result (string_bytes text.new ≡
        string_bytes text.old ++ shown_from_text indent.now shown_from) }
{
    if let Some(ttl) = shown_from {
        writeln!(text, "{indent}shown by packets sent with ttl {ttl} or more")?;
    }
    Ok(())
}

/// Writes what a packet with the flow's own TTL meets, if that is said.
fn push_at_flow_ttl(
    text: &mut String,
    topology: &Topology,
    ttl: u8,
    found: Option<Finding>,
) -> Result<(), Memory>
    ensures { OnOk result (string_bytes text.new ≡
        string_bytes text.old ++ at_flow_ttl_text topology.now ttl found) }
{
    if let Some(finding) = found {
        let finding = finding.shown(topology);
        writeln!(text, "  with this flow's ttl {ttl}: {finding}")?;
    }
    Ok(())
}

/// Writes which packets show a finding, for a flow with this TTL.
pub(crate) fn push_shown_by(
    text: &mut String,
    topology: &Topology,
    ttl: u8,
    shown_by: ShownBy,
) -> Result<(), Memory>
    ensures { OnOk result (string_bytes text.new ≡
        string_bytes text.old ++ shown_by_text topology.now ttl shown_by) }
{
    push_shown_from(text, "  ", shown_by.from)?;
    push_at_flow_ttl(text, topology, ttl, shown_by.at_flow_ttl)
}
