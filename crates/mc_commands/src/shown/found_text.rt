//! Writes the lines of a flow that has no certificate.

ghost use Rattle.std.specs.Prelude.{◌≡◌, ◌++◌, OnOk};
ghost use Rattle.std.specs.String.{string_bytes};
ghost use Rattle.mc_commands.specs.MakeRun.{found_line, found_lines, no_certificate_line};

use crate::shown::verdict_text::FlowWords;
use mc_replay::Finding;
use mc_text::Memory;
use mc_topology::{Flow, Topology};

/// Writes the line that says that a flow has no certificate.
fn push_no_certificate(text: &mut String, flow: &Flow) -> Result<(), Memory>
    ensures { OnOk result (string_bytes text.new ≡
        string_bytes text.old ++ no_certificate_line flow.now) }
{
    let words = FlowWords { flow };
    writeln!(text, "{words} no certificate").map_err(|_| Memory)
}

/// Writes the line with the finding of a packet with this time to live.
fn push_finding(
    text: &mut String,
    topology: &Topology,
    ttl: u8,
    finding: Finding,
) -> Result<(), Memory>
    ensures { OnOk result (string_bytes text.new ≡
        string_bytes text.old ++ found_line topology.now ttl finding) }
{
    let finding = finding.shown(topology);
    writeln!(text, "found ttl {ttl} {finding}").map_err(|_| Memory)
}

/// Writes the two lines of a flow without a certificate: that it has none, and the finding of a packet
/// with this time to live.
pub(crate) fn push_found_lines(
    text: &mut String,
    topology: &Topology,
    flow: &Flow,
    ttl: u8,
    finding: Finding,
) -> Result<(), Memory>
    ensures { OnOk result (string_bytes text.new ≡
        string_bytes text.old ++ found_lines topology.now flow.now ttl finding) }
{
    push_no_certificate(text, flow)?;
    push_finding(text, topology, ttl, finding)
}
