//! Writes the verdicts on the flows of a topology.

ghost use Rattle.std.specs.Prelude.{◌≡◌, ◌++◌, IfOk, OnOk, Some, length};
ghost use Rattle.std.specs.String.{string_bytes};
ghost use Rattle.mc_commands.specs.VerdictText.{are_yes as all_yes, check_text as text_of_check, flow_words};
ghost use Rattle.mc_commands.specs.VerdictText.{flow_line, last_line};

use mc_check::Verdict;
use mc_text::Memory;
use mc_topology::{Flow, Topology};
use std::alloc::Global;
use std::fmt;

/// The words at the start of a flow's line, as `flow 10.0.0.5 239.1.2.3 ttl 3`.
#[derive(Clone, Copy, Drop)]
pub struct FlowWords<'t> {
    /// The flow.
    pub flow: &'t Flow,
}

impl<'t> fmt::Display for FlowWords<'t> {
    ghost output = { λ words. Some (flow_words words.flow.now) };

    fn fmt<W: fmt::Write>(&self, f: &mut fmt::Formatter<W>) -> fmt::Result {
        let flow = self.flow;
        write!(f, "flow {} {} ttl {}", flow.source, flow.group, flow.ttl)
    }
}

/// Whether every verdict is yes.
pub(crate) fn are_yes(verdicts: &[Verdict]) -> bool
    ensures { result ≡ all_yes verdicts.now }
{
    verdicts
        .iter()
        .all(|verdict| matches!(verdict, Verdict::Yes { .. }))
}

/// Writes the line of a flow and its verdict.
pub fn push_flow_verdict(
    text: &mut String,
    topology: &Topology,
    flow: &Flow,
    verdict: Verdict,
) -> Result<(), Memory>
    ensures { OnOk result (string_bytes text.new ≡
        string_bytes text.old ++ flow_line topology.now flow.now verdict) }
{
    let words = FlowWords { flow };
    let verdict = verdict.shown(topology);
    writeln!(text, "{words} {verdict}").map_err(|_| Memory)
}

/// Writes the last line, the verdict on all flows.
pub fn push_overall_verdict(text: &mut String, yes: bool) -> Result<(), Memory>
    ensures { OnOk result (string_bytes text.new ≡ string_bytes text.old ++ last_line yes) }
{
    let last = if yes { "verdict yes\n" } else { "verdict no\n" };
    text.push_str(last).map_err(|_| Memory)
}

/// A line for each flow of the topology, and the verdict on all flows.
pub(crate) fn check_text(
    alloc: Global,
    topology: &Topology,
    verdicts: &[Verdict],
) -> Result<String, Memory>
    requires lengths { length verdicts.now ≡ length topology.now.flows }
    ensures ok { IfOk result (λ text. string_bytes text ≡ text_of_check topology.now verdicts.now) }
{
    let mut text = String::new(alloc);
    for flow in 0..topology.flows() {
        let verdict = verdicts[flow as usize];
        push_flow_verdict(&mut text, topology, topology.flow(flow), verdict)?;
    }
    push_overall_verdict(&mut text, are_yes(verdicts))?;
    Ok(text)
}
