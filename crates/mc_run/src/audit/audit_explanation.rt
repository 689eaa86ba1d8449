//! Writes as text what explains a finding: its causes, a search if there was one, the other missed LANs, and
//! what is behind a stray.

ghost use Rattle.std.specs.Prelude.{◌≡◌, ◌<◌, ◌++◌, OnOk, length};
ghost use Rattle.std.specs.String.{string_bytes};
ghost use Rattle.mc_explain.specs.ExplanationValues.{explanation_value};
ghost use Rattle.mc_run.specs.AuditPieces.{behind_lines_of, explanation_lines_of, searched_lines_of};
ghost use Rattle.mc_run.specs.AuditPieces.{second_behind_of};

use crate::audit::audit_shown_by::push_shown_from;
use crate::audit::audited_domain::AuditedDomain;
use mc_explain::{Behind, Explanation};
use mc_lines::{push_causes, push_deeper_causes, push_leaks_behind, push_search};
use mc_search::LanSearch;
use mc_shown::push_also_missed;
use mc_text::Memory;
use std::alloc::Global;

/// Writes the lines of a search, if there was one.
fn push_search_if_any(
    alloc: Global,
    text: &mut String,
    audited: &AuditedDomain<'_>,
    flow: u32,
    found: &Option<LanSearch>,
) -> Result<(), Memory>
    requires known { flow < length audited.now.domain.now.topology.flows }
    ensures added { OnOk result (string_bytes text.new ≡ string_bytes text.old
        ++ searched_lines_of audited.now flow found.now) }
{
    match found {
        Some(found) => push_search(alloc, text, audited.domain, audited.summary, flow, found),
        None => Ok(()),
    }
}

/// Writes the second copy behind a stray, if there is one.
fn push_second_behind(
    alloc: Global,
    text: &mut String,
    audited: &AuditedDomain<'_>,
    flow: u32,
    behind: &Behind,
) -> Result<(), Memory>
    requires known { flow < length audited.now.domain.now.topology.flows }
    ensures added { OnOk result (string_bytes text.new ≡ string_bytes text.old
        ++ second_behind_of audited.now flow behind.now) }
{
    let Some(finding) = behind.finding else {
        return Ok(());
    };
    let finding = finding.shown(audited.domain.topology());
    writeln!(text, "  behind it: {finding}")?;
    push_deeper_causes(
        alloc,
        text,
        audited.domain,
        audited.summary,
        flow,
        &behind.causes,
    )?;
    push_shown_from(text, "    ", behind.shown_from)
}

/// Writes what is behind a stray, if the finding is one.
fn push_behind_if_any(
    alloc: Global,
    text: &mut String,
    audited: &AuditedDomain<'_>,
    flow: u32,
    behind: &Option<Behind>,
) -> Result<(), Memory>
    requires known { flow < length audited.now.domain.now.topology.flows }
    ensures added { OnOk result (string_bytes text.new ≡ string_bytes text.old
        ++ behind_lines_of audited.now flow behind.now) }
{
    let Some(behind) = behind else {
        return Ok(());
    };
    push_second_behind(alloc, text, audited, flow, behind)?;
    push_leaks_behind(text, audited.domain, flow, behind)
}

/// Writes what explains a finding of this flow.
pub(crate) fn push_explanation(
    alloc: Global,
    text: &mut String,
    audited: &AuditedDomain<'_>,
    flow: u32,
    explanation: &Explanation<'_>,
) -> Result<(), Memory>
    requires flow { flow < length audited.now.domain.now.topology.flows }
    ensures added { OnOk result (string_bytes text.new ≡ string_bytes text.old
        ++ explanation_lines_of audited.now flow (explanation_value explanation.now)) }
{
    let Explanation {
        causes,
        search,
        also,
        behind,
        ..
    } = *explanation;
    push_causes(text, audited.domain, audited.summary, flow, causes)?;
    push_search_if_any(alloc, text, audited, flow, search)?;
    push_also_missed(text, audited.domain.topology(), also)?;
    push_behind_if_any(alloc, text, audited, flow, behind)
}
