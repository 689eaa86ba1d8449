//! The wants of a list that no flow answers, as numbers in any order.

ghost use Rattle.std.specs.Prelude.{◌≡◌, ◌∷◌, [], IfOk, List, OnOk, length};
ghost use Rattle.std.specs.Prelude.{filter, flat_map, map, not};
ghost use Rattle.mc_text.specs.Pair.{pair_of};
ghost use Rattle.mc_igmp.specs.declared.record.Record.{Record as IgmpRecord};
ghost use Rattle.mc_tables.specs.Summary.{in_order};
ghost use Rattle.mc_asked.specs.Answers.{is_answered};
ghost use Rattle.mc_asked.specs.Indexes.{AreFlowsWanted, IsIndexOfWantedGroups};
ghost use Rattle.mc_asked.specs.ListWants.{asked_by, included_in};
ghost use Rattle.mc_asked.specs.TakenPairs.{TakesUnanswered};

use crate::answers::WantAnswers;
use crate::few_repeats::FewRepeats;
use crate::wants::group_number;
use mc_igmp::{Kind, Record, ReportList};
use mc_text::{Addr, Index, Memory, pair_number};
use std::alloc::{AllocError, Global};

/// The groups of the flows, each a source and a group, that are wanted.
pub(crate) fn index_of_wanted_groups(
    alloc: Global,
    flows: &[(Addr, Addr)],
    wanted: &[bool],
) -> Result<Index, Memory>
    requires { length wanted.now ≡ length flows.now }
    ensures { IfOk result (λ index. (records : List IgmpRecord) →
        AreFlowsWanted flows.now records wanted.now → IsIndexOfWantedGroups flows.now records index) }
{
    let mut numbers = Vec::new(alloc);
    for flow in 0..flows.len() {
        if wanted[flow] {
            numbers.push(group_number(flows[flow].1))?;
        }
    }
    Index::of(alloc, numbers)
}

/// Whether no flow answers the want.
fn is_unanswered(answers: &WantAnswers, wanted_groups: &Index, want: &(Addr, Addr)) -> bool
    ensures { (records : List IgmpRecord) →
        IsIndexOfWantedGroups answers.now.flows records wanted_groups.now →
        result ≡ not (is_answered answers.now records want.now) }
{
    !answers.is_answered(wanted_groups, want)
}

/// Appends the number of a want unless a flow answers it, or it is known to be there.
fn push_unless_answered(
    unanswered: &mut FewRepeats,
    answers: &WantAnswers,
    wanted_groups: &Index,
    want: &(Addr, Addr),
) -> Result<(), AllocError>
    ensures { OnOk result (TakesUnanswered
        answers.now wanted_groups.now unanswered.old unanswered.new (want.now ∷ [])) }
{
    let number = pair_number(want.0, want.1);
    if !unanswered.is_recent(number) && is_unanswered(answers, wanted_groups, want) {
        unanswered.push(number)?;
    }
    Ok(())
}

/// Appends the number of the want of one source of an INCLUDE record, unless a flow answers it, if a host may
/// send from there.
fn push_included_source(
    unanswered: &mut FewRepeats,
    answers: &WantAnswers,
    wanted_groups: &Index,
    group: Addr,
    source: Addr,
) -> Result<(), AllocError>
    ensures { OnOk result (TakesUnanswered answers.now wanted_groups.now unanswered.old unanswered.new
        (included_in group (source ∷ []))) }
{
    if source.is_source() {
        push_unless_answered(unanswered, answers, wanted_groups, &(group, source))?;
    }
    Ok(())
}

/// Appends the numbers of those of an INCLUDE record's wants that no flow answers.
fn push_included(
    unanswered: &mut FewRepeats,
    answers: &WantAnswers,
    wanted_groups: &Index,
    group_record: &Record<'_>,
) -> Result<(), AllocError>
    ensures { OnOk result (TakesUnanswered answers.now wanted_groups.now unanswered.old unanswered.new
        (included_in group_record.now.group group_record.now.sources)) }
{
    for source in group_record.sources.iter() {
        push_included_source(
            unanswered,
            answers,
            wanted_groups,
            group_record.group,
            source,
        )?;
    }
    Ok(())
}

/// Appends the numbers of those of a record's wants that no flow answers.
fn push_unanswered(
    unanswered: &mut FewRepeats,
    answers: &WantAnswers,
    wanted_groups: &Index,
    group_record: &Record<'_>,
) -> Result<(), AllocError>
    ensures { OnOk result (TakesUnanswered
        answers.now wanted_groups.now unanswered.old unanswered.new (asked_by group_record.now)) }
{
    match group_record.kind {
        Kind::Exclude => {
            let want = (group_record.group, Addr::unspecified());
            push_unless_answered(unanswered, answers, wanted_groups, &want)
        }
        Kind::Include => push_included(unanswered, answers, wanted_groups, group_record),
        Kind::Change(_) | Kind::Unknown(_) => Ok(()),
    }
}

/// The numbers of what the list asks for and no flow answers, in any order, in room in proportion to those
/// that differ.
pub(crate) fn unanswered_in(
    alloc: Global,
    answers: &WantAnswers,
    wanted_groups: &Index,
    list: &ReportList,
) -> Result<Vec<u64>, AllocError>
    ensures { IfOk result (λ unanswered.
        IsIndexOfWantedGroups answers.now.flows list.now wanted_groups.now →
        in_order (map pair_of unanswered.items)
        ≡ in_order (filter (λ want. not (is_answered answers.now list.now want))
        (flat_map asked_by list.now))) }
{
    let mut unanswered = FewRepeats::none(alloc);
    for group_record in list.distinct_records() {
        push_unanswered(&mut unanswered, answers, wanted_groups, &group_record)?;
    }
    Ok(unanswered.into_numbers())
}
