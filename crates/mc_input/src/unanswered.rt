//! What hosts ask for and no flow answers, by the lists and the caches of a folder.

ghost use Rattle.std.specs.Prelude.{◌≡◌, ◌<◌, ◌^◌, ℕ, Bool, IfErr, IfOk, List, OnOk, Some, length, map};
ghost use Rattle.std.specs.Prelude.{slice_get, true};
ghost use Rattle.std.specs.List.Sorted.{IsStrictlySortedBy};
ghost use Rattle.mc_bundle.specs.Device.{failures_after};
ghost use Rattle.mc_igmp.specs.declared.record.Record.{Record};
ghost use Rattle.mc_tables.specs.CacheTable.{key_cmp};
ghost use Rattle.mc_tables.specs.Summary.{SummaryValue};
ghost use Rattle.mc_files.specs.Files.{FileText};
ghost use Rattle.mc_asked.specs.Answers.{AnswersValue};
ghost use Rattle.mc_asked.specs.AskedLines.{asked_lines, lan_wants_from};
ghost use Rattle.mc_asked.specs.LanWants.{LanWantsValue};
ghost use Rattle.mc_asked.specs.Unadmitted.{with_unadmitted};
ghost use Rattle.mc_asked.specs.UnadmittedSoFar.{AddsLan};
ghost use Rattle.mc_input.specs.AskedOfFiles.{IsAskedOf};
ghost use Rattle.mc_input.specs.ExcludedRouters.{files_without};
ghost use Rattle.mc_input.specs.ListsOfFiles.{AreListsOf, AreWantsOf};
ghost use Rattle.mc_input.specs.SourceFault.{IsReadOrMemory, is_possible_for_files, is_read};
ghost use Rattle.mc_input.specs.SummariesOfFiles.{AreSummariesOf};

use crate::file_again::read_file_again;
use crate::source_fault::SourceFault;
use crate::states::read_states;
use mc_asked::{
    AskedLines, AskedWant, LanWants, RouterState, SharedPair, UnadmittedSources, count_wants,
    service_lines,
};
use mc_files::{NumberedSlot, PieceSource};
use mc_forward::{Domain, Items};
use mc_igmp::ListReader;
use mc_topology::{LanNo, Topology};
use std::alloc::Global;
use std::marker::Model;

/// What hosts ask for and no flow answers. Its value in contracts is the record of its fields.
#[derive(Debug, Drop)]
pub struct UnansweredWants {
    lines: Vec<SharedPair>,
    count: u128,
    further: u128,
    services: Vec<SharedPair>,
    states: Vec<Items<RouterState>>,
}

impl Model for UnansweredWants {
    ghost use Rattle.mc_input.specs.AskedOfFiles.{UnansweredWantsValue};

    ghost Value = { UnansweredWantsValue };

    ghost view = { λ s. record {
      lines = s.lines.items;
      count = s.count;
      further = s.further;
      services = s.services.items;
      states = s.states.items;
    } };
}

impl UnansweredWants {
    /// The wants that are shown, ascending, each a group and a source, which is 0.0.0.0 for any, and the LANs
    /// whose want it is.
    pub fn lines(&self) -> &[SharedPair]
        ensures { result.now ≡ self.now.lines }
    {
        &self.lines
    }

    /// How many wants no flow answers, where a LAN and a want count one.
    pub fn count(&self) -> u128
        ensures { result ≡ self.now.count }
    {
        self.count
    }

    /// How many of these are in none of the lines.
    pub fn further(&self) -> u128
        ensures { result ≡ self.now.further }
    {
        self.further
    }

    /// The groups of services for which hosts ask, ascending, each with the LANs whose hosts do. The second
    /// address of each pair is 0.0.0.0.
    pub fn services(&self) -> &[SharedPair]
        ensures { result.now ≡ self.now.services }
    {
        &self.services
    }

    /// By router, in the order of the topology, what it has for the want of each line, in their order.
    pub fn states(&self) -> &[Items<RouterState>]
        ensures { result.now ≡ self.now.states }
    {
        &self.states
    }
}

/// Takes the list of a LAN, of which these are the wants by LAN. It is read once more if it is needed.
fn take_list<F: PieceSource>(
    alloc: Global,
    files: &mut F,
    buffer: &mut [u8],
    topology: &Topology,
    without: &[&str],
    wants: &[LanWants],
    lan: u32,
    sources: &mut UnadmittedSources,
) -> Result<(), SourceFault>
    requires count { length wants.now ≡ length topology.now.lans }
    requires lan { lan < length topology.now.lans }
    requires room { 0 < length buffer.old }
    requires failures { F.failed files.old < u64.MAX }
    ensures same { F.borrows files.new ≡ F.borrows files.old }
    ensures kept { F.contents files.new ≡ F.contents files.old }
    ensures sources { (own : LanWantsValue) (lists : List (List Record)) (contents : List FileText) →
        slice_get wants.now lan ≡ Some own → F.contents files.old ≡ Some contents →
        AreListsOf (files_without without.now contents) topology.now lists →
        OnOk result (AddsLan own sources.old sources.new lists lan) }
    ensures fault { (lists : List (List Record)) (contents : List FileText) →
        F.contents files.old ≡ Some contents →
        AreListsOf (files_without without.now contents) topology.now lists → IfErr result IsReadOrMemory }
    ensures faults { IfErr result (λ fault. is_possible_for_files fault ≡ true) }
    ensures failures { F.failed files.new ≡ failures_after is_read result (F.failed files.old) }
{
    let own = &wants[lan as usize];
    if !sources.needs_list(own) {
        return Ok(());
    }
    let slot = NumberedSlot::reports(topology, LanNo(lan));
    let reader = ListReader::new(alloc);
    let list = read_file_again(alloc, files, buffer, without, &slot, reader)?;
    sources.add_list(alloc, own, &list)?;
    Ok(())
}

/// The wants of lines, each with the sources that the filter of none of its LANs admits. The lists of the
/// LANs of lines for any source are read once more.
fn read_asked_wants<F: PieceSource>(
    alloc: Global,
    files: &mut F,
    buffer: &mut [u8],
    topology: &Topology,
    without: &[&str],
    wants: &[LanWants],
    lines: &[SharedPair],
) -> Result<Vec<AskedWant>, SourceFault>
    requires count { length wants.now ≡ length topology.now.lans }
    requires sorted { IsStrictlySortedBy key_cmp (map (λ line. line.0) lines.now) }
    requires room { 0 < length buffer.old }
    requires failures { F.failed files.old < u64.MAX }
    ensures same { F.borrows files.new ≡ F.borrows files.old }
    ensures kept { F.contents files.new ≡ F.contents files.old }
    ensures wants { (all : Bool) (answers : AnswersValue) (lists : List (List Record))
        (contents : List FileText) →
        F.contents files.old ≡ Some contents →
        AreListsOf (files_without without.now contents) topology.now lists →
        wants.now ≡ lan_wants_from all answers 0 lists → lines.now ≡ asked_lines all wants.now →
        IfOk result (λ asked. asked.items ≡ map (with_unadmitted lists) lines.now) }
    ensures sorted { IfOk result (λ asked. IsStrictlySortedBy key_cmp
        (map (λ words. words.0) asked.items)) }
    ensures fault { (lists : List (List Record)) (contents : List FileText) →
        F.contents files.old ≡ Some contents →
        AreListsOf (files_without without.now contents) topology.now lists → IfErr result IsReadOrMemory }
    ensures faults { IfErr result (λ fault. is_possible_for_files fault ≡ true) }
    ensures failures { F.failed files.new ≡ failures_after is_read result (F.failed files.old) }
{
    let mut sources = UnadmittedSources::of_lines(alloc, lines)?;
    for lan in 0..topology.lans() {
        take_list(
            alloc,
            files,
            buffer,
            topology,
            without,
            wants,
            lan,
            &mut sources,
        )?;
    }
    Ok(sources.into_wants(alloc)?)
}

/// What is said of wants that were kept when the files of a folder were read as this domain. The lists and
/// the caches that are needed for it are read once more.
pub(crate) fn read_unanswered<F: PieceSource>(
    alloc: Global,
    files: &mut F,
    buffer: &mut [u8],
    domain: &Domain,
    without: &[&str],
    wants: &[LanWants],
    all: bool,
) -> Result<UnansweredWants, SourceFault>
    requires count { length wants.now ≡ length domain.now.topology.lans }
    requires few { length wants.now < 2 ^ 32 }
    requires room { 0 < length buffer.old }
    requires failures { F.failed files.old < u64.MAX }
    ensures same { F.borrows files.new ≡ F.borrows files.old }
    ensures kept { F.contents files.new ≡ F.contents files.old }
    ensures asked { (ignored : List (ℕ × ℕ)) (summary : List SummaryValue) (contents : List FileText) →
        F.contents files.old ≡ Some contents →
        AreWantsOf all ignored (files_without without.now contents) domain.now.topology wants.now →
        AreSummariesOf all (files_without without.now contents) domain.now.topology summary →
        IfOk result (IsAskedOf all ignored (files_without without.now contents) domain.now) }
    ensures fault { (ignored : List (ℕ × ℕ)) (summary : List SummaryValue) (contents : List FileText) →
        F.contents files.old ≡ Some contents →
        AreWantsOf all ignored (files_without without.now contents) domain.now.topology wants.now →
        AreSummariesOf all (files_without without.now contents) domain.now.topology summary →
        IfErr result IsReadOrMemory }
    ensures faults { IfErr result (λ fault. is_possible_for_files fault ≡ true) }
    ensures failures { F.failed files.new ≡ failures_after is_read result (F.failed files.old) }
{
    let topology = domain.topology();
    let asked = AskedLines::of(alloc, wants, all)?;
    let services = service_lines(alloc, wants)?;
    let lines = asked.lines;
    let needed = read_asked_wants(alloc, files, buffer, topology, without, wants, &lines)?;
    let states = read_states(alloc, files, buffer, domain, without, &needed)?;
    Ok(UnansweredWants {
        lines,
        count: count_wants(wants),
        further: asked.further,
        services,
        states,
    })
}
