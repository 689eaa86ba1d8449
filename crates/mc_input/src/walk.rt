//! One walk over the slots of a domain, whatever gives their parts.

ghost use Rattle.std.specs.Prelude.{◌≡◌, ◌<◌, ◌≤◌, ◌+◌, ◌*◌, [], List, Some, Ok, Err, IfOk};
ghost use Rattle.std.specs.Prelude.{◌++◌, ◌∷◌, IfErr, OnOk, false, true, length, map, Result};
ghost use Rattle.mc_bundle.specs.Bundle.{PartText};
ghost use Rattle.mc_bundle.specs.Device.{failures_after};
ghost use Rattle.mc_igmp.specs.declared.record.Record.{Record};
ghost use Rattle.mc_files.specs.Layout.{first_lan_number};
ghost use Rattle.mc_forward.specs.Assembling.{AreAnswers, AreWanted};
ghost use Rattle.mc_forward.specs.ListedTables.{flow_pairs};
ghost use Rattle.mc_forward.specs.RouterTables.{AreTablesFor, kept_of_tables};
ghost use Rattle.mc_input.specs.Kept.{AreContentsOf, AreFlowPairs, AreWantedBy};
ghost use Rattle.mc_input.specs.PartsOneByOne.{certificate_number};
ghost use Rattle.mc_input.specs.SourceFault.{IsReadOrMemory, is_possible_for_files, is_read};
ghost use Rattle.mc_input.specs.Stream.{ContentsRead, IsFaultBeforeOrOwn, IsFaultOfStream, IsReaderOf};
ghost use Rattle.mc_input.specs.Stream.{KeepsOfFirst, RouterRead, Stream, input_of_contents};
ghost use Rattle.mc_input.specs.Stream.{read_contents, read_first, read_lans, read_routers};
ghost use Rattle.mc_input.specs.Stream.{read_stream, value_and_rest};
ghost use Rattle.mc_input.specs.declared.fault.InputFault.{InputFault as Fault};
ghost use Rattle.mc_input.specs.declared.source_fault.SourceFault.TheVariants.{Input};

use crate::cache_keeper::CacheKeeper;
use crate::fault::InputFault;
use crate::list_keeper::ListKeeper;
use crate::part_reader::PartReader;
use crate::slots::Slots;
use crate::source_fault::SourceFault;
use mc_files::NumberedSlot;
use mc_forward::{FlowChannels, Items, RouterTables, Tables};
use mc_igmp::{ListReader, ReportList};
use mc_tables::VifReader;
use mc_text::Memory;
use mc_topology::{LanNo, RouterNo, Topology};
use std::alloc::Global;

/// The value of a slot's part, which was fed last, or what is answered for its fault.
fn value_or_refusal<S: Slots, K: Drop>(
    slots: &mut S,
    slot: &NumberedSlot<'_>,
    part_result: Result<K, InputFault>,
) -> Result<K, SourceFault>
    requires possible { IfErr part_result (λ fault. is_possible_for_files (Input fault) ≡ true) }
    requires failures { S.failed slots.old < u64.MAX }
    ensures kept { IfOk result (λ kept. (part_result ≡ Ok kept) × (slots.new ≡ slots.old)) }
    ensures fault { (stream : Stream) →
        S.gives slots.old slot.now.topology (slot.now.number + 1) ≡ Some stream →
        IfErr result (λ fault. ¬ IsReadOrMemory fault →
        (own : Fault) × (part_result ≡ Err own) × IsFaultBeforeOrOwn stream own fault) }
    ensures faults { IfErr result (λ fault. S.is_possible fault ≡ true) }
    ensures advances { S.advances slots.old slots.new }
    ensures failures { S.failed slots.new ≡ failures_after is_read result (S.failed slots.old) }
{
    match part_result {
        Ok(kept) => Ok(kept),
        Err(InputFault::Memory) => Err(SourceFault::Input(InputFault::Memory)),
        Err(fault) => Err(slots.refuse(slot, fault)),
    }
}

/// What a reader reads of the part of a slot.
pub(crate) fn read_slot<S: Slots, R: PartReader + Drop>(
    alloc: Global,
    slots: &mut S,
    buffer: &mut [u8],
    slot: &NumberedSlot<'_>,
    reader: R,
) -> Result<R::Out, SourceFault>
    requires room { 0 < length buffer.old }
    requires start { R.size reader ≡ 0 }
    requires failures { S.failed slots.old < u64.MAX }
    ensures value { (read : PartText → Result R.Out Fault) → IsReaderOf (R.part_result reader) read →
        IfOk result (λ kept. KeepsOfFirst (S.gives slots.old slot.now.topology slot.now.number)
        (S.gives slots.new slot.now.topology (slot.now.number + 1)) read (λ value. kept ≡ value)) }
    ensures fault { (read : PartText → Result R.Out Fault) → IsReaderOf (R.part_result reader) read →
        IfErr result
        (IsFaultOfStream (S.gives slots.old slot.now.topology slot.now.number) (read_first read)) }
    ensures faults { IfErr result (λ fault. S.is_possible fault ≡ true) }
    ensures advances { S.advances slots.old slots.new }
    ensures failures { S.failed slots.new ≡ failures_after is_read result (S.failed slots.old) }
{
    let mut reader = reader;
    let name = slots.feed(alloc, slot, buffer, &mut reader)?;
    value_or_refusal(slots, slot, reader.finished(name))
}

/// Reads the tables of each router, of which what the flows need is kept.
fn read_tables<S: Slots, K: CacheKeeper>(
    alloc: Global,
    slots: &mut S,
    buffer: &mut [u8],
    topology: &Topology,
    keeper: &mut K,
) -> Result<RouterTables, SourceFault>
    requires listed { AreFlowPairs topology.now.flows (K.settings keeper.old).0 }
    requires none_kept { K.has_kept keeper.old topology.now.flows [] }
    requires room { 0 < length buffer.old }
    requires failures { S.failed slots.old < u64.MAX }
    ensures tables { IfOk result (λ tables. (stream : Stream) →
        S.gives slots.old topology.now 1 ≡ Some stream →
        (later : Stream) × (reads : List RouterRead)
        × (S.gives slots.new topology.now (first_lan_number topology.now) ≡ Some later)
        × (tables ≡ kept_of_tables topology.now.flows (map (λ read. read.tables) reads))
        × K.has_kept keeper.new topology.now.flows reads
        × (read_stream (read_routers topology.now.routers) stream ≡ value_and_rest reads later)) }
    ensures counts { IfOk result (AreTablesFor topology.now) }
    ensures settings { K.settings keeper.new ≡ K.settings keeper.old }
    ensures fault { IfErr result (IsFaultOfStream (S.gives slots.old topology.now 1)
        (read_routers topology.now.routers)) }
    ensures faults { IfErr result (λ fault. S.is_possible fault ≡ true) }
    ensures advances { S.advances slots.old slots.new }
    ensures failures { S.failed slots.new ≡ failures_after is_read result (S.failed slots.old) }
{
    let mut tables = RouterTables::new(alloc, topology)?;
    for router in 0..topology.routers() {
        let vif_slot = NumberedSlot::vifs(topology, RouterNo(router));
        let cache_slot = NumberedSlot::cache(topology, RouterNo(router));
        let order = topology.order(RouterNo(router));
        let reader = VifReader::new(alloc);
        let vifs = read_slot(alloc, slots, buffer, &vif_slot, reader)?;
        let cache = keeper.read_cache(alloc, slots, buffer, &cache_slot, order)?;
        tables.add(alloc, topology, Tables { vifs, cache })?;
    }
    Ok(tables)
}

/// Answers which flows the next LAN wants by its reports, of which the keeper keeps what it does.
fn take_reports<L: ListKeeper>(
    alloc: Global,
    topology: &Topology,
    channels: &FlowChannels,
    lan: LanNo,
    reports: &ReportList,
    keeper: &mut L,
) -> Result<Items<bool>, Memory>
    requires channels { channels.now ≡ flow_pairs topology.now.flows }
    requires ready { L.is_ready keeper.old topology.now.flows }
    ensures wanted { IfOk result (AreWanted topology.now.flows reports.now) }
    ensures ready { L.is_ready keeper.new topology.now.flows }
    ensures settings { L.settings keeper.new ≡ L.settings keeper.old }
    ensures kept { (lists : List (List Record)) → OnOk result (length lists ≡ lan →
        L.has_kept keeper.old lists → L.has_kept keeper.new (lists ++ reports.now ∷ [])) }
{
    let wants = channels.wanted(alloc, reports)?;
    keeper.keep_list(alloc, topology, lan, reports, &wants)?;
    Ok(Items::of(wants.wanted))
}

/// Reads which flows each LAN wants, and keeps of the lists what the keeper does.
fn read_wants<S: Slots, L: ListKeeper>(
    alloc: Global,
    slots: &mut S,
    buffer: &mut [u8],
    topology: &Topology,
    keeper: &mut L,
) -> Result<Vec<Items<bool>>, SourceFault>
    requires ready { L.is_ready keeper.old topology.now.flows }
    requires none_kept { L.has_kept keeper.old [] }
    requires room { 0 < length buffer.old }
    requires failures { S.failed slots.old < u64.MAX }
    ensures wants { IfOk result (λ wants. (stream : Stream) →
        S.gives slots.old topology.now (first_lan_number topology.now) ≡ Some stream →
        (later : Stream) × (reports : List (List Record))
        × (S.gives slots.new topology.now (certificate_number topology.now) ≡ Some later)
        × AreWantedBy topology.now reports wants.items
        × L.has_kept keeper.new reports
        × (read_stream (read_lans topology.now.lans) stream ≡ value_and_rest reports later)) }
    ensures answers { IfOk result (λ wants. AreAnswers topology.now wants.items) }
    // Whatever the source gives, something of a list for each LAN is kept.
    ensures lists { OnOk result ((lists : List (List Record)) × (length lists ≡ length topology.now.lans)
        × L.has_kept keeper.new lists) }
    ensures settings { L.settings keeper.new ≡ L.settings keeper.old }
    ensures fault { IfErr result
        (IsFaultOfStream (S.gives slots.old topology.now (first_lan_number topology.now))
        (read_lans topology.now.lans)) }
    ensures faults { IfErr result (λ fault. S.is_possible fault ≡ true) }
    ensures advances { S.advances slots.old slots.new }
    ensures failures { S.failed slots.new ≡ failures_after is_read result (S.failed slots.old) }
{
    let channels = FlowChannels::of(alloc, topology)?;
    let mut wants = Vec::new(alloc);
    for lan in 0..topology.lans() {
        let slot = NumberedSlot::reports(topology, LanNo(lan));
        let reader = ListReader::new(alloc);
        let reports = read_slot(alloc, slots, buffer, &slot, reader)?;
        let wanted = take_reports(alloc, topology, &channels, LanNo(lan), &reports, keeper)?;
        wants.push(wanted)?;
    }
    Ok(wants)
}

/// What is kept of the contents of a domain's parts.
#[derive(Drop)]
pub(crate) struct Contents {
    /// Each router's vifs, and its rows for the flows.
    pub(crate) tables: RouterTables,
    /// For each LAN, which flows it wants.
    pub(crate) wants: Vec<Items<bool>>,
}

/// Reads the tables of the routers and the reports of the LANs.
pub(crate) fn read_contents<S: Slots, K: CacheKeeper, L: ListKeeper>(
    alloc: Global,
    slots: &mut S,
    buffer: &mut [u8],
    topology: &Topology,
    keeper: &mut K,
    list_keeper: &mut L,
) -> Result<Contents, SourceFault>
    requires listed { AreFlowPairs topology.now.flows (K.settings keeper.old).0 }
    requires none_kept { K.has_kept keeper.old topology.now.flows [] }
    requires ready { L.is_ready list_keeper.old topology.now.flows }
    requires no_lists { L.has_kept list_keeper.old [] }
    requires room { 0 < length buffer.old }
    requires failures { S.failed slots.old < u64.MAX }
    ensures read { IfOk result (λ kept. (stream : Stream) →
        S.gives slots.old topology.now 1 ≡ Some stream →
        (later : Stream) × (read : ContentsRead)
        × (S.gives slots.new topology.now (certificate_number topology.now) ≡ Some later)
        × AreContentsOf topology.now kept.tables kept.wants.items (input_of_contents topology.now read)
        × K.has_kept keeper.new topology.now.flows read.0 × L.has_kept list_keeper.new read.1
        × (read_stream (read_contents topology.now) stream ≡ value_and_rest read later)) }
    ensures counts { IfOk result (λ kept. AreTablesFor topology.now kept.tables) }
    ensures answers { IfOk result (λ kept. AreAnswers topology.now kept.wants.items) }
    ensures lists { OnOk result ((lists : List (List Record)) × (length lists ≡ length topology.now.lans)
        × L.has_kept list_keeper.new lists) }
    ensures settings { K.settings keeper.new ≡ K.settings keeper.old }
    ensures list_settings { L.settings list_keeper.new ≡ L.settings list_keeper.old }
    ensures fault { IfErr result (IsFaultOfStream (S.gives slots.old topology.now 1)
        (read_contents topology.now)) }
    ensures faults { IfErr result (λ fault. S.is_possible fault ≡ true) }
    ensures advances { S.advances slots.old slots.new }
    ensures failures { S.failed slots.new ≡ failures_after is_read result (S.failed slots.old) }
{
    let tables = read_tables(alloc, slots, buffer, topology, keeper)?;
    let wants = read_wants(alloc, slots, buffer, topology, list_keeper)?;
    Ok(Contents { tables, wants })
}
