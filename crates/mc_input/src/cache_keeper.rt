//! What is kept of the routers' caches: the rows of listed flows alone, or also a summary of each cache.

ghost use Rattle.std.specs.Prelude.{◌≡◌, ◌<◌, ◌+◌, ℕ, Bool, List, IfErr, IfOk, Some, false, length};
ghost use Rattle.std.specs.Prelude.{true};
ghost use Rattle.mc_bundle.specs.Device.{failures_after};
ghost use Rattle.mc_tables.specs.ListedRows.{IsListedPart};
ghost use Rattle.mc_topology.specs.declared.flow.Flow.{Flow};
ghost use Rattle.mc_forward.specs.ListedTables.{flow_pairs};
ghost use Rattle.mc_input.specs.Kept.{AreFlowPairs};
ghost use Rattle.mc_input.specs.SourceFault.{is_read};
ghost use Rattle.mc_input.specs.Stream.{IsFaultOfStream, KeepsCacheText, KeepsOfFirst, RouterRead};
ghost use Rattle.mc_input.specs.Stream.{cache_and_text, read_first};

use crate::slots::Slots;
use crate::source_fault::SourceFault;
use crate::walk::read_slot;
use mc_files::NumberedSlot;
use mc_tables::{CacheReader, CacheSummary, CacheTable, ListedPairs, SummaryPairs, SummaryReader};
use mc_text::Order;
use std::alloc::Global;

/// What reads the routers' caches one after another: it gives the rows of the flows, and may keep more of
/// each cache for itself.
pub(crate) trait CacheKeeper {
    // the sources and groups of which it gives the rows, and whether it keeps all others or the lowest ones,
    // if it keeps any
    ghost settings: { Self → List (ℕ × ℕ) × Bool };

    // what it has kept is of the caches of these routers, which were read for these flows
    ghost has_kept: { Self → List Flow → List RouterRead → Type 0 };

    /// Reads the cache of a router with this byte order from the part of its slot, and gives the rows of
    /// the flows.
    fn read_cache<S: Slots>(
        &mut self,
        alloc: Global,
        slots: &mut S,
        buffer: &mut [u8],
        slot: &NumberedSlot<'_>,
        order: Order,
    ) -> Result<CacheTable, SourceFault>
        requires listed { AreFlowPairs slot.now.topology.flows (settings self.old).0 }
        requires room { 0 < length buffer.old }
        requires failures { S.failed slots.old < u64.MAX }
        ensures cache { IfOk result (λ kept.
            KeepsOfFirst (S.gives slots.old slot.now.topology slot.now.number)
            (S.gives slots.new slot.now.topology (slot.now.number + 1)) (cache_and_text order)
            (λ read. IsListedPart (Some (flow_pairs slot.now.topology.flows)) kept read.0
            × KeepsCacheText (has_kept self.old slot.now.topology.flows)
            (has_kept self.new slot.now.topology.flows) order read.1)) }
        ensures settings { settings self.new ≡ settings self.old }
        ensures fault { IfErr result
            (IsFaultOfStream (S.gives slots.old slot.now.topology slot.now.number)
            (read_first (cache_and_text order))) }
        ensures faults { IfErr result (λ fault. S.is_possible fault ≡ true) }
        ensures advances { S.advances slots.old slots.new }
        ensures failures { S.failed slots.new ≡ failures_after is_read result (S.failed slots.old) };
}

/// Gives the rows alone, and keeps nothing.
impl CacheKeeper for ListedPairs {
    ghost use Rattle.std.specs.Prelude.{⊤, false};

    ghost settings = { λ listed. (listed, false) };

    ghost has_kept = { λ _ _ _. ⊤ };

    fn read_cache<S: Slots>(
        &mut self,
        alloc: Global,
        slots: &mut S,
        buffer: &mut [u8],
        slot: &NumberedSlot<'_>,
        order: Order,
    ) -> Result<CacheTable, SourceFault> {
        let reader = CacheReader::new(alloc, order, self.clone()?);
        read_slot(alloc, slots, buffer, slot, reader)
    }
}

/// Gives the rows, and keeps a summary of each cache.
#[derive(Drop)]
pub(crate) struct SummaryKeeper {
    /// The sources and groups of the flows.
    pub(crate) listed: SummaryPairs,
    /// Whether a summary holds all sources and groups that no flow has, or the lowest ones.
    pub(crate) all: bool,
    /// The summaries, router by router.
    pub(crate) summary: Vec<CacheSummary>,
}

impl CacheKeeper for SummaryKeeper {
    ghost use Rattle.mc_forward.specs.ListedTables.{Pairwise, flow_pairs};
    ghost use Rattle.mc_input.specs.SummariesOfFiles.{IsSummaryOfRead};

    ghost settings = { λ s. (s.listed, s.all) };

    ghost has_kept = { λ s flows reads.
        Pairwise (IsSummaryOfRead s.all (flow_pairs flows)) reads s.summary.items };

    fn read_cache<S: Slots>(
        &mut self,
        alloc: Global,
        slots: &mut S,
        buffer: &mut [u8],
        slot: &NumberedSlot<'_>,
        order: Order,
    ) -> Result<CacheTable, SourceFault> {
        let reader = SummaryReader::new(alloc, order, self.listed.clone()?, self.all);
        let read = read_slot(alloc, slots, buffer, slot, reader)?;
        self.summary.push(read.summary)?;
        Ok(read.table)
    }
}
