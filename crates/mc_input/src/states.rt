//! Reads what the routers have for wants that no flow answers.

ghost use Rattle.std.specs.Prelude.{◌≡◌, ◌<◌, ℕ, Bool, IfErr, IfOk, List, Some, length, map, slice_get, true};
ghost use Rattle.std.specs.FinMap.{FinMap};
ghost use Rattle.std.specs.List.Sorted.{IsStrictlySortedBy};
ghost use Rattle.std.specs.Ordering.{nat_cmp};
ghost use Rattle.mc_bundle.specs.Device.{failures_after};
ghost use Rattle.mc_tables.specs.CacheTable.{key_cmp};
ghost use Rattle.mc_tables.specs.Summary.{SummaryValue};
ghost use Rattle.mc_tables.specs.VifTable.{VifValue};
ghost use Rattle.mc_topology.specs.SectionRows.{RouterRow};
ghost use Rattle.mc_files.specs.Files.{FileText};
ghost use Rattle.mc_input.specs.ExcludedRouters.{files_without};
ghost use Rattle.mc_input.specs.SourceFault.{IsReadOrMemory, is_possible_for_files, is_read};
ghost use Rattle.mc_input.specs.StatesOfFiles.{AreStatesOf, AreStatesOfRouter};
ghost use Rattle.mc_input.specs.SummariesOfFiles.{AreSummariesOf};

use crate::file_again::read_file_again;
use crate::source_fault::SourceFault;
use mc_asked::{AskedWant, RouterState, WantStates};
use mc_files::{NumberedSlot, PieceSource};
use mc_forward::{Domain, Items};
use mc_tables::EachRowReader;
use mc_topology::RouterNo;
use std::alloc::Global;

/// What a router has for each of the wants, by its cache, which isn't read where there are none.
fn read_states_of_router<F: PieceSource>(
    alloc: Global,
    files: &mut F,
    buffer: &mut [u8],
    domain: &Domain,
    without: &[&str],
    wants: &[AskedWant],
    router: u32,
) -> Result<Vec<RouterState>, SourceFault>
    requires sorted { IsStrictlySortedBy key_cmp (map (λ words. words.0) wants.now) }
    requires router { router < length domain.now.topology.routers }
    requires room { 0 < length buffer.old }
    requires failures { F.failed files.old < u64.MAX }
    ensures same { F.borrows files.new ≡ F.borrows files.old }
    ensures kept { F.contents files.new ≡ F.contents files.old }
    ensures states { (all : Bool) (contents : List FileText) (summary : List SummaryValue)
        (row : RouterRow)
        (vifs : FinMap nat_cmp VifValue) → F.contents files.old ≡ Some contents →
        AreSummariesOf all (files_without without.now contents) domain.now.topology summary →
        slice_get domain.now.topology.routers router ≡ Some row
        → slice_get domain.now.vifs router ≡ Some vifs →
        IfOk result (λ states.
        AreStatesOfRouter (files_without without.now contents) wants.now vifs row states.items) }
    ensures fault { (all : Bool) (contents : List FileText) (summary : List SummaryValue) →
        F.contents files.old ≡ Some contents →
        AreSummariesOf all (files_without without.now contents) domain.now.topology summary →
        IfErr result IsReadOrMemory }
    ensures faults { IfErr result (λ fault. is_possible_for_files fault ≡ true) }
    ensures failures { F.failed files.new ≡ failures_after is_read result (F.failed files.old) }
{
    if wants.is_empty() {
        return Ok(Vec::new(alloc));
    }
    let topology = domain.topology();
    let order = topology.order(RouterNo(router));
    let start = WantStates::new(alloc, domain.vifs(RouterNo(router)), wants)?;
    let reader = EachRowReader::handing_on(alloc, order, start);
    let slot = NumberedSlot::cache(topology, RouterNo(router));
    let stated = read_file_again(alloc, files, buffer, without, &slot, reader)?;
    Ok(stated.states(alloc)?)
}

/// Reads once more the caches of a folder that was read as a domain with the routers of these names
/// excluded, and answers what each router has for each of some wants, in the order of the topology. The
/// wants ascend, and each is there once. Where there are none, no cache is read. The source's count of
/// failures has to be below `u64::MAX`.
///
/// # Errors
///
/// The fault of a file that is another one now, or can't be read any more, and `Input` with `Memory` where
/// memory ran out.
pub(crate) fn read_states<F: PieceSource>(
    alloc: Global,
    files: &mut F,
    buffer: &mut [u8],
    domain: &Domain,
    without: &[&str],
    wants: &[AskedWant],
) -> Result<Vec<Items<RouterState>>, SourceFault>
    requires sorted { IsStrictlySortedBy key_cmp (map (λ words. words.0) wants.now) }
    requires room { 0 < length buffer.old }
    requires failures { F.failed files.old < u64.MAX }
    ensures same { F.borrows files.new ≡ F.borrows files.old }
    ensures kept { F.contents files.new ≡ F.contents files.old }
    // If the caches' rows can be read, each router's states are by the rows in its file.
    ensures states { (all : Bool) (contents : List FileText) (summary : List SummaryValue) →
        F.contents files.old ≡ Some contents →
        AreSummariesOf all (files_without without.now contents) domain.now.topology summary →
        IfOk result (λ states.
        AreStatesOf (files_without without.now contents) wants.now domain.now states.items) }
    ensures fault { (all : Bool) (contents : List FileText) (summary : List SummaryValue) →
        F.contents files.old ≡ Some contents →
        AreSummariesOf all (files_without without.now contents) domain.now.topology summary →
        IfErr result IsReadOrMemory }
    ensures faults { IfErr result (λ fault. is_possible_for_files fault ≡ true) }
    ensures failures { F.failed files.new ≡ failures_after is_read result (F.failed files.old) }
{
    let mut states = Vec::new(alloc);
    for router in 0..domain.topology().routers() {
        let own = read_states_of_router(alloc, files, buffer, domain, without, wants, router)?;
        states.push(Items::of(own))?;
    }
    Ok(states)
}
