//! Lists all refused files of a folder, each with its own fault.

ghost use Rattle.std.specs.Prelude.{◌≡◌, ◌<◌, List, [], IfOk, OnOk, Some, length, map, slice_get};
ghost use Rattle.std.specs.Result.{result_err};
ghost use Rattle.mc_topology.specs.SectionRows.{RouterRow};
ghost use Rattle.mc_files.specs.Files.{FileText};
ghost use Rattle.mc_input.specs.ExcludedRouters.{names_of};
ghost use Rattle.mc_input.specs.FilesReading.{topology_of_files};
ghost use Rattle.mc_input.specs.RefusedFiles.{AreExactlyRefusedFiles, AreRefusedFiles, ListsRefused};
ghost use Rattle.mc_input.specs.RefusedFiles.{as_judged_file, failure_count, judged_files_of};
ghost use Rattle.mc_input.specs.RefusedFiles.{judged_lans, judged_routers, judged_tables};
ghost use Rattle.mc_input.specs.RefusedFiles.{saturating_failures, unread_count};
ghost use Rattle.mc_input.specs.SourceFault.{GivesFromContents};

use crate::domain::PIECE;
use crate::excluded::is_excluded;
use crate::file_slots::topology_in;
use crate::part_result::listed_pairs;
use crate::refused_file::{RefusedFile, judge_slot, push_if_fault};
use crate::source_fault::SourceFault;
use mc_files::{NumberedSlot, PieceSource, Slot};
use mc_igmp::ListReader;
use mc_tables::{CacheReader, ListedPairs, VifReader};
use mc_text::Memory;
use mc_topology::{LanNo, RouterNo, Topology};
use std::alloc::Global;

/// Reads the topology. Once the source's count of failures is at its maximum, this fails without a
/// call.
fn topology_unless_u64_max<F: PieceSource>(
    alloc: Global,
    files: &mut F,
) -> Result<Topology, SourceFault>
    ensures same { F.borrows files.new ≡ F.borrows files.old }
    ensures kept { F.contents files.new ≡ F.contents files.old }
    ensures topology { GivesFromContents (F.contents files.old) (λ topology. topology) result
        topology_of_files }
    ensures failures { F.failed files.new
        ≡ saturating_failures (failure_count (result_err result)) (F.failed files.old) }
{
    if files.failures() == u64::MAX {
        return Err(SourceFault::Read);
    }
    topology_in(alloc, files)
}

/// Checks the tables of a router, unless it is excluded.
fn judge_tables<F: PieceSource>(
    alloc: Global,
    files: &mut F,
    buffer: &mut [u8],
    topology: &Topology,
    listed: &ListedPairs,
    without: &[&str],
    router: u32,
    refused: &mut Vec<RefusedFile>,
) -> Result<(), Memory>
    requires router { router < length topology.now.routers }
    requires few { router < 256 }
    requires room { 0 < length buffer.old }
    ensures same { F.borrows files.new ≡ F.borrows files.old }
    ensures kept { F.contents files.new ≡ F.contents files.old }
    ensures judged { (row : RouterRow) → slice_get topology.now.routers router ≡ Some row →
        OnOk result (ListsRefused (F.contents files.old) (λ contents.
        judged_tables (names_of without.now) contents row) refused.old.items refused.new.items
        (F.failed files.old) (F.failed files.new)) }
{
    if is_excluded(without, topology.router_name(RouterNo(router))) {
        return Ok(());
    }
    let vif_slot = NumberedSlot::vifs(topology, RouterNo(router));
    let vifs = VifReader::new(alloc);
    judge_slot(alloc, files, buffer, &vif_slot, vifs, refused)?;
    let order = topology.order(RouterNo(router));
    let cache_slot = NumberedSlot::cache(topology, RouterNo(router));
    let cache = CacheReader::new(alloc, order, listed.clone()?);
    judge_slot(alloc, files, buffer, &cache_slot, cache, refused)
}

/// Checks the tables of all routers but the excluded ones.
fn judge_routers<F: PieceSource>(
    alloc: Global,
    files: &mut F,
    buffer: &mut [u8],
    topology: &Topology,
    without: &[&str],
    refused: &mut Vec<RefusedFile>,
) -> Result<(), Memory>
    requires room { 0 < length buffer.old }
    ensures same { F.borrows files.new ≡ F.borrows files.old }
    ensures kept { F.contents files.new ≡ F.contents files.old }
    ensures judged { OnOk result (ListsRefused (F.contents files.old)
        (judged_routers (names_of without.now) topology.now) refused.old.items refused.new.items
        (F.failed files.old) (F.failed files.new)) }
{
    let Ok(listed) = listed_pairs(alloc, topology) else {
        return Err(Memory);
    };
    for router in 0..topology.routers() {
        judge_tables(
            alloc, files, buffer, topology, &listed, without, router, refused,
        )?;
    }
    Ok(())
}

/// Checks the reports of all LANs.
fn judge_lans<F: PieceSource>(
    alloc: Global,
    files: &mut F,
    buffer: &mut [u8],
    topology: &Topology,
    refused: &mut Vec<RefusedFile>,
) -> Result<(), Memory>
    requires room { 0 < length buffer.old }
    ensures same { F.borrows files.new ≡ F.borrows files.old }
    ensures kept { F.contents files.new ≡ F.contents files.old }
    ensures judged { OnOk result (ListsRefused (F.contents files.old) (judged_lans topology.now)
        refused.old.items refused.new.items (F.failed files.old) (F.failed files.new)) }
{
    for lan in 0..topology.lans() {
        let slot = NumberedSlot::reports(topology, LanNo(lan));
        let reader = ListReader::new(alloc);
        judge_slot(alloc, files, buffer, &slot, reader, refused)?;
    }
    Ok(())
}

/// Checks all files that a topology names.
fn judge_topologys_files<F: PieceSource>(
    alloc: Global,
    files: &mut F,
    topology: &Topology,
    without: &[&str],
    refused: &mut Vec<RefusedFile>,
) -> Result<(), Memory>
    ensures same { F.borrows files.new ≡ F.borrows files.old }
    ensures kept { F.contents files.new ≡ F.contents files.old }
    ensures judged { OnOk result (ListsRefused (F.contents files.old)
        (judged_files_of (names_of without.now) topology.now) refused.old.items refused.new.items
        (F.failed files.old) (F.failed files.new)) }
{
    let mut buffer = Vec::from_elem(alloc, 0u8, PIECE)?;
    judge_routers(alloc, files, &mut buffer, topology, without, refused)?;
    judge_lans(alloc, files, &mut buffer, topology, refused)
}

/// Checks all files of a folder.
fn judge_all_files<F: PieceSource>(
    alloc: Global,
    files: &mut F,
    without: &[&str],
    refused: &mut Vec<RefusedFile>,
) -> Result<(), Memory>
    requires empty { refused.old.items ≡ [] }
    ensures same { F.borrows files.new ≡ F.borrows files.old }
    ensures kept { F.contents files.new ≡ F.contents files.old }
    ensures refused { (contents : List FileText) → F.contents files.old ≡ Some contents →
        OnOk result
        (AreRefusedFiles (names_of without.now) contents (map as_judged_file refused.new.items)) }
    ensures failures { OnOk result (F.failed files.new
        ≡ saturating_failures (unread_count (map as_judged_file refused.new.items)) (F.failed files.old)) }
{
    match topology_unless_u64_max(alloc, files) {
        Ok(topology) => judge_topologys_files(alloc, files, &topology, without, refused),
        Err(fault) => push_if_fault(alloc, files, &Slot::topology(), Some(fault), refused),
    }
}

/// Checks each file of a folder by itself, in the order of a domain's slots, and lists those that are
/// refused. A refused topology is listed alone, since it names the other files. The files of routers
/// with these names are excluded, and aren't read.
///
/// # Errors
///
/// `Memory` where a growth was refused.
pub fn refused_files<F: PieceSource>(
    alloc: Global,
    files: &mut F,
    without: &[&str],
) -> Result<Vec<RefusedFile>, Memory>
    ensures same { F.borrows files.new ≡ F.borrows files.old }
    ensures kept { F.contents files.new ≡ F.contents files.old }
    // Exactly the files that have a fault are listed with it, as the source gives the files.
    ensures refused { (contents : List FileText) → F.contents files.old ≡ Some contents →
        IfOk result (λ refused.
        AreRefusedFiles (names_of without.now) contents (map as_judged_file refused.items)) }
    // If the source fails at no existing file, these are the refused files.
    ensures exact { (contents : List FileText) → F.contents files.old ≡ Some contents →
        IfOk result (λ refused.
        AreExactlyRefusedFiles (names_of without.now) contents (map as_judged_file refused.items)) }
    // The source failed at each file that is listed as unread.
    ensures failures { IfOk result (λ refused. F.failed files.new
        ≡ saturating_failures (unread_count (map as_judged_file refused.items)) (F.failed files.old)) }
{
    let mut refused = Vec::new(alloc);
    judge_all_files(alloc, files, without, &mut refused)?;
    Ok(refused)
}
