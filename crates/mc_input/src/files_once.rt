//! The first reading of a folder's files: what is kept for the domain, and to know which of them have to be
//! read once more.

ghost use Rattle.std.specs.Prelude.{◌≡◌, ◌<◌, IfErr, IfOk, List, Some, length, true};
ghost use Rattle.mc_bundle.specs.Device.{failures_after};
ghost use Rattle.mc_files.specs.Files.{FileText};
ghost use Rattle.mc_forward.specs.Domains.{IsDomain};
ghost use Rattle.mc_input.specs.ExcludedRouters.{files_without, input_of_other_files, names_of};
ghost use Rattle.mc_input.specs.Kept.{GivesKeptFromContents, IsDomainOf};
ghost use Rattle.mc_input.specs.ListsOfFiles.{AreWantsOf};
ghost use Rattle.mc_input.specs.SourceFault.{is_possible_for_files, is_read};
ghost use Rattle.mc_input.specs.SummariesOfFiles.{AreSummariesOf};

use crate::cache_keeper::SummaryKeeper;
use crate::domain::FolderOptions;
use crate::file_slots::FileSlots;
use crate::list_keeper::WantKeeper;
use crate::part_result::summary_pairs;
use crate::source_fault::SourceFault;
use crate::walk::read_contents;
use mc_asked::{LanWants, WantAnswers};
use mc_files::PieceSource;
use mc_forward::{Domain, source_group_pairs};
use mc_tables::CacheSummary;
use mc_topology::Topology;
use std::alloc::Global;

/// What is made of a folder's files when each is read for the first time.
#[derive(Drop)]
pub(crate) struct FilesOnce {
    /// The domain.
    pub(crate) domain: Domain,
    /// The summary of each router's cache, in the order of the topology.
    pub(crate) summary: Vec<CacheSummary>,
    /// What is kept of the wants of each LAN's list, in the order of the topology.
    pub(crate) wants: Vec<LanWants>,
}

/// Reads each file after the topology's for the first time, in pieces through the buffer: the domain of this
/// topology with some routers excluded, the summaries of the caches, and what is kept of the wants of the
/// lists.
pub(crate) fn read_files_once<F: PieceSource>(
    alloc: Global,
    files: &mut F,
    buffer: &mut [u8],
    topology: Topology,
    without: &[&str],
    options: FolderOptions,
) -> Result<FilesOnce, SourceFault>
    requires room { 0 < length buffer.old }
    requires reads { F.failed files.old < u64.MAX }
    ensures same { F.borrows files.new ≡ F.borrows files.old }
    ensures kept { F.contents files.new ≡ F.contents files.old }
    ensures domain { GivesKeptFromContents (F.contents files.old) (λ read. IsDomainOf read.domain) result
        (input_of_other_files topology (names_of without.now)) }
    ensures topology { IfOk result (λ read. read.domain.topology ≡ topology) }
    ensures rules { IfOk result (λ read. IsDomain read.domain) }
    ensures summary { (contents : List FileText) → F.contents files.old ≡ Some contents → IfOk result (λ read.
        AreSummariesOf options.all (files_without without.now contents)
        read.domain.topology read.summary.items) }
    ensures wants { (contents : List FileText) → F.contents files.old ≡ Some contents → IfOk result (λ read.
        AreWantsOf options.all options.ignored.items (files_without without.now contents)
        read.domain.topology read.wants.items) }
    ensures count { IfOk result (λ read. length read.wants.items ≡ length read.domain.topology.lans) }
    ensures faults { IfErr result (λ fault. is_possible_for_files fault ≡ true) }
    ensures failures { F.failed files.new ≡ failures_after is_read result (F.failed files.old) }
{
    let FolderOptions { all, ignored } = options;
    let mut keeper = SummaryKeeper {
        listed: summary_pairs(alloc, &topology)?,
        all,
        summary: Vec::new(alloc),
    };
    let flows = source_group_pairs(alloc, &topology)?;
    let answers = WantAnswers::of(alloc, &topology, flows, ignored)?;
    let mut list_keeper = WantKeeper {
        answers,
        all,
        wants: Vec::new(alloc),
    };
    let mut slots = FileSlots { files, without };
    let read = read_contents(
        alloc,
        &mut slots,
        buffer,
        &topology,
        &mut keeper,
        &mut list_keeper,
    );
    let _files = slots.into_files();
    let kept = read?;
    let domain = Domain::from_wants(alloc, topology, kept.tables, kept.wants)?;
    Ok(FilesOnce {
        domain,
        summary: keeper.summary,
        wants: list_keeper.wants,
    })
}
