//! Reads the domain that a bundle or a folder's files mean.

ghost use Rattle.std.specs.Prelude.{◌≡◌, ◌<◌, ℕ, Err, IfErr, IfOk, IfSome, List, Some, is_some};
ghost use Rattle.std.specs.Prelude.{true};
ghost use Rattle.mc_bundle.specs.Bundle.{max_input};
ghost use Rattle.mc_bundle.specs.Device.{failures_after};
ghost use Rattle.mc_bundle.specs.RestOfBundle.{Advances};
ghost use Rattle.mc_bundle.specs.ReadFault.{ConsumesUpTo};
ghost use Rattle.mc_text.specs.Steps.{map_fault};
ghost use Rattle.mc_forward.specs.Domains.{IsDomain};
ghost use Rattle.mc_input.specs.InputReading.{input_of_bundle};
ghost use Rattle.mc_input.specs.InputView.{certificate_text};
ghost use Rattle.mc_input.specs.ExcludedRouters.{AreRouterNames, IsReadOrMemoryWithout, files_without};
ghost use Rattle.mc_input.specs.ExcludedRouters.{input_of_files_without, is_possible_for_files_without};
ghost use Rattle.mc_input.specs.ExcludedRouters.{is_read_without, names_of};
ghost use Rattle.mc_input.specs.Meaning.{FilesMeanDomain, MeansDomain};
ghost use Rattle.mc_input.specs.ReadAsMeant.{AreFilesReadAsMeant, IsBundleReadAsMeant};
ghost use Rattle.mc_input.specs.AskedOfFiles.{IsAskedOf};
ghost use Rattle.mc_input.specs.SummariesOfFiles.{AreSummariesOf};
ghost use Rattle.mc_input.specs.PartsOneByOne.{ReadsDomain, IsFaultOf, read_all_parts};
ghost use Rattle.mc_input.specs.SourceFault.{IsReadOrMemory, is_read};
ghost use Rattle.mc_input.specs.declared.source_fault.SourceFault.TheVariants.{Input as refused};

use crate::bundle_part::topology_in;
use crate::bundle_slots::{BundleSlots, read_bundle_contents};
use crate::excluded::check_names;
use crate::exclusion_fault::ExclusionFault;
use crate::file_slots::topology_in as topology_of_files;
use crate::files_once::{FilesOnce, read_files_once};
use crate::source_fault::SourceFault;
use crate::unanswered::{UnansweredWants, read_unanswered};
use mc_bundle::{Input, Parts};
use mc_files::PieceSource;
use mc_forward::Domain;
use mc_tables::CacheSummary;
use mc_text::GroupRange;
use std::alloc::Global;

/// How many bytes of a part or a file are read at once.
pub const PIECE: usize = 65_536;

/// A domain, and the text of the certificate if one was asked for.
#[derive(Drop)]
pub struct BundleDomain {
    /// The domain.
    pub domain: Domain,
    /// The text of the certificate.
    pub certificate: Option<Vec<u8>>,
}

/// Reads the domain from the parts of a bundle, in pieces.
fn read_parts<R: Input>(
    alloc: Global,
    slots: &mut BundleSlots<R>,
) -> Result<BundleDomain, SourceFault>
    requires { slots.old.parts.failed < u64.MAX }
    ensures read { IfOk result (λ read. (text : List ℕ) → slots.old.parts.remaining ≡ Some text →
        ReadsDomain slots.old.parts text slots.old.certified read.domain
        (certificate_text read.certificate)) }
    ensures certified { IfOk result (λ read. is_some read.certificate ≡ slots.old.certified) }
    ensures rules { IfOk result (λ read. IsDomain read.domain) }
    ensures fault { IfErr result (IsFaultOf slots.old.parts (read_all_parts slots.old.certified)) }
    ensures advances { Advances slots.old.parts slots.new.parts }
    ensures failures { slots.new.parts.failed
        ≡ failures_after is_read result slots.old.parts.failed }
{
    let mut buffer = Vec::from_elem(alloc, 0u8, PIECE)?;
    let topology = topology_in(alloc, &mut slots.parts, &mut buffer)?;
    let listed = read_bundle_contents(alloc, slots, &mut buffer, &topology)?;
    let certificate = listed.certificate;
    let kept = listed.kept;
    let domain = Domain::from_wants(alloc, topology, kept.tables, kept.wants)?;
    Ok(BundleDomain {
        domain,
        certificate,
    })
}

/// Reads the domain that an input's bundle means: the parts `topology`, `vif/<router>` and
/// `cache/<router>` for each router, `igmp/<lan>` for each LAN, each in the order of the topology,
/// and `certificate` if `certified`. The parts are read in pieces, and no part's text is kept but the
/// certificate's; of the caches only the rows of listed flows are kept. The input's count of failures
/// has to be below `u64::MAX`.
///
/// # Errors
///
/// The first fault in this order: of the framing of the whole bundle, of the first part's name, of
/// the topology, of the names and the number of all parts, and of their contents one after another.
/// So the bundle is read to its end also after a fault. `Read` where the input failed, and `Input`
/// with `Memory` where memory ran out, each at once.
pub fn read_bundle_domain<R: Input>(
    alloc: Global,
    input: &mut R,
    certified: bool,
) -> Result<BundleDomain, SourceFault>
    requires failures { R.failed input.old < u64.MAX }
    ensures same { R.borrows input.new ≡ R.borrows input.old }
    // The bundle means the domain, with this certificate.
    ensures means { IfOk result (λ read. IfSome (R.remaining input.old) (λ text.
        MeansDomain text (certificate_text read.certificate) read.domain)) }
    // It has the text of a certificate exactly where one was asked for.
    ensures certified { IfOk result (λ read. is_some read.certificate ≡ certified) }
    ensures rules { IfOk result (λ read. IsDomain read.domain) }
    // A bundle that means a domain is read as that, unless the input fails or memory runs out.
    ensures only { IsBundleReadAsMeant (R.remaining input.old) certified (λ read. read.domain)
        (λ read. certificate_text read.certificate) result }
    // The fault is the one of the definition, unless the input fails or memory runs out.
    ensures fault { (text : List ℕ) → R.remaining input.old ≡ Some text → IfErr result (λ fault.
        ¬ IsReadOrMemory fault → map_fault refused (input_of_bundle certified text) ≡ Err fault) }
    // At most the size of the largest bundle and a line is read, whatever the answer.
    ensures consumed { ConsumesUpTo max_input (R.remaining input.old) (R.remaining input.new) }
    // `Read` is answered only where the input's count of failures rose in the call.
    ensures failures { R.failed input.new ≡ failures_after is_read result (R.failed input.old) }
{
    let parts = Parts::new(input);
    let mut slots = BundleSlots { parts, certified };
    let read = read_parts(alloc, &mut slots);
    // This ends the loan of the input, so that the contract can speak of what is left of it.
    let _input = slots.into_input();
    read
}

/// A domain, a summary of each router's cache, and what hosts ask for and no flow answers.
#[derive(Drop)]
pub struct FolderDomain {
    /// The domain.
    pub domain: Domain,
    /// The summary of each router's cache, in the order of the topology.
    pub summary: Vec<CacheSummary>,
    /// What hosts ask for and no flow answers.
    pub asked: UnansweredWants,
}

/// What a folder is read for.
#[derive(Debug, Drop)]
pub struct FolderOptions {
    /// Whether all sources and groups that no flow has are kept, and all wants that nothing answers.
    pub all: bool,
    /// The ranges of groups whose wants are left aside.
    pub ignored: Vec<GroupRange>,
}

/// Reads the domain that a folder's files mean with the routers of these names excluded: `topology`,
/// `vif-<router>` and `cache-<router>` for each other router, and `igmp-<lan>` for each LAN, each in
/// the order of the topology. An excluded router has no vif and no row, and its files aren't read.
/// Each file may have up to 16,777,216 bytes, and is parsed before the next one is opened. Tables and
/// report lists are read in pieces. Of a cache the rows of listed flows are kept, with a summary of
/// all its rows: of the sources and groups that no flow has, the summary holds all or the lowest
/// ones. Of the wants that no flow answers, too, all are kept or the lowest. Where there are any, the lists
/// of their LANs and the caches are read once more: what the first reading leaves is too little to say who
/// forwards them. The source's count of failures has to be below `u64::MAX`.
///
/// # Errors
///
/// The first fault in this order: of the topology's file, `NoSuchRouter` for the first name that no
/// router has, of the other files, and of those that are read once more, if they are others by then. A
/// file's fault is `Read` where it isn't there or can't be read, `Input` with `TooLarge` where it has too
/// many bytes, and else `Input` with its parser's fault. `Input` with `Memory` where memory ran out.
pub fn read_folder_domain<F: PieceSource>(
    alloc: Global,
    files: &mut F,
    without: &[&str],
    options: FolderOptions,
) -> Result<FolderDomain, ExclusionFault>
    requires failures { F.failed files.old < u64.MAX }
    ensures same { F.borrows files.new ≡ F.borrows files.old }
    ensures kept { F.contents files.new ≡ F.contents files.old }
    // With the routers excluded the files mean the domain.
    ensures means { IfOk result (λ read. IfSome (F.contents files.old) (λ contents.
        FilesMeanDomain (files_without without.now contents) read.domain)) }
    // Each of the names is that of a router.
    ensures routers { IfOk result (λ read. AreRouterNames read.domain.topology (names_of without.now)) }
    ensures rules { IfOk result (λ read. IsDomain read.domain) }
    // If the files mean a domain with the routers excluded, and each name is that of a router, they
    // are read as that domain, unless the source fails or memory runs out.
    ensures only { AreFilesReadAsMeant (F.contents files.old) (names_of without.now)
        (λ read. read.domain) result }
    // Each router's summary is that of the rows in its file, or of no row if it is excluded.
    ensures summary { IfOk result (λ read. IfSome (F.contents files.old) (λ contents.
        AreSummariesOf options.all (files_without without.now contents)
        read.domain.topology read.summary.items)) }
    // What hosts ask for and no flow answers is that of the lists and the caches in the files.
    ensures asked { IfOk result (λ read. IfSome (F.contents files.old) (λ contents.
        IsAskedOf options.all options.ignored.items (files_without without.now contents)
        read.domain read.asked)) }
    // The fault is the one of the definition, unless the source fails or memory runs out.
    ensures fault { IfErr result (λ fault. IfSome (F.contents files.old) (λ contents.
        ¬ IsReadOrMemoryWithout fault →
        input_of_files_without (names_of without.now) contents ≡ Err fault)) }
    // Of a bundle's own faults only `TooLarge` is possible.
    ensures faults { IfErr result (λ fault. is_possible_for_files_without fault ≡ true) }
    // `Read` is answered only where the source's count of failures rose in the call.
    ensures failures { F.failed files.new ≡ failures_after is_read_without result (F.failed files.old) }
{
    let mut buffer = Vec::from_elem(alloc, 0u8, PIECE)?;
    let topology = topology_of_files(alloc, files)?;
    check_names(&topology, without)?;
    let all = options.all;
    let once = read_files_once(alloc, files, &mut buffer, topology, without, options)?;
    let FilesOnce {
        domain,
        summary,
        wants,
    } = once;
    let asked = read_unanswered(alloc, files, &mut buffer, &domain, without, &wants, all)?;
    Ok(FolderDomain {
        domain,
        summary,
        asked,
    })
}
