//! Reads a domain from the parts of a bundle or from the files of a folder, each text by its reader, in
//! the order in which faults are reported. From a folder it also reads a summary of each cache, and what
//! hosts ask for that no flow answers.
#![tactic(auto)]

mod bundle_part;
mod bundle_slots;
mod cache_keeper;
mod domain;
mod each_file;
mod excluded;
mod exclusion_fault;
mod fault;
mod fed_file;
mod file_again;
mod file_slots;
mod files_once;
pub mod laws;
mod list_keeper;
mod part_reader;
mod part_result;
mod refused_file;
mod slot_part;
mod slots;
mod source_fault;
mod states;
mod unanswered;
mod walk;

pub use domain::{
    BundleDomain, FolderDomain, FolderOptions, PIECE, read_bundle_domain, read_folder_domain,
};
pub use each_file::refused_files;
pub use excluded::is_excluded;
pub use exclusion_fault::ExclusionFault;
pub use fault::InputFault;
pub use refused_file::{Refusal, RefusedFile};
pub use source_fault::SourceFault;
pub use unanswered::UnansweredWants;
