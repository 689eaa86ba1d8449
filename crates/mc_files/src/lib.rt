//! The layout of a domain: its parts in their fixed order, and their names in a bundle and in a
//! folder. Sources of files, as a folder of the file system, which give a file whole or in pieces,
//! and packing a bundle of a folder's files. Only the topology is parsed here: of the other files
//! just the names are known.
#![tactic(auto)]

mod fault;
mod file_part;
mod folder;
pub mod laws;
mod numbered_slot;
mod packed_part;
mod packing;
mod piece_source;
mod slot;
mod slot_order;
mod source;
mod unread;

pub use fault::{FileFault, PackFault};
pub use file_part::{FilePart, part_of_file};
pub use folder::Folder;
pub use numbered_slot::NumberedSlot;
pub use packing::pack;
pub use piece_source::PieceSource;
pub use slot::Slot;
pub use slot_order::{slot_at, slot_count};
pub use source::FileSource;
pub use unread::Unread;
