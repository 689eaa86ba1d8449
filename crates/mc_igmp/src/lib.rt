//! IGMP messages and lists of them: what hosts report of the groups and sources that they want
//! (RFC 3376).
#![tactic(auto)]

mod checksum;
mod digits;
mod fault;
mod group_records;
mod known_lines;
pub mod laws;
mod line_reader;
mod list;
mod list_reader;
mod message;
mod record;
mod record_bytes;
mod records;

pub use fault::{ListFault, ListFaultKind};
pub use group_records::GroupRecords;
pub use list::{ListRecords, ReportList};
pub use list_reader::ListReader;
pub use message::{Message, MessageFault};
pub use record::{Kind, Record, Sources};
pub use records::Records;
