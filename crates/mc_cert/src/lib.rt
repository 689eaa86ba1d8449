//! Certificates: for each flow of a topology the LANs that its packets reach, each with its rank, the
//! least time to live that reaches it and the interface that sends on it; read, and written as JSON.
#![tactic(auto)]

mod certificate;
mod compact;
mod compact_entry;
mod compact_names;
mod distinct;
mod entry;
mod fault;
mod json_string;
mod json_text;
mod key;
pub mod laws;
mod object;
mod pieces;
mod reached;
mod read;
mod rows;
mod token_reader;
mod tokens;
mod trees;
mod version;
mod version_one;
mod version_two;

pub use certificate::Certificate;
pub use distinct::DistinctTrees;
pub use fault::{At, CertFault, CertFaultKind};
pub use reached::{FlowCert, Reached};
pub use trees::Trees;
