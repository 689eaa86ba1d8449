//! Small domains that the tests of several crates share, and the texts that they are read from.

mod domain;
mod entries;
mod network;
mod refusals;
mod tables;
mod texts;

pub(crate) use domain::{Parts, assemble_domain, parts_of, topology_of, with_domain};
pub(crate) use entries::{chain_entries, entry_behind, source_entry};
pub(crate) use network::{CHAIN, Network};
pub(crate) use refusals::retry_after_oom;
pub(crate) use texts::{FORWARDS, LAST_WANTS, VIFS, WANTED};
