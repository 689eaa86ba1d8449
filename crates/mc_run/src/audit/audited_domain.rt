//! The domain that is audited.

use mc_cli::AuditOptions;
use mc_forward::Domain;
use mc_input::UnansweredWants;
use mc_search::InterfacesOfLans;
use mc_tables::CacheSummary;
use mc_text::GroupRange;

/// A domain, a summary of each router's cache, in the order of the routers, what hosts ask for and no flow
/// answers, and the interfaces that the topology has on each LAN. Some routers may be excluded: their tables
/// aren't known.
#[derive(Drop)]
pub(crate) struct AuditedDomain<'d> {
    pub(crate) domain: &'d Domain,
    pub(crate) summary: &'d [CacheSummary],
    pub(crate) asked: &'d UnansweredWants,
    pub(crate) interfaces: &'d InterfacesOfLans,
    /// The names of the excluded routers.
    pub(crate) without: &'d [&'d str],
    /// The ranges of groups whose wants are left aside.
    pub(crate) ignored: &'d [GroupRange],
    /// A mark for each router: whether it is excluded.
    pub(crate) excluded: &'d [bool],
    /// What is shown of it, and how.
    pub(crate) options: AuditOptions,
}
