//! What explains the finding of a flow's packet.

use crate::causes::Cause;
use crate::causes::behind::Behind;
use mc_replay::Finding;
use mc_search::LanSearch;
use mc_topology::LanNo;

/// Which packets show a finding of a packet with TTL 255.
#[derive(Clone, Copy, Debug)]
pub struct ShownBy {
    /// The TTL from which on each packet shows it, if one is given.
    pub from: Option<u8>,
    /// What a packet with the flow's own TTL meets, if that is known.
    pub at_flow_ttl: Option<Finding>,
}

/// How certain a finding is.
#[derive(Clone, Copy, Debug)]
pub struct Certainty {
    /// Whether it is known that the flow isn't right: not where the search comes to an excluded router.
    pub known: bool,
    /// Which packets show the finding.
    pub shown_by: ShownBy,
}

/// What explains the finding of a flow's packet.
#[derive(Clone, Copy, Drop)]
pub struct Explanation<'e> {
    /// The causes of the fault.
    pub causes: &'e [Cause],
    /// The search for the LAN that the packet missed, if there was one.
    pub search: &'e Option<LanSearch>,
    /// The LANs that the packet also missed.
    pub also: &'e [LanNo],
    /// What is behind the stray, if the finding is one.
    pub behind: &'e Option<Behind>,
    /// How certain the finding is.
    pub certainty: Certainty,
}
