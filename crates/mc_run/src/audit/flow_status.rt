//! The status of a flow, and counts of flows by status.

ghost use Rattle.std.specs.Prelude.{◌≡◌, ◌<◌, ◌==◌};
ghost use Rattle.mc_run.specs.FlowCounts.{one_if_true, with_status};
ghost use Rattle.mc_run.specs.AuditFlowText.{status_of_right, status_of_wrong};

use mc_topology::LanNo;

/// The greatest number of flows of a topology.
pub(crate) const MAX_FLOWS: u32 = 4096;

/// The status of a flow.
#[derive(Clone, Copy)]
pub(crate) struct FlowStatus {
    /// Whether the flow is right; none where that isn't known.
    pub(crate) right: Option<bool>,
    /// Whether it has no finding, and no LAN wants it.
    pub(crate) unwanted: bool,
}

impl FlowStatus {
    /// The status of a flow without a finding that these LANs want. It is right if the `whole` domain is
    /// known.
    pub(crate) fn of_right(whole: bool, wanted: &[LanNo]) -> FlowStatus
        ensures { result ≡ status_of_right whole wanted.now }
    {
        let right = if whole { Some(true) } else { None };
        let unwanted = wanted.is_empty();
        FlowStatus { right, unwanted }
    }

    /// The status of a flow with a finding. It is wrong if that is known.
    pub(crate) fn of_wrong(known: bool) -> FlowStatus
        ensures { result ≡ status_of_wrong known }
    {
        let right = if known { Some(false) } else { None };
        FlowStatus {
            right,
            unwanted: false,
        }
    }
}

/// How many flows have each status.
#[derive(Clone, Copy)]
pub(crate) struct FlowCounts {
    /// The number of right flows.
    pub(crate) right: u32,
    /// The number of wrong flows.
    pub(crate) wrong: u32,
    /// The number of flows of which it isn't known whether they are right.
    pub(crate) unknown: u32,
    /// The number of flows without a finding that no LAN wants.
    pub(crate) unwanted: u32,
}

/// 1 for what is counted.
fn one_if_true(counted: bool) -> u32
    ensures { result ≡ one_if_true counted }
{
    if counted { 1 } else { 0 }
}

impl FlowCounts {
    /// No flows.
    pub(crate) fn none() -> FlowCounts
        ensures right { result.right ≡ 0 }
        ensures wrong { result.wrong ≡ 0 }
        ensures unknown { result.unknown ≡ 0 }
        ensures unwanted { result.unwanted ≡ 0 }
    {
        FlowCounts {
            right: 0,
            wrong: 0,
            unknown: 0,
            unwanted: 0,
        }
    }

    /// These counts, with one more flow of this status.
    pub(crate) fn with(self, flow_status: FlowStatus) -> FlowCounts
        requires right { self.right < MAX_FLOWS }
        requires wrong { self.wrong < MAX_FLOWS }
        requires unknown { self.unknown < MAX_FLOWS }
        requires unwanted { self.unwanted < MAX_FLOWS }
        ensures value { result ≡ with_status self flow_status }
    {
        let FlowCounts {
            right,
            wrong,
            unknown,
            unwanted,
        } = self;
        let unwanted = unwanted + one_if_true(flow_status.unwanted);
        match flow_status.right {
            Some(is_right) => FlowCounts {
                right: right + one_if_true(is_right),
                wrong: wrong + one_if_true(!is_right),
                unknown,
                unwanted,
            },
            None => FlowCounts {
                right,
                wrong,
                unknown: unknown + 1,
                unwanted,
            },
        }
    }

    /// Whether no flow is wrong.
    pub(crate) fn are_right(self) -> bool
        ensures { result ≡ (self.wrong == 0) }
    {
        self.wrong == 0
    }
}
