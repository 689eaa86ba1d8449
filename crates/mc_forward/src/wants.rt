//! Which flows of a topology the hosts of a LAN want.

ghost use Rattle.std.specs.Prelude.{◌≡◌, IfOk, false, length, vec_len};
ghost use Rattle.mc_filter.specs.ChannelWants.{AreAllAskedFor};
ghost use Rattle.mc_forward.specs.Assembling.{RelatedAtEachIndex, AreChannelsWanted, AreWanted};
ghost use Rattle.mc_forward.specs.ListedTables.{flow_pairs};

use crate::items::Items;
use mc_filter::{ChannelWants, Channels};
use mc_igmp::ReportList;
use mc_text::{Addr, Memory};
use mc_topology::Topology;
use std::alloc::Global;
use std::marker::Model;

/// The source and the group of each flow.
///
/// # Errors
///
/// `Memory` where a growth was refused.
pub fn source_group_pairs(alloc: Global, topology: &Topology) -> Result<Vec<(Addr, Addr)>, Memory>
    ensures { IfOk result (λ pairs. pairs.items ≡ flow_pairs topology.now.flows) }
{
    let mut pairs = Vec::with_capacity(alloc, topology.flows() as usize)?;
    for flow in 0..topology.flows() {
        let flow = topology.flow(flow);
        pairs.push((flow.source, flow.group))?;
    }
    Ok(pairs)
}

/// The channels of flows, each a source and a group (RFC 4607, section 1), by which reports are
/// reduced. Its value in contracts is the list of them.
#[derive(Debug, Drop)]
pub struct FlowChannels {
    channels: Channels,
}

impl Model for FlowChannels {
    ghost use Rattle.std.specs.Prelude.{ℕ, List};

    ghost Value = { List (ℕ × ℕ) };

    ghost view = { λ c. c.channels };
}

impl FlowChannels {
    /// The channels of a topology's flows, in their order.
    ///
    /// # Errors
    ///
    /// `Memory` where a growth was refused.
    pub fn of(alloc: Global, topology: &Topology) -> Result<FlowChannels, Memory>
        ensures { IfOk result (λ channels. channels ≡ flow_pairs topology.now.flows) }
    {
        let pairs = source_group_pairs(alloc, topology)?;
        let channels = Channels::of(alloc, &pairs)?;
        Ok(FlowChannels { channels })
    }

    /// Whether the records of a LAN's reports want each channel, and whether they may ask for something
    /// else.
    ///
    /// # Errors
    ///
    /// `Memory` where a growth was refused.
    pub fn wanted(&self, alloc: Global, list: &ReportList) -> Result<ChannelWants, Memory>
        ensures wanted { IfOk result (λ wants. AreChannelsWanted self.now list.now wants.wanted.items) }
        ensures all { IfOk result (λ wants. wants.asks_more ≡ false →
            AreAllAskedFor self.now list.now) }
    {
        let wants = self.channels.wanted(alloc, list)?;
        Ok(wants)
    }
}

/// Which flows each LAN wants. Each list of reports is read once.
pub(crate) fn wants_of_lans(
    alloc: Global,
    topology: &Topology,
    reports: &[ReportList],
) -> Result<Vec<Items<bool>>, Memory>
    ensures count { IfOk result (λ wants. vec_len wants ≡ length reports.now) }
    ensures each { IfOk result (λ wants.
        RelatedAtEachIndex (AreWanted topology.now.flows) reports.now wants.items) }
{
    let channels = FlowChannels::of(alloc, topology)?;
    let mut wants = Vec::new(alloc);
    for list in reports {
        let own = channels.wanted(alloc, list)?;
        wants.push(Items::of(own.wanted))?;
    }
    Ok(wants)
}
