//! The entry of a LAN, and the certificate of a flow.

use mc_text::Addr;
use mc_topology::{LanNo, RouterNo};
use std::marker::Model;

/// A LAN that the packets of a flow reach. In contracts it is an `Entry` of `mc_theory`.
#[derive(Clone, Copy, Debug, PartialEq, Eq, PartialOrd, Ord)]
pub struct Reached {
    /// The LAN.
    pub lan: LanNo,
    /// How many routers a packet passes from the source's LAN to this one.
    pub rank: u8,
    /// The least time to live with which a packet of the source reaches it, 1 to 255.
    pub need: u8,
    /// The router that sends on it, and the vif by which it does. None for the source's LAN.
    pub forwarder: Option<(RouterNo, u8)>,
}

impl Model for Reached {
    ghost use Rattle.mc_theory.specs.Certificates.{Entry};

    ghost Value = { Entry };

    ghost view = { λ r. record {
      lan = r.lan;
      rank = r.rank;
      need = r.need;
      forwarder = r.forwarder;
    } };

    ghost inverse = { λ e. record {
      lan = e.lan;
      rank = e.rank;
      need = e.need;
      forwarder = e.forwarder;
    } };
}

/// The certificate of one flow.
#[derive(Clone, Copy, Debug)]
pub struct FlowCert<'a> {
    /// The address of the source.
    pub source: Addr,
    /// The address of the group.
    pub group: Addr,
    /// The LANs that the flow's packets reach.
    pub reached: &'a [Reached],
}
