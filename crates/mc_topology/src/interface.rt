//! An interface of a topology.

use crate::number::{LanNo, RouterNo};
use std::marker::Model;

/// An interface of a topology: a device of a router, on a LAN.
#[derive(Debug, Drop)]
pub struct Interface<'a> {
    /// The router.
    pub router: RouterNo,
    /// The name of the device, 1 to 15 bytes.
    pub device: &'a [u8],
    /// The LAN.
    pub lan: LanNo,
}

impl<'a> Model for Interface<'a> {
    ghost use Rattle.mc_topology.specs.SectionRows.{InterfaceRow};

    ghost Value = { InterfaceRow };

    ghost view = { λ i. record { router = i.router; device = i.device.now; lan = i.lan } };
}
