//! Copies of a packet: those that LANs carried, those that wait at routers, and where one left the
//! known domain.

ghost use Rattle.std.specs.Prelude.{◌≡◌};
ghost use Rattle.mc_theory.specs.Flights.{is_sender};

use mc_topology::{LanNo, RouterNo};
use std::marker::Model;

/// A copy that a LAN carried.
#[derive(Clone, Copy, Debug, PartialEq, Eq)]
pub struct CarriedCopy {
    /// The LAN.
    pub lan: LanNo,
    /// The time to live that it had there, 0 to 255.
    pub ttl: u8,
    /// The router and its vif that sent it, or none for the copy of the source.
    pub sender: Option<(RouterNo, u8)>,
}

impl Model for CarriedCopy {
    ghost use Rattle.mc_theory.specs.Flights.{Copy};

    ghost Value = { Copy };

    ghost view = { λ a. record { lan = a.lan; ttl = a.ttl; sender = a.sender } };

    ghost inverse = { λ c. record { lan = c.lan; ttl = c.ttl; sender = c.sender } };
}

impl CarriedCopy {
    /// Whether a router's vif sent the copy.
    pub fn is_sent_by(&self, router: RouterNo, vif: u8) -> bool
        ensures { result ≡ is_sender self.now.sender (router, vif) }
    {
        match self.sender {
            Some((sender, sender_vif)) => sender == router && sender_vif == vif,
            None => false,
        }
    }
}

/// A copy that waits to be handled by a router that heard it.
#[derive(Clone, Copy, Debug)]
pub(crate) struct WaitingCopy {
    pub(crate) router: RouterNo,
    pub(crate) vif: u8,
    pub(crate) ttl: u8,
}

impl Model for WaitingCopy {
    ghost use Rattle.mc_theory.specs.Flights.{Waiting};

    ghost Value = { Waiting };

    ghost view = { λ a. record { router = a.router; vif = a.vif; ttl = a.ttl } };

    ghost inverse = { λ w. record { router = w.router; vif = w.vif; ttl = w.ttl } };
}

/// Where a copy left the known domain: a router and its vif.
#[derive(Clone, Copy, Debug, PartialEq, Eq)]
pub struct Stray {
    /// The router.
    pub router: RouterNo,
    /// The vif that it sent the copy to, which is placed on no LAN, or the one at which the copy waited
    /// where the router's row is not followed.
    pub vif: u8,
}

impl Model for Stray {
    ghost use Rattle.std.specs.Prelude.{ℕ};

    ghost Value = { ℕ × ℕ };

    ghost view = { λ a. (a.router, a.vif) };

    ghost inverse = { λ i. record { router = i.0; vif = i.1 } };
}
