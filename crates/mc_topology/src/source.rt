//! A source of a topology.

ghost use Rattle.std.specs.Prelude.{◌≡◌};

use crate::number::LanNo;
use mc_text::Addr;
use std::marker::Model;

/// A source of a topology: a host that sends, on a LAN.
#[derive(Clone, Copy, Debug, PartialEq, Eq)]
pub struct Source {
    /// The address of the host.
    pub address: Addr,
    /// The LAN.
    pub lan: LanNo,
}

impl Model for Source {
    ghost use Rattle.mc_topology.specs.SectionRows.{SourceRow};

    ghost Value = { SourceRow };

    ghost view = { λ s. record { address = s.address; lan = s.lan } };

    ghost inverse = { λ s. record { address = s.address; lan = s.lan } };
}
