//! Why a router's vif is placed on no LAN.

ghost use Rattle.std.specs.Prelude.{◌≡◌};
ghost use Rattle.std.specs.Option.{option_copied};
ghost use Rattle.mc_forward.specs.UnplacedReasons.{reason_of_line, unplaced_reason};

use mc_tables::Vif;

/// Why a router's vif is placed on no LAN: the first of these that holds.
#[derive(Clone, Copy, Debug, PartialEq, Eq)]
pub enum UnplacedReason {
    /// The router's vif table has no line for it.
    NoVifLine,
    /// It is PIM's register vif.
    RegisterVif,
    /// It is a tunnel.
    Tunnel,
    /// It has lost its device.
    NoDevice,
    /// The topology has its device on no LAN.
    OnNoLan,
}

/// Why a vif with a line in its router's table is placed on no LAN.
fn reason_of_line(vif: &Vif) -> UnplacedReason
    ensures { result ≡ reason_of_line vif.now }
{
    if vif.register() {
        UnplacedReason::RegisterVif
    } else if vif.tunnel() {
        UnplacedReason::Tunnel
    } else if !vif.has_device() {
        UnplacedReason::NoDevice
    } else {
        UnplacedReason::OnNoLan
    }
}

/// Why a vif is placed on no LAN, by its line in its router's table.
pub(crate) fn unplaced_reason(vif: Option<&Vif>) -> UnplacedReason
    ensures { result ≡ unplaced_reason (option_copied vif.entry) }
{
    match vif {
        Some(line) => reason_of_line(line),
        None => UnplacedReason::NoVifLine,
    }
}
