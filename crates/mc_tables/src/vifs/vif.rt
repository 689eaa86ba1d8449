//! A virtual interface of the kernel's multicast routing.

ghost use Rattle.std.specs.Prelude.{◌≡◌, ◌≤◌, length};
ghost use Rattle.mc_tables.specs.VifTable.{has_device, is_tunnel, is_register};

use std::marker::Model;

/// The kernel's word for a vif without a device.
pub(crate) const NO_DEVICE: &[u8] = b"none";

/// A network device's name, or `none`.
#[derive(Debug, Drop)]
pub struct DeviceName {
    bytes: [u8; 15],
    length: u8,
}

impl Model for DeviceName {
    ghost use Rattle.std.specs.Prelude.{◌≤◌, ℕ, List, take};

    ghost Value = { List ℕ };

    ghost view = { λ name. take name.length name.bytes };

    ghost invariant = { λ name. name.length ≤ 15 };
}

impl DeviceName {
    /// A name of at most 15 bytes.
    pub fn new(name: &[u8]) -> DeviceName
        requires bounded { length name.now ≤ 15 }
        ensures value { result ≡ name.now }
    {
        let mut bytes = [0; 15];
        bytes[..name.len()].copy_from_slice(name);
        DeviceName {
            bytes,
            length: name.len() as u8,
        }
    }

    /// The name's bytes.
    pub fn as_bytes(&self) -> &[u8]
        ensures { result.now ≡ self.now }
    {
        &self.bytes[..self.length as usize]
    }
}

/// A virtual interface of the kernel's multicast routing.
#[derive(Debug, Drop)]
pub struct Vif {
    device: DeviceName,
    tunnel: bool,
    register: bool,
}

impl Model for Vif {
    ghost use Rattle.mc_tables.specs.VifTable.{VifValue};

    ghost Value = { VifValue };

    ghost view = { λ vif.
        record { device = vif.device; tunnel = vif.tunnel; register = vif.register } };
}

/// `VIFF_TUNNEL` of linux/mroute.h.
const TUNNEL: u32 = 0x1;

/// `VIFF_REGISTER` of linux/mroute.h.
const REGISTER: u32 = 0x4;

impl Vif {
    /// The vif of a device with these flags.
    pub(crate) fn new(device: DeviceName, flags: u32) -> Vif
        ensures device { result.device ≡ device }
        ensures tunnel { result.tunnel ≡ is_tunnel flags }
        ensures register { result.register ≡ is_register flags }
    {
        Vif {
            device,
            tunnel: flags & TUNNEL != 0,
            register: flags & REGISTER != 0,
        }
    }

    /// The name of its device, or `none`.
    pub fn device(&self) -> &[u8]
        ensures { result.now ≡ self.now.device }
    {
        self.device.as_bytes()
    }

    /// Whether it has a device, and not the word `none`.
    pub fn has_device(&self) -> bool
        ensures { result ≡ has_device self.now }
    {
        self.device.as_bytes() != NO_DEVICE
    }

    /// Whether it is a tunnel.
    pub fn tunnel(&self) -> bool
        ensures { result ≡ self.now.tunnel }
    {
        self.tunnel
    }

    /// Whether it is PIM's register interface.
    pub fn register(&self) -> bool
        ensures { result ≡ self.now.register }
    {
        self.register
    }
}
