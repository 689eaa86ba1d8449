//! The interfaces of a topology, by router and device.

ghost use Rattle.std.specs.Prelude.{◌≡◌, ◌++◌, ◌<◌, ◌≤◌, [], ◌∷◌, false, length, slice_get, Some};
ghost use Rattle.std.specs.Prelude.{IfErr, OnOk, MatchOption};
ghost use Rattle.mc_topology.specs.Answer.{out_of_memory};
ghost use Rattle.mc_topology.specs.Lookup.{has_interface, lan_of_interface, interface_row};

use crate::fault::TopologyFault;
use crate::interface::Interface;
use crate::number::{LanNo, RouterNo};
use arrayvec::ArrayVec;
use indexmap::IndexMap;
use std::alloc::Global;
use std::marker::Model;

/// The greatest number of interfaces.
pub(crate) const MAX_INTERFACES: usize = 8192;

/// The greatest length of a device's name, in bytes.
pub(crate) const MAX_DEVICE_NAME: usize = 15;

/// The key of an interface: its router and its device.
#[derive(Debug, PartialEq, Eq, Hash, Drop)]
pub(crate) struct InterfaceKey {
    router: RouterNo,
    device: ArrayVec<u8, MAX_DEVICE_NAME>,
}

impl InterfaceKey {
    /// The key of a router and a device. None for a name of more than 15 bytes.
    pub(crate) fn new(router: RouterNo, device: &[u8]) -> Option<InterfaceKey>
        ensures { MatchOption result (15 < length device.now)
            (λ key. (key.router ≡ router) × (key.device.items ≡ device.now)
            × (length device.now ≤ 15)) }
    {
        let device = ArrayVec::try_from(device).ok()?;
        Some(InterfaceKey { router, device })
    }
}

/// The interfaces, each with its LAN, in the order of the topology.
#[derive(Debug, Drop)]
pub(crate) struct Interfaces {
    lans: IndexMap<InterfaceKey, LanNo>,
}

impl Model for Interfaces {
    ghost use Rattle.std.specs.Prelude.{List, map};
    ghost use Rattle.mc_topology.specs.SectionRows.{InterfaceRow};

    ghost Value = { List InterfaceRow };

    ghost use Rattle.mc_topology.specs.Lookup.{interface_row, HaveShortDevices};

    ghost view = { λ a. map interface_row a.lans.entries };

    ghost invariant = { λ a. HaveShortDevices (map interface_row a.lans.entries) };
}

impl Interfaces {
    /// No interfaces.
    pub(crate) fn new(alloc: Global) -> Interfaces
        ensures { result ≡ [] }
    {
        Interfaces {
            lans: IndexMap::new(alloc),
        }
    }

    /// How many there are.
    pub(crate) fn len(&self) -> usize
        ensures { result ≡ length self.now }
    {
        self.lans.len()
    }

    /// The LAN of the interface with this router and this device.
    pub(crate) fn lan_of(&self, router: RouterNo, device: &[u8]) -> Option<LanNo>
        ensures { result ≡ lan_of_interface router device.now self.now }
    {
        let lans = &self.lans;
        let key = InterfaceKey::new(router, device)?;
        let lan = lans.get(&key)?;
        Some(*lan)
    }

    /// Whether there is an interface with the key.
    pub(crate) fn has(&self, key: &InterfaceKey) -> bool
        ensures { result ≡ has_interface key.now.router key.now.device.items self.now }
    {
        self.lans.contains_key(key)
    }

    /// The interface with this number.
    pub(crate) fn interface(&self, interface: u32) -> Interface<'_>
        requires known { interface < length self.now }
        ensures item { slice_get self.now interface ≡ Some result }
    {
        let keys = self.lans.keys();
        let key = &keys.as_slice()[interface as usize];
        Interface {
            router: key.router,
            device: key.device.as_slice(),
            lan: self.lans[interface as usize],
        }
    }

    /// Adds an interface, whose key no other has.
    pub(crate) fn push(&mut self, key: InterfaceKey, lan: LanNo) -> Result<(), TopologyFault>
        requires new { has_interface key.router key.device.items self.old ≡ false }
        requires short { length key.device.items ≤ 15 }
        ensures added { OnOk result (self.new ≡ self.old ++ interface_row (key, lan) ∷ []) }
        ensures fault { IfErr result (λ fault. fault ≡ out_of_memory) }
    {
        self.lans.insert(key, lan)?;
        Ok(())
    }
}
