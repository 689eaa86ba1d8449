//! The first item on each LAN, in a vector by the LANs' numbers.

ghost use Rattle.std.specs.Prelude.{◌≡◌, ◌<◌, IfOk, IsFalse, IsSome, IsTrue, None, Some, length};
ghost use Rattle.std.specs.Prelude.{replicate, slice_set};
ghost use Rattle.mc_forward.specs.PerLan.{item_on_lan};

use mc_text::Memory;
use mc_topology::LanNo;
use std::alloc::Global;
use std::marker::Model;

/// A place for each of so many LANs, with the first item that was put there. Its value in contracts
/// is the list of the places.
#[derive(Drop)]
pub struct PerLan<T> {
    places: Vec<Option<T>>,
}

impl<T> Model for PerLan<T> {
    ghost use Rattle.std.specs.Prelude.{List, Option};

    ghost Value = { List (Option T) };

    ghost view = { λ p. p.places.items };
}

impl<T: Copy> PerLan<T> {
    /// No item yet on any of so many LANs.
    ///
    /// # Errors
    ///
    /// `Memory` where a growth was refused.
    pub fn new(alloc: Global, lans: u32) -> Result<PerLan<T>, Memory>
        ensures { IfOk result (λ places. places ≡ replicate lans None) }
    {
        let places = vec![in alloc; None; lans as usize]?;
        Ok(PerLan { places })
    }

    /// The item on a LAN. None on a LAN without one, and past the last LAN.
    pub fn on(&self, lan: LanNo) -> Option<T>
        ensures { result ≡ item_on_lan self.now lan }
    {
        match self.places.get(lan.0 as usize) {
            Some(first) => *first,
            None => None,
        }
    }

    /// The places of all LANs, in order.
    pub fn places(&self) -> &[Option<T>]
        ensures { result.now ≡ self.now }
    {
        &self.places
    }

    /// Puts an item on a LAN, unless one was put there before. Whether it was put.
    pub fn put_first(&mut self, lan: LanNo, item: T) -> bool
        requires known { lan < length self.old }
        ensures free { IsTrue result → item_on_lan self.old lan ≡ None }
        ensures put { IsTrue result → self.new ≡ slice_set self.old lan (Some item) }
        ensures earlier { IsFalse result → IsSome (item_on_lan self.old lan) }
        ensures kept { IsFalse result → self.new ≡ self.old }
    {
        let first = &mut self.places[lan.0 as usize];
        match first {
            Some(_) => false,
            None => {
                *first = Some(item);
                true
            }
        }
    }
}
