//! The first copy that each LAN carried, by its number.

ghost use Rattle.std.specs.Prelude.{◌≡◌, ◌<◌, ◌≤◌, All, None, [], length, option_and_then, take};
ghost use Rattle.mc_theory.specs.Findings.{first_double};
ghost use Rattle.mc_forward.specs.PerLan.{HoldsFirstOfEachKey, item_on_lan};

use crate::copy::CarriedCopy;
use crate::per_lan::PerLan;
use mc_topology::{LanNo, RouterNo};

/// Stores the first copy of each LAN, and returns the first copy whose LAN carried an earlier one. The
/// first `seen` copies are stored already, and no two of them are on the same LAN.
pub fn record_first_copies(
    firsts: &mut PerLan<CarriedCopy>,
    copies: &[CarriedCopy],
    seen: usize,
) -> Option<CarriedCopy>
    requires seen { seen ≤ length copies.now }
    requires firsts { HoldsFirstOfEachKey (λ copy. copy.lan) firsts.old (take seen copies.now) }
    requires distinct { first_double [] (take seen copies.now) ≡ None }
    requires lans { All (λ copy. copy.lan < length firsts.old) copies.now }
    ensures second { result ≡ first_double [] copies.now }
    ensures firsts { HoldsFirstOfEachKey (λ copy. copy.lan) firsts.new copies.now }
    ensures count { length firsts.new ≡ length firsts.old }
{
    let mut second = None;
    for copy in &copies[seen..] {
        if !firsts.put_first(copy.lan, *copy) && second.is_none() {
            second = Some(*copy);
        }
    }
    second
}

/// The router and the vif that sent the first copy onto a LAN. None for the source, and where there is no
/// copy.
pub fn sender_on(first_copies: &PerLan<CarriedCopy>, lan: LanNo) -> Option<(RouterNo, u8)>
    ensures { result ≡ option_and_then (λ copy. copy.sender) (item_on_lan first_copies.now lan) }
{
    match first_copies.on(lan) {
        Some(first) => first.sender,
        None => None,
    }
}
