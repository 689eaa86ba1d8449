//! The entries of a flow, with the first entry of each LAN looked up by its number.

ghost use Rattle.std.specs.Prelude.{◌≡◌, ◌<◌, All, IfNone, [], length, map};
ghost use Rattle.std.specs.Option.{option_copied};
ghost use Rattle.mc_theory.specs.Reasons.{entry_on, entry_at, twice as first_twice};
ghost use Rattle.mc_forward.specs.PerLan.{HoldsFirstOfEachKey};
ghost use Rattle.mc_check.specs.Reasons.{optional_reason_value};

use crate::verdict::Reason;
use mc_cert::Reached;
use mc_forward::PerLan;
use mc_topology::LanNo;
use std::marker::Model;

/// The entries of a flow in order, with the first entry of each LAN. The model is the list of entries.
#[derive(Drop)]
pub(crate) struct EntriesByLan<'c> {
    entries: &'c [Reached],
    firsts: PerLan<&'c Reached>,
}

impl<'c> Model for EntriesByLan<'c> {
    ghost use Rattle.std.specs.Prelude.{List};
    ghost use Rattle.mc_theory.specs.Certificates.{Entry};

    ghost Value = { List Entry };

    ghost use Rattle.std.specs.Prelude.{map};
    ghost use Rattle.std.specs.Option.{option_copied};
    ghost use Rattle.mc_forward.specs.PerLan.{HoldsFirstOfEachKey};

    ghost view = { λ s. s.entries.now };

    ghost invariant = { λ s.
        HoldsFirstOfEachKey (λ (e : Entry). e.lan) (map option_copied s.firsts) s.entries.now };
}

/// Stores a reference to the first entry of each LAN. Returns the first LAN that is named twice, as a reason.
pub(crate) fn put_first_entries<'c>(
    firsts: &mut PerLan<&'c Reached>,
    entries: &'c [Reached],
) -> Option<Reason>
    requires empty { HoldsFirstOfEachKey (λ entry. entry.lan) (map option_copied firsts.old) [] }
    requires lans { All (λ entry. entry.lan < length firsts.old) entries.now }
    ensures twice { optional_reason_value result ≡ first_twice [] entries.now }
    ensures firsts { IfNone result (HoldsFirstOfEachKey (λ entry. entry.lan) (map option_copied firsts.new)
        entries.now) }
{
    for entry in entries {
        if !firsts.put_first(entry.lan, entry) {
            return Some(Reason::TwoEntries(entry.lan));
        }
    }
    None
}

impl<'c> EntriesByLan<'c> {
    /// The entries, with a reference to the first of each LAN as it was stored.
    pub(crate) fn new(entries: &'c [Reached], firsts: PerLan<&'c Reached>) -> EntriesByLan<'c>
        requires firsts { HoldsFirstOfEachKey (λ entry. entry.lan) (map option_copied firsts) entries.now }
        ensures value { result ≡ entries.now }
    {
        EntriesByLan { entries, firsts }
    }

    /// The entries in order.
    pub(crate) fn entries(&self) -> &'c [Reached]
        ensures { result.now ≡ self.now }
    {
        self.entries
    }

    /// The first entry of a LAN, if it has one.
    pub(crate) fn on(&self, lan: LanNo) -> Option<Reached>
        ensures { result ≡ entry_on self.now lan }
    {
        self.firsts.on(lan).copied()
    }

    /// The first entry of the LAN that a vif is placed on, if both are there.
    pub(crate) fn at(&self, place: Option<LanNo>) -> Option<Reached>
        ensures { result ≡ entry_at self.now place }
    {
        match place {
            Some(lan) => self.on(lan),
            None => None,
        }
    }
}
