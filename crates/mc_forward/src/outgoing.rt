//! Look-ups of an entry's outgoing vifs, and their thresholds.

ghost use Rattle.std.specs.Prelude.{◌≡◌, ◌<◌, ◌++◌, List};
ghost use Rattle.std.specs.List.{AllByRecursion};
ghost use Rattle.mc_theory.specs.CertificateOfCopies.{threshold_of};
ghost use Rattle.mc_tables.specs.CacheTable.{IsValidEntry};
ghost use Rattle.mc_tables.specs.declared.cache.entry.Oif.{Oif as OifValue};
ghost use Rattle.mc_forward.specs.Domains.{oif_pairs};

use mc_tables::{Entry, MAX_VIFS, Oif};

/// An entry's outgoing vifs without some at the front that are lower than this one: as vifs ascend and
/// none is higher than 31, so many of them must be. Where an entry sends by all vifs but one, as many
/// routers' do, the vif itself is one of the first two that are left.
pub fn outgoing_from<'a>(entry: &Entry<'a>, vif: u8) -> &'a [Oif]
    requires valid { IsValidEntry entry.now }
    ensures rest { (lower : List OifValue) × (lower ++ result.now ≡ entry.now.oifs)
        × AllByRecursion (λ o. o.vif < vif) lower }
{
    let oifs = entry.oifs;
    let lower = (usize::from(vif) + oifs.len()).saturating_sub(usize::from(MAX_VIFS));
    &oifs[lower.min(oifs.len())..]
}

/// The threshold of a vif's pair, 0 where it has none.
pub fn threshold_of(vif: u8, entry: &Entry<'_>) -> u8
    requires valid { IsValidEntry entry.now }
    ensures value { result ≡ threshold_of vif (oif_pairs entry.now.oifs) }
{
    for oif in outgoing_from(entry, vif) {
        if oif.vif == vif {
            return oif.threshold;
        }
    }
    0
}
