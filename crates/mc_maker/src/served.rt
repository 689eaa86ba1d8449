//! Checks that the entries serve each LAN that wants the flow.

ghost use Rattle.std.specs.Prelude.{◌≡◌, ◌<◌, All, IsFalse, IsTrue, false, length, true};
ghost use Rattle.mc_theory.specs.Certificates.{Entry};
ghost use Rattle.mc_theory.specs.Lists.{In};
ghost use Rattle.mc_maker.specs.EntriesByLan.{serves};
ghost use Rattle.mc_forward.specs.FlightsInDomain.{IsFlowOfDomain, net_in};

use mc_cert::Reached;
use mc_forward::FlowView;

/// Whether the flow's TTL meets the need of an entry, or its LAN doesn't want the flow.
fn serves(view: &FlowView<'_>, entry: &Reached) -> bool
    requires within { entry.now.lan < length view.now.domain.topology.lans }
    ensures value { result ≡ serves (net_in view.now) entry.now }
{
    entry.need <= view.ttl() || !view.wants(entry.lan)
}

/// Whether each LAN of these entries is served, if it wants the flow. After a clean travel, each LAN
/// that wants the flow has an entry.
pub(crate) fn serves_all(view: &FlowView<'_>, entries: &[Reached]) -> bool
    requires within { All (λ entry. entry.lan < length view.now.domain.topology.lans) entries.now }
    ensures rules { IsFlowOfDomain view.now }
    ensures each { IsTrue result → All (λ e. serves (net_in view.now) e ≡ true) entries.now }
    ensures some { IsFalse result →
        (entry : Entry) × In entry entries.now × (serves (net_in view.now) entry ≡ false) }
{
    // This brings the topology's rules into the proof: its limits follow from them.
    let _rules = view.topology();
    for entry in entries {
        if !serves(view, entry) {
            return false;
        }
    }
    true
}
