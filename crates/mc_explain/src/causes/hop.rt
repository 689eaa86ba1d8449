//! A hop of a packet's path, by a router's row.

ghost use Rattle.std.specs.Prelude.{◌≡◌};
ghost use Rattle.mc_theory.specs.Hops.{hop_by, hop_sent};
ghost use Rattle.mc_forward.specs.FlightsInDomain.{net_in};

use mc_forward::{FlowView, RowFor, threshold_of};
use mc_topology::{LanNo, RouterNo};
use std::marker::Model;

/// A router takes a copy from a LAN and sends it onto another by a vif, above a threshold.
#[derive(Clone, Copy)]
pub(crate) struct Hop {
    pub(crate) from: LanNo,
    pub(crate) router: RouterNo,
    pub(crate) vif: u8,
    pub(crate) threshold: u8,
    pub(crate) onto: LanNo,
}

impl Model for Hop {
    ghost use Rattle.mc_theory.specs.Paths.{Hop as HopValue};

    ghost Value = { HopValue };

    ghost view = { λ h. record {
      from = h.from;
      router = h.router;
      vif = h.vif;
      threshold = h.threshold;
      onto = h.onto;
    } };

    ghost inverse = { λ h. record {
      from = h.from;
      router = h.router;
      vif = h.vif;
      threshold = h.threshold;
      onto = h.onto;
    } };
}

/// The hop by an interface onto a LAN, if its router's row takes copies from a LAN.
fn hop_by(view: &FlowView<'_>, router: RouterNo, vif: u8, onto: LanNo) -> Option<Hop>
    ensures { result ≡ hop_by (net_in view.now) (router, vif) onto }
{
    match view.row(router) {
        RowFor::Exact(entry) => {
            let threshold = threshold_of(vif, &entry);
            match view.placed(router, entry.iif) {
                Some(from) => Some(Hop {
                    from,
                    router,
                    vif,
                    threshold,
                    onto,
                }),
                None => None,
            }
        }
        RowFor::Open | RowFor::NoRow => None,
    }
}

/// The hop by which this sender's copies came onto a LAN. The source's own have none.
pub(crate) fn hop_sent(
    view: &FlowView<'_>,
    sender: Option<(RouterNo, u8)>,
    onto: LanNo,
) -> Option<Hop>
    ensures { result ≡ hop_sent (net_in view.now) sender onto }
{
    match sender {
        Some((router, vif)) => hop_by(view, router, vif, onto),
        None => None,
    }
}
