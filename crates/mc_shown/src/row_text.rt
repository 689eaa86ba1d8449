//! The text of a router's row.

ghost use Rattle.std.specs.Prelude.{◌≡◌, Some};
ghost use Rattle.mc_forward.specs.Domains.{oif_pairs};
ghost use Rattle.mc_forward.specs.FlightsInDomain.{net_in};
ghost use Rattle.mc_forward.specs.ListedTables.{facts};
ghost use Rattle.mc_shown.specs.RowText.{address_text, entry_text, flow_row_text, incoming_text};
ghost use Rattle.mc_shown.specs.RowText.{oif_text, oifs_text};

use crate::device_text::ShownDevice;
use mc_forward::{FlowView, RowFor};
use mc_tables::Oif;
use mc_text::Addr;
use mc_topology::RouterNo;
use std::fmt;

/// An outgoing vif of a row, such as ` eth1` or ` eth1:5`. A threshold of 1 isn't written.
#[derive(Clone, Copy, Drop)]
struct ShownOif<'v> {
    view: &'v FlowView<'v>,
    router: RouterNo,
    oif: Oif,
}

impl<'v> fmt::Display for ShownOif<'v> {
    ghost output = { λ shown. Some (oif_text (facts shown.view.now.domain) shown.router
        (shown.oif.vif, shown.oif.threshold)) };

    fn fmt<W: fmt::Write>(&self, f: &mut fmt::Formatter<W>) -> fmt::Result {
        let Oif { vif, threshold } = self.oif;
        let device = ShownDevice {
            view: self.view,
            router: self.router,
            vif,
        };
        if threshold == 1 {
            write!(f, " {device}")
        } else {
            write!(f, " {device}:{threshold}")
        }
    }
}

/// The outgoing vifs of a row, such as ` eth1 eth2:5`, or ` none`.
#[derive(Clone, Copy, Drop)]
struct ShownOifs<'v> {
    view: &'v FlowView<'v>,
    router: RouterNo,
    oifs: &'v [Oif],
}

impl<'v> fmt::Display for ShownOifs<'v> {
    ghost output = { λ shown. Some (oifs_text (facts shown.view.now.domain) shown.router
        (oif_pairs shown.oifs.now)) };

    fn fmt<W: fmt::Write>(&self, f: &mut fmt::Formatter<W>) -> fmt::Result {
        if self.oifs.is_empty() {
            return f.write_str(" none");
        }
        for oif in self.oifs {
            let oif = ShownOif {
                view: self.view,
                router: self.router,
                oif: *oif,
            };
            write!(f, "{oif}")?;
        }
        Ok(())
    }
}

/// A row's source or group. The address 0.0.0.0 means every source or group, and is written `*`.
#[derive(Clone, Copy, Drop)]
pub(crate) struct ShownAddress {
    /// The address.
    pub(crate) address: Addr,
}

impl fmt::Display for ShownAddress {
    ghost output = { λ shown. Some (address_text shown.address) };

    fn fmt<W: fmt::Write>(&self, f: &mut fmt::Formatter<W>) -> fmt::Result {
        let address = self.address;
        if address.is_unspecified() {
            f.write_str("*")
        } else {
            write!(f, "{address}")
        }
    }
}

/// A row, such as `entry (10.0.0.5,239.1.2.3) from eth0 to eth1 eth2:5 in cache-r1`.
#[derive(Clone, Copy, Drop)]
pub(crate) struct ShownEntry<'v> {
    /// A flow of the domain.
    pub(crate) view: &'v FlowView<'v>,
    /// The row's router.
    pub(crate) router: RouterNo,
    /// Its source.
    pub(crate) source: Addr,
    /// Its group.
    pub(crate) group: Addr,
    /// Its incoming vif.
    pub(crate) incoming: u8,
    /// Its outgoing vifs.
    pub(crate) oifs: &'v [Oif],
}

impl<'v> fmt::Display for ShownEntry<'v> {
    ghost output = { λ shown. Some (entry_text (facts shown.view.now.domain) shown.router
        shown.source shown.group shown.incoming (oif_pairs shown.oifs.now)) };

    fn fmt<W: fmt::Write>(&self, f: &mut fmt::Formatter<W>) -> fmt::Result {
        let (view, router, oifs) = (self.view, self.router, self.oifs);
        let vif = self.incoming;
        let incoming = ShownDevice { view, router, vif };
        let outgoing = ShownOifs { view, router, oifs };
        let name = view.topology().router_name_or_empty(router);
        let address = self.source;
        let source = ShownAddress { address };
        let address = self.group;
        let group = ShownAddress { address };
        write!(
            f,
            "entry ({source},{group}) from {incoming} to{outgoing} in cache-{name}"
        )
    }
}

/// A router's row of a flow's source and group. It is empty if the router has none.
#[derive(Clone, Copy, Drop)]
pub struct ShownRow<'v> {
    /// The flow in its domain.
    pub view: &'v FlowView<'v>,
    /// The router.
    pub router: RouterNo,
}

impl<'v> fmt::Display for ShownRow<'v> {
    ghost output = { λ shown.
        Some (flow_row_text (facts shown.view.now.domain) shown.view.now.flow shown.router) };

    fn fmt<W: fmt::Write>(&self, f: &mut fmt::Formatter<W>) -> fmt::Result {
        let (view, router) = (self.view, self.router);
        let flow = view.flow();
        match view.row(router) {
            RowFor::Exact(entry) => {
                let row = ShownEntry {
                    view,
                    router,
                    source: flow.source,
                    group: flow.group,
                    incoming: entry.iif,
                    oifs: entry.oifs,
                };
                write!(f, "{row}")
            }
            RowFor::Open | RowFor::NoRow => Ok(()),
        }
    }
}

/// The device of the incoming vif of a router's row for a flow. It is empty where `ShownRow` is.
#[derive(Clone, Copy, Drop)]
pub struct ShownIncoming<'v> {
    /// The flow.
    pub view: &'v FlowView<'v>,
    /// The router.
    pub router: RouterNo,
}

impl<'v> fmt::Display for ShownIncoming<'v> {
    ghost output = { λ shown. Some (incoming_text (facts shown.view.now.domain) shown.router
        ((net_in shown.view.now).row shown.router)) };

    fn fmt<W: fmt::Write>(&self, f: &mut fmt::Formatter<W>) -> fmt::Result {
        match self.view.row(self.router) {
            RowFor::Exact(entry) => {
                let device = ShownDevice {
                    view: self.view,
                    router: self.router,
                    vif: entry.iif,
                };
                write!(f, "{device}")
            }
            RowFor::Open | RowFor::NoRow => Ok(()),
        }
    }
}
