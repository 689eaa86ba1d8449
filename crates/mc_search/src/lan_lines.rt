//! The lines of a search about one LAN, by the tables of the routers on it.

ghost use Rattle.std.specs.Prelude.{◌≡◌, ◌<◌, ◌++◌, OnOk, flat_map, length};
ghost use Rattle.mc_tables.specs.CacheTable.{IsValidEntry};
ghost use Rattle.mc_forward.specs.Domains.{oif_pairs};
ghost use Rattle.mc_search.specs.LanProbe.{IsLanProbe, search_in};
ghost use Rattle.mc_search.specs.SearchLine.{device_lines, expected_lines, lines_of_lan, net, router_lines};
ghost use Rattle.mc_search.specs.SearchLine.{routers_on, row_lines, vif_line, vif_lines};

use crate::lan_probe::LanProbe;
use crate::listed_interface::ListedInterface;
use crate::search_line::SearchLine;
use mc_forward::{RowFor, threshold_of};
use mc_tables::Entry;
use mc_text::Memory;
use mc_topology::{LanNo, RouterNo};

impl<'s> LanProbe<'s> {
    /// The line of a vif on the LAN, whose router's row takes from another LAN.
    fn vif_line(
        &self,
        lan: LanNo,
        router: RouterNo,
        from: LanNo,
        entry: &Entry<'_>,
        vif: u8,
    ) -> SearchLine
        requires valid { IsValidEntry entry.now }
        ensures value { result ≡ vif_line (search_in self.now) lan router from
            (oif_pairs entry.now.oifs) vif }
    {
        let threshold = threshold_of(vif, entry);
        let copy = self.first_copies.on(from);
        if threshold == 0 {
            let carried = copy.is_some();
            return SearchLine::DoesNotSend {
                lan,
                router,
                vif,
                from,
                carried,
            };
        }
        match copy {
            Some(copy) => SearchLine::Stopped {
                lan,
                router,
                vif,
                threshold,
                ttl: copy.ttl,
            },
            None => SearchLine::WaitsFor {
                lan,
                router,
                vif,
                from,
            },
        }
    }

    /// Adds the lines of a router's vifs on the LAN, where its row takes from another LAN.
    fn add_vif_lines(
        &self,
        lines: &mut Vec<SearchLine>,
        lan: LanNo,
        router: RouterNo,
        from: LanNo,
        entry: &Entry<'_>,
        interfaces: &[ListedInterface],
    ) -> Result<(), Memory>
        requires valid { IsValidEntry entry.now }
        ensures added { OnOk result (lines.new.items ≡ lines.old.items
            ++ flat_map (λ i. vif_lines (search_in self.now) lan router from
            (oif_pairs entry.now.oifs) i.vif) interfaces.now) }
    {
        for interface in interfaces {
            if let Some(vif) = interface.vif {
                if self.view.placed(router, vif) == Some(lan) {
                    lines.push(self.vif_line(lan, router, from, entry, vif))?;
                }
            }
        }
        Ok(())
    }

    /// Adds the lines of the row that a router on the LAN has for the flow.
    fn add_row_lines(
        &self,
        lines: &mut Vec<SearchLine>,
        lan: LanNo,
        router: RouterNo,
        interfaces: &[ListedInterface],
    ) -> Result<(), Memory>
        requires valid { IsLanProbe self.now }
        ensures added { OnOk result (lines.new.items ≡ lines.old.items ++ row_lines (search_in self.now) lan
            router interfaces.now ((net (search_in self.now)).row router)) }
    {
        match self.view.row(router) {
            RowFor::Exact(entry) => match self.view.placed(router, entry.iif) {
                // Its line comes from `add_expected_lines`.
                Some(from) if from == lan => {}
                Some(from) => self.add_vif_lines(lines, lan, router, from, &entry, interfaces)?,
                None => lines.push(SearchLine::FromUnplaced { lan, router })?,
            },
            RowFor::Open => lines.push(SearchLine::EverySource { lan, router })?,
            RowFor::NoRow => {
                if self.is_unresolved(router) {
                    lines.push(SearchLine::Unresolved { lan, router })?;
                } else {
                    lines.push(SearchLine::NoRow { lan, router })?;
                }
            }
        }
        Ok(())
    }

    /// Adds a line for an interface that the topology has on the LAN, if it is no multicast vif.
    fn add_device_line(
        &self,
        lines: &mut Vec<SearchLine>,
        lan: LanNo,
        listed: ListedInterface,
    ) -> Result<(), Memory>
        ensures { OnOk result (lines.new.items ≡ lines.old.items
            ++ device_lines (search_in self.now) lan listed listed.vif) }
    {
        let ListedInterface {
            router,
            interface,
            vif,
        } = listed;
        match vif {
            Some(vif) => {
                if self.is_virtual(router, vif) {
                    lines.push(SearchLine::NotMulticast {
                        lan,
                        router,
                        interface,
                    })?;
                }
            }
            None => lines.push(SearchLine::NoVif {
                lan,
                router,
                interface,
            })?,
        }
        Ok(())
    }

    /// Adds a line for each of a router's interfaces on the LAN that is no multicast vif.
    fn add_device_lines(
        &self,
        lines: &mut Vec<SearchLine>,
        lan: LanNo,
        interfaces: &[ListedInterface],
    ) -> Result<(), Memory>
        ensures { OnOk result (lines.new.items ≡ lines.old.items
            ++ flat_map (λ i. device_lines (search_in self.now) lan i i.vif) interfaces.now) }
    {
        for listed in interfaces {
            self.add_device_line(lines, lan, *listed)?;
        }
        Ok(())
    }

    /// Adds the lines of a router on the LAN.
    fn add_router_lines(
        &self,
        lines: &mut Vec<SearchLine>,
        lan: LanNo,
        router: RouterNo,
        interfaces: &[ListedInterface],
    ) -> Result<(), Memory>
        requires valid { IsLanProbe self.now }
        ensures added { OnOk result (lines.new.items ≡ lines.old.items
            ++ router_lines (search_in self.now) lan (router, interfaces.now)) }
    {
        if self.is_excluded(router) {
            lines.push(SearchLine::Excluded { lan, router })?;
            return Ok(());
        }
        self.add_row_lines(lines, lan, router, interfaces)?;
        self.add_device_lines(lines, lan, interfaces)
    }

    /// Adds the lines of all routers on the LAN.
    fn add_lines_of_routers(&self, lines: &mut Vec<SearchLine>, lan: LanNo) -> Result<(), Memory>
        requires valid { IsLanProbe self.now }
        requires lan { lan < length self.now.view.now.domain.topology.lans }
        ensures added { OnOk result (lines.new.items ≡ lines.old.items
            ++ flat_map (router_lines (search_in self.now) lan)
            (routers_on (search_in self.now) lan)) }
    {
        for router_on_lan in self.routers_on(lan) {
            self.add_router_lines(lines, lan, router_on_lan.router, router_on_lan.interfaces)?;
        }
        Ok(())
    }

    /// Adds a line for each router that has a row that takes from the LAN.
    fn add_expected_lines(&self, lines: &mut Vec<SearchLine>, lan: LanNo) -> Result<(), Memory>
        requires valid { IsLanProbe self.now }
        requires lan { lan < length self.now.view.now.domain.topology.lans }
        ensures added { OnOk result (lines.new.items ≡ lines.old.items
            ++ flat_map (expected_lines (search_in self.now) lan)
            (routers_on (search_in self.now) lan)) }
    {
        for router_on_lan in self.routers_on(lan) {
            let router = router_on_lan.router;
            if self.is_expecting(lan, router) {
                lines.push(SearchLine::ExpectedFromHere { lan, router })?;
            }
        }
        Ok(())
    }

    /// Adds all lines of the LAN.
    pub(crate) fn add_lan_lines(
        &self,
        lines: &mut Vec<SearchLine>,
        lan: LanNo,
    ) -> Result<(), Memory>
        requires valid { IsLanProbe self.now }
        requires lan { lan < length self.now.view.now.domain.topology.lans }
        ensures added { OnOk result (lines.new.items ≡
            lines.old.items ++ lines_of_lan (search_in self.now) lan) }
    {
        let before = lines.len();
        self.add_lines_of_routers(lines, lan)?;
        self.add_expected_lines(lines, lan)?;
        if lines.len() == before {
            lines.push(SearchLine::NoRouter { lan })?;
        } else if !self.has_possible_sender(lan) {
            lines.push(SearchLine::NoSender { lan })?;
        }
        Ok(())
    }
}
