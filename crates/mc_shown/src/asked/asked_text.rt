//! The lines of wants that no flow answers, and of services.

ghost use Rattle.std.specs.Prelude.{◌≡◌, ◌++◌, OnOk, Some, flat_map};
ghost use Rattle.std.specs.String.{string_bytes};
ghost use Rattle.mc_shown.specs.AskedText.{addresses_text, asked_more_text, asked_text_of};
ghost use Rattle.mc_shown.specs.AskedText.{forwarding_text, is_ignored_by_routers, listed_text};
ghost use Rattle.mc_shown.specs.AskedText.{service_text, services_text, some_services_text, ssm_text};
ghost use Rattle.mc_shown.specs.AskedText.{what_text};
ghost use Rattle.mc_shown.specs.RoutersForWant.{routers_value};

use crate::asked::routers_by_state::RoutersByState;
use crate::row_text::ShownAddress;
use crate::shown_names::{MAX_SHOWN_NAMES, ShownLans, ShownMore, ShownRouters, first_eight};
use mc_asked::{SharedPair, service_name};
use mc_text::{Addr, Memory};
use mc_topology::{LanNo, RouterNo, Topology};
use std::fmt;

/// A want that no flow answers, and what its line has.
#[derive(Clone, Copy, Drop)]
pub struct AskedLine<'t> {
    /// The group, and the source or 0.0.0.0 for any.
    pub want: &'t (Addr, Addr),
    /// The LANs whose want it is.
    pub lans: &'t [LanNo],
    /// The sources of the listed flows of the group, in the topology's order.
    pub listed: &'t [Addr],
    /// The routers by what they have for it.
    pub routers: &'t RoutersByState,
    /// Whether routers are excluded, whose tables nobody knows.
    pub are_excluded: bool,
}

/// Who forwards packets of a want, or why nobody does.
#[derive(Clone, Copy, Drop)]
struct ShownForwarding<'t> {
    topology: &'t Topology,
    routers: &'t RoutersByState,
    are_excluded: bool,
}

impl<'t> fmt::Display for ShownForwarding<'t> {
    ghost output = { λ shown. Some (forwarding_text shown.topology.now shown.are_excluded
        (routers_value shown.routers.now)) };

    fn fmt<W: fmt::Write>(&self, f: &mut fmt::Formatter<W>) -> fmt::Result {
        let topology = self.topology;
        let routers: &[RouterNo] = &self.routers.forwards;
        if !routers.is_empty() {
            let routers = ShownRouters { routers, topology };
            return write!(f, "forwarded by{routers}");
        }
        let routers: &[RouterNo] = &self.routers.none_out;
        if !routers.is_empty() {
            let routers = ShownRouters { routers, topology };
            return write!(f, "no outgoing LAN interface in{routers}");
        }
        let routers: &[RouterNo] = &self.routers.every_source;
        if !routers.is_empty() {
            let routers = ShownRouters { routers, topology };
            return write!(f, "no entry for it but (*,G) or (*,*) in{routers}");
        }
        if self.are_excluded {
            f.write_str("no router with known tables forwards it")
        } else {
            f.write_str("no router forwards it")
        }
    }
}

/// The first addresses of a list, such as ` 10.0.0.5 10.0.0.6`, and how many more there are.
#[derive(Clone, Copy, Drop)]
struct ShownAddresses<'t> {
    addresses: &'t [Addr],
}

impl<'t> fmt::Display for ShownAddresses<'t> {
    ghost output = { λ shown. Some (addresses_text shown.addresses.now) };

    fn fmt<W: fmt::Write>(&self, f: &mut fmt::Formatter<W>) -> fmt::Result {
        for address in first_eight(self.addresses) {
            write!(f, " {address}")?;
        }
        let more = ShownMore::after(MAX_SHOWN_NAMES, self.addresses.len());
        write!(f, "{more}")
    }
}

/// The sources of the flows that are listed for a group, or nothing if there are none.
#[derive(Clone, Copy, Drop)]
struct ShownListed<'t> {
    sources: &'t [Addr],
}

impl<'t> fmt::Display for ShownListed<'t> {
    ghost output = { λ shown. Some (listed_text shown.sources.now) };

    fn fmt<W: fmt::Write>(&self, f: &mut fmt::Formatter<W>) -> fmt::Result {
        if self.sources.is_empty() {
            return Ok(());
        }
        let addresses = ShownAddresses {
            addresses: self.sources,
        };
        write!(f, "; listed for the group:{addresses}")
    }
}

/// Whether routers ignore a want: it is for any source of a group in 232.0.0.0/8, which is for single
/// sources (RFC 4607, section 1).
fn is_ignored_by_routers(want: &(Addr, Addr)) -> bool
    ensures { result ≡ is_ignored_by_routers want.now }
{
    want.1.is_unspecified() && want.0.octets()[0] == 232
}

/// That routers ignore a want, or nothing if they don't.
#[derive(Clone, Copy, Drop)]
struct ShownSsm<'t> {
    want: &'t (Addr, Addr),
}

impl<'t> fmt::Display for ShownSsm<'t> {
    ghost output = { λ shown. Some (ssm_text shown.want.now) };

    fn fmt<W: fmt::Write>(&self, f: &mut fmt::Formatter<W>) -> fmt::Result {
        if is_ignored_by_routers(self.want) {
            f.write_str("; SSM: routers ignore it")
        } else {
            Ok(())
        }
    }
}

/// What a line has of a want after its LANs.
#[derive(Clone, Copy, Drop)]
struct ShownWhat<'t> {
    topology: &'t Topology,
    line: AskedLine<'t>,
}

impl<'t> fmt::Display for ShownWhat<'t> {
    ghost output = { λ shown. Some (what_text shown.topology.now shown.line) };

    fn fmt<W: fmt::Write>(&self, f: &mut fmt::Formatter<W>) -> fmt::Result {
        let forwarding = ShownForwarding {
            topology: self.topology,
            routers: self.line.routers,
            are_excluded: self.line.are_excluded,
        };
        let listed = ShownListed {
            sources: self.line.listed,
        };
        let ssm = ShownSsm {
            want: self.line.want,
        };
        write!(f, "{forwarding}{listed}{ssm}")
    }
}

/// Writes the line of a want that no flow answers.
///
/// # Errors
///
/// `Memory` if an allocation fails.
pub fn push_asked(
    text: &mut String,
    topology: &Topology,
    line: &AskedLine<'_>,
) -> Result<(), Memory>
    ensures { OnOk result (string_bytes text.new ≡ string_bytes text.old
        ++ asked_text_of topology.now line.now) }
{
    let group = line.want.0;
    let source = ShownAddress {
        address: line.want.1,
    };
    let count = line.lans.len();
    let lans = ShownLans {
        lans: line.lans,
        topology,
    };
    let what = ShownWhat {
        topology,
        line: *line,
    };
    writeln!(text, "asked {source} {group} lans {count}:{lans}: {what}")?;
    Ok(())
}

/// Writes how many more wants of LANs there are, or nothing if there are none.
///
/// # Errors
///
/// `Memory` if an allocation fails.
pub fn push_asked_more(text: &mut String, more: u128) -> Result<(), Memory>
    ensures { OnOk result (string_bytes text.new ≡ string_bytes text.old ++ asked_more_text more) }
{
    if more > 0 {
        writeln!(text, "asked and {more} more")?;
    }
    Ok(())
}

/// The group of a service, and its name.
#[derive(Clone, Copy, Drop)]
struct ShownService {
    group: Addr,
}

impl fmt::Display for ShownService {
    ghost output = { λ shown. Some (service_text shown.group) };

    fn fmt<W: fmt::Write>(&self, f: &mut fmt::Formatter<W>) -> fmt::Result {
        let group = self.group;
        let name = service_name(group).unwrap_or("");
        write!(f, "{group} {name}")
    }
}

/// The first services, and how many more there are.
#[derive(Clone, Copy, Drop)]
struct ShownServices<'t> {
    services: &'t [SharedPair],
}

impl<'t> fmt::Display for ShownServices<'t> {
    ghost output = { λ shown. Some (some_services_text shown.services.now) };

    fn fmt<W: fmt::Write>(&self, f: &mut fmt::Formatter<W>) -> fmt::Result {
        for service in first_eight(self.services) {
            let service = ShownService {
                group: service.pair().0,
            };
            write!(f, " {service}")?;
        }
        let more = ShownMore::after(MAX_SHOWN_NAMES, self.services.len());
        write!(f, "{more}")
    }
}

/// Writes the line of the services for whose groups hosts ask, or nothing if there are none.
///
/// # Errors
///
/// `Memory` if an allocation fails.
pub fn push_asked_services(text: &mut String, services: &[SharedPair]) -> Result<(), Memory>
    ensures { OnOk result (string_bytes text.new ≡ string_bytes text.old
        ++ services_text services.now) }
{
    if !services.is_empty() {
        let count = services.len();
        let services = ShownServices { services };
        writeln!(text, "asked services {count}:{services}")?;
    }
    Ok(())
}
