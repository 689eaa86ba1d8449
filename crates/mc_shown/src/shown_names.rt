//! The names of a list of LANs or of routers, of which the first 8 are shown.

ghost use Rattle.std.specs.Prelude.{◌≡◌, ◌-◌, Some, take};
ghost use Rattle.mc_shown.specs.ShownNames.{lans_text, more_text, routers_text};

use mc_topology::{LanNo, RouterNo, Topology};
use std::fmt;

/// How many names of a list are shown at most.
pub(crate) const MAX_SHOWN_NAMES: usize = 8;

/// The first 8 of a list.
pub(crate) fn first_eight<N>(list: &[N]) -> &[N]
    ensures { result.now ≡ take 8 list.now }
{
    if list.len() > MAX_SHOWN_NAMES {
        &list[..MAX_SHOWN_NAMES]
    } else {
        list
    }
}

/// How many more there are, such as ` and 3 more`, or nothing if there are none.
#[derive(Clone, Copy, Drop)]
pub struct ShownMore {
    /// How many.
    more: usize,
}

impl ShownMore {
    /// How many of `count` items come after the first `shown`.
    pub fn after(shown: usize, count: usize) -> ShownMore
        ensures { result.more ≡ count - shown }
    {
        ShownMore {
            more: count.saturating_sub(shown),
        }
    }
}

impl fmt::Display for ShownMore {
    ghost output = { λ shown. Some (more_text shown.more) };

    fn fmt<W: fmt::Write>(&self, f: &mut fmt::Formatter<W>) -> fmt::Result {
        let more = self.more;
        if more == 0 {
            Ok(())
        } else {
            write!(f, " and {more} more")
        }
    }
}

/// The names of the first LANs of a list, such as ` l1 l2`, and how many more there are.
#[derive(Clone, Copy, Drop)]
pub struct ShownLans<'t> {
    /// The list.
    pub lans: &'t [LanNo],
    /// The topology that has the names.
    pub topology: &'t Topology,
}

impl<'t> fmt::Display for ShownLans<'t> {
    ghost output = { λ shown. Some (lans_text shown.topology.now shown.lans.now) };

    fn fmt<W: fmt::Write>(&self, f: &mut fmt::Formatter<W>) -> fmt::Result {
        for lan in first_eight(self.lans) {
            let name = self.topology.lan_name_or_empty(*lan);
            write!(f, " {name}")?;
        }
        let more = ShownMore::after(MAX_SHOWN_NAMES, self.lans.len());
        write!(f, "{more}")
    }
}

/// The names of the first routers of a list, such as ` r1 r2`, and how many more there are.
#[derive(Clone, Copy, Drop)]
pub struct ShownRouters<'t> {
    /// The list.
    pub routers: &'t [RouterNo],
    /// The topology that has the names.
    pub topology: &'t Topology,
}

impl<'t> fmt::Display for ShownRouters<'t> {
    ghost output = { λ shown. Some (routers_text shown.topology.now shown.routers.now) };

    fn fmt<W: fmt::Write>(&self, f: &mut fmt::Formatter<W>) -> fmt::Result {
        for router in first_eight(self.routers) {
            let name = self.topology.router_name_or_empty(*router);
            write!(f, " {name}")?;
        }
        let more = ShownMore::after(MAX_SHOWN_NAMES, self.routers.len());
        write!(f, "{more}")
    }
}
