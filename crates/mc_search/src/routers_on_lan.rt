//! The routers that have an interface on a LAN.

ghost use Rattle.std.specs.Prelude.{◌≡◌};
ghost use Rattle.mc_search.specs.BucketsAndMarks.{leading_of_router};

use crate::listed_interface::ListedInterface;
use mc_topology::RouterNo;
use std::marker::Model;

/// A router, and its interfaces on a LAN. Its value in contracts is the pair of both.
#[derive(Drop)]
pub(crate) struct RouterOnLan<'a> {
    pub(crate) router: RouterNo,
    pub(crate) interfaces: &'a [ListedInterface],
}

impl<'a> Model for RouterOnLan<'a> {
    ghost use Rattle.std.specs.Prelude.{ℕ, List};
    ghost use Rattle.mc_search.specs.declared.listed_interface.ListedInterface.{ListedInterface};

    ghost Value = { ℕ × List ListedInterface };

    ghost view = { λ o. (o.router, o.interfaces.now) };
}

/// An iterator over the routers on a LAN. Its value in contracts is the list of those that are left.
#[derive(Drop)]
pub(crate) struct RoutersOnLan<'a> {
    left: &'a [ListedInterface],
}

impl<'a> Model for RoutersOnLan<'a> {
    ghost use Rattle.std.specs.Prelude.{ℕ, List};
    ghost use Rattle.mc_search.specs.declared.listed_interface.ListedInterface.{ListedInterface};

    ghost Value = { List (ℕ × List ListedInterface) };

    ghost use Rattle.mc_search.specs.SearchLine.{group_by_router};

    ghost view = { λ s. group_by_router s.left.now };
}

/// How many interfaces at the front are this router's.
fn leading_of_router(router: RouterNo, interfaces: &[ListedInterface]) -> usize
    ensures { result ≡ leading_of_router router interfaces.now }
{
    for (index, interface) in interfaces.iter().enumerate() {
        if interface.router != router {
            return index;
        }
    }
    interfaces.len()
}

impl<'a> RoutersOnLan<'a> {
    ghost use Rattle.mc_search.specs.SearchLine.{group_by_router};

    /// The routers of these interfaces, which are sorted by router.
    pub(crate) fn new(all: &'a [ListedInterface]) -> RoutersOnLan<'a>
        ensures { result ≡ group_by_router all.now }
    {
        RoutersOnLan { left: all }
    }
}

impl<'a> Iterator for RoutersOnLan<'a> {
    type Item = RouterOnLan<'a>;

    ghost use Rattle.std.specs.Iterator.{YieldsFirst, item_count};

    ghost next_gives = { YieldsFirst (λ left. left) };

    ghost remaining = { item_count (λ left. left) };

    fn next(&mut self) -> Option<RouterOnLan<'a>> {
        if self.left.is_empty() {
            return None;
        }
        let router = self.left[0].router;
        let (interfaces, left) = self.left.split_at(leading_of_router(router, self.left));
        self.left = left;
        Some(RouterOnLan { router, interfaces })
    }
}
