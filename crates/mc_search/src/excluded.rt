//! Whether a router is excluded, by a mark for each router.

ghost use Rattle.std.specs.Prelude.{◌≡◌};
ghost use Rattle.mc_search.specs.SearchLine.{is_excluded};

use mc_topology::RouterNo;

/// Whether a router is marked as excluded. Routers without a mark aren't.
pub fn is_excluded(marks: &[bool], router: RouterNo) -> bool
    ensures { result ≡ is_excluded marks.now router }
{
    match marks.get(router.0 as usize) {
        Some(mark) => *mark,
        None => false,
    }
}
