//! Theorem: which unlisted pairs are shown.

ghost use Rattle.std.specs.Prelude.{◌≡◌, ℕ, Bool, List, flat_map};
ghost use Rattle.mc_tables.specs.CacheTable.{RowValue};
ghost use Rattle.mc_tables.specs.Summary.{in_order, shown_pairs};
ghost use Rattle.mc_topology.specs.Topology.{TopologyValue};
ghost use Rattle.mc_shown.specs.UnlistedText.{ShownPairsHaveAllRouters, shown_unlisted_pairs};
ghost use Rattle.mc_shown.specs.UnlistedText.{summaries_of, unlisted_pairs};

/// The shown pairs are all unlisted ones of the caches' resolved rows, or the lowest 20 of all, though
/// each summary then has only the lowest 20 of its own cache. With each pair all routers are shown that
/// have a row of it.
pub fn the_lowest_unlisted_pairs_are_shown()
    ensures pairs { (all : Bool) (listed : List (ℕ × ℕ)) (caches : List (List RowValue)) →
        shown_unlisted_pairs all (summaries_of all listed caches)
        ≡ shown_pairs all (in_order (flat_map (unlisted_pairs listed) caches)) }
    ensures routers { (all : Bool) (topology : TopologyValue) (listed : List (ℕ × ℕ))
        (caches : List (List RowValue)) → ShownPairsHaveAllRouters all topology listed caches }
{}
