//! Theorems about the definitions alone, for callers that build on them.

ghost use Rattle.std.specs.Prelude.{◌≡◌, ◌≢◌, ◌≤◌, ◌↔◌, ◌&&◌, Bool, ℕ, List, IsSome, IfSome, Ok, Err};
ghost use Rattle.std.specs.Prelude.{Some, true};
ghost use Rattle.std.specs.FinSet as set;
ghost use Rattle.std.specs.Ordering.{nat_cmp};
ghost use Rattle.std.specs.FinMap.{FinMap, get};
ghost use Rattle.mc_text.specs.declared.text.addr.Order.{Order};
ghost use Rattle.mc_tables.specs.declared.fault.TableFault.{TableFault};
ghost use Rattle.mc_tables.specs.VifTable.{VifValue, no_device, DenotesVifs};
ghost use Rattle.mc_tables.specs.VifLookups.{HasDevice, IsValidVifTable, index_of};
ghost use Rattle.mc_tables.specs.CacheTable.{CacheValue, IsValidEntry, IsValidCache, RowValue, DenotesCache};
ghost use Rattle.mc_tables.specs.VifReading.{vifs_in};
ghost use Rattle.mc_tables.specs.CacheReading.{cache_in};
ghost use Rattle.mc_tables.specs.ListedRows.{Listed, is_listed, listed_in, IsListedPart};
ghost use Rattle.mc_tables.specs.Summary.{summary_of, has_unresolved_row, is_listed_group};
ghost use Rattle.mc_tables.specs.Summary.{wildcard_entry, first_wildcard_entry};
ghost use Rattle.mc_tables.specs.SummaryReading.{summary_in, table_without_summary};

/// A text is read as a table exactly if it denotes the table.
pub fn reading_gives_denoted_table()
    ensures vifs { (text : List ℕ) (vifs : FinMap nat_cmp VifValue) →
        (vifs_in text ≡ Ok vifs) ↔ DenotesVifs text vifs }
    ensures cache { (order : Order) (text : List ℕ) (table : CacheValue) →
        (cache_in order text ≡ Ok table) ↔ DenotesCache order text table }
{}

/// A text denotes at most one table.
pub fn text_denotes_one_table()
    ensures vifs { (text : List ℕ) (vifs others : FinMap nat_cmp VifValue) →
        DenotesVifs text vifs → DenotesVifs text others → vifs ≡ others }
    ensures cache { (order : Order) (text : List ℕ) (table other : CacheValue) →
        DenotesCache order text table → DenotesCache order text other → table ≡ other }
{}

/// A table that a text denotes keeps the rules that each look-up ensures of its table.
pub fn denoted_tables_are_valid()
    ensures vifs { (text : List ℕ) (vifs : FinMap nat_cmp VifValue) →
        DenotesVifs text vifs → IsValidVifTable vifs }
    ensures cache { (order : Order) (text : List ℕ) (table : CacheValue) →
        DenotesCache order text table → IsValidCache table }
{}

/// A device other than `none` has at most one vif.
pub fn devices_have_one_vif()
    ensures { (text : List ℕ) (vifs : FinMap nat_cmp VifValue) → DenotesVifs text vifs →
        (device : List ℕ) (index j : ℕ) → device ≢ no_device →
        HasDevice vifs index device → HasDevice vifs j device → index ≡ j }
{}

/// An index is found for a device exactly if its vif has that device, and the device isn't `none`.
pub fn index_answered_has_the_device()
    ensures { (text : List ℕ) (vifs : FinMap nat_cmp VifValue) → DenotesVifs text vifs →
        (device : List ℕ) (index : ℕ) → (index_of vifs device ≡ Some index)
        ↔ ((device ≢ no_device) × HasDevice vifs index device) }
{}

/// The indexes of vifs are 0 to 31.
pub fn vif_indexes_are_at_most_31()
    ensures { (text : List ℕ) (vifs : FinMap nat_cmp VifValue) → DenotesVifs text vifs →
        (index : ℕ) → IsSome (get vifs index) → index ≤ 31 }
{}

/// The vifs of a cache's entries are 0 to 31, the thresholds 1 to 254, and the outgoing vifs ascend,
/// so that each is there once.
pub fn entries_ascend_in_range()
    ensures { (order : Order) (text : List ℕ) (table : CacheValue) →
        DenotesCache order text table → (key : ℕ × ℕ) → IfSome (get table.entries key) IsValidEntry }
{}

/// A reader that keeps the listed rows reads the listed part of the whole cache, and its faults are
/// those of the whole text.
pub fn listed_table_is_part_of_whole()
    ensures part { (order : Order) (listed : Listed) (text : List ℕ) (part : CacheValue) →
        listed_in order listed text ≡ Ok part → (whole : CacheValue)
        × (cache_in order text ≡ Ok whole) × IsListedPart listed part whole }
    ensures fault { (order : Order) (listed : Listed) (text : List ℕ) (fault : TableFault) →
        (listed_in order listed text ≡ Err fault) ↔ (cache_in order text ≡ Err fault) }
{}

/// A cache that is read with a summary has the table that it has without, and the same faults.
pub fn summary_changes_no_table()
    ensures { (all : Bool) (order : Order) (listed : List (ℕ × ℕ)) (text : List ℕ) →
        listed_in order (Some listed) text
        ≡ table_without_summary (summary_in all order listed text) }
{}

/// The summary of some rows says of a source and a group whether they are listed and have an
/// unresolved row; and of a listed group, or of 0.0.0.0, which row for every source is its first.
pub fn summary_answers_by_rows()
    ensures unresolved { (all : Bool) (listed : List (ℕ × ℕ)) (rows : List RowValue) (key : ℕ × ℕ) →
        set.contains (summary_of all listed rows).unresolved key
        ≡ (is_listed (Some listed) key && has_unresolved_row rows key) }
    ensures every_source { (all : Bool) (listed : List (ℕ × ℕ)) (rows : List RowValue) (group : ℕ) →
        is_listed_group listed group ≡ true →
        wildcard_entry (summary_of all listed rows) group ≡ first_wildcard_entry rows group }
{}
