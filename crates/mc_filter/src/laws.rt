//! Laws of the merged filter, which follow from its definition alone.

ghost use Rattle.std.specs.Prelude.{◌≡◌, ◌↔◌, ℕ, List};
ghost use Rattle.std.specs.List.Sorted.{IsPermutation};
ghost use Rattle.mc_igmp.specs.declared.record.Record.{Record};
ghost use Rattle.mc_igmp.specs.Wants.{Wants};
ghost use Rattle.mc_filter.specs.SourceFilter.{SourceFilter, FilterAdmits};
ghost use Rattle.mc_filter.specs.Merged.{IsMergedValue};

/// The filter that the records for a group merge to admits exactly the sources that one of them admits.
#[tactic(auto, using(crate::proofs::MergedLemmas::merged_admits_wanted))]
pub fn merged_filter_admits_what_is_wanted()
    ensures { (records : List Record) (group : ℕ) (filter : SourceFilter) →
        IsMergedValue records group filter →
        (source : ℕ) → FilterAdmits filter source ↔ Wants records group source }
{}

/// The same records in another order merge to the same filter.
pub fn merged_filter_ignores_record_order()
    ensures { (records others : List Record) (group : ℕ) (filter other : SourceFilter) →
        IsPermutation records others →
        IsMergedValue records group filter → IsMergedValue others group other → filter ≡ other }
{}
