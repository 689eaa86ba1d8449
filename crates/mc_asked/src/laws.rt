//! Laws of what hosts ask for.

ghost use Rattle.std.specs.Prelude.{◌≡◌, ◌+◌, ◌↔◌, ℕ, Bool, List, Contains, false, true, sum_by};
ghost use Rattle.mc_igmp.specs.declared.record.Record.{Record};
ghost use Rattle.mc_text.specs.Addr.{is_forwarded_group, is_source};
ghost use Rattle.mc_filter.specs.Merged.{IsMergedValue};
ghost use Rattle.mc_filter.specs.SourceFilter.{SourceFilter};
ghost use Rattle.mc_filter.specs.declared.filter.Mode.TheVariants.{Exclude, Include};
ghost use Rattle.mc_theory.specs.Lists.{In};
ghost use Rattle.mc_asked.specs.Answers.{AnswersValue, class_of};
ghost use Rattle.mc_asked.specs.AskedLines.{asked_from, asked_lines, count_others, count_shown};
ghost use Rattle.mc_asked.specs.AskedLines.{count_wants, further_wants, lan_wants_from};
ghost use Rattle.mc_asked.specs.GroupRun.{seconds_of};
ghost use Rattle.mc_asked.specs.LanWants.{lan_wants};
ghost use Rattle.mc_asked.specs.ListWants.{Want, any_source, wants_in};
ghost use Rattle.mc_asked.specs.declared.want_class.WantClass.TheVariants.{Service};
ghost use Rattle.std.specs.FinMap.{FinMap};
ghost use Rattle.std.specs.Ordering.{nat_cmp};
ghost use Rattle.mc_tables.specs.CacheTable.{RowValue};
ghost use Rattle.mc_tables.specs.EachRow.{with_rows};
ghost use Rattle.mc_tables.specs.VifTable.{VifValue};
ghost use Rattle.mc_asked.specs.Unadmitted.{is_admitted, unadmitted_by, unadmitted_in};
ghost use Rattle.mc_asked.specs.WantStates.{states_by_rows, states_start, states_with_row};
ghost use Rattle.mc_asked.specs.PairParts.{shared_pairs, shown_of_parts};

/// A list asks for a group of any source where its merged filter is EXCLUDE, and else of each source that
/// the filter lists and from which a host may send (RFC 3376, section 3.2).
pub fn wants_are_those_of_merged_filters()
    ensures any { (records : List Record) (group : ℕ) (filter : SourceFilter) →
        IsMergedValue records group filter → is_forwarded_group group ≡ true →
        In (group, any_source) (wants_in records) ↔ (filter.mode ≡ Exclude) }
    ensures single { (records : List Record) (group : ℕ) (source : ℕ) (filter : SourceFilter) →
        IsMergedValue records group filter → is_forwarded_group group ≡ true → is_source source ≡ true →
        In (group, source) (wants_in records)
        ↔ ((filter.mode ≡ Include) × Contains filter.sources source) }
{}

/// Each want of a LAN's list is of one class, the first that holds. Where it is a service's, its group is
/// among those that are kept. Where nothing answers it, it is in a line or counted: the lines are those of
/// all such wants, or of the 20 lowest of all, each with all LANs whose want it is, though of each list only
/// the lowest are kept, and the further ones have one for each LAN and each want of its list that is in no
/// line. The count of all is that of the lines and the further ones.
pub fn each_unanswered_want_is_shown_or_counted()
    ensures services { (all : Bool) (answers : AnswersValue) (lan : ℕ) (records : List Record)
        (want : Want) →
        In want (wants_in records) → class_of answers lan records want ≡ Service →
        In want.0 (lan_wants all answers lan records).services }
    ensures lines { (all : Bool) (answers : AnswersValue) (lists : List (List Record)) →
        asked_lines all (lan_wants_from all answers 0 lists)
        ≡ shared_pairs all (asked_from answers 0 lists) }
    ensures further { (all : Bool) (answers : AnswersValue) (lists : List (List Record)) →
        further_wants all (lan_wants_from all answers 0 lists)
        ≡ sum_by (count_others (shown_of_parts all (asked_from answers 0 lists)))
        (asked_from answers 0 lists) }
    ensures count { (all : Bool) (answers : AnswersValue) (lists : List (List Record)) →
        count_wants (lan_wants_from all answers 0 lists)
        ≡ count_shown (asked_lines all (lan_wants_from all answers 0 lists))
        + further_wants all (lan_wants_from all answers 0 lists) }
{}

/// Of a group for which the merged filter of a list is EXCLUDE, the sources that the list doesn't admit are
/// those of the filter's list (RFC 3376, section 3.2). So of a line for any source, those of which entries
/// don't count are all that the filter of none of its LANs admits.
pub fn unadmitted_sources_are_those_that_no_filter_admits()
    ensures list { (records : List Record) (groups : List ℕ) (group : ℕ) (filter : SourceFilter) →
        IsMergedValue records group filter → filter.mode ≡ Exclude → In group groups →
        seconds_of group (unadmitted_in records groups) ≡ filter.sources }
    ensures line { (all : Bool) (answers : AnswersValue) (lists : List (List Record)) (group : ℕ)
        (lans : List ℕ)
        (source : ℕ) → In ((group, any_source), lans)
        (asked_lines all (lan_wants_from all answers 0 lists)) →
        Contains (unadmitted_by lists group lans) source
        ↔ (is_admitted lists lans group source ≡ false) }
{}

/// What is made of the rows of a router, one after another, is what all of its rows have for each want.
pub fn rows_have_something_for_each_want()
    ensures { (vifs : FinMap nat_cmp VifValue) (wants : List (Want × List ℕ)) (rows : List RowValue) →
        with_rows states_with_row (states_start vifs wants) rows ≡ states_by_rows vifs wants rows }
{}
