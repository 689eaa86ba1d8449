//! Theorems about the sentences of an explanation.

ghost use Rattle.std.specs.Prelude.{◌≡◌, ◌++◌, ◌∷◌, ℕ, List, [], codes, decimal, flat_map, true};
ghost use Rattle.std.specs.List.{list_all};
ghost use Rattle.mc_tables.specs.Summary.{SummaryValue};
ghost use Rattle.mc_topology.specs.Topology.{IsValidTopology, lan_name, router_name};
ghost use Rattle.mc_forward.specs.ListedTables.{DomainFacts};
ghost use Rattle.mc_explain.specs.declared.causes.Cause.{Cause};
ghost use Rattle.mc_explain.specs.declared.causes.Cause.TheVariants.{SentOnto, StoppedAt};
ghost use Rattle.mc_search.specs.declared.shown_line.ShownLine.{ShownLine};
ghost use Rattle.mc_shown.specs.Indented.{AreIndented, indented};
ghost use Rattle.mc_shown.specs.RowText.{device_text, flow_row_text};
ghost use Rattle.mc_lines.specs.CauseLines.{cause_items, cause_lines};
ghost use Rattle.mc_lines.specs.ExplanationText.{IsEachSearchIndented, causes_text, deeper_causes_text};
ghost use Rattle.mc_lines.specs.Filled.{has_well_formed_sentences, joined_sentences, line_text};
ghost use Rattle.mc_lines.specs.FlowContext.{FlowContext};
ghost use Rattle.mc_lines.specs.Lines.{FactValue, Line, line};
ghost use Rattle.mc_lines.specs.SearchLines.{reach_lines, shown_line};
ghost use Rattle.mc_lines.specs.Sentences.{piece_spelling, pieces};

/// Each line of an explanation begins with two spaces, whatever the names of LANs, routers and devices
/// are.
pub fn explained_lines_begin_with_two_spaces()
    ensures causes { (domain : DomainFacts) (summary : List SummaryValue) (flow : ℕ) (causes : List Cause) →
        IsValidTopology domain.topology → AreIndented (causes_text domain summary flow causes) }
    ensures deeper { (domain : DomainFacts) (summary : List SummaryValue) (flow : ℕ) (causes : List Cause) →
        IsValidTopology domain.topology → AreIndented (deeper_causes_text domain summary flow causes) }
    ensures search { (domain : DomainFacts) → IsValidTopology domain.topology → IsEachSearchIndented domain }
    // So does each line of any kind whose sentences are well formed.
    ensures each { (context : FlowContext) (given : Line) → IsValidTopology context.domain.topology →
        has_well_formed_sentences given ≡ true → AreIndented (line_text context given) }
{}

/// The pieces of a sentence, one after another, spell the sentence: none of it is lost or added.
pub fn pieces_spell_their_sentence()
    ensures { (sentence : List ℕ) → flat_map piece_spelling (pieces sentence) ≡ sentence }
{}

/// Each sentence is well formed: it refers to facts of its line alone.
pub fn sentences_refer_to_their_facts()
    ensures causes { (context : FlowContext) (cause : Cause) →
        list_all has_well_formed_sentences (cause_lines context cause) ≡ true }
    ensures search { (context : FlowContext) (shown : ShownLine) →
        has_well_formed_sentences (shown_line context shown) ≡ true }
    ensures reach { (sent_on took_none : List ℕ) →
        list_all has_well_formed_sentences (reach_lines sent_on took_none) ≡ true }
{}

/// The text of a line with one sentence is two spaces and then what `joined_sentences` gives, which JSON has
/// as the line's `text`.
pub fn text_and_json_have_the_same_sentence()
    ensures { (context : FlowContext) (kind sentence : List ℕ) (facts : List (List ℕ × FactValue)) →
        line_text context (line kind (sentence ∷ []) facts)
        ≡ indented (joined_sentences context facts (sentence ∷ [])) }
{}

/// The lines of the causes `SentOnto` and `StoppedAt`, word by word, as examples of how facts fill a
/// sentence.
pub fn facts_fill_their_sentence()
    ensures sender { (context : FlowContext) (lan router vif : ℕ) →
        cause_items line_text context (SentOnto lan router vif)
        ≡ codes "  forwarded onto " ++ (lan_name context.domain.topology lan
        ++ (codes " by " ++ (router_name context.domain.topology router
        ++ (codes " " ++ (device_text context.domain router vif
        ++ (codes ": " ++ (flow_row_text context.domain context.flow router ++ codes "\n"))))))) }
    ensures stop { (context : FlowContext) (router vif threshold ttl : ℕ) →
        cause_items line_text context (StoppedAt router vif threshold ttl)
        ≡ codes "  stopped at " ++ (router_name context.domain.topology router
        ++ (codes " " ++ (device_text context.domain router vif
        ++ (codes ": ttl " ++ (decimal ttl
        ++ (codes " is not above threshold " ++ (decimal threshold ++ codes "\n"))))))) }
{}
