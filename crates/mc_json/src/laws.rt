//! Theorems about the lines: each is a JSON object, only the last one has a verdict, and what trees and
//! events have in common.

ghost use Rattle.std.specs.Prelude.{◌≡◌, ◌+◌, ℕ, Bool, List, codes, false, length, true};
ghost use Rattle.serde_json.specs.Data.{Data};
ghost use Rattle.mc_tables.specs.Summary.{SummaryValue};
ghost use Rattle.mc_topology.specs.declared.flow.Flow.{Flow};
ghost use Rattle.mc_topology.specs.Topology.{TopologyValue};
ghost use Rattle.mc_theory.specs.Certificates.{Entry};
ghost use Rattle.mc_theory.specs.Events.{event_of};
ghost use Rattle.mc_theory.specs.Events.Outcome.{Sent};
ghost use Rattle.mc_theory.specs.Flights.{Waiting};
ghost use Rattle.mc_theory.specs.Nets.{Net};
ghost use Rattle.mc_forward.specs.ListedTables.{DomainFacts};
ghost use Rattle.mc_asked.specs.ListWants.{Want};
ghost use Rattle.mc_shown.specs.RoutersForWant.{RoutersForWant};
ghost use Rattle.mc_json.specs.AskedData.{asked_more_line, asked_object, asked_services_line};
ghost use Rattle.mc_json.specs.DomainData.{domain_data};
ghost use Rattle.mc_json.specs.EndData.{summary_data, unlisted_lines, verdict_data, without_line};
ghost use Rattle.mc_json.specs.FlowData.{right_data, sent_vifs, tree_data};
ghost use Rattle.mc_json.specs.ObjectLines.{AreObjectLines};
ghost use Rattle.mc_json.specs.RowData.{line_of};
ghost use Rattle.mc_json.specs.TreeKey.{tree_key};

/// Each line but the verdict's and those of flows with a finding begins an object other than the verdict, and
/// its only line feed ends it, whatever words of the command line and names of LANs, routers and devices it
/// has.
pub fn each_line_is_an_object()
    ensures domain { (domain : DomainFacts) (words : List (List ℕ)) →
        AreObjectLines (line_of (domain_data domain words)) }
    ensures tree { (topology : TopologyValue) (net : Net) (entries : List Entry) (tree : ℕ) →
        AreObjectLines (line_of (tree_data topology net entries tree)) }
    ensures right { (whole : Bool) (number : ℕ) (flow : Flow) (copies tree : ℕ) (wanted : List Data) →
        AreObjectLines (line_of (right_data whole number flow copies tree wanted)) }
    ensures unlisted { (all : Bool) (topology : TopologyValue) (summary : List SummaryValue) →
        AreObjectLines (unlisted_lines all topology summary) }
    ensures without { (topology : TopologyValue) (excluded : List Bool) →
        AreObjectLines (without_line topology excluded) }
    ensures asked { (topology : TopologyValue) (line : Want × List ℕ) (listed : List ℕ)
        (routers : RoutersForWant) →
        AreObjectLines (line_of (asked_object topology line listed routers)) }
    ensures asked_more { (more : ℕ) → AreObjectLines (asked_more_line more) }
    ensures asked_services { (topology : TopologyValue) (lines : List (Want × List ℕ)) →
        AreObjectLines (asked_services_line topology lines) }
    ensures summary { (asked right unknown unwanted wrong : ℕ) →
        AreObjectLines (line_of (summary_data asked right unknown unwanted wrong)) }
{}

/// The line of each verdict, letter by letter.
pub fn the_verdict_is_a_line()
    ensures yes { line_of (verdict_data true) ≡ codes "{\"verdict\":\"yes\"}\n" }
    ensures no { line_of (verdict_data false) ≡ codes "{\"verdict\":\"no\"}\n" }
{}

/// An event that sent copies names a vif for each of its copies and for each of its strays.
pub fn each_copy_of_an_event_has_its_vif()
    ensures { (net : Net) (waiting : Waiting) (copies strays : ℕ)
        → (event_of net waiting).outcome ≡ Sent copies strays →
        length (sent_vifs net (event_of net waiting)) ≡ copies + strays }
{}

/// Trees that aren't told apart, even of different flows, have one line: so the line with a flow's number of
/// a tree is that of its own tree.
pub fn trees_with_one_key_have_one_line()
    ensures { (topology : TopologyValue) (net m : Net) (entries fs : List Entry) (tree : ℕ) →
        tree_key net entries ≡ tree_key m fs → tree_data topology net entries tree
        ≡ tree_data topology m fs tree }
{}
