//! Theorems over the definitions alone, for crates that use them.

ghost use Rattle.std.specs.Prelude.{◌≡◌, ◌↔◌, ℕ, ◌<◌, ◌≤◌, List, [], ◌∷◌, ◌++◌, length, Ok};
ghost use Rattle.mc_text.specs.Lines.{max_text};
ghost use Rattle.mc_topology.specs.Topology.{TopologyValue, IsValidTopology};
ghost use Rattle.mc_cert.specs.Certificate.{Tree, BelongsTo};
ghost use Rattle.mc_cert.specs.CertificateText.{certificate_json};
ghost use Rattle.mc_cert.specs.Reading.{parse_certificate};
ghost use Rattle.mc_cert.specs.Denotation.{DenotesCertificate};
ghost use Rattle.mc_cert.specs.Writable.{IsWritableFor};

/// Reading gives a certificate exactly where the text denotes it, so a text denotes one certificate of a
/// topology at most.
pub fn read_gives_the_denoted_certificate()
    ensures read { (topology : TopologyValue) (text : List ℕ) (flows : List Tree) →
        ((parse_certificate topology text ≡ Ok flows) ↔ DenotesCertificate topology text flows) }
    ensures unique { (topology : TopologyValue) (text : List ℕ) (certificate other : List Tree) →
        DenotesCertificate topology text certificate → DenotesCertificate topology text other
        → certificate ≡ other }
{}

/// What a text denotes belongs to the topology.
pub fn denoted_certificate_belongs_to_topology()
    ensures { (topology : TopologyValue) (text : List ℕ) (flows : List Tree) →
        DenotesCertificate topology text flows → BelongsTo topology flows }
{}

/// The text of a certificate that can be written for a valid topology denotes it, where it isn't longer
/// than a text may be. Each topology in memory is valid, by the clauses `rules` of its methods.
pub fn certificate_text_denotes_certificate()
    ensures { (topology : TopologyValue) (flows : List Tree) → IsValidTopology topology
        → IsWritableFor topology flows →
        length (certificate_json topology flows) ≤ max_text →
        DenotesCertificate topology (certificate_json topology flows) flows }
{}

/// A line feed at the end of a text changes nothing, where the text with it isn't longer than it may be.
pub fn trailing_line_feed_changes_nothing()
    ensures { (topology : TopologyValue) (text : List ℕ) → length text < max_text →
        parse_certificate topology (text ++ 10 ∷ []) ≡ parse_certificate topology text }
{}
