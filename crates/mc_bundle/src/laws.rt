//! Laws of bundles, which follow from the definitions alone.

ghost use Rattle.std.specs.Prelude.{◌≡◌, ℕ, List, take, Ok};
ghost use Rattle.std.specs.List.{AllByRecursion};
ghost use Rattle.mc_bundle.specs.Bundle.{PartText, IsPartName, bundle_spelling, AreWithinLimits};
ghost use Rattle.mc_bundle.specs.Bundle.{IsBundle, max_input};
ghost use Rattle.mc_bundle.specs.BundleReading.{bundle_of};

/// A text is the bundle of at most one list of parts: no two lists of parts have the same bytes.
pub fn bundle_has_one_part_list()
    ensures { (text : List ℕ) (parts others : List PartText)
        → IsBundle text parts → IsBundle text others → parts ≡ others }
{}

/// The bundle of named parts within the limits is read as those parts.
pub fn written_bundle_is_read()
    ensures { (parts : List PartText)
        → AllByRecursion (λ part. IsPartName part.name) parts → AreWithinLimits parts
        → bundle_of (bundle_spelling parts) ≡ Ok parts }
{}

/// The first bytes of a text, as many as the greatest bundle and the longest line have, decide what
/// bundle it is read as, or why it is none.
pub fn bundle_front_decides()
    ensures { (text : List ℕ) → bundle_of (take max_input text) ≡ bundle_of text }
{}
