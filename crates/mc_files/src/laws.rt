//! Laws that follow from the definitions alone.

ghost use Rattle.std.specs.Prelude.{◌≡◌, ◌↔◌, Bool, List, map, None, Ok, IsTrue};
ghost use Rattle.std.specs.List.{AllByRecursion, list_all};
ghost use Rattle.mc_bundle.specs.Bundle.{IsPartName, PartText, bundle_spelling};
ghost use Rattle.mc_bundle.specs.BundleReading.{bundle_of};
ghost use Rattle.mc_files.specs.PartMismatch.{first_part_mismatch};
ghost use Rattle.mc_files.specs.Files.{FileText};
ghost use Rattle.mc_topology.specs.Names.{is_name_byte};
ghost use Rattle.mc_topology.specs.Topology.{TopologyValue, IsValidTopology};
ghost use Rattle.mc_files.specs.Layout.{file_name, part_name, slots};
ghost use Rattle.mc_files.specs.Packing.{IsPacked};
ghost use Rattle.mc_files.specs.PackReading.{packed_parts};

/// Reading the files gives exactly the parts of their packed bundle, and files make one bundle at
/// most.
pub fn packing_is_exact_and_unique()
    ensures exact { (files : List FileText) (certified : Bool) (parts : List PartText)
        → (packed_parts certified files ≡ Ok parts ↔ IsPacked files certified parts) }
    ensures unique { (files : List FileText) (certified : Bool) (parts others : List PartText)
        → IsPacked files certified parts → IsPacked files certified others → parts ≡ others }
{}

/// A packed bundle is read back as the parts that were packed.
pub fn packed_files_are_read_back()
    ensures { (files : List FileText) (certified : Bool) (parts : List PartText)
        → IsPacked files certified parts → bundle_of (bundle_spelling parts) ≡ Ok parts }
{}

/// The names of the files that are packed have only letters, digits, `-`, `_` and `.`, so none of
/// the files lies outside the folder.
pub fn packed_names_are_plain()
    ensures { (certified : Bool) (topology : TopologyValue) → IsValidTopology topology
        → AllByRecursion (λ slot. IsTrue (list_all is_name_byte (file_name slot)))
        (slots certified topology) }
{}

/// The name of each slot of a topology is a valid name of a part.
pub fn slot_names_are_part_names()
    ensures { (certified : Bool) (topology : TopologyValue) → IsValidTopology topology
        → AllByRecursion (λ slot. IsPartName (part_name slot)) (slots certified topology) }
{}

/// The parts of a bundle are those of a domain exactly if they have the names of its slots, in
/// order.
pub fn parts_match_slots_exactly_by_name()
    ensures { (certified : Bool) (topology : TopologyValue) (parts : List PartText)
        → ((first_part_mismatch certified topology parts ≡ None)
        ↔ (map part_name (slots certified topology) ≡ map (λ part. part.name) parts)) }
{}
