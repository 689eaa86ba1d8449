//! Laws that follow from the definitions alone.

ghost use Rattle.std.specs.Prelude.{◌≡◌, ℕ, Bool, false, is_some, List, None, Option};
ghost use Rattle.mc_bundle.specs.Bundle.{PartText, IsBundle};
ghost use Rattle.mc_tables.specs.Summary.{SummaryValue};
ghost use Rattle.mc_topology.specs.Topology.{TopologyValue};
ghost use Rattle.mc_files.specs.Files.{FileText};
ghost use Rattle.mc_files.specs.Packing.{IsPacked};
ghost use Rattle.mc_forward.specs.Domains.{DomainValue, IsDomain};
ghost use Rattle.mc_input.specs.AskedOfFiles.{IsAskedOf, UnansweredWantsValue};
ghost use Rattle.mc_input.specs.FilesInput.{FilesDenoteInput};
ghost use Rattle.mc_input.specs.Input.{InputValue, DenotesInput};
ghost use Rattle.mc_input.specs.ExcludedRouters.{ExcludesRoutersPerFlow, HasExcludedName, HasNoVifOrRow};
ghost use Rattle.mc_input.specs.Meaning.{FilesMeanDomain};
ghost use Rattle.mc_input.specs.ReadAsMeant.{FilesMeanDomainWithout};
ghost use Rattle.mc_input.specs.SummariesOfFiles.{AreSummariesOf};

/// The text of a bundle denotes at most one input and one certificate, among those with a certificate
/// and among those without.
pub fn bundle_denotes_one_input()
    ensures input { (text : List ℕ) (input other : InputValue)
        (certificate other_certificate : Option (List ℕ))
        → is_some other_certificate ≡ is_some certificate
        → DenotesInput text input certificate → DenotesInput text other other_certificate
        → input ≡ other }
    ensures certificate { (text : List ℕ) (input other : InputValue)
        (certificate other_certificate : Option (List ℕ))
        → is_some other_certificate ≡ is_some certificate
        → DenotesInput text input certificate → DenotesInput text other other_certificate
        → certificate ≡ other_certificate }
{}

/// The files of a folder denote at most one input.
pub fn files_denote_one_input()
    ensures { (files : List FileText) (input other : InputValue) → FilesDenoteInput files input
        → FilesDenoteInput files other
        → input ≡ other }
{}

/// The files of a folder have at most one list of cache summaries for a topology.
pub fn summaries_are_unique()
    ensures { (all : Bool) (files : List FileText) (topology : TopologyValue)
        (summaries others : List SummaryValue)
        →
        AreSummariesOf all files topology summaries → AreSummariesOf all files topology others
        → summaries ≡ others }
{}

/// By the files of a folder that mean a domain there is one answer to what hosts ask for and no flow answers.
pub fn asked_is_unique()
    ensures { (all : Bool) (ignored : List (ℕ × ℕ)) (files : List FileText) (domain : DomainValue)
        (asked other : UnansweredWantsValue) → IsDomain domain
        → IsAskedOf all ignored files domain asked →
        IsAskedOf all ignored files domain other → asked ≡ other }
{}

/// The bundle that is packed of files without a certificate denotes the input that the files denote.
pub fn packed_bundle_denotes_input_of_files()
    ensures { (files : List FileText) (parts : List PartText) (text : List ℕ) (input : InputValue)
        → FilesDenoteInput files input → IsPacked files false parts → IsBundle text parts
        → DenotesInput text input None }
{}

/// In a domain that is read with routers excluded, an excluded router has no vif, placed or not, and
/// no row.
pub fn excluded_routers_have_no_vif_or_row()
    ensures { (names : List (List ℕ)) (files : List FileText) (domain : DomainValue) (router : ℕ)
        → FilesMeanDomainWithout names files domain → HasExcludedName names domain.topology router
        → HasNoVifOrRow domain router }
{}

/// The domain that files mean with routers excluded is, in each flow, the one that they mean without
/// the exclusion, but for those routers: the others and the hosts have the same facts.
pub fn excluded_routers_are_excluded_in_each_flow()
    ensures { (names : List (List ℕ)) (files : List FileText) (part whole : DomainValue)
        → FilesMeanDomainWithout names files part → FilesMeanDomain files whole
        → ExcludesRoutersPerFlow names part whole }
{}
