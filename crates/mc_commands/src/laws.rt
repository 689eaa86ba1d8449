//! Laws on the texts of the commands, which follow from their definitions alone.

ghost use Rattle.std.specs.Prelude.{◌≡◌, ◌≤◌, ℕ, Bool, true, List, Ok, Option, Some};
ghost use Rattle.std.specs.Prelude.{is_some, length, slice_get};
ghost use Rattle.mc_text.specs.Lines.{max_text};
ghost use Rattle.mc_theory.specs.Certificates.{IsAccepted};
ghost use Rattle.mc_files.specs.Files.{FileText};
ghost use Rattle.mc_forward.specs.Domains.{DomainValue, net_of};
ghost use Rattle.mc_cert.specs.Certificate.{Tree};
ghost use Rattle.mc_cert.specs.Reading.{parse_certificate};
ghost use Rattle.mc_input.specs.Meaning.{MeansDomain, FilesMeanDomain};
ghost use Rattle.mc_commands.specs.CheckRun.{IsVerdictText};
ghost use Rattle.mc_commands.specs.InputMeaning.{MeansCertified};
ghost use Rattle.mc_commands.specs.MakeRun.{ForEachBundleWithMadeCertificate, IsMadeText, certified_lists};

/// `check` says yes to each certificate that `make` writes.
pub fn check_accepts_made_certificates()
    // If the certificate has at most 16,777,216 bytes, it is read, line feed included, as the lists that
    // were made.
    ensures read { (text written : List ℕ) (made : IsMadeText text true written) →
        length written ≤ max_text →
        parse_certificate made.domain.topology written ≡ Ok (certified_lists made.holds.examined) }
    // Each of the lists is accepted.
    ensures accepted { (text written : List ℕ) (made : IsMadeText text true written)
        (flow : ℕ) (tree : Tree) → slice_get (certified_lists made.holds.examined) flow ≡ Some tree →
        IsAccepted (net_of made.domain flow) tree }
    // The same bundle with the certificate as one more part has a verdict text that says yes.
    ensures yes { ForEachBundleWithMadeCertificate (λ bundle.
        (printed : List ℕ) × IsVerdictText bundle true printed) }
    // It has no verdict text that says no.
    ensures only { ForEachBundleWithMadeCertificate (λ bundle.
        (all : Bool) (printed : List ℕ) → IsVerdictText bundle all printed → all ≡ true) }
{}

/// The text of a bundle, and the files of a folder, mean at most one domain.
pub fn input_means_one_domain_at_most()
    // A bundle, with or without a certificate, determines the domain and the certificate's text.
    ensures bundle { (text : List ℕ) (certificate other_certificate : Option (List ℕ))
        (domain other : DomainValue)
        → is_some other_certificate ≡ is_some certificate → MeansDomain text certificate domain
        → MeansDomain text other_certificate other → (domain ≡ other)
        × (certificate ≡ other_certificate) }
    // A bundle with a certificate determines the domain and the lists that the certificate denotes.
    ensures certified { (text : List ℕ) (domain other : DomainValue) (lists other_lists : List Tree)
        → MeansCertified text domain lists → MeansCertified text other other_lists → (domain ≡ other)
        × (lists ≡ other_lists) }
    // The files of a folder determine the domain.
    ensures files { (files : List FileText) (domain other : DomainValue)
        → FilesMeanDomain files domain → FilesMeanDomain files other → domain ≡ other }
{}
