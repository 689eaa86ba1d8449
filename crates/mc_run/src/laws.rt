//! Laws on the texts of `check` and of audits, which follow from their definitions alone.

ghost use Rattle.std.specs.Prelude.{◌≡◌, ◌++◌, ℕ, Bool, true, List, [], Some, codes};
ghost use Rattle.mc_files.specs.Files.{FileText};
ghost use Rattle.mc_run.specs.AuditedFiles.{LeftOutValue};
ghost use Rattle.mc_run.specs.AuditRun.{IsAuditText};
ghost use Rattle.mc_run.specs.AuditYes.{IsYesLineLast};
ghost use Rattle.mc_cli.specs.declared.audit_options.AuditOptions.{AuditOptions};
ghost use Rattle.mc_commands.specs.CheckRun.{IsLineStart, IsVerdictText, WroteAtStart, WroteYes, yes_words};
ghost use Rattle.mc_commands.specs.RunOutput.{HasOneOutput};

use mc_input::laws::{asked_is_unique, summaries_are_unique};

/// `audit` is a function of the folder's files and of its options: the same files and options give the
/// same answer and the same text, down to each line that explains a fault.
pub fn audit_of_same_files_is_the_same()
    ensures { (left : LeftOutValue) (files : List FileText) (options : AuditOptions)
        → HasOneOutput (IsAuditText options left files) }
{
    summaries_are_unique();
    asked_is_unique();
}

/// A text has the line `verdict yes` exactly if every flow's list is accepted and, in an audit, no
/// router is excluded.
pub fn verdict_yes_line_only_where_all_right()
    // If all lists are accepted, `check` writes `verdict yes` at the start of a line.
    ensures has_line { (text written old : List ℕ) → IsVerdictText text true written
        → WroteYes (Some old) (Some (old ++ written)) }
    // If the words start a line, all lists are accepted, and the line is the last one.
    ensures last { (text written front rest : List ℕ) (all : Bool)
        → IsVerdictText text all written → IsLineStart front
        → written ≡ front ++ (codes "verdict yes" ++ rest)
        → (all ≡ true) × (rest ≡ codes "\n") }
    // The same holds for `audit`, whose line in JSON is an object.
    ensures audit_has_line { (left : LeftOutValue) (files : List FileText) (options : AuditOptions)
        (written old : List ℕ) → IsAuditText options left files true written
        → WroteAtStart (yes_words options.json) (Some old) (Some (old ++ written)) }
    // That line is the last one, and no line starts with the words of the other form.
    ensures audit_last { (left : LeftOutValue) (files : List FileText) (options : AuditOptions)
        (all : Bool) (written : List ℕ) → IsAuditText options left files all written
        → IsYesLineLast options.json all written }
    // With an excluded router, an audit has no such line.
    ensures audit_whole { (left : LeftOutValue) (files : List FileText) (options : AuditOptions)
        (written : List ℕ) → IsAuditText options left files true written → left.routers ≡ [] }
{}
