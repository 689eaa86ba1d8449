//! The readers of kernel tables and report lists, as readers of a domain's parts.

ghost use Rattle.std.specs.Prelude.{◌≡◌, [], ℕ, List, true, IfErr, Result};
ghost use Rattle.mc_bundle.specs.Bundle.{PartText};
ghost use Rattle.mc_input.specs.PartsOneByOne.{IsPartResult};
ghost use Rattle.mc_input.specs.SourceFault.{is_possible_for_files};
ghost use Rattle.mc_input.specs.declared.fault.InputFault.{InputFault as Fault};
ghost use Rattle.mc_input.specs.declared.source_fault.SourceFault.TheVariants.{Input};

use crate::fault::InputFault;
use crate::part_result::{cache_or_fault, reports_or_fault, vifs_or_fault};
use mc_bundle::PartName;
use mc_igmp::{ListReader, ReportList};
use mc_tables::{
    CacheReader, CacheTable, EachRowReader, RowFold, SummarizedCache, SummaryReader, VifReader,
    VifTable,
};
use mc_text::PieceReader;

/// A reader of a part, which is fed it in pieces.
pub(crate) trait PartReader: PieceReader {
    type Out: Drop;

    // what the reader ends with if all bytes of this part are still to be fed
    ghost part_result: { Self → PartText → Result Self.Out Fault };

    /// The result of the part with this name, which was fed.
    fn finished(self, name: PartName) -> Result<Self::Out, InputFault>
        ensures result { (start : Self) (bytes : List ℕ) →
            Self.result_after start bytes ≡ Self.result_after self [] →
            IsPartResult (λ kept value. kept ≡ value) result
            (part_result start (record { name = name; bytes = bytes })) }
        ensures faults { IfErr result (λ fault. is_possible_for_files (Input fault) ≡ true) };
}

impl PartReader for VifReader {
    ghost use Rattle.mc_text.specs.Steps.{map_fault};
    ghost use Rattle.mc_tables.specs.VifsSoFar.{vifs_if};
    ghost use Rattle.mc_input.specs.declared.fault.InputFault.TheVariants.{Vif};

    type Out = VifTable;

    ghost part_result = { λ s part. map_fault (Vif part.name) (vifs_if s part.bytes) };

    fn finished(self, name: PartName) -> Result<VifTable, InputFault> {
        vifs_or_fault(name, self.finish())
    }
}

impl PartReader for CacheReader {
    ghost use Rattle.mc_text.specs.Steps.{map_fault};
    ghost use Rattle.mc_tables.specs.RowsSoFar.{cache_if};
    ghost use Rattle.mc_input.specs.declared.fault.InputFault.TheVariants.{Cache};

    type Out = CacheTable;

    ghost part_result = { λ s part. map_fault (Cache part.name) (cache_if s part.bytes) };

    fn finished(self, name: PartName) -> Result<CacheTable, InputFault> {
        cache_or_fault(name, self.finish())
    }
}

impl PartReader for SummaryReader {
    ghost use Rattle.mc_text.specs.Steps.{map_fault};
    ghost use Rattle.mc_tables.specs.SummaryReading.{summary_if};
    ghost use Rattle.mc_input.specs.declared.fault.InputFault.TheVariants.{Cache};

    type Out = SummarizedCache;

    ghost part_result = { λ s part. map_fault (Cache part.name) (summary_if s part.bytes) };

    fn finished(self, name: PartName) -> Result<SummarizedCache, InputFault> {
        cache_or_fault(name, self.finish())
    }
}

impl<V: RowFold> PartReader for EachRowReader<V> {
    ghost use Rattle.mc_text.specs.Steps.{map_fault};
    ghost use Rattle.mc_tables.specs.EachRow.{each_row_if};
    ghost use Rattle.mc_input.specs.declared.fault.InputFault.TheVariants.{Cache};

    type Out = V;

    ghost part_result = { λ s part. map_fault (Cache part.name) (each_row_if V.concerns V.after s part.bytes) };

    fn finished(self, name: PartName) -> Result<V, InputFault> {
        cache_or_fault(name, self.finish())
    }
}

impl PartReader for ListReader {
    ghost use Rattle.mc_text.specs.Steps.{map_fault};
    ghost use Rattle.mc_igmp.specs.ListSoFar.{list_if};
    ghost use Rattle.mc_input.specs.declared.fault.InputFault.TheVariants.{Reports};

    type Out = ReportList;

    ghost part_result = { λ s part. map_fault (Reports part.name) (list_if s part.bytes) };

    fn finished(self, name: PartName) -> Result<ReportList, InputFault> {
        reports_or_fault(name, self.finish())
    }
}
