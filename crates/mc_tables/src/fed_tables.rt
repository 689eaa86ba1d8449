//! The readers of kernel tables as readers that are fed in pieces.

ghost use Rattle.std.specs.Prelude.{◌≡◌, ◌≢◌, Err, OnOk, OnErr, IsErrAnd};
ghost use Rattle.mc_tables.specs.Steps.{out_of_memory};

use crate::cache::{CacheReader, EachRowReader, RowFold};
use crate::fault::{TableFault, TableFaultKind};
use crate::summary::SummaryReader;
use crate::vifs::VifReader;
use mc_text::{Memory, PieceReader};

/// Passes on that memory ran out. Any other fault is kept by the table's reader.
fn memory_fault_only(fed: Result<(), TableFault>) -> Result<(), Memory>
    ensures kept { OnOk result (fed ≢ Err out_of_memory) }
    ensures memory { OnErr result (IsErrAnd fed (λ fault. fault.kind ≡ TableFaultKind.Memory)) }
{
    match fed {
        Ok(()) => Ok(()),
        Err(
            TableFault {
                kind: TableFaultKind::Memory,
                ..
            },
        ) => Err(Memory),
        Err(_) => Ok(()),
    }
}

impl PieceReader for VifReader {
    ghost use Rattle.std.specs.Prelude.{if◌then◌else◌, is_some, Result};
    ghost use Rattle.std.specs.FinMap.{FinMap};
    ghost use Rattle.std.specs.Ordering.{nat_cmp};
    ghost use Rattle.mc_tables.specs.VifTable.{VifValue};
    ghost use Rattle.mc_tables.specs.VifsSoFar.{vifs_if};
    ghost use Rattle.mc_tables.specs.declared.fault.TableFault.{TableFault as FaultOfTable};

    ghost ReadResult = { Result (FinMap nat_cmp VifValue) FaultOfTable };

    ghost result_after = { vifs_if };

    // after a fault none
    ghost size = { λ s. if is_some s.fault then 0 else s.lines.size };

    fn take(&mut self, piece: &[u8]) -> Result<(), Memory> {
        memory_fault_only(self.feed(piece))
    }
}

impl PieceReader for CacheReader {
    ghost use Rattle.std.specs.Prelude.{if◌then◌else◌, is_some, Result};
    ghost use Rattle.mc_tables.specs.CacheTable.{CacheValue};
    ghost use Rattle.mc_tables.specs.RowsSoFar.{cache_if};
    ghost use Rattle.mc_tables.specs.declared.fault.TableFault.{TableFault as FaultOfTable};

    ghost ReadResult = { Result CacheValue FaultOfTable };

    ghost result_after = { cache_if };

    // after a fault none
    ghost size = { λ s. if is_some s.fault then 0 else s.lines.size };

    fn take(&mut self, piece: &[u8]) -> Result<(), Memory> {
        memory_fault_only(self.feed(piece))
    }
}

impl PieceReader for SummaryReader {
    ghost use Rattle.std.specs.Prelude.{if◌then◌else◌, is_some, Result};
    ghost use Rattle.mc_tables.specs.SummaryReading.{summary_if};
    ghost use Rattle.mc_tables.specs.declared.fault.TableFault.{TableFault as FaultOfTable};
    ghost use Rattle.mc_tables.specs.declared.summary.summarized_cache.SummarizedCache.{SummarizedCache};

    ghost ReadResult = { Result SummarizedCache FaultOfTable };

    ghost result_after = { summary_if };

    // after a fault none
    ghost size = { λ s. if is_some s.fault then 0 else s.lines.size };

    fn take(&mut self, piece: &[u8]) -> Result<(), Memory> {
        memory_fault_only(self.feed(piece))
    }
}

impl<V: RowFold> PieceReader for EachRowReader<V> {
    ghost use Rattle.std.specs.Prelude.{if◌then◌else◌, is_some, Result};
    ghost use Rattle.mc_tables.specs.EachRow.{each_row_if};
    ghost use Rattle.mc_tables.specs.declared.fault.TableFault.{TableFault as FaultOfTable};

    ghost ReadResult = { Result V FaultOfTable };

    ghost result_after = { each_row_if V.concerns V.after };

    // after a fault none
    ghost size = { λ s. if is_some s.fault then 0 else s.lines.size };

    fn take(&mut self, piece: &[u8]) -> Result<(), Memory> {
        memory_fault_only(self.feed(piece))
    }
}
