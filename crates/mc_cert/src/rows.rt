//! Reads the rows of a list, one after the other.

ghost use Rattle.std.specs.Prelude.{◌≡◌, ℕ, ◌<◌, [], length, vec_len, map, Result, IfOk};
ghost use Rattle.serde_json.specs.Data.{Data};
ghost use Rattle.serde_json.specs.View.{view};
ghost use Rattle.mc_cert.specs.declared.fault.CertFault.{CertFault};
ghost use Rattle.mc_cert.specs.Answer.{Gives, each_row};

use crate::fault::CertFault;
use serde_json::Value;
use std::alloc::Global;

/// How a row of a list is read.
pub(crate) trait RowReader {
    /// What a row is read as.
    type Item: Drop;

    // what a row denotes
    ghost Row: { Type 0 };

    ghost item_view: { Self.Item → Row };

    // the numbers that rows may have
    ghost is_row_number: { Self → ℕ → Type 0 };

    // what the row with this number denotes, or its fault
    ghost row_value: { Self → ℕ → Data → Result Row CertFault };

    /// Reads the row with this number, counted from 0.
    fn read_row(&self, number: usize, value: &Value) -> Result<Self::Item, CertFault>
        requires number { is_row_number self.now number }
        ensures gives { Gives item_view result (row_value self.now number (view value.now)) };
}

/// Reads the rows, one after the other.
pub(crate) fn each_row<R: RowReader>(
    alloc: Global,
    rows: &R,
    values: &[Value],
) -> Result<Vec<R::Item>, CertFault>
    requires within { (number : ℕ) → number < length values.now → R.is_row_number rows.now number }
    ensures rows { Gives (λ items. map R.item_view items.items) result
        (each_row (R.row_value rows.now) [] (map view values.now)) }
    ensures count { IfOk result (λ items. vec_len items ≡ length values.now) }
{
    let mut items = Vec::with_capacity(alloc, values.len())?;
    for value in values {
        let item = rows.read_row(items.len(), value)?;
        items.push(item)?;
    }
    Ok(items)
}
