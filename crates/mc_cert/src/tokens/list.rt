//! Reads the rows of a list, one after the other.

ghost use Rattle.std.specs.Prelude.{◌≡◌, ℕ, ◌+◌, ◌<◌, ◌≤◌, ◌∷◌, IfOk, map, vec_len};
ghost use Rattle.serde_json.specs.Data.{Data, Items, array};
ghost use Rattle.mc_cert.specs.Denotation.{EachDenotes};
ghost use Rattle.mc_cert.specs.Object.{rows_in};
ghost use Rattle.mc_cert.specs.Tokens.{Reads};

use crate::token_reader::TokenReader;
use crate::tokens::NotRead;
use std::alloc::Global;

/// How a row of a list is read.
pub(crate) trait TokenRows {
    /// What a row is read as.
    type Item: Drop;

    // what a row denotes
    ghost Row: { Type 0 };

    ghost item_view: { Self.Item → Row };

    // how deep a row nests
    ghost levels: { ℕ };

    // the numbers that rows may have
    ghost is_row_number: { Self → ℕ → Type 0 };

    // the row with this number denotes this
    ghost denotes: { Self → ℕ → Data → Row → Type 0 };

    /// Reads the row with this number, counted from 0.
    fn read_row(&self, number: usize, reader: &mut TokenReader<'_>) -> Result<Self::Item, NotRead>
        requires number { is_row_number self.now number }
        ensures { IfOk result (λ item. (value : Data) × Reads levels reader.old value reader.new
            × denotes self.now number value (item_view item)) };
}

/// Reads a list of at most this many rows.
pub(crate) fn read_list<R: TokenRows>(
    alloc: Global,
    rows: &R,
    most: usize,
    reader: &mut TokenReader<'_>,
) -> Result<Vec<R::Item>, NotRead>
    requires within { (number : ℕ) → number < most → R.is_row_number rows.now number }
    ensures rows { IfOk result (λ items. (ds : Items)
        × Reads (R.levels + 1) reader.old (array ds) reader.new
        × EachDenotes (R.denotes rows.now) 0 (rows_in ds) (map R.item_view items.items)) }
    ensures few { IfOk result (λ items. vec_len items ≤ most) }
{
    reader.open_list()?;
    let mut items = Vec::new(alloc);
    'rows: while !reader.take_end_of_list()? {
        if items.len() == most {
            return Err(NotRead);
        }
        let item = rows.read_row(items.len(), reader)?;
        items.push(item)?;
    }
    Ok(items)
}
