//! The sources and groups of the rows of a cache's text.

ghost use Rattle.std.specs.Prelude.{◌≡◌, ◌≢◌, List, [], map, true, IfOk, IfErr, Ok, Err, Some};
ghost use Rattle.mc_tables.specs.CacheTable.{RowValue};
ghost use Rattle.mc_tables.specs.CacheReading.{cache_rows_in, cache_in};
ghost use Rattle.mc_tables.specs.ListedRows.{kept_rows};
ghost use Rattle.mc_tables.specs.Steps.{out_of_memory};
ghost use Rattle.mc_tables.specs.Summary.{group_first};
ghost use Rattle.mc_tables.specs.SummaryReading.{summary_in};

use crate::fault::TableFault;
use crate::listed::listed_pairs::ListedPairs;
use crate::summary::summarized_cache::SummarizedCache;
use crate::summary::summary_pairs::SummaryPairs;
use crate::summary::summary_reader::SummaryReader;
use mc_text::{Addr, Order};
use std::alloc::{AllocError, Global};

/// The sources and groups of the resolved rows of a text, each pair once: where these are listed, all
/// rows are kept.
pub fn pairs_of_text(alloc: Global, text: &[u8], order: Order) -> Result<ListedPairs, TableFault>
    ensures kept { IfOk result (λ listed. (rows : List RowValue) →
        cache_rows_in order text.now ≡ Ok rows → kept_rows (Some listed) rows ≡ rows) }
    ensures fault { IfErr result (λ fault. fault ≢ out_of_memory →
        cache_in order text.now ≡ Err fault) }
{
    let cache = summary_of_text(alloc, text, order)?;
    let pairs = swapped(alloc, cache.summary.lowest_unlisted())?;
    Ok(ListedPairs::of(alloc, &pairs)?)
}

/// The summary of all rows of a text, where nothing is listed.
fn summary_of_text(alloc: Global, text: &[u8], order: Order) -> Result<SummarizedCache, TableFault>
    ensures { result ≢ Err out_of_memory → result ≡ summary_in true order [] text.now }
{
    let none = SummaryPairs::of(alloc, &[])?;
    SummaryReader::new(alloc, order, none, true).read_whole(text)
}

/// The pairs, each with its second address first.
fn swapped(alloc: Global, pairs: &[(Addr, Addr)]) -> Result<Vec<(Addr, Addr)>, AllocError>
    ensures { IfOk result (λ swapped. swapped.items ≡ map group_first pairs.now) }
{
    let mut swapped = Vec::with_capacity(alloc, pairs.len())?;
    for pair in pairs {
        swapped.push((pair.1, pair.0))?;
    }
    Ok(swapped)
}
