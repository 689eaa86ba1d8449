//! The table of the forwarding cache: its rows, its reader and its lookups.

mod cache_line;
mod cache_reader;
pub(crate) mod cache_row;
pub(crate) mod cache_row_reader;
pub(crate) mod cache_rows;
pub(crate) mod cache_table;
mod each_row;
pub(crate) mod entry;
mod flat_oifs;
mod four_oifs;
mod outgoing;
mod plain_row;
mod text_pairs;

pub use cache_reader::CacheReader;
pub use cache_table::CacheTable;
pub use each_row::{EachRow, EachRowReader, RowFold};
pub use entry::{Entry, Oif};
pub use flat_oifs::FlatOifs;
