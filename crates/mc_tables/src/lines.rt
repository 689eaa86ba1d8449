//! The lines and words of a kernel's tables, and their reading piece by piece.

pub(crate) mod address_words;
pub(crate) mod header;
pub(crate) mod line_buffer;
pub(crate) mod marked_line;
pub(crate) mod rows;
pub(crate) mod table_reader;
pub(crate) mod table_words;

pub use rows::TableRows;
pub use table_reader::TableReader;
pub use table_words::MAX_VIFS;
