//! Routers' tables, read from their texts.

use super::texts::CACHE_HEADER;
use mc_forward::Tables;
use mc_tables::{CacheTable, VifTable};
use mc_text::Order;
use std::alloc::{AllocError, Global};
use std::test::Fail;

/// The text of a cache, with the header put in front if the text lacks it.
fn with_header(alloc: Global, text: &str) -> Result<String, AllocError> {
    let header = if text.starts_with("Group") {
        ""
    } else {
        CACHE_HEADER
    };
    let mut whole = String::from_str(alloc, header)?;
    whole.push_str(text)?;
    Ok(whole)
}

/// Reads a cache from a text that may lack its header.
fn cache_of(alloc: Global, text: &str) -> Result<CacheTable, Fail> {
    let whole = with_header(alloc, text)?;
    Ok(CacheTable::read(alloc, whole.as_bytes(), Order::Little)?)
}

/// Reads both tables of a router.
fn tables_of_texts(alloc: Global, texts: (&str, &str)) -> Result<Tables, Fail> {
    let vifs = VifTable::read(alloc, texts.0.as_bytes())?;
    let cache = cache_of(alloc, texts.1)?;
    Ok(Tables { vifs, cache })
}

/// Reads the tables of little-endian routers, each from the text of its vifs and that of its cache,
/// which may lack its header.
pub(super) fn tables_of(alloc: Global, routers: &[(&str, &str)]) -> Result<Vec<Tables>, Fail> {
    let mut tables = Vec::new(alloc);
    for texts in routers {
        tables.push(tables_of_texts(alloc, *texts)?)?;
    }
    Ok(tables)
}
