//! Reads the values of a table by their keys.

ghost use Rattle.std.specs.Prelude.{◌≡◌, ◌≤◌, length, map, option_map, string_bytes, IfOk};
ghost use Rattle.std.specs.BTreeMap.{keys};
ghost use Rattle.std.specs.List.{list_all, list_any};
ghost use Rattle.std.specs.Str.{bytes_eq};
ghost use Rattle.toml.specs.Data.{get_member};
ghost use Rattle.toml.specs.View.{view, table_view};
ghost use Rattle.mc_topology.specs.Answer.{ResultsAgree};
ghost use Rattle.mc_topology.specs.Document.{has_only, text_of, number_of, list_of, known_table};
ghost use Rattle.mc_topology.specs.Document.{text_at, number_at, list_at, optional_text_at};
ghost use Rattle.mc_topology.specs.Document.{optional_list_at, rows_at};

use crate::fault::TopologyFaultKind;
use toml::{Table, Value};

/// Whether each key of the table is one of the known ones.
fn has_known_keys(table: &Table, known: &[&str]) -> bool
    ensures { result ≡
        list_all (λ key. list_any (λ known_key. bytes_eq known_key.now (string_bytes key)) known.now)
        (keys table.now) }
{
    table.keys().all(|key| known.contains(&key.as_str()))
}

/// Whether the table has no other keys than the known ones.
pub(crate) fn has_only(table: &Table, known: &[&str]) -> bool
    ensures { result ≡ has_only (map (λ known_key. known_key.now) known.now) (table_view table.now) }
{
    has_known_keys(table, known)
}

/// The value as a text.
pub(crate) fn text_of(value: &Value) -> Result<&str, TopologyFaultKind>
    ensures { ResultsAgree (λ text. text.now) result (text_of (view value.now)) }
{
    value.as_str().ok_or(TopologyFaultKind::BadKind)
}

/// The value as a list.
pub(crate) fn list_of(value: &Value) -> Result<&[Value], TopologyFaultKind>
    ensures { ResultsAgree (λ values. map view values.now) result (list_of (view value.now)) }
{
    let Some(values) = value.as_array() else {
        return Err(TopologyFaultKind::BadKind);
    };
    Ok(values.as_slice())
}

/// The value as a table with no other keys than the known ones.
#[tactic(auto, unfolding(crate::specs::Document::known_table))]
pub(crate) fn known_table<'a>(
    value: &'a Value,
    known: &[&str],
) -> Result<&'a Table, TopologyFaultKind>
    ensures { ResultsAgree (λ table. table_view table.now) result
        (known_table (map (λ known_key. known_key.now) known.now) (view value.now)) }
{
    let Some(table) = value.as_table() else {
        return Err(TopologyFaultKind::BadKind);
    };
    if !has_only(table, known) {
        return Err(TopologyFaultKind::UnknownKey);
    }
    Ok(table)
}

/// The value under a key, if there is one.
pub(crate) fn value_at<'a>(table: &'a Table, key: &str) -> Option<&'a Value>
    ensures { option_map (λ value. view value.now) result ≡
        get_member key.now (table_view table.now) }
{
    table.get(key)
}

/// The text under a required key.
#[tactic(auto, unfolding(crate::specs::Document::text_at))]
pub(crate) fn text_at<'a>(table: &'a Table, key: &str) -> Result<&'a str, TopologyFaultKind>
    ensures { ResultsAgree (λ text. text.now) result (text_at key.now (table_view table.now)) }
{
    let Some(value) = value_at(table, key) else {
        return Err(TopologyFaultKind::MissingKey);
    };
    text_of(value)
}

/// The value as a whole number.
pub(crate) fn number_of(value: &Value) -> Result<i64, TopologyFaultKind>
    ensures { result ≡ number_of (view value.now) }
{
    value.as_integer().ok_or(TopologyFaultKind::BadKind)
}

/// The whole number under a required key.
#[tactic(auto, unfolding(crate::specs::Document::number_at))]
pub(crate) fn number_at(table: &Table, key: &str) -> Result<i64, TopologyFaultKind>
    ensures { result ≡ number_at key.now (table_view table.now) }
{
    let Some(value) = value_at(table, key) else {
        return Err(TopologyFaultKind::MissingKey);
    };
    number_of(value)
}

/// The list under a required key.
#[tactic(auto, unfolding(crate::specs::Document::list_at))]
pub(crate) fn list_at<'a>(table: &'a Table, key: &str) -> Result<&'a [Value], TopologyFaultKind>
    ensures { ResultsAgree (λ values. map view values.now) result
        (list_at key.now (table_view table.now)) }
{
    let Some(value) = value_at(table, key) else {
        return Err(TopologyFaultKind::MissingKey);
    };
    list_of(value)
}

/// The text under an optional key.
#[tactic(auto, unfolding(crate::specs::Document::optional_text_at))]
pub(crate) fn optional_text_at<'a>(
    table: &'a Table,
    key: &str,
) -> Result<Option<&'a str>, TopologyFaultKind>
    ensures { ResultsAgree (option_map (λ text. text.now)) result
        (optional_text_at key.now (table_view table.now)) }
{
    match value_at(table, key) {
        Some(value) => Ok(Some(text_of(value)?)),
        None => Ok(None),
    }
}

/// The list under an optional key; empty where the key is missing.
#[tactic(auto, unfolding(crate::specs::Document::optional_list_at))]
pub(crate) fn optional_list_at<'a>(
    table: &'a Table,
    key: &str,
) -> Result<&'a [Value], TopologyFaultKind>
    ensures { ResultsAgree (λ values. map view values.now) result
        (optional_list_at key.now (table_view table.now)) }
{
    match value_at(table, key) {
        Some(value) => list_of(value),
        None => Ok(&[]),
    }
}

/// The list of at most `most` values under an optional key; empty where the key is missing.
#[tactic(auto, unfolding(crate::specs::Document::rows_at))]
pub(crate) fn rows_at<'a>(
    table: &'a Table,
    key: &str,
    most: usize,
) -> Result<&'a [Value], TopologyFaultKind>
    ensures rows { ResultsAgree (λ rows. map view rows.now) result
        (rows_at key.now most (table_view table.now)) }
    ensures few { IfOk result (λ rows. length rows.now ≤ most) }
{
    let rows = optional_list_at(table, key)?;
    if rows.len() > most {
        return Err(TopologyFaultKind::TooMany);
    }
    Ok(rows)
}
