//! Writes a JSON value as a line, and a list.

ghost use Rattle.std.specs.Prelude.{◌≡◌, ◌++◌, IfOk, OnOk, false, map};
ghost use Rattle.std.specs.String.{string_bytes};
ghost use Rattle.serde_json.specs.View.{view as data_of};
ghost use Rattle.serde_json.specs.Written.{has_float};
ghost use Rattle.mc_json.specs.EndData.{list_line, single_member};
ghost use Rattle.mc_json.specs.RowData.{line_of, list_data};

use crate::fields::Fields;
use serde_json::Value;
use std::alloc::{AllocError, Global};

/// Writes a value that has no fraction, without spaces, and then a line feed.
///
/// # Errors
///
/// `AllocError` if an allocation fails.
pub fn push_line(alloc: Global, text: &mut String, value: &Value) -> Result<(), AllocError>
    requires no_float { has_float (data_of value.now) ≡ false }
    ensures added { OnOk result (string_bytes text.new
        ≡ string_bytes text.old ++ line_of (data_of value.now)) }
{
    let line = value.to_string(alloc)?;
    text.push_str(line.as_str())?;
    text.push_str("\n")
}

/// An object of one list.
fn list_value(alloc: Global, key: &str, items: Vec<Value>) -> Result<Value, AllocError>
    ensures { IfOk result (λ value. data_of value
        ≡ single_member key.now (list_data (map data_of items.items))) }
{
    Fields::new(alloc).list(key, Ok(items)).object()
}

/// Writes the line of an object of one list, whose items have no fraction, or nothing if that is empty.
pub(crate) fn push_list_line(
    alloc: Global,
    text: &mut String,
    key: &str,
    items: Vec<Value>,
) -> Result<(), AllocError>
    requires no_float { has_float (list_data (map data_of items.items)) ≡ false }
    ensures { OnOk result (string_bytes text.new
        ≡ string_bytes text.old ++ list_line key.now (map data_of items.items)) }
{
    if items.is_empty() {
        return Ok(());
    }
    let value = list_value(alloc, key, items)?;
    push_line(alloc, text, &value)
}
