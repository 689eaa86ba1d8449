//! Reads the values of an object by their keys.

ghost use Rattle.std.specs.Prelude.{◌≡◌, ◌≤◌, length, map, option_map, string_bytes, IfOk};
ghost use Rattle.std.specs.BTreeMap.{keys};
ghost use Rattle.std.specs.List.{list_all, list_any};
ghost use Rattle.std.specs.Str.{bytes_eq};
ghost use Rattle.serde_json.specs.Find.{get_member, as_u64};
ghost use Rattle.serde_json.specs.View.{view, number_view, members_view};
ghost use Rattle.mc_topology.specs.Answer.{ResultsAgree};
ghost use Rattle.mc_cert.specs.Object.{has_only, text_of, number_of, list_of, object_of, text_at};
ghost use Rattle.mc_cert.specs.Object.{number_at, list_at, in_range, whole_at, at_most};

use crate::fault::CertFaultKind;
use serde_json::{Map, Number, Value};

/// Whether each key of the object is one of the known ones.
fn has_known_keys(object: &Map<String, Value>, known: &[&str]) -> bool
    ensures { result ≡
        list_all (λ key. list_any (λ known_key. bytes_eq known_key.now (string_bytes key)) known.now)
        (keys object.now) }
{
    object.keys().all(|key| known.contains(&key.as_str()))
}

/// Whether the object has no other keys than the known ones.
pub(crate) fn has_only(object: &Map<String, Value>, known: &[&str]) -> bool
    ensures { result ≡ has_only (map (λ known_key. known_key.now) known.now)
        (members_view object.now.entries) }
{
    has_known_keys(object, known)
}

/// The value as a text.
pub(crate) fn text_of(value: &Value) -> Result<&str, CertFaultKind>
    ensures { ResultsAgree (λ text. text.now) result (text_of (view value.now)) }
{
    match value.as_str() {
        Some(text) => Ok(text),
        None => Err(CertFaultKind::BadKind),
    }
}

/// The value as a number.
pub(crate) fn number_of(value: &Value) -> Result<&Number, CertFaultKind>
    ensures { ResultsAgree (λ number. number_view number.now) result (number_of (view value.now)) }
{
    match value.as_number() {
        Some(number) => Ok(number),
        None => Err(CertFaultKind::BadKind),
    }
}

/// The value as a list.
pub(crate) fn list_of(value: &Value) -> Result<&[Value], CertFaultKind>
    ensures { ResultsAgree (λ values. map view values.now) result (list_of (view value.now)) }
{
    match value.as_array() {
        Some(values) => Ok(values.as_slice()),
        None => Err(CertFaultKind::BadKind),
    }
}

/// The value as an object with no other keys than the known ones.
#[tactic(auto, unfolding(crate::specs::Object::object_of))]
pub(crate) fn object_of<'a>(
    value: &'a Value,
    known: &[&str],
) -> Result<&'a Map<String, Value>, CertFaultKind>
    ensures { ResultsAgree (λ object. members_view object.now.entries) result
        (object_of (map (λ known_key. known_key.now) known.now) (view value.now)) }
{
    match value.as_object() {
        None => Err(CertFaultKind::BadKind),
        Some(object) if has_only(object, known) => Ok(object),
        Some(_) => Err(CertFaultKind::UnknownKey),
    }
}

/// The value under a key, if there is one.
pub(crate) fn value_at<'a>(object: &'a Map<String, Value>, key: &str) -> Option<&'a Value>
    ensures { option_map (λ value. view value.now) result ≡
        get_member key.now (members_view object.now.entries) }
{
    object.get(key)
}

/// The text under a required key.
#[tactic(auto, unfolding(crate::specs::Object::text_at))]
pub(crate) fn text_at<'a>(
    object: &'a Map<String, Value>,
    key: &str,
) -> Result<&'a str, CertFaultKind>
    ensures { ResultsAgree (λ text. text.now) result
        (text_at key.now (members_view object.now.entries)) }
{
    match value_at(object, key) {
        Some(value) => text_of(value),
        None => Err(CertFaultKind::MissingKey),
    }
}

/// The number under a required key.
#[tactic(auto, unfolding(crate::specs::Object::number_at))]
pub(crate) fn number_at<'a>(
    object: &'a Map<String, Value>,
    key: &str,
) -> Result<&'a Number, CertFaultKind>
    ensures { ResultsAgree (λ number. number_view number.now) result
        (number_at key.now (members_view object.now.entries)) }
{
    match value_at(object, key) {
        Some(value) => number_of(value),
        None => Err(CertFaultKind::MissingKey),
    }
}

/// The list under a required key.
#[tactic(auto, unfolding(crate::specs::Object::list_at))]
pub(crate) fn list_at<'a>(
    object: &'a Map<String, Value>,
    key: &str,
) -> Result<&'a [Value], CertFaultKind>
    ensures { ResultsAgree (λ values. map view values.now) result
        (list_at key.now (members_view object.now.entries)) }
{
    match value_at(object, key) {
        Some(value) => list_of(value),
        None => Err(CertFaultKind::MissingKey),
    }
}

/// The number as a whole number from `low` to `high`.
pub(crate) fn in_range(low: u8, high: u8, number: &Number) -> Result<u8, CertFaultKind>
    ensures { ResultsAgree (λ number. number) result
        (in_range low high (as_u64 (number_view number.now))) }
{
    match number.as_u64() {
        Some(n) if low as u64 <= n && n <= high as u64 => Ok(n as u8),
        _ => Err(CertFaultKind::BadNumber),
    }
}

/// The whole number from `low` to `high` under a required key.
#[tactic(auto, unfolding(crate::specs::Object::whole_at))]
pub(crate) fn whole_at(
    object: &Map<String, Value>,
    key: &str,
    low: u8,
    high: u8,
) -> Result<u8, CertFaultKind>
    ensures { ResultsAgree (λ number. number) result
        (whole_at key.now low high (members_view object.now.entries)) }
{
    let number = number_at(object, key)?;
    in_range(low, high, number)
}

/// The rows, if they are at most `most`.
#[tactic(auto, unfolding(crate::specs::Object::at_most))]
pub(crate) fn at_most(most: usize, rows: &[Value]) -> Result<&[Value], CertFaultKind>
    ensures rows { ResultsAgree (λ rows. map view rows.now) result (at_most most (map view rows.now)) }
    ensures few { IfOk result (λ rows. length rows.now ≤ most) }
{
    if rows.len() > most {
        return Err(CertFaultKind::TooMany);
    }
    Ok(rows)
}
