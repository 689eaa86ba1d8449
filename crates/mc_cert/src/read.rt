//! Reads a certificate: the text as JSON, its version and keys, and then its flows.

ghost use Rattle.std.specs.Prelude.{◌≡◌};
ghost use Rattle.serde_json.specs.View.{view, number_view, members_view};
ghost use Rattle.serde_json.specs.Find.{as_u64};
ghost use Rattle.mc_topology.specs.Answer.{ResultsAgree};
ghost use Rattle.mc_cert.specs.declared.fault.At.TheVariants.{Top};
ghost use Rattle.mc_cert.specs.Answer.{Gives, locate_fault};
ghost use Rattle.mc_cert.specs.Object.{has_only};
ghost use Rattle.mc_cert.specs.Reading.{parse_json, parse_bounded_json, members_of, version_of, top_keys};
ghost use Rattle.mc_cert.specs.Reading.{version_in, flows_of_version, parse_certificate};

use crate::certificate::Certificate;
use crate::fault::{At, CertFault, CertFaultKind};
use crate::object::{has_only, number_at};
use crate::version::Version;
use crate::version_one::flows_in;
use crate::version_two::shared_flows_in;
use mc_text::MAX_TEXT;
use mc_topology::Topology;
use serde_json::{Map, Number, Value};
use std::alloc::Global;

/// Parses a text as JSON.
#[tactic(auto, unfolding(crate::specs::Reading::parse_json))]
fn parse_json(alloc: Global, text: &[u8]) -> Result<Value, CertFault>
    ensures { Gives view result (locate_fault Top (parse_json text.now)) }
{
    match Value::from_slice(alloc, text) {
        Ok(value) => Ok(value),
        Err(error) if error.is_memory() => Err(CertFaultKind::Memory.at(At::Top)),
        Err(_) => Err(CertFaultKind::NotJson.at(At::Top)),
    }
}

/// The version with this number.
fn version_of(number: &Number) -> Result<Version, CertFaultKind>
    ensures { ResultsAgree (λ v. v) result (version_of (as_u64 (number_view number.now))) }
{
    match number.as_u64() {
        Some(1) => Ok(Version::One),
        Some(2) => Ok(Version::Two),
        _ => Err(CertFaultKind::BadVersion),
    }
}

/// Whether the object has no other keys than those of this version.
fn has_only_keys_of(version: Version, object: &Map<String, Value>) -> bool
    ensures { result ≡ has_only (top_keys version) (members_view object.now.entries) }
{
    match version {
        Version::One => has_only(object, &["flows", "version"]),
        Version::Two => has_only(object, &["flows", "trees", "version"]),
    }
}

/// Reads the version, and checks the keys.
#[tactic(auto, unfolding(crate::specs::Reading::version_in))]
fn version_in(object: &Map<String, Value>) -> Result<Version, CertFaultKind>
    ensures { ResultsAgree (λ v. v) result (version_in (members_view object.now.entries)) }
{
    let number = number_at(object, "version")?;
    let version = version_of(number)?;
    if !has_only_keys_of(version, object) {
        return Err(CertFaultKind::UnknownKey);
    }
    Ok(version)
}

/// Reads the certificate of an object of this version.
#[tactic(auto, unfolding(crate::specs::Reading::flows_of_version))]
fn flows_of_version(
    alloc: Global,
    version: Version,
    topology: &Topology,
    object: &Map<String, Value>,
) -> Result<Certificate, CertFault>
    ensures { Gives (λ c. c) result
        (flows_of_version version topology.now (members_view object.now.entries)) }
{
    match version {
        Version::One => flows_in(alloc, topology, object),
        Version::Two => shared_flows_in(alloc, topology, object),
    }
}

/// Parses a text as JSON, if it isn't too long.
#[tactic(auto, unfolding(crate::specs::Reading::parse_bounded_json))]
fn parse_bounded_json(alloc: Global, text: &[u8]) -> Result<Value, CertFault>
    ensures { Gives view result (locate_fault Top (parse_bounded_json text.now)) }
{
    if text.len() > MAX_TEXT {
        return Err(CertFaultKind::TooMany.at(At::Top));
    }
    parse_json(alloc, text)
}

/// The value as an object.
fn members_of(value: &Value) -> Result<&Map<String, Value>, CertFaultKind>
    ensures { ResultsAgree (λ object. members_view object.now.entries) result
        (members_of (view value.now)) }
{
    match value.as_object() {
        Some(object) => Ok(object),
        None => Err(CertFaultKind::BadKind),
    }
}

/// Reads the certificate of a text.
#[tactic(auto, unfolding(crate::specs::Reading::parse_certificate))]
pub(crate) fn parse_certificate(
    alloc: Global,
    topology: &Topology,
    text: &[u8],
) -> Result<Certificate, CertFault>
    ensures { Gives (λ c. c) result (parse_certificate topology.now text.now) }
{
    let value = parse_bounded_json(alloc, text)?;
    let object = members_of(&value).map_err(|kind| kind.at(At::Top))?;
    let version = version_in(object).map_err(|kind| kind.at(At::Top))?;
    flows_of_version(alloc, version, topology, object)
}
