//! A builder of JSON objects, member by member.

ghost use Rattle.std.specs.Prelude.{◌≡◌, ℕ, IfOk, List, map};
ghost use Rattle.std.specs.String.{string_bytes};
ghost use Rattle.serde_json.specs.Data.{Data, Members, boolean, no_members, null, object};
ghost use Rattle.serde_json.specs.Data.{put as with_member, string};
ghost use Rattle.serde_json.specs.View.{members_view, view as data_of};
ghost use Rattle.mc_json.specs.ObjectLines.{HasMembers};
ghost use Rattle.mc_json.specs.RowData.{count_data, list_data};
ghost use Rattle.mc_json.specs.RowData.{lan_data, router_data};

use mc_topology::{LanNo, RouterNo, Topology};
use serde_json::{Map, Value, put};
use std::alloc::{AllocError, Global};

/// The members so far, or the first failed allocation. Each step consumes the builder and returns it with
/// one member more, so that a failure keeps nothing.
#[derive(Drop)]
pub struct Fields {
    alloc: Global,
    built: Result<Map<String, Value>, AllocError>,
}

/// The members with one more, or the first failed allocation.
fn with_member(
    alloc: Global,
    built: Result<Map<String, Value>, AllocError>,
    key: &str,
    value: Result<Value, AllocError>,
) -> Result<Map<String, Value>, AllocError>
    ensures { (members : Members) → (given : Data)
        → IfOk built (λ map. members_view map.entries ≡ members)
        → IfOk value (λ v. data_of v ≡ given)
        → IfOk result (λ map. members_view map.entries ≡ with_member key.now given members) }
{
    let mut members = built?;
    put(&mut members, alloc, key, value?)?;
    Ok(members)
}

/// The array of these items, or the allocation that failed.
fn array(items: Result<Vec<Value>, AllocError>) -> Result<Value, AllocError>
    ensures { (values : List Data) → IfOk items (λ verdicts. map data_of verdicts.items ≡ values)
        → IfOk result (λ v. data_of v ≡ list_data values) }
{
    Ok(Value::Array(items?))
}

/// The text as a JSON string, or the allocation that failed.
fn string(text: Result<String, AllocError>) -> Result<Value, AllocError>
    ensures { (bytes : List ℕ) → IfOk text (λ t. string_bytes t ≡ bytes)
        → IfOk result (λ v. data_of v ≡ string bytes) }
{
    Ok(Value::String(text?))
}

impl Fields {
    /// A builder without members.
    pub fn new(alloc: Global) -> Fields
        ensures { HasMembers result no_members }
    {
        let built = Ok(Map::new(alloc));
        Fields { alloc, built }
    }

    /// Adds a member with this value.
    pub fn value(self, key: &str, value: Result<Value, AllocError>) -> Fields
        ensures { (members : Members) → (given : Data) → HasMembers self members
            → IfOk value (λ v. data_of v ≡ given)
            → HasMembers result (with_member key.now given members) }
    {
        let Fields { alloc, built } = self;
        let built = with_member(alloc, built, key, value);
        Fields { alloc, built }
    }

    /// Adds an array of these items.
    pub fn list(self, key: &str, items: Result<Vec<Value>, AllocError>) -> Fields
        ensures { (members : Members) → (values : List Data) → HasMembers self members
            → IfOk items (λ verdicts. map data_of verdicts.items ≡ values)
            → HasMembers result (with_member key.now (list_data values) members) }
    {
        self.value(key, array(items))
    }

    /// Adds an owned string.
    pub fn string(self, key: &str, text: Result<String, AllocError>) -> Fields
        ensures { (members : Members) → (bytes : List ℕ) → HasMembers self members
            → IfOk text (λ t. string_bytes t ≡ bytes)
            → HasMembers result (with_member key.now (string bytes) members) }
    {
        self.value(key, string(text))
    }

    /// Adds a copy of a text.
    pub fn text(self, key: &str, text: &str) -> Fields
        ensures { (members : Members) → HasMembers self members
            → HasMembers result (with_member key.now (string text.now) members) }
    {
        let Fields { alloc, built } = self;
        let built = with_member(alloc, built, key, Value::try_from_str(alloc, text));
        Fields { alloc, built }
    }

    /// Adds a number.
    pub fn count(self, key: &str, number: u64) -> Fields
        ensures { (members : Members) → HasMembers self members
            → HasMembers result (with_member key.now (count_data number) members) }
    {
        self.value(key, Ok(Value::from(number)))
    }

    /// Adds a truth value.
    pub fn flag(self, key: &str, flag: bool) -> Fields
        ensures { (members : Members) → HasMembers self members
            → HasMembers result (with_member key.now (boolean flag) members) }
    {
        self.value(key, Ok(Value::Bool(flag)))
    }

    /// Adds null.
    pub fn null(self, key: &str) -> Fields
        ensures { (members : Members) → HasMembers self members
            → HasMembers result (with_member key.now null members) }
    {
        self.value(key, Ok(Value::Null))
    }

    /// Adds the name of a LAN.
    pub fn lan(self, key: &str, topology: &Topology, lan: LanNo) -> Fields
        ensures { (members : Members) → HasMembers self members
            → HasMembers result (with_member key.now (lan_data topology.now lan) members) }
    {
        self.text(key, topology.lan_name_or_empty(lan))
    }

    /// Adds the name of a router.
    pub fn router(self, key: &str, topology: &Topology, router: RouterNo) -> Fields
        ensures { (members : Members) → HasMembers self members
            → HasMembers result (with_member key.now (router_data topology.now router) members) }
    {
        self.text(key, topology.router_name_or_empty(router))
    }

    /// The finished object, or the first failed allocation.
    ///
    /// # Errors
    ///
    /// `AllocError` if an allocation fails.
    pub fn object(self) -> Result<Value, AllocError>
        ensures { (members : Members) → HasMembers self members
            → IfOk result (λ v. data_of v ≡ object members) }
    {
        let Fields { built, .. } = self;
        Ok(Value::Object(built?))
    }
}
