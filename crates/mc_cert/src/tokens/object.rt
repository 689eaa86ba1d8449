//! Reads the members of an object, one after the other.

ghost use Rattle.std.specs.Prelude.{◌≡◌, ℕ, ◌+◌, ◌<◌, ◌∷◌, Some, IfOk};
ghost use Rattle.serde_json.specs.Data.{Members, object, no_members, put};
ghost use Rattle.serde_json.specs.Read.{read};
ghost use Rattle.mc_topology.specs.Topology.{TopologyValue};
ghost use Rattle.mc_cert.specs.Keys.{key_name};
ghost use Rattle.mc_cert.specs.Tokens.{Reads, ReadsTo};

use crate::key::Key;
use crate::token_reader::TokenReader;
use crate::tokens::NotRead;
use mc_topology::Topology;
use std::alloc::Global;

/// What was read of an object so far.
pub(crate) trait Fields: Drop {
    // how deep the values of its keys nest
    ghost levels: { ℕ };

    // this was read of an object with these members
    ghost holds: { TopologyValue → Self → Members → Type 0 };

    /// Reads the value under a key, in place of an earlier one.
    fn read_field(
        self,
        alloc: Global,
        topology: &Topology,
        key: Key,
        reader: &mut TokenReader<'_>,
    ) -> Result<Self, NotRead>
        ensures { IfOk result (λ read. ReadsTo levels reader.old (λ d. (members : Members) →
            holds topology.now self members → holds topology.now read (put (key_name key) d members))
            reader.new) };
}

/// Reads an object.
pub(crate) fn read_object<F: Fields>(
    alloc: Global,
    topology: &Topology,
    empty: F,
    reader: &mut TokenReader<'_>,
) -> Result<F, NotRead>
    requires empty { F.holds topology.now empty no_members }
    ensures { IfOk result (λ read. (members : Members)
        × Reads (F.levels + 1) reader.old (object members) reader.new
        × F.holds topology.now read members) }
{
    reader.open_object()?;
    let mut fields = empty;
    'members: while let Some(key) = reader.next_key()? {
        fields = fields.read_field(alloc, topology, key, reader)?;
    }
    Ok(fields)
}

/// Reads a text that is an object as a whole.
pub(crate) fn read_document<F: Fields>(
    alloc: Global,
    topology: &Topology,
    empty: F,
    text: &str,
) -> Result<F, NotRead>
    requires empty { F.holds topology.now empty no_members }
    requires shallow { F.levels < 127 }
    ensures { IfOk result (λ fields. (members : Members)
        × (read text.now ≡ Some (object members)) × F.holds topology.now fields members) }
{
    let mut reader = TokenReader::new(alloc, text.as_bytes());
    let fields = read_object(alloc, topology, empty, &mut reader)?;
    if !reader.is_at_end() {
        return Err(NotRead);
    }
    Ok(fields)
}
