//! Tests of `mc_topology` that neither a clause nor a run of the program covers: a text that is too
//! long, lack of memory, and look-ups.

mod limits;
pub(crate) mod lookups;
mod memory;
