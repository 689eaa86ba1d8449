//! Inputs and outputs of bytes, and the bundle: one stream of named parts, read and written.
#![tactic(auto)]

mod bundle;
mod bundle_fault;
mod bundle_output;
mod fed_part;
mod io;
pub mod laws;
mod part;
mod part_bytes;
mod part_line;
mod part_name;
mod parts;
mod parts_input;
mod stage;

pub use bundle::{Bundle, MAX_PART};
pub use bundle_fault::BundleFault;
pub use bundle_output::write_bundle;
pub use fed_part::feed_part;
pub use io::{
    DeviceFault, FaultyInput, FaultyOutput, FromReader, Input, Output, ReadFault, Stop, ToWriter,
    read_to_limit, write_all,
};
pub use part::Part;
pub use part_bytes::collect_part;
pub use part_name::PartName;
pub use parts::Parts;
