//! Inputs and outputs of bytes, and functions that read and write whole texts.

mod device;
mod faulty;
mod from_reader;
mod input_bytes;
mod output_bytes;
mod to_writer;

pub use device::{DeviceFault, Input, Output};
pub use faulty::{FaultyInput, FaultyOutput, Stop};
pub use from_reader::FromReader;
pub use input_bytes::{ReadFault, read_to_limit};
pub use output_bytes::write_all;
pub(crate) use output_bytes::write_pieces;
pub use to_writer::ToWriter;
