//! Texts as operators and kernels write them: addresses, ranges of groups, lines, words and numbers.
//! Beside them it has names of network devices, pairs of addresses, and an index of numbers. Of multicast it
//! knows only two ranges of addresses: the groups that routers forward and the sources that hosts may send
//! from. Nothing here depends on a domain.
#![tactic(auto)]

mod index;
pub mod laws;
mod memory;
mod pair;
mod piece_reader;
mod text;

pub use index::Index;
pub use memory::Memory;
pub use pair::{index_of_groups, pair_number, pair_numbers, pair_of_number};
pub use piece_reader::PieceReader;
pub use text::{
    Addr, GroupRange, Line, Lines, MAX_TEXT, Order, Words, are_hex_digits, bytes_of_hex_digits,
    decimal, find_byte, hex_value_or_16, is_device_name, is_plain_decimal,
};
