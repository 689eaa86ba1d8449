//! Texts as operators and kernels write them: addresses, ranges of groups, lines, words, numbers, and
//! the names of network devices.

mod addr;
mod address_digits;
mod byte_search;
mod device_name;
mod digit_lanes;
mod group_range;
mod lines;
mod number;
mod words;

pub use addr::{Addr, Order};
pub use address_digits::hex_value_or_16;
pub use byte_search::find_byte;
pub use device_name::is_device_name;
pub use digit_lanes::{are_hex_digits, bytes_of_hex_digits};
pub use group_range::GroupRange;
pub use lines::{Line, Lines, MAX_TEXT};
pub use number::{decimal, is_plain_decimal};
pub use words::Words;
