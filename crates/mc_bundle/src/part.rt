//! A part of a bundle.

use crate::part_name::PartName;

/// A part: its name, and its bytes, which are borrowed.
#[derive(Clone, Copy, Debug, PartialEq, Eq)]
pub struct Part<'a> {
    /// Its name.
    pub name: PartName,
    /// Its bytes.
    pub bytes: &'a [u8],
}
