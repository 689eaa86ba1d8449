//! The stages of reading a bundle, and the part that a line opens.

use crate::part_name::PartName;

/// A stage of reading a bundle.
#[derive(Clone, Copy, Debug, PartialEq, Eq)]
pub enum Stage {
    /// Before its first line.
    Start,
    /// In a part.
    Part,
    /// After its last line.
    End,
    /// After a fault.
    Failed,
}

/// The part that a line opens: its name and length, and how many parts and bytes may come after it.
#[derive(Clone, Copy, Debug)]
pub struct OpenPart {
    pub name: PartName,
    pub size: usize,
    pub parts: usize,
    pub room: usize,
}
