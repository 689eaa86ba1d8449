//! The classes of wants.

/// What becomes of a want: the first of these that holds.
#[derive(Clone, Copy, Debug, PartialEq, Eq)]
pub enum WantClass {
    /// A listed flow answers it.
    Answered,
    /// Its source is on the LAN itself.
    OnLan,
    /// Its group is in an ignored range.
    Ignored,
    /// Its group is that of a service, and of no flow.
    Service,
    /// Nothing answers it.
    Asked,
}
