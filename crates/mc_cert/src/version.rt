//! The versions of a certificate.

/// The version of a certificate's text.
#[derive(Clone, Copy, Debug, PartialEq, Eq)]
pub(crate) enum Version {
    /// Each flow has its own entries.
    One,
    /// Each flow names a tree of entries.
    Two,
}
