//! Why a file can't be read, as text for the user.

ghost use Rattle.mc_files.specs.FilePart.{unread_text};

use std::fmt;
use std::io::{Error, ErrorKind};

/// Why a file can't be read.
#[derive(Clone, Copy, Debug, Drop)]
pub enum Unread {
    /// There is no such file.
    NoSuchFile,
    /// It is a directory, a device or the like, which isn't opened, since that may block.
    NotRegular,
    /// The system doesn't allow it.
    PermissionDenied,
    /// The system answered another error.
    System(Error),
    /// A read failed.
    Failed,
}

impl Unread {
    /// The reason that an error of the system gives.
    pub(crate) fn from_error(error: Error) -> Unread {
        match error.kind() {
            ErrorKind::NotFound => Unread::NoSuchFile,
            ErrorKind::PermissionDenied => Unread::PermissionDenied,
            _ => Unread::System(error),
        }
    }
}

impl fmt::Display for Unread {
    ghost output = { unread_text };

    fn fmt<W: fmt::Write>(&self, f: &mut fmt::Formatter<W>) -> fmt::Result {
        match self {
            Unread::NoSuchFile => f.write_str("no such file"),
            Unread::NotRegular => f.write_str("not a regular file"),
            Unread::PermissionDenied => f.write_str("permission denied"),
            Unread::System(error) => error.fmt(f),
            Unread::Failed => f.write_str("a read failed"),
        }
    }
}
