//! Reads a certificate from JSON's tokens, in one pass and without a tree of JSON values: a text of either
//! version with any white space and order of keys, with keys that come twice, and with escapes in its
//! strings. A text that is no certificate, or that has an earlier value of a key that isn't allowed there, is
//! left to the reader of trees, which finds its fault.

mod entry;
mod flow;
mod list;
mod object;
mod shared_flow;
mod value;
mod version_one;
mod version_two;

ghost use Rattle.std.specs.Prelude.{IfOk};
ghost use Rattle.mc_cert.specs.Denotation.{DenotesCertificate};

use crate::certificate::Certificate;
use crate::tokens::version_one::version_one;
use crate::tokens::version_two::version_two;
use mc_text::MAX_TEXT;
use mc_topology::Topology;
use std::alloc::{AllocError, AllocFailed, Global};

/// The text is no certificate, or memory ran out.
#[derive(Drop)]
pub(crate) struct NotRead;

impl From<AllocError> for NotRead {
    fn from(_refused: AllocError) -> NotRead {
        NotRead
    }
}

impl<T: Drop> From<AllocFailed<T>> for NotRead {
    fn from(_refused: AllocFailed<T>) -> NotRead {
        NotRead
    }
}

/// Reads a certificate in any form. An attempt at the wrong version ends at the first key that this
/// version doesn't have.
pub(crate) fn certificate_of_tokens(
    alloc: Global,
    topology: &Topology,
    text: &[u8],
) -> Result<Certificate, NotRead>
    ensures { IfOk result (DenotesCertificate topology.now text.now) }
{
    if text.len() > MAX_TEXT {
        return Err(NotRead);
    }
    let Ok(text) = simdutf8::compat::from_utf8(text) else {
        return Err(NotRead);
    };
    if let Ok(certificate) = version_two(alloc, topology, text) {
        return Ok(certificate);
    }
    let certificate = version_one(alloc, topology, text)?;
    Ok(certificate)
}
