//! The part of a bundle that is made of a folder's file.

ghost use Rattle.std.specs.Prelude.{◌≡◌, ◌<◌};
ghost use Rattle.mc_bundle.specs.Device.{failures_after};
ghost use Rattle.mc_bundle.specs.BundleView.{part_text};
ghost use Rattle.mc_files.specs.FilePart.{IsFailedOrMemory, file_part};
ghost use Rattle.mc_files.specs.Files.{GivesFromContents, is_failure};

use crate::fault::FileFault;
use crate::slot::Slot;
use crate::source::FileSource;
use mc_bundle::{MAX_PART, Part, PartName};
use std::alloc::Global;
use std::marker::Model;

/// A part made of a file: its name, and the file's bytes.
#[derive(Debug, Drop)]
pub struct FilePart {
    name: PartName,
    bytes: Vec<u8>,
}

impl Model for FilePart {
    ghost use Rattle.mc_bundle.specs.Bundle.{PartText};

    ghost Value = { PartText };

    ghost view = { λ part. record { name = part.name; bytes = part.bytes.items } };
}

impl FilePart {
    /// The part, which borrows its bytes.
    pub fn as_part(&self) -> Part<'_>
        ensures { part_text result ≡ self.now }
    {
        Part {
            name: self.name,
            bytes: &self.bytes,
        }
    }
}

/// Reads the file of a slot as a part. The source's count of failures has to be below `u64::MAX`.
///
/// # Errors
///
/// `Failed` where the file isn't there or can't be read, `TooLarge` where it has more than
/// 16,777,216 bytes, or `Memory`.
pub fn part_of_file<F: FileSource>(
    alloc: Global,
    files: &mut F,
    slot: &Slot<'_>,
) -> Result<FilePart, FileFault>
    requires failures { F.failed files.old < u64.MAX }
    ensures same { F.borrows files.new ≡ F.borrows files.old }
    ensures kept { F.contents files.new ≡ F.contents files.old }
    // The part made of the slot's file, or why there is none.
    ensures part { GivesFromContents IsFailedOrMemory (F.contents files.old) (λ part. part) result
        (λ contents. file_part contents slot.now) }
    // `Failed` is answered only where the source's count of failures rose in the call.
    ensures failures { F.failed files.new ≡ failures_after is_failure result (F.failed files.old) }
{
    let name = slot.part_name(alloc)?;
    let file = slot.file_name(alloc)?;
    let bytes = files.read(alloc, &file, MAX_PART)?;
    Ok(FilePart { name, bytes })
}
