//! Sources of files that are read in pieces.

ghost use Rattle.std.specs.Prelude.{◌≡◌, ◌≢◌, ◌<◌, ◌↔◌, ℕ, Bool, false, List, Option, is_ok};
ghost use Rattle.std.specs.Prelude.{IfErr, IfSome, IsSome, OnErr, OnOk};
ghost use Rattle.std.specs.Io.{ReadsAtMost};
ghost use Rattle.std.specs.Io.KnownBytes.{ReadConsumes};
ghost use Rattle.mc_bundle.specs.Device.{failures_after};
ghost use Rattle.mc_files.specs.Files.{file_named, is_failure};
ghost use Rattle.mc_files.specs.Folder.{StaysKnown};

use crate::fault::FileFault;
use crate::source::FileSource;
use crate::unread::Unread;
use std::alloc::Global;

/// A source of files that are read in pieces, one file at a time. `failures` counts how many of
/// these calls answered `Failed`, too. After a call of `read` nothing is known of the open file.
pub trait PieceSource: FileSource {
    // whether a file is open
    ghost is_open: { Self → Bool };

    // the bytes of the open file that aren't read yet, if known
    ghost left: { Self → Option (List ℕ) };

    /// Opens the file with this name. A file that was open is closed, also on an error. The count of
    /// failures has to be below `u64::MAX`.
    ///
    /// # Errors
    ///
    /// `Failed` where the file isn't there or can't be opened, or `Memory`. No file is open then.
    fn open(&mut self, alloc: Global, name: &str) -> Result<(), FileFault>
        requires failures { Self.failed self.old < u64.MAX }
        ensures same { Self.borrows self.new ≡ Self.borrows self.old }
        ensures kept { Self.contents self.new ≡ Self.contents self.old }
        ensures folder { Self.folder self.new ≡ Self.folder self.old }
        ensures real_path { StaysKnown (Self.real_path self.old) (Self.real_path self.new) }
        // There is such a file, and none of its bytes is read yet.
        ensures bytes { IfSome (Self.contents self.old) (λ files. OnOk result
            ((bytes : List ℕ) × (file_named files name.now ≡ Some bytes)
            × (left self.new ≡ Some bytes))) }
        ensures open { is_open self.new ≡ is_ok result }
        ensures none { OnErr result (left self.new ≡ None) }
        ensures fault { IfErr result (λ fault. fault ≢ FileFault.TooLarge) }
        ensures failures { Self.failed self.new ≡ failures_after is_failure result (Self.failed self.old) };

    /// Reads the next bytes of the open file to the buffer's front, and answers how many: 0 only at
    /// the file's end, for an empty buffer and where no file is open. The count of failures has to
    /// be below `u64::MAX`.
    ///
    /// # Errors
    ///
    /// `Failed` where the file can't be read. Then none of its bytes was consumed, and it stays open.
    fn read_piece(&mut self, buffer: &mut [u8]) -> Result<usize, FileFault>
        requires failures { Self.failed self.old < u64.MAX }
        ensures same { Self.borrows self.new ≡ Self.borrows self.old }
        ensures kept { Self.contents self.new ≡ Self.contents self.old }
        ensures folder { Self.folder self.new ≡ Self.folder self.old }
        ensures real_path { StaysKnown (Self.real_path self.old) (Self.real_path self.new) }
        ensures bound { ReadsAtMost result buffer.new }
        ensures bytes { ReadConsumes (left self.old) (left self.new) result buffer.new }
        ensures open { is_open self.new ≡ is_open self.old }
        ensures closed { is_open self.old ≡ false → result ≡ Ok 0 }
        ensures fault { IfErr result (λ fault. fault ≡ FileFault.Failed) }
        ensures failures { Self.failed self.new ≡ failures_after is_failure result (Self.failed self.old) };

    /// Closes the open file, if there is one.
    fn close(&mut self)
        ensures same { Self.borrows self.new ≡ Self.borrows self.old }
        ensures kept { Self.contents self.new ≡ Self.contents self.old }
        ensures folder { Self.folder self.new ≡ Self.folder self.old }
        ensures real_path { StaysKnown (Self.real_path self.old) (Self.real_path self.new) }
        ensures closed { is_open self.new ≡ false }
        ensures none { left self.new ≡ None }
        ensures failures { Self.failed self.new ≡ Self.failed self.old };

    /// Why the last call that answered `Failed` did so, or `None` if no call did.
    fn unread(&self) -> Option<Unread>
        ensures reason { IsSome result ↔ (0 < Self.failed self.now) };
}

impl<F: PieceSource> PieceSource for &mut F {
    ghost is_open = { λ files. F.is_open files.now };

    ghost left = { λ files. F.left files.now };

    fn open(&mut self, alloc: Global, name: &str) -> Result<(), FileFault> {
        PieceSource::open(&mut **self, alloc, name)
    }

    fn read_piece(&mut self, buffer: &mut [u8]) -> Result<usize, FileFault> {
        PieceSource::read_piece(&mut **self, buffer)
    }

    fn close(&mut self) {
        PieceSource::close(&mut **self)
    }

    fn unread(&self) -> Option<Unread> {
        PieceSource::unread(&**self)
    }
}
