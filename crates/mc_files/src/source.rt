//! Sources of files, which may fail and count how often they did.

ghost use Rattle.std.specs.Prelude.{◌≡◌, ◌<◌, ◌≤◌, ◌∷◌, ℕ, List, [], None, Option};
ghost use Rattle.std.specs.Prelude.{IfOk, IfSome, vec_len};
ghost use Rattle.std.specs.Borrow.{GName};
ghost use Rattle.mc_bundle.specs.Device.{failures_after};
ghost use Rattle.mc_files.specs.Files.{FileText, file_named, is_failure, IsRead};
ghost use Rattle.mc_files.specs.Folder.{StaysKnown};

use crate::fault::FileFault;
use std::alloc::Global;

/// A source of files, which gives each whole by its name.
pub trait FileSource {
    // the files, if known
    ghost contents: { Self → Option (List FileText) };

    // the path of their folder, which is empty for the current directory and for none
    ghost folder: { Self → List ℕ } = { λ _. [] };

    // that path without links, by which the files are opened, if it is known
    ghost real_path: { Self → Option (List ℕ) } = { λ _. None };

    // how many calls failed
    ghost failed: { Self → ℕ };

    // the references through which it is reached
    ghost borrows: { Self → List GName } = { λ _. [] };

    /// Reads the file with this name, which may have `limit` bytes. The count of failures has to be
    /// below `u64::MAX`.
    ///
    /// # Errors
    ///
    /// `Failed` where the file isn't there or can't be read, `TooLarge` where it has more bytes, or
    /// `Memory`.
    fn read(&mut self, alloc: Global, name: &str, limit: usize) -> Result<Vec<u8>, FileFault>
        requires failures { failed self.old < u64.MAX }
        ensures same { borrows self.new ≡ borrows self.old }
        ensures kept { contents self.new ≡ contents self.old }
        ensures folder { folder self.new ≡ folder self.old }
        ensures real_path { StaysKnown (real_path self.old) (real_path self.new) }
        ensures bound { IfOk result (λ bytes. vec_len bytes ≤ limit) }
        ensures bytes { IfSome (contents self.old) (λ files.
            IsRead (λ bytes. bytes.items) (file_named files name.now) limit result) }
        ensures failures { failed self.new ≡ failures_after is_failure result (failed self.old) };

    /// How many calls answered `Failed`.
    fn failures(&self) -> u64
        ensures { result ≡ failed self.now };
}

impl<F: FileSource> FileSource for &mut F {
    ghost contents = { λ files. F.contents files.now };

    ghost folder = { λ files. F.folder files.now };

    ghost real_path = { λ files. F.real_path files.now };

    ghost failed = { λ files. F.failed files.now };

    ghost borrows = { λ files. files.ghost_name ∷ F.borrows files.now };

    fn read(&mut self, alloc: Global, name: &str, limit: usize) -> Result<Vec<u8>, FileFault> {
        FileSource::read(&mut **self, alloc, name, limit)
    }

    fn failures(&self) -> u64 {
        FileSource::failures(&**self)
    }
}
