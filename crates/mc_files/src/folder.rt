//! The files of a folder of the file system.

ghost use Rattle.std.specs.Prelude.{◌≡◌, ◌≢◌, ◌<◌, ◌≤◌, ◌+◌, IfOk, IsSome, None, cond, false, vec_len};
ghost use Rattle.mc_files.specs.Files.{is_failure};
ghost use Rattle.mc_files.specs.Folder.{StaysKnown};

use crate::fault::FileFault;
use crate::piece_source::PieceSource;
use crate::source::FileSource;
use crate::unread::Unread;
use mc_bundle::{FromReader, ReadFault, read_to_limit};
use std::alloc::{AllocError, Global};
use std::fs;
use std::io::{Error, ErrorKind, Read};
use std::marker::Model;
use std::path::{Path, PathBuf};
use std::rt::Files;

/// A source over a folder of the file system. Contracts don't know its contents. The folder's path is
/// resolved once, before the first file: where it has links that lead elsewhere afterwards, all files
/// still come from one folder.
#[derive(Drop)]
pub struct Folder<'a, R: Files> {
    system: &'a R,
    folder: &'a str,
    // the path without links, from the first file on
    real_path: Option<PathBuf>,
    file: Option<R::File>,
    failures: u64,
    unread: Option<Unread>,
}

impl<'a, R: Files> Model for Folder<'a, R> {
    ghost use Rattle.std.specs.Prelude.{◌≡◌, is_some, nat_lt, option_map};
    ghost use Rattle.std.specs.Path.{path_buf_bytes};
    ghost use Rattle.mc_files.specs.Folder.{FolderState};

    ghost Value = { FolderState };

    ghost view = { λ s. record {
      folder = s.folder.now;
      real_path = option_map (λ path. path_buf_bytes path) s.real_path;
      is_open = is_some s.file;
      failed = s.failures;
    } };

    // there is a reason exactly if a call failed
    ghost invariant = { λ s. is_some s.unread ≡ nat_lt 0 s.failures };
}

/// Why a file isn't opened.
#[derive(Drop)]
enum OpenFault {
    /// The system doesn't open it.
    Unread(Unread),
    /// Memory ran out.
    Memory,
}

impl From<AllocError> for OpenFault {
    fn from(_refused: AllocError) -> OpenFault {
        OpenFault::Memory
    }
}

impl From<Error> for OpenFault {
    fn from(error: Error) -> OpenFault {
        match error.kind() {
            ErrorKind::OutOfMemory => OpenFault::Memory,
            _ => OpenFault::Unread(Unread::from_error(error)),
        }
    }
}

impl<'a, R: Files> Folder<'a, R> {
    /// A source over the folder with this path, or over the current directory if the path is empty.
    /// No file is open yet.
    pub fn new(system: &'a R, folder: &'a str) -> Folder<'a, R>
        ensures folder { result.folder ≡ folder.now }
        ensures unread { (result.is_open ≡ false) × (result.failed ≡ 0) }
        ensures unresolved { result.real_path ≡ None }
    {
        Folder {
            system,
            folder,
            real_path: None,
            file: None,
            failures: 0,
            unread: None,
        }
    }

    /// Counts a failed call, and keeps why it failed.
    fn count_failure(&mut self, unread: Unread) -> FileFault
        requires failures { self.old.failed < u64.MAX }
        ensures state { self.new ≡ record self.old { failed = self.old.failed + 1 } }
        ensures fault { result ≡ FileFault.Failed }
    {
        self.failures += 1;
        self.unread = Some(unread);
        FileFault::Failed
    }

    /// The fault of a file that isn't opened. Lack of memory isn't counted as a failure.
    fn fail_to_open(&mut self, open_fault: OpenFault) -> FileFault
        requires failures { self.old.failed < u64.MAX }
        ensures state { self.new ≡ record self.old {
          failed = cond (is_failure result) (self.old.failed + 1) self.old.failed;
        } }
        ensures fault { result ≢ FileFault.TooLarge }
    {
        match open_fault {
            OpenFault::Unread(unread) => self.count_failure(unread),
            OpenFault::Memory => FileFault::Memory,
        }
    }

    /// Opens a file of the folder, whose path is resolved before the first one.
    fn open_file(&mut self, alloc: Global, name: &str) -> Result<R::File, OpenFault>
        ensures state { self.new ≡ record self.old { real_path = self.new.real_path } }
        ensures real_path { StaysKnown self.old.real_path self.new.real_path }
        ensures resolved { IfOk result (λ _. IsSome self.new.real_path) }
    {
        if let Some(folder) = &self.real_path {
            return open_in_folder(alloc, self.system, folder, name);
        }
        let folder = real_path_of(alloc, self.system, self.folder)?;
        let file = open_in_folder(alloc, self.system, &folder, name);
        self.real_path = Some(folder);
        file
    }
}

/// The path of a folder without links, or the empty one, which is the current directory's.
fn real_path_of<R: Files>(alloc: Global, system: &R, folder: &str) -> Result<PathBuf, OpenFault> {
    if folder.is_empty() {
        return Ok(PathBuf::new(alloc));
    }
    Ok(system.canonicalize(alloc, folder)?)
}

/// Opens the regular file with this path, or the one that it links to.
fn open_regular_file<R: Files>(system: &R, path: Path<'_>) -> Result<R::File, Unread> {
    match fs::metadata(system, path) {
        Ok(found) if found.is_file() => {}
        Ok(_) => return Err(Unread::NotRegular),
        Err(error) => return Err(Unread::from_error(error)),
    }
    fs::open(system, path).map_err(Unread::from_error)
}

/// Opens a file of a folder. A name with a `/` in it is refused as that of no file.
fn open_in_folder<R: Files>(
    alloc: Global,
    system: &R,
    folder: &PathBuf,
    name: &str,
) -> Result<R::File, OpenFault> {
    if name.as_bytes().contains(&b'/') {
        return Err(OpenFault::Unread(Unread::NoSuchFile));
    }
    let path = folder.join(alloc, name)?;
    match open_regular_file(system, path.as_path()) {
        Ok(file) => Ok(file),
        Err(unread) => Err(OpenFault::Unread(unread)),
    }
}

/// The bytes of an open file. At most one byte more than the limit is read.
fn read_within_limit<R: Read + Drop>(
    alloc: Global,
    file: R,
    limit: usize,
) -> Result<Vec<u8>, FileFault>
    ensures bound { IfOk result (λ bytes. vec_len bytes ≤ limit) }
{
    let bytes = read_to_limit(alloc, &mut FromReader::new(file), limit.saturating_add(1))?;
    if bytes.len() > limit {
        return Err(FileFault::TooLarge);
    }
    Ok(bytes)
}

impl<'a, R: Files> FileSource for Folder<'a, R> {
    ghost contents = { λ _. None };

    ghost folder = { λ s. s.folder };

    ghost real_path = { λ s. s.real_path };

    ghost failed = { λ s. s.failed };

    fn read(&mut self, alloc: Global, name: &str, limit: usize) -> Result<Vec<u8>, FileFault> {
        match self.open_file(alloc, name) {
            Ok(file) => match read_within_limit(alloc, file, limit) {
                Err(FileFault::Failed) => Err(self.count_failure(Unread::Failed)),
                answer => answer,
            },
            Err(open_fault) => Err(self.fail_to_open(open_fault)),
        }
    }

    fn failures(&self) -> u64 {
        self.failures
    }
}

impl<'a, R: Files> PieceSource for Folder<'a, R> {
    ghost is_open = { λ s. s.is_open };

    ghost left = { λ _. None };

    fn open(&mut self, alloc: Global, name: &str) -> Result<(), FileFault> {
        self.close();
        match self.open_file(alloc, name) {
            Ok(file) => {
                self.file = Some(file);
                Ok(())
            }
            Err(open_fault) => Err(self.fail_to_open(open_fault)),
        }
    }

    fn read_piece(&mut self, buffer: &mut [u8]) -> Result<usize, FileFault> {
        let Some(file) = &mut self.file else {
            return Ok(0);
        };
        match file.read(buffer) {
            Ok(count) => Ok(count),
            Err(error) => Err(self.count_failure(Unread::from_error(error))),
        }
    }

    fn close(&mut self) {
        self.file = None;
    }

    fn unread(&self) -> Option<Unread> {
        self.unread
    }
}
