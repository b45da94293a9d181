ghost use Rattle.std.specs.Prelude.{◌≡◌, ◌≤◌, ◌<◌, [], None, false, length, IfOk, MatchResult};
ghost use Rattle.std.specs.IoError.{error_kind};
ghost use Rattle.system_calls.specs.Errors.{CountsFailure, error_of};

use crate::error::counted;
use crate::{CallError, FileCalls, FolderEntry, StoredFile};
use std::alloc::Global;
use std::collections::BTreeMap;
use std::fs::{File, OpenOptions, Permissions};
use std::io::ErrorKind;
use std::marker::PhantomData;
use std::os::unix::fs::{FileExt, OpenOptionsExt, PermissionsExt};
use std::rt::Files;
use std::{fs, io};

/// The files of the machine. They tell nothing, since no contract can say what a file gives: what stands here is one
/// call for each method.
#[derive(Drop)]
pub struct RealFiles<R> {
    rt: R,
    failures: u64,
    // what the calls of a form that tells speak of
    stored: PhantomData<StoredFile>,
}

/// The mode of a file that only its owner may read and write.
const PRIVATE: u32 = 0o600;

/// The mode of a file that the process's mask alone keeps from others.
const SHARED: u32 = 0o666;

impl<R> RealFiles<R> {
    ghost use Rattle.system_calls.specs.Machine.{failures_of};

    /// The files that this runtime reaches. It touches nothing.
    pub fn new(rt: R) -> RealFiles<R>
        ensures { failures_of result ≡ 0 }
    {
        RealFiles {
            rt,
            failures: 0,
            stored: PhantomData,
        }
    }

    /// The answer of a call, after its failure has been counted.
    fn end<T>(&mut self, outcome: io::Result<T>) -> Result<T, CallError>
        ensures answer { MatchResult outcome (λ value. result ≡ Ok value)
            (λ error. result ≡ Err (error_of (error_kind error))) }
        ensures failures { CountsFailure (failures_of self.old) (failures_of self.new) result }
    {
        let answer = match outcome {
            Ok(value) => Ok(value),
            Err(error) => Err(CallError::from(error)),
        };
        counted(&mut self.failures, answer)
    }
}

/// Whether there is a plain file under a path. `None` where the name is missing.
fn is_plain<R: Files>(rt: &R, path: &str) -> io::Result<Option<bool>> {
    match fs::metadata(rt, path) {
        Ok(metadata) => Ok(Some(metadata.is_file())),
        Err(error) if error.kind() == ErrorKind::NotFound => Ok(None),
        Err(error) => Err(error),
    }
}

/// Opens for reading and writing, or for reading alone where writing is not allowed.
fn open_allowed<R: Files>(rt: &R, path: &str) -> io::Result<R::File> {
    match OpenOptions::new().read(true).write(true).open(rt, path) {
        Err(error)
            if matches!(
                error.kind(),
                ErrorKind::PermissionDenied | ErrorKind::ReadOnlyFilesystem
            ) => { fs::open(rt, path) }
        outcome => outcome,
    }
}

/// Opens a plain file. Anything else is refused before it is opened, since opening a pipe may wait forever.
fn open_plain<R: Files>(rt: &R, path: &str) -> io::Result<Option<R::File>> {
    match is_plain(rt, path)? {
        None => Ok(None),
        Some(false) => Err(io::Error::from(ErrorKind::InvalidInput)),
        Some(true) => Ok(Some(open_allowed(rt, path)?)),
    }
}

/// Makes a file with the mode that the process's mask leaves of this one.
fn make_with<R: Files<File = File>>(rt: &R, path: &str, mode: u32) -> io::Result<File> {
    OpenOptions::new()
        .read(true)
        .write(true)
        .create_new(true)
        .mode(mode)
        .open(rt, path)
}

/// Makes a file with the mode that the mask leaves, and where it is private gives it the whole private mode then.
fn make_file<R: Files<File = File>>(rt: &R, path: &str, is_private: bool) -> io::Result<File> {
    if !is_private {
        return make_with(rt, path, SHARED);
    }
    let file = make_with(rt, path, PRIVATE)?;
    file.set_permissions(Permissions::from_mode(PRIVATE))?;
    Ok(file)
}

/// The folder that a path's last name lies in.
pub(crate) fn folder_of(path: &str) -> &str {
    match path.rsplit_once('/') {
        None => ".",
        Some(("", _)) => "/",
        Some((folder, _)) => folder,
    }
}

/// What a folder's listing tells of one name. `None` where it has gone since its name was read.
fn entry_of(metadata: io::Result<fs::Metadata>) -> io::Result<Option<FolderEntry>> {
    match metadata {
        Ok(metadata) => Ok(Some(FolderEntry {
            is_plain: metadata.is_file(),
            length: metadata.len(),
        })),
        Err(error) if error.kind() == ErrorKind::NotFound => Ok(None),
        Err(error) => Err(error),
    }
}

fn list_folder<R: Files + AllocGlobal>(
    rt: &R,
    folder: &str,
) -> io::Result<BTreeMap<String, FolderEntry>> {
    let mut rows = BTreeMap::new(rt.alloc());
    for entry in fs::read_dir(&rt, folder)? {
        let entry = entry?;
        if let Some(row) = entry_of(entry.metadata())? {
            rows.insert(String::from_str(rt.alloc(), entry.file_name())?, row)?;
        }
    }
    Ok(rows)
}

/// Writes at a place, once. It is an error where nothing is taken.
fn write_some(file: &File, at: u64, bytes: &[u8]) -> io::Result<usize>
    ensures within { IfOk result (λ n. n ≤ length bytes.now) }
    ensures some { IfOk result (λ n. 0 < length bytes.now → 0 < n) }
{
    match FileExt::write_at(file, bytes, at) {
        Ok(0) if !bytes.is_empty() => Err(io::Error::from(ErrorKind::WriteZero)),
        outcome => outcome,
    }
}

/// Reads from a place on, once.
fn read_some(file: &File, at: u64, into: &mut [u8]) -> io::Result<usize>
    ensures { IfOk result (λ n. n ≤ length into.old) }
{
    FileExt::read_at(file, into, at)
}

impl<R: Files<File = File> + AllocGlobal> FileCalls for RealFiles<R> {
    ghost use Rattle.std.specs.Prelude.{[], None, false};
    ghost use Rattle.system_calls.specs.Machine.{failures_of};

    type File = File;

    ghost told = { ⊥ };

    ghost file_at = { λ _ _. None };

    ghost path_of = { λ _. [] };

    ghost is_locked = { λ _. false };

    ghost failures = { failures_of };

    fn open(&mut self, path: &str) -> Result<Option<File>, CallError> {
        let outcome = open_plain(&self.rt, path);
        self.end(outcome)
    }

    fn make(&mut self, path: &str, is_private: bool) -> Result<File, CallError> {
        match make_file(&self.rt, path, is_private) {
            Err(error) if error.kind() == ErrorKind::AlreadyExists => Err(CallError::Taken),
            outcome => self.end(outcome),
        }
    }

    fn lock(&mut self, file: &mut File) -> Result<(), CallError> {
        self.end(file.try_lock().map_err(io::Error::from))
    }

    fn len(&mut self, file: &mut File) -> Result<u64, CallError> {
        self.end(file.metadata().map(|metadata| metadata.len()))
    }

    fn read_at(&mut self, file: &mut File, at: u64, into: &mut [u8]) -> Result<usize, CallError> {
        self.end(read_some(file, at, into))
    }

    fn write_at(&mut self, file: &mut File, at: u64, bytes: &[u8]) -> Result<usize, CallError> {
        self.end(write_some(file, at, bytes))
    }

    fn sync(&mut self, file: &mut File) -> Result<(), CallError> {
        self.end(file.sync_all())
    }

    fn sync_name(&mut self, path: &str) -> Result<(), CallError> {
        let outcome = fs::open(&self.rt, folder_of(path)).and_then(|folder| folder.sync_all());
        self.end(outcome)
    }

    fn rename(&mut self, from: &str, to: &str) -> Result<(), CallError> {
        let outcome = fs::rename(&self.rt, from, to);
        self.end(outcome)
    }

    fn remove(&mut self, path: &str) -> Result<(), CallError> {
        let outcome = fs::remove_file(&self.rt, path);
        self.end(outcome)
    }

    fn find_folder(&mut self, folder: &str) -> Result<(), CallError> {
        let outcome = fs::read_dir(&&self.rt, folder).map(|_| ());
        self.end(outcome)
    }

    fn list(&mut self, folder: &str) -> Result<BTreeMap<String, FolderEntry>, CallError> {
        let outcome = list_folder(&self.rt, folder);
        self.end(outcome)
    }
}
