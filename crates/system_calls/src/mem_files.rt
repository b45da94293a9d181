ghost use Rattle.std.specs.Prelude.{◌≡◌, ◌≢◌, ◌⊎◌, ◌≤◌, ◌<◌, ◌+◌, ℕ, Bool, Option, Some, None, List, [], ◌∷◌, ◌++◌};
ghost use Rattle.std.specs.Prelude.{length, take, drop, if◌then◌else◌};
ghost use Rattle.std.specs.Prelude.{IsTrue, IsSomeAnd, MatchOption, IfOk, OnOk, OnErr};
ghost use Rattle.std.specs.Option.{option_map};
ghost use Rattle.group_fields.specs.Counts.{greatest_count};
ghost use Rattle.system_calls.specs.declared.stored.StoredFile.{StoredFile};
ghost use Rattle.system_calls.specs.declared.changes.Change.TheVariants.{Put, Gone, Named};
ghost use Rattle.system_calls.specs.Errors.{CountsFailure};
ghost use Rattle.system_calls.specs.Stored.{SameFiles, SameElsewhere, fresh_file, synced, named, unnamed};
ghost use Rattle.system_calls.specs.Stored.{overwritten, written, ReadsSome, WritesSome};
ghost use Rattle.system_calls.specs.Stored.{KeepsName, KeepsBytes, MayName, Moves, is_name, path_in, entry_of};
ghost use Rattle.system_calls.specs.MemFiles.{all_changed};

use crate::changes::{Change, look, move_to, name, put, take_away};
use crate::listing::list_folder;
use crate::{CallError, FileCalls, FolderEntry, Plan, StoredFile};
use group_fields::{Bytes, Memory, Text};
use std::alloc::{AllocError, Global};
use std::collections::BTreeMap;
use std::io::ErrorKind;

/// An open file in memory. It stands for what is under its path.
#[derive(Debug, Drop)]
pub struct MemFile {
    path: Text,
    is_locked: bool,
}

/// Files in memory. They tell what there is under each path and what would survive a loss of power, and their calls
/// fail, and read and write less than is asked for, on demand.
#[derive(Debug, Drop)]
pub struct MemFiles {
    alloc: Global,
    changes: Vec<Change>,
    plan: Plan,
    error: CallError,
    most: usize,
}

const MISSING: CallError = CallError::Failed(ErrorKind::NotFound);

/// The bytes with others at a place, and with zeros in a gap before it.
fn overwrite(alloc: Global, old: &[u8], at: usize, bytes: &[u8]) -> Result<Vec<u8>, Memory>
    ensures bytes { IfOk result (λ new. new.items ≡ overwritten at bytes.now old.now) }
    ensures fits { OnOk result (at + length bytes.now ≤ greatest_count) }
{
    let end = at.checked_add(bytes.len()).ok_or(AllocError)?;
    let mut new = old.to_vec(alloc)?;
    if new.len() < end {
        new.resize(end, 0)?;
    }
    new.as_mut_slice()[at..end].copy_from_slice(bytes);
    Ok(new)
}

/// Reads from a place on, and at most so many bytes, but for one.
fn read_some(bytes: &[u8], at: u64, most: usize, into: &mut [u8]) -> usize
    ensures within { result ≤ length into.old }
    ensures bytes { ReadsSome bytes.now at result into.old into.new }
{
    let start = usize::try_from(at).unwrap_or(usize::MAX).min(bytes.len());
    let count = into.len().min(bytes.len() - start).min(most.max(1));
    into[..count].copy_from_slice(&bytes[start..start + count]);
    count
}

impl MemFiles {
    ghost use Rattle.system_calls.specs.InMemory.{file_in, failures_of, path_of, is_locked};

    /// No file yet. The calls of these numbers, from 1, are to fail with the error, and one read or write moves at most
    /// so many bytes, but for one.
    pub fn new(
        alloc: Global,
        failing: &[u32],
        error: CallError,
        most: usize,
    ) -> Result<MemFiles, Memory>
        ensures empty { IfOk result (λ files. (path : List ℕ) → file_in files path ≡ None) }
        ensures failures { IfOk result (λ files. failures_of files ≡ 0) }
    {
        Ok(MemFiles {
            alloc,
            changes: Vec::new(alloc),
            plan: Plan::new(alloc, failing)?,
            error,
            most,
        })
    }

    /// How many calls there were.
    pub fn calls(&self) -> u64 {
        self.plan.made()
    }

    /// Puts something under a path, as if another process had done it.
    pub fn place(&mut self, path: &str, file: StoredFile) -> Result<(), Memory>
        ensures there { OnOk result (file_in self.new path.now ≡ Some file) }
        ensures others { SameElsewhere path.now (file_in self.old) (file_in self.new) }
        ensures err { OnErr result (SameFiles (file_in self.old) (file_in self.new)) }
        ensures failures { failures_of self.new ≡ failures_of self.old }
    {
        put(&mut self.changes, self.alloc, path, file)
    }

    /// What there is under a path.
    pub fn file(&self, path: &str) -> Result<Option<StoredFile>, Memory>
        ensures { IfOk result (λ file. file ≡ file_in self.now path.now) }
    {
        match look(&self.changes, path) {
            None => Ok(None),
            Some((file, is_named)) => Ok(Some(StoredFile {
                bytes: Bytes::copy_of(self.alloc, file.bytes.as_slice())?,
                is_synced: file.is_synced,
                is_named,
                is_plain: file.is_plain,
                is_private: file.is_private,
            })),
        }
    }

    fn open_file(&self, path: &str) -> Result<Option<MemFile>, CallError>
        ensures { IfOk result (λ found. MatchOption found (file_in self.now path.now ≡ None)
            (λ file. (path_of file ≡ path.now) × IsSomeAnd (file_in self.now path.now)
            (λ stored. IsTrue stored.is_plain))) }
    {
        match look(&self.changes, path) {
            None => Ok(None),
            Some((stored, _)) if stored.is_plain => Ok(Some(MemFile {
                path: Text::copy_of(self.alloc, path)?,
                is_locked: false,
            })),
            Some(_) => Err(CallError::Failed(ErrorKind::InvalidInput)),
        }
    }

    fn make_file(&mut self, path: &str, is_private: bool) -> Result<MemFile, CallError>
        ensures made { IfOk result (λ file. (path_of file ≡ path.now) × (file_in self.old path.now ≡ None)
            × (file_in self.new path.now ≡ Some (fresh_file is_private))) }
        ensures failed { OnErr result (SameFiles (file_in self.old) (file_in self.new)) }
        ensures others { SameElsewhere path.now (file_in self.old) (file_in self.new) }
        ensures failures { failures_of self.new ≡ failures_of self.old }
    {
        if look(&self.changes, path).is_some() {
            return Err(CallError::Taken);
        }
        let file = MemFile {
            path: Text::copy_of(self.alloc, path)?,
            is_locked: false,
        };
        let fresh = StoredFile {
            bytes: Bytes::from(Vec::new(self.alloc)),
            is_synced: false,
            is_named: false,
            is_plain: true,
            is_private,
        };
        put(&mut self.changes, self.alloc, path, fresh)?;
        Ok(file)
    }

    fn file_len(&self, path: &str) -> Result<u64, CallError>
        ensures { IfOk result (λ n. IsSomeAnd (file_in self.now path.now) (λ stored. n ≡ length stored.bytes)) }
    {
        match look(&self.changes, path) {
            None => Err(MISSING),
            Some((stored, _)) => Ok(stored.bytes.len() as u64),
        }
    }

    fn read_file(&self, path: &str, at: u64, into: &mut [u8]) -> Result<usize, CallError>
        ensures within { IfOk result (λ n. n ≤ length into.old) }
        ensures bytes { IfOk result (λ n. IsSomeAnd (file_in self.now path.now)
            (λ stored. ReadsSome stored.bytes at n into.old into.new)) }
        ensures failed { OnErr result (into.new ≡ into.old) }
    {
        match look(&self.changes, path) {
            None => Err(MISSING),
            Some((stored, _)) => Ok(read_some(stored.bytes.as_slice(), at, self.most, into)),
        }
    }

    fn write_file(&mut self, path: &str, at: u64, bytes: &[u8]) -> Result<usize, CallError>
        ensures within { IfOk result (λ n. n ≤ length bytes.now) }
        ensures some { IfOk result (λ n. 0 < length bytes.now → 0 < n) }
        ensures written { IfOk result (λ n. WritesSome at n bytes.now (file_in self.old path.now)
            (file_in self.new path.now)) }
        ensures failed { OnErr result (SameFiles (file_in self.old) (file_in self.new)) }
        ensures others { SameElsewhere path.now (file_in self.old) (file_in self.new) }
        ensures failures { failures_of self.new ≡ failures_of self.old }
    {
        let Some(stored) = self.file(path)? else {
            return Err(MISSING);
        };
        if bytes.is_empty() {
            return Ok(0);
        }
        let count = bytes.len().min(self.most.max(1));
        let start = usize::try_from(at).map_err(|_| AllocError)?;
        let new = overwrite(self.alloc, stored.bytes.as_slice(), start, &bytes[..count])?;
        let file = StoredFile {
            bytes: Bytes::from(new),
            is_synced: false,
            is_named: stored.is_named,
            is_plain: stored.is_plain,
            is_private: stored.is_private,
        };
        put(&mut self.changes, self.alloc, path, file)?;
        Ok(count)
    }

    fn sync_file(&mut self, path: &str) -> Result<(), CallError>
        ensures synced { OnOk result (IsSomeAnd (file_in self.old path.now)
            (λ stored. file_in self.new path.now ≡ Some (synced stored))) }
        ensures failed { OnErr result (SameFiles (file_in self.old) (file_in self.new)) }
        ensures others { SameElsewhere path.now (file_in self.old) (file_in self.new) }
        ensures failures { failures_of self.new ≡ failures_of self.old }
    {
        let Some(mut stored) = self.file(path)? else {
            return Err(MISSING);
        };
        stored.is_synced = true;
        put(&mut self.changes, self.alloc, path, stored)?;
        Ok(())
    }

    fn sync_name_of(&mut self, path: &str) -> Result<(), CallError>
        ensures named { OnOk result (file_in self.new path.now ≡ option_map named (file_in self.old path.now)) }
        ensures names { (other : List ℕ) → MayName (file_in self.old other) (file_in self.new other) }
        ensures failures { failures_of self.new ≡ failures_of self.old }
    {
        name(&mut self.changes, self.alloc, path)?;
        Ok(())
    }

    fn rename_file(&mut self, from: &str, to: &str) -> Result<(), CallError>
        ensures moved { OnOk result (Moves from.now to.now (file_in self.old) (file_in self.new)) }
        ensures failed { OnErr result (SameFiles (file_in self.old) (file_in self.new)) }
        ensures failures { failures_of self.new ≡ failures_of self.old }
    {
        let Some(mut stored) = self.file(from)? else {
            return Err(MISSING);
        };
        stored.is_named = false;
        move_to(&mut self.changes, self.alloc, from, to, stored)?;
        Ok(())
    }

    fn remove_file(&mut self, path: &str) -> Result<(), CallError>
        ensures removed { OnOk result (file_in self.new path.now ≡ None) }
        ensures failed { OnErr result (SameFiles (file_in self.old) (file_in self.new)) }
        ensures others { SameElsewhere path.now (file_in self.old) (file_in self.new) }
        ensures failures { failures_of self.new ≡ failures_of self.old }
    {
        if look(&self.changes, path).is_none() {
            return Err(MISSING);
        }
        take_away(&mut self.changes, self.alloc, path)?;
        Ok(())
    }
}

impl FileCalls for MemFiles {
    ghost use Rattle.std.specs.Prelude.{◌≡◌, ◌⊎◌};
    ghost use Rattle.system_calls.specs.InMemory.{file_in, failures_of, path_of, is_locked};

    type File = MemFile;

    ghost told = { Unit {0} };

    ghost file_at = { file_in };

    ghost path_of = { path_of };

    ghost is_locked = { is_locked };

    ghost failures = { failures_of };

    fn open(&mut self, path: &str) -> Result<Option<MemFile>, CallError> {
        self.plan.begin_call(self.error)?;
        let outcome = self.open_file(path);
        self.plan.end_call(outcome)
    }

    fn make(&mut self, path: &str, is_private: bool) -> Result<MemFile, CallError> {
        self.plan.begin_call(self.error)?;
        let outcome = self.make_file(path, is_private);
        self.plan.end_call(outcome)
    }

    fn lock(&mut self, file: &mut MemFile) -> Result<(), CallError> {
        self.plan.begin_call(self.error)?;
        file.is_locked = true;
        Ok(())
    }

    fn len(&mut self, file: &mut MemFile) -> Result<u64, CallError> {
        self.plan.begin_call(self.error)?;
        let outcome = self.file_len(file.path.as_str());
        self.plan.end_call(outcome)
    }

    fn read_at(
        &mut self,
        file: &mut MemFile,
        at: u64,
        into: &mut [u8],
    ) -> Result<usize, CallError> {
        self.plan.begin_call(self.error)?;
        let outcome = self.read_file(file.path.as_str(), at, into);
        self.plan.end_call(outcome)
    }

    fn write_at(&mut self, file: &mut MemFile, at: u64, bytes: &[u8]) -> Result<usize, CallError> {
        self.plan.begin_call(self.error)?;
        let outcome = self.write_file(file.path.as_str(), at, bytes);
        self.plan.end_call(outcome)
    }

    fn sync(&mut self, file: &mut MemFile) -> Result<(), CallError> {
        self.plan.begin_call(self.error)?;
        let outcome = self.sync_file(file.path.as_str());
        self.plan.end_call(outcome)
    }

    fn sync_name(&mut self, path: &str) -> Result<(), CallError> {
        self.plan.begin_call(self.error)?;
        let outcome = self.sync_name_of(path);
        self.plan.end_call(outcome)
    }

    fn rename(&mut self, from: &str, to: &str) -> Result<(), CallError> {
        self.plan.begin_call(self.error)?;
        let outcome = self.rename_file(from, to);
        self.plan.end_call(outcome)
    }

    fn remove(&mut self, path: &str) -> Result<(), CallError> {
        self.plan.begin_call(self.error)?;
        let outcome = self.remove_file(path);
        self.plan.end_call(outcome)
    }

    fn find_folder(&mut self, _folder: &str) -> Result<(), CallError> {
        self.plan.begin_call(self.error)?;
        Ok(())
    }

    fn list(&mut self, folder: &str) -> Result<BTreeMap<String, FolderEntry>, CallError> {
        self.plan.begin_call(self.error)?;
        let outcome = list_folder(self.alloc, &self.changes, folder);
        self.plan.end_call(outcome)
    }
}
