ghost use Rattle.std.specs.Prelude.{◌≡◌, ◌⊎◌, ◌≤◌, List, ℕ, [], length, None, IfOk, OnOk, IsTrue, IsSome, IsSomeAnd};
ghost use Rattle.std.specs.Option.{ForSome};
ghost use Rattle.system_calls.specs.Errors.{CountsFailure};
ghost use Rattle.system_calls.specs.Stored.{SameFiles, MayName};
ghost use Rattle.disk_trait.specs.Disk.{ReadsPart};
ghost use Rattle.disk_trait.specs.LockedFile.{bytes_of, MayNameElsewhere, WroteFile, IsPlain, Survives, IsReady};
ghost use Rattle.disk_trait.specs.LockedFile.{HoldsLock, stored_in};

use crate::streams::{read_full, sync_again, write_full};
use group_fields::Text;
use system_calls::{CallError, FileCalls};

/// The file under one path, which the first call that finds or makes it opens and locks.
#[derive(Drop)]
pub(crate) struct LockedFile<C: FileCalls> {
    pub(crate) calls: C,
    path: Text,
    file: Option<C::File>,
    // whether the name was synced since the file was opened
    is_named: bool,
}

impl<C: FileCalls> LockedFile<C> {
    /// Nothing is touched.
    pub(crate) fn new(calls: C, path: Text) -> LockedFile<C>
        ensures ready { IsReady ⟦<C as FileCalls>⟧ result }
        ensures calls { result.calls ≡ calls }
        ensures path { result.path ≡ path }
        ensures closed { result.file ≡ None }
    {
        LockedFile {
            calls,
            path,
            file: None,
            is_named: false,
        }
    }

    /// Opens and locks the file where it isn't open and is there.
    fn open(&mut self) -> Result<(), CallError>
        requires { C.told → IsReady ⟦<C as FileCalls>⟧ self.old }
        ensures ready { C.told → IsReady ⟦<C as FileCalls>⟧ self.new }
        ensures opened { C.told → OnOk result (HoldsLock ⟦<C as FileCalls>⟧ self.new) }
        ensures plain { C.told → OnOk result (IsPlain (stored_in ⟦<C as FileCalls>⟧ self.old)) }
        ensures files { C.told → SameFiles (C.file_at self.old.calls) (C.file_at self.new.calls) }
        ensures path { self.new.path ≡ self.old.path }
        ensures failures { CountsFailure (C.failures self.old.calls) (C.failures self.new.calls) result }
    {
        if self.file.is_some() {
            return Ok(());
        }
        match self.calls.open(self.path.as_str())? {
            None => Ok(()),
            Some(file) => self.hold(file),
        }
    }

    /// Takes the lock of a file that was just opened or made, and keeps the file.
    fn hold(&mut self, mut file: C::File) -> Result<(), CallError>
        requires here { C.told → C.path_of file ≡ self.old.path }
        requires there { C.told → IsSome (stored_in ⟦<C as FileCalls>⟧ self.old) }
        requires plain { C.told → IsPlain (stored_in ⟦<C as FileCalls>⟧ self.old) }
        requires closed { self.old.file ≡ None }
        requires ready { C.told → IsReady ⟦<C as FileCalls>⟧ self.old }
        ensures ready { C.told → IsReady ⟦<C as FileCalls>⟧ self.new }
        ensures opened { OnOk result (IsSome self.new.file) }
        ensures files { C.told → SameFiles (C.file_at self.old.calls) (C.file_at self.new.calls) }
        ensures path { self.new.path ≡ self.old.path }
        ensures failures { CountsFailure (C.failures self.old.calls) (C.failures self.new.calls) result }
    {
        self.calls.lock(&mut file)?;
        self.file = Some(file);
        self.is_named = false;
        Ok(())
    }

    /// How many bytes the file has.
    pub(crate) fn len(&mut self) -> Result<u64, CallError>
        requires { C.told → IsReady ⟦<C as FileCalls>⟧ self.old }
        ensures ready { C.told → IsReady ⟦<C as FileCalls>⟧ self.new }
        ensures length { C.told → IfOk result (λ n. n ≡ length (bytes_of (stored_in ⟦<C as FileCalls>⟧ self.old))) }
        ensures locked { C.told → OnOk result (HoldsLock ⟦<C as FileCalls>⟧ self.new) }
        ensures plain { C.told → OnOk result (IsPlain (stored_in ⟦<C as FileCalls>⟧ self.old)) }
        ensures files { C.told → SameFiles (C.file_at self.old.calls) (C.file_at self.new.calls) }
        ensures path { self.new.path ≡ self.old.path }
        ensures failures { CountsFailure (C.failures self.old.calls) (C.failures self.new.calls) result }
    {
        self.open()?;
        match &mut self.file {
            None => Ok(0),
            Some(file) => self.calls.len(file),
        }
    }

    /// Fills `into` with the bytes from a place on, and answers how many there were.
    pub(crate) fn read(&mut self, at: u64, into: &mut [u8]) -> Result<usize, CallError>
        requires { C.told → IsReady ⟦<C as FileCalls>⟧ self.old }
        ensures ready { C.told → IsReady ⟦<C as FileCalls>⟧ self.new }
        ensures within { IfOk result (λ n. n ≤ length into.old) }
        ensures bytes { C.told → IfOk result (λ n. ReadsPart
            (bytes_of (stored_in ⟦<C as FileCalls>⟧ self.old)) at n into.old into.new) }
        ensures locked { C.told → OnOk result (HoldsLock ⟦<C as FileCalls>⟧ self.new) }
        ensures plain { C.told → OnOk result (IsPlain (stored_in ⟦<C as FileCalls>⟧ self.old)) }
        ensures files { C.told → SameFiles (C.file_at self.old.calls) (C.file_at self.new.calls) }
        ensures path { self.new.path ≡ self.old.path }
        ensures failures { CountsFailure (C.failures self.old.calls) (C.failures self.new.calls) result }
    {
        self.open()?;
        match &mut self.file {
            None => Ok(0),
            Some(file) => read_full(&mut self.calls, file, at, into),
        }
    }

    /// Makes and locks the file, and syncs its name.
    fn make(&mut self) -> Result<(), CallError>
        requires closed { self.old.file ≡ None }
        requires ready { C.told → IsReady ⟦<C as FileCalls>⟧ self.old }
        ensures ready { C.told → IsReady ⟦<C as FileCalls>⟧ self.new }
        ensures made { C.told → OnOk result (IsSomeAnd (stored_in ⟦<C as FileCalls>⟧ self.new)
            (λ file. (file.bytes ≡ []) × IsTrue file.is_named × IsTrue file.is_private)) }
        ensures opened { C.told → OnOk result (IsSome self.new.file) }
        ensures bytes { C.told → bytes_of (stored_in ⟦<C as FileCalls>⟧ self.new)
            ≡ bytes_of (stored_in ⟦<C as FileCalls>⟧ self.old) }
        ensures missing { C.told → OnOk result (stored_in ⟦<C as FileCalls>⟧ self.old ≡ None) }
        ensures untouched { C.told → IsSome (stored_in ⟦<C as FileCalls>⟧ self.old)
            → stored_in ⟦<C as FileCalls>⟧ self.new ≡ stored_in ⟦<C as FileCalls>⟧ self.old }
        ensures others { C.told → MayNameElsewhere self.old.path (C.file_at self.old.calls) (C.file_at self.new.calls) }
        ensures path { self.new.path ≡ self.old.path }
        ensures failures { CountsFailure (C.failures self.old.calls) (C.failures self.new.calls) result }
    {
        let file = self.calls.make(self.path.as_str(), true)?;
        self.hold(file)?;
        self.sync_name()
    }

    /// Syncs the name, where it wasn't synced since the file was opened.
    fn sync_name(&mut self) -> Result<(), CallError>
        requires opened { IsSome self.old.file }
        requires ready { C.told → IsReady ⟦<C as FileCalls>⟧ self.old }
        ensures ready { C.told → IsReady ⟦<C as FileCalls>⟧ self.new }
        ensures named { C.told → OnOk result (ForSome (stored_in ⟦<C as FileCalls>⟧ self.new)
            (λ file. IsTrue file.is_named)) }
        ensures names { C.told → (other : List ℕ) → MayName (C.file_at self.old.calls other)
            (C.file_at self.new.calls other) }
        ensures file { self.new.file ≡ self.old.file }
        ensures path { self.new.path ≡ self.old.path }
        ensures failures { CountsFailure (C.failures self.old.calls) (C.failures self.new.calls) result }
    {
        if !self.is_named {
            self.calls.sync_name(self.path.as_str())?;
            self.is_named = true;
        }
        Ok(())
    }

    /// Puts bytes at a place. Where no call before it opened the file it is made: one that is there was made by somebody
    /// else since the last look, and is left alone.
    pub(crate) fn write(&mut self, at: u64, bytes: &[u8]) -> Result<(), CallError>
        requires { C.told → IsReady ⟦<C as FileCalls>⟧ self.old }
        ensures ready { C.told → IsReady ⟦<C as FileCalls>⟧ self.new }
        ensures written { C.told → OnOk result (WroteFile at bytes.now (stored_in ⟦<C as FileCalls>⟧ self.old)
            (stored_in ⟦<C as FileCalls>⟧ self.new)) }
        ensures made { C.told → OnOk result (stored_in ⟦<C as FileCalls>⟧ self.old ≡ None →
            IsSomeAnd (stored_in ⟦<C as FileCalls>⟧ self.new) (λ file. IsTrue file.is_named × IsTrue file.is_private)) }
        ensures guarded { C.told → (bytes_of (stored_in ⟦<C as FileCalls>⟧ self.new)
            ≡ bytes_of (stored_in ⟦<C as FileCalls>⟧ self.old)) ⊎ HoldsLock ⟦<C as FileCalls>⟧ self.new }
        ensures others { C.told → MayNameElsewhere self.old.path (C.file_at self.old.calls) (C.file_at self.new.calls) }
        ensures untouched { C.told → self.old.file ≡ None → IsSome (stored_in ⟦<C as FileCalls>⟧ self.old)
            → stored_in ⟦<C as FileCalls>⟧ self.new ≡ stored_in ⟦<C as FileCalls>⟧ self.old }
        ensures locked { C.told → OnOk result (HoldsLock ⟦<C as FileCalls>⟧ self.new) }
        ensures plain { C.told → OnOk result (IsPlain (stored_in ⟦<C as FileCalls>⟧ self.old)) }
        ensures path { self.new.path ≡ self.old.path }
        ensures failures { CountsFailure (C.failures self.old.calls) (C.failures self.new.calls) result }
    {
        if self.file.is_none() {
            self.make()?;
        }
        match &mut self.file {
            None => Ok(()),
            Some(file) => write_full(&mut self.calls, file, at, bytes),
        }
    }

    /// Waits until the file and its name would survive a loss of power.
    pub(crate) fn sync(&mut self) -> Result<(), CallError>
        requires { C.told → IsReady ⟦<C as FileCalls>⟧ self.old }
        ensures ready { C.told → IsReady ⟦<C as FileCalls>⟧ self.new }
        ensures survives { C.told → OnOk result (Survives (stored_in ⟦<C as FileCalls>⟧ self.new)) }
        ensures bytes { C.told → bytes_of (stored_in ⟦<C as FileCalls>⟧ self.new)
            ≡ bytes_of (stored_in ⟦<C as FileCalls>⟧ self.old) }
        ensures missing { C.told → stored_in ⟦<C as FileCalls>⟧ self.old ≡ None
            → stored_in ⟦<C as FileCalls>⟧ self.new ≡ None }
        ensures others { C.told → MayNameElsewhere self.old.path (C.file_at self.old.calls) (C.file_at self.new.calls) }
        ensures locked { C.told → OnOk result (HoldsLock ⟦<C as FileCalls>⟧ self.new) }
        ensures plain { C.told → OnOk result (IsPlain (stored_in ⟦<C as FileCalls>⟧ self.old)) }
        ensures path { self.new.path ≡ self.old.path }
        ensures failures { CountsFailure (C.failures self.old.calls) (C.failures self.new.calls) result }
    {
        self.open()?;
        match &mut self.file {
            None => return Ok(()),
            Some(file) => sync_again(&mut self.calls, file)?,
        }
        self.sync_name()
    }
}
