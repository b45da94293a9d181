ghost use Rattle.std.specs.Prelude.{◌≡◌, ◌⊎◌, ◌≤◌, ℕ, List, [], None, length};
ghost use Rattle.std.specs.Prelude.{IfOk, OnOk, IsTrue, IsSome, IsSomeAnd, MatchResult, Ok, Err, Some};
ghost use Rattle.group_fields.specs.Cause.{HasCause};
ghost use Rattle.group_fields.specs.Counts.{IsRaised};
ghost use Rattle.system_calls.specs.Errors.{kind_of};
ghost use Rattle.system_calls.specs.Stored.{SameFiles};
ghost use Rattle.disk_trait.specs.Disk.{ReadsPart};
ghost use Rattle.disk_trait.specs.LockedFile.{bytes_of, MayNameElsewhere, WroteFile, IsPlain, Survives, IsReady};
ghost use Rattle.disk_trait.specs.LockedFile.{HoldsLock};
ghost use Rattle.disk_trait.specs.Failures.{TellsFailure, disk_error};
ghost use Rattle.disk_trait.specs.declared.disk.DiskError.TheVariants.{Failed, Memory};

use crate::locked_file::LockedFile;
use crate::{Disk, DiskError};
use group_fields::{Counts, Text};
use std::io::ErrorKind;
use system_calls::{CallError, FileCalls};

/// The disk over a file. It tells the journal nothing of its content, since no contract can say what a file of the
/// machine gives; what it does to the files that its calls tell of is said of each method.
///
/// The first call that finds or makes the file opens it and takes the system's exclusive lock, which it keeps. A file
/// that isn't there is empty, and stays away until the first write makes it: that write fails where somebody else made the
/// file since the last look.
#[derive(Drop)]
pub struct FileDisk<C: FileCalls> {
    file: LockedFile<C>,
    counts: Counts,
    reason: Option<ErrorKind>,
    ghost ready: { C.told → IsReady ⟦<C as FileCalls>⟧ file },
}

impl<C: FileCalls> FileDisk<C> {
    ghost use Rattle.disk_trait.specs.FileDisk.{counts_of, calls_of, path_of, file_of, stored, reason_of};

    /// A disk over the file at a path. It touches nothing.
    pub fn new(calls: C, path: Text) -> FileDisk<C>
        ensures counts { counts_of result ≡ Counts.NONE }
        ensures calls { calls_of result ≡ calls }
        ensures path { path_of result ≡ path }
        ensures closed { (file_of result).file ≡ None }
    {
        FileDisk {
            file: LockedFile::new(calls, path),
            counts: Counts::NONE,
            reason: None,
        }
    }

    /// The kind of the last failure, for a message to a person.
    pub fn reason(&self) -> Option<ErrorKind>
        ensures { result ≡ reason_of self.now }
    {
        self.reason
    }

    /// The calls that it makes.
    pub fn calls(&self) -> &C
        ensures { result.now ≡ calls_of self.now }
    {
        &self.file.calls
    }

    /// Counts a call that failed, and keeps its kind.
    fn count<T>(&mut self, outcome: Result<T, CallError>) -> Result<T, DiskError>
        ensures answer { MatchResult outcome (λ value. result ≡ Ok value)
            (λ cause. (result ≡ Err (disk_error cause)) × (reason_of self.new ≡ Some (kind_of cause))) }
        ensures cause { HasCause Failed Memory (counts_of self.old) (counts_of self.new) result }
        ensures calls { calls_of self.new ≡ calls_of self.old }
        ensures path { path_of self.new ≡ path_of self.old }
        ensures file { file_of self.new ≡ file_of self.old }
    {
        match outcome {
            Ok(value) => Ok(value),
            Err(error) => {
                self.reason = Some(error.kind());
                Err(self.failure(error))
            }
        }
    }

    /// Counts a failure or a want of memory.
    fn failure(&mut self, error: CallError) -> DiskError
        ensures answer { result ≡ disk_error error }
        ensures fault { result ≡ Failed → IsRaised (counts_of self.old).faults (counts_of self.new).faults }
        ensures want { result ≡ Memory → IsRaised (counts_of self.old).wants (counts_of self.new).wants }
        ensures faults { (counts_of self.old).faults ≤ (counts_of self.new).faults }
        ensures wants { (counts_of self.old).wants ≤ (counts_of self.new).wants }
        ensures reason { reason_of self.new ≡ reason_of self.old }
        ensures calls { calls_of self.new ≡ calls_of self.old }
        ensures path { path_of self.new ≡ path_of self.old }
        ensures file { file_of self.new ≡ file_of self.old }
    {
        match error {
            CallError::Memory => {
                self.counts.add_want();
                DiskError::Memory
            }
            CallError::Interrupted | CallError::Taken | CallError::Failed(_) => {
                self.counts.add_fault();
                DiskError::Failed
            }
        }
    }
}

impl<C: FileCalls> Disk for FileDisk<C> {
    ghost use Rattle.std.specs.Prelude.{[]};
    ghost use Rattle.disk_trait.specs.FileDisk.{counts_of, calls_of, path_of, file_of, stored, reason_of};

    ghost told = { ⊥ };

    ghost content = { λ disk. [] };

    ghost image = { λ disk c. ⊥ };

    ghost clock = { λ disk. 0 };

    ghost image_since = { λ disk from c. ⊥ };

    ghost counts = { counts_of };

    ghost follows = { λ disk later. Unit {0} };

    ghost content_is_image = { λ disk told. told };

    ghost counts_now = { λ disk from c told early image. image };

    ghost only_now = { λ disk c told since. since };

    ghost follows_itself = { λ disk. tt };

    ghost follows_on = { λ first second third early late. tt };

    fn len(&mut self) -> Result<u64, DiskError>
        ensures length { C.told → IfOk result (λ n. n ≡ length (bytes_of (stored ⟦<C as FileCalls>⟧ self.old))) }
        ensures locked { C.told → OnOk result (HoldsLock ⟦<C as FileCalls>⟧ (file_of self.new)) }
        ensures plain { C.told → OnOk result (IsPlain (stored ⟦<C as FileCalls>⟧ self.old)) }
        ensures files { C.told → SameFiles (C.file_at (calls_of self.old)) (C.file_at (calls_of self.new)) }
        ensures path { path_of self.new ≡ path_of self.old }
        ensures failures { TellsFailure (C.failures (calls_of self.old)) (C.failures (calls_of self.new))
            (reason_of self.new) result }
        ensures cause { HasCause Failed Memory (counts_of self.old) (counts_of self.new) result }
        ensures follows { Unit {0} }
    {
        let outcome = self.file.len();
        self.count(outcome)
    }

    fn read(&mut self, at: u64, into: &mut [u8]) -> Result<usize, DiskError>
        ensures within { IfOk result (λ n. n ≤ length into.old) }
        ensures bytes { C.told → IfOk result (λ n. ReadsPart
            (bytes_of (stored ⟦<C as FileCalls>⟧ self.old)) at n into.old into.new) }
        ensures locked { C.told → OnOk result (HoldsLock ⟦<C as FileCalls>⟧ (file_of self.new)) }
        ensures plain { C.told → OnOk result (IsPlain (stored ⟦<C as FileCalls>⟧ self.old)) }
        ensures files { C.told → SameFiles (C.file_at (calls_of self.old)) (C.file_at (calls_of self.new)) }
        ensures path { path_of self.new ≡ path_of self.old }
        ensures failures { TellsFailure (C.failures (calls_of self.old)) (C.failures (calls_of self.new))
            (reason_of self.new) result }
        ensures cause { HasCause Failed Memory (counts_of self.old) (counts_of self.new) result }
        ensures follows { Unit {0} }
    {
        let outcome = self.file.read(at, into);
        self.count(outcome)
    }

    /// Where it fails, the bytes of the file may have changed, and nothing else, and only while the lock is held.
    fn write_at(&mut self, at: u64, bytes: &[u8]) -> Result<(), DiskError>
        ensures written { C.told → OnOk result (WroteFile at bytes.now (stored ⟦<C as FileCalls>⟧ self.old)
            (stored ⟦<C as FileCalls>⟧ self.new)) }
        ensures made { C.told → OnOk result (stored ⟦<C as FileCalls>⟧ self.old ≡ None →
            IsSomeAnd (stored ⟦<C as FileCalls>⟧ self.new) (λ file. IsTrue file.is_named × IsTrue file.is_private)) }
        ensures guarded { C.told → (bytes_of (stored ⟦<C as FileCalls>⟧ self.new)
            ≡ bytes_of (stored ⟦<C as FileCalls>⟧ self.old)) ⊎ HoldsLock ⟦<C as FileCalls>⟧ (file_of self.new) }
        ensures others { C.told → MayNameElsewhere (path_of self.old) (C.file_at (calls_of self.old))
            (C.file_at (calls_of self.new)) }
        ensures untouched { C.told → (file_of self.old).file ≡ None → IsSome (stored ⟦<C as FileCalls>⟧ self.old)
            → stored ⟦<C as FileCalls>⟧ self.new ≡ stored ⟦<C as FileCalls>⟧ self.old }
        ensures locked { C.told → OnOk result (HoldsLock ⟦<C as FileCalls>⟧ (file_of self.new)) }
        ensures plain { C.told → OnOk result (IsPlain (stored ⟦<C as FileCalls>⟧ self.old)) }
        ensures path { path_of self.new ≡ path_of self.old }
        ensures failures { TellsFailure (C.failures (calls_of self.old)) (C.failures (calls_of self.new))
            (reason_of self.new) result }
        ensures cause { HasCause Failed Memory (counts_of self.old) (counts_of self.new) result }
        ensures follows { Unit {0} }
    {
        let outcome = self.file.write(at, bytes);
        self.count(outcome)
    }

    /// After it the file and its name would survive a loss of power.
    fn sync(&mut self) -> Result<(), DiskError>
        ensures survives { C.told → OnOk result (Survives (stored ⟦<C as FileCalls>⟧ self.new)) }
        ensures bytes { C.told → bytes_of (stored ⟦<C as FileCalls>⟧ self.new)
            ≡ bytes_of (stored ⟦<C as FileCalls>⟧ self.old) }
        ensures missing { C.told → stored ⟦<C as FileCalls>⟧ self.old ≡ None
            → stored ⟦<C as FileCalls>⟧ self.new ≡ None }
        ensures others { C.told → MayNameElsewhere (path_of self.old) (C.file_at (calls_of self.old))
            (C.file_at (calls_of self.new)) }
        ensures locked { C.told → OnOk result (HoldsLock ⟦<C as FileCalls>⟧ (file_of self.new)) }
        ensures plain { C.told → OnOk result (IsPlain (stored ⟦<C as FileCalls>⟧ self.old)) }
        ensures path { path_of self.new ≡ path_of self.old }
        ensures failures { TellsFailure (C.failures (calls_of self.old)) (C.failures (calls_of self.new))
            (reason_of self.new) result }
        ensures cause { HasCause Failed Memory (counts_of self.old) (counts_of self.new) result }
        ensures follows { Unit {0} }
    {
        let outcome = self.file.sync();
        self.count(outcome)
    }
}
