ghost use Rattle.std.specs.Prelude.{◌≡◌, ◌⊎◌, ◌≤◌, ◌<◌, ◌++◌, [], length, take, IfOk, OnOk, OnErr, Some, IsSomeAnd};
ghost use Rattle.system_calls.specs.Errors.{CountsFailure};
ghost use Rattle.system_calls.specs.LastFailure.{TellsLast};
ghost use Rattle.system_calls.specs.Stored.{SameFiles, SameElsewhere, ReadsSome, WritesSome, KeepsName, KeepsBytes};
ghost use Rattle.system_calls.specs.Stored.{synced};

use crate::{CallError, FileCalls, OutputCalls, RandomCalls};

/// One read of a file from a place on, made again where it was interrupted.
pub fn read_at_again<C: FileCalls>(
    calls: &mut C,
    file: &mut C::File,
    at: u64,
    into: &mut [u8],
) -> Result<usize, CallError>
    ensures within { IfOk result (λ n. n ≤ length into.old) }
    ensures bytes { C.told → IfOk result (λ n. IsSomeAnd (C.file_at calls.old (C.path_of file.old))
        (λ stored. ReadsSome stored.bytes at n into.old into.new)) }
    ensures file { (C.path_of file.new ≡ C.path_of file.old) × (C.is_locked file.new ≡ C.is_locked file.old) }
    ensures files { C.told → SameFiles (C.file_at calls.old) (C.file_at calls.new) }
    ensures failures { CountsFailure (C.failures calls.old) (C.failures calls.new) result }
{
    for _ in 0..u64::MAX {
        match calls.read_at(file, at, into) {
            Err(CallError::Interrupted) => {}
            outcome => return outcome,
        }
    }
    Err(CallError::Interrupted)
}

/// One write to a file at a place, made again where it was interrupted. Of some bytes it takes at least one.
pub fn write_at_again<C: FileCalls>(
    calls: &mut C,
    file: &mut C::File,
    at: u64,
    bytes: &[u8],
) -> Result<usize, CallError>
    ensures within { IfOk result (λ n. n ≤ length bytes.now) }
    ensures some { IfOk result (λ n. 0 < length bytes.now → 0 < n) }
    ensures written { C.told → IfOk result (λ n. WritesSome at n bytes.now (C.file_at calls.old (C.path_of file.old))
        (C.file_at calls.new (C.path_of file.old))) }
    ensures failed { C.told → OnErr result (KeepsName (C.file_at calls.old (C.path_of file.old))
        (C.file_at calls.new (C.path_of file.old))) }
    ensures others { C.told → SameElsewhere (C.path_of file.old) (C.file_at calls.old) (C.file_at calls.new) }
    ensures file { (C.path_of file.new ≡ C.path_of file.old) × (C.is_locked file.new ≡ C.is_locked file.old) }
    ensures failures { CountsFailure (C.failures calls.old) (C.failures calls.new) result }
{
    for _ in 0..u64::MAX {
        match calls.write_at(file, at, bytes) {
            Err(CallError::Interrupted) => {}
            outcome => return outcome,
        }
    }
    Err(CallError::Interrupted)
}

/// Syncs a file, again where that was interrupted.
pub fn sync_again<C: FileCalls>(calls: &mut C, file: &mut C::File) -> Result<(), CallError>
    ensures synced { C.told → OnOk result (IsSomeAnd (C.file_at calls.old (C.path_of file.old))
        (λ stored. C.file_at calls.new (C.path_of file.old) ≡ Some (synced stored))) }
    ensures failed { C.told → OnErr result (KeepsBytes (C.file_at calls.old (C.path_of file.old))
        (C.file_at calls.new (C.path_of file.old))) }
    ensures others { C.told → SameElsewhere (C.path_of file.old) (C.file_at calls.old) (C.file_at calls.new) }
    ensures file { (C.path_of file.new ≡ C.path_of file.old) × (C.is_locked file.new ≡ C.is_locked file.old) }
    ensures failures { CountsFailure (C.failures calls.old) (C.failures calls.new) result }
{
    for _ in 0..u64::MAX {
        match calls.sync(file) {
            Err(CallError::Interrupted) => {}
            outcome => return outcome,
        }
    }
    Err(CallError::Interrupted)
}

/// One read of random bytes, made again where it was interrupted. Where it fails, `into` may hold anything.
pub fn read_again<C: RandomCalls>(
    calls: &mut C,
    device: &mut C::Device,
    into: &mut [u8],
) -> Result<usize, CallError>
    ensures within { IfOk result (λ n. n ≤ length into.old) }
    ensures bytes { C.told → IfOk result (λ n. C.to_come calls.old ≡ take n into.new ++ C.to_come calls.new) }
    ensures none { C.told → IfOk result (λ n. n ≡ 0 → (length into.old ≡ 0) ⊎ (C.to_come calls.old ≡ [])) }
    ensures kept { C.told → OnErr result (C.to_come calls.new ≡ C.to_come calls.old) }
    ensures openings { C.told → C.openings calls.new ≡ C.openings calls.old }
    ensures failures { CountsFailure (C.failures calls.old) (C.failures calls.new) result }
    ensures last { TellsLast (C.last_failure calls.old) (C.last_failure calls.new) result }
{
    for _ in 0..u64::MAX {
        match calls.read(device, into) {
            Err(CallError::Interrupted) => {}
            outcome => return outcome,
        }
    }
    Err(CallError::Interrupted)
}

/// One write to an output, made again where it was interrupted. Of some bytes it takes at least one.
pub fn write_again<C: OutputCalls>(calls: &mut C, bytes: &[u8]) -> Result<usize, CallError>
    ensures within { IfOk result (λ n. n ≤ length bytes.now) }
    ensures some { IfOk result (λ n. 0 < length bytes.now → 0 < n) }
    ensures written { C.told → IfOk result (λ n. C.written calls.new ≡ C.written calls.old ++ take n bytes.now) }
    ensures kept { C.told → OnErr result (C.written calls.new ≡ C.written calls.old) }
    ensures failures { CountsFailure (C.failures calls.old) (C.failures calls.new) result }
    ensures last { TellsLast (C.last_failure calls.old) (C.last_failure calls.new) result }
{
    for _ in 0..u64::MAX {
        match calls.write(bytes) {
            Err(CallError::Interrupted) => {}
            outcome => return outcome,
        }
    }
    Err(CallError::Interrupted)
}
