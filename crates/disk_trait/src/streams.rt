ghost use Rattle.std.specs.Prelude.{◌≡◌, ◌≤◌, length, IfOk, OnOk, IsSome};
ghost use Rattle.system_calls.specs.Errors.{CountsFailure};
ghost use Rattle.system_calls.specs.Stored.{SameFiles, SameElsewhere, KeepsName};
ghost use Rattle.disk_trait.specs.Disk.{ReadsPart};
ghost use Rattle.disk_trait.specs.LockedFile.{WroteFile, bytes_of};

pub(crate) use system_calls::sync_again;
use system_calls::{CallError, FileCalls, read_at_again, write_at_again};

/// Reads from a place on until the buffer is full or the file ends, and answers how many bytes there were.
pub(crate) fn read_full<C: FileCalls>(
    calls: &mut C,
    file: &mut C::File,
    at: u64,
    into: &mut [u8],
) -> Result<usize, CallError>
    ensures within { IfOk result (λ n. n ≤ length into.old) }
    ensures bytes { C.told → IfOk result (λ n. ReadsPart
        (bytes_of (C.file_at calls.old (C.path_of file.old))) at n into.old into.new) }
    ensures file { (C.path_of file.new ≡ C.path_of file.old) × (C.is_locked file.new ≡ C.is_locked file.old) }
    ensures files { C.told → SameFiles (C.file_at calls.old) (C.file_at calls.new) }
    ensures failures { CountsFailure (C.failures calls.old) (C.failures calls.new) result }
{
    let mut filled = 0;
    while filled < into.len() {
        let place = at.saturating_add(filled as u64);
        let count = read_at_again(calls, file, place, &mut into[filled..])?;
        if count == 0 {
            break;
        }
        filled += count;
    }
    Ok(filled)
}

/// Writes all the bytes from a place on.
pub(crate) fn write_full<C: FileCalls>(
    calls: &mut C,
    file: &mut C::File,
    at: u64,
    bytes: &[u8],
) -> Result<(), CallError>
    requires there { C.told → IsSome (C.file_at calls.old (C.path_of file.old)) }
    ensures written { C.told → OnOk result (WroteFile at bytes.now (C.file_at calls.old (C.path_of file.old))
        (C.file_at calls.new (C.path_of file.old))) }
    ensures name { C.told → KeepsName (C.file_at calls.old (C.path_of file.old))
        (C.file_at calls.new (C.path_of file.old)) }
    ensures others { C.told → SameElsewhere (C.path_of file.old) (C.file_at calls.old) (C.file_at calls.new) }
    ensures file { (C.path_of file.new ≡ C.path_of file.old) × (C.is_locked file.new ≡ C.is_locked file.old) }
    ensures failures { CountsFailure (C.failures calls.old) (C.failures calls.new) result }
{
    let mut done = 0;
    while done < bytes.len() {
        let place = at.saturating_add(done as u64);
        done += write_at_again(calls, file, place, &bytes[done..])?;
    }
    Ok(())
}
