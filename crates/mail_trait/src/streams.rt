ghost use Rattle.std.specs.Prelude.{◌≡◌, ◌≤◌, ◌++◌, Some, false, vec_len, take, IfOk, OnOk, IsSomeAnd};
ghost use Rattle.group_fields.specs.Plan.{next_call};
ghost use Rattle.system_calls.specs.Stored.{SameFiles, SameElsewhere, fresh_file};
ghost use Rattle.mail_trait.specs.Failures.{EndsAs};
ghost use Rattle.mail_trait.specs.Sink.{AppendsPrefix};
ghost use Rattle.mail_trait.specs.Streams.{Ended, fresh_with};

use std::alloc::Global;
use std::io::ErrorKind;
use system_calls::{
    CallError, FileCalls, OutputCalls, RandomCalls, read_again, read_at_again, write_again,
    write_at_again,
};

/// How many bytes one read asks for at most.
const BLOCK: usize = 8192;

/// Fills the whole buffer from one opening of the device. It is a fault where the device ends before.
pub(crate) fn fill<C: RandomCalls>(calls: &mut C, into: &mut [u8]) -> Result<(), CallError>
    ensures bytes { C.told → OnOk result (C.to_come calls.old ≡ into.new ++ C.to_come calls.new) }
    ensures opened { C.told → C.openings calls.new ≡ next_call (C.openings calls.old) }
    ensures ends { EndsAs (Ended C.told (C.to_come calls.new)) (C.failures calls.old) (C.failures calls.new)
        (C.last_failure calls.new) result }
{
    let mut device = calls.open()?;
    fill_from(calls, &mut device, into)
}

fn fill_from<C: RandomCalls>(
    calls: &mut C,
    device: &mut C::Device,
    into: &mut [u8],
) -> Result<(), CallError>
    ensures bytes { C.told → OnOk result (C.to_come calls.old ≡ into.new ++ C.to_come calls.new) }
    ensures opened { C.told → C.openings calls.new ≡ C.openings calls.old }
    ensures ends { EndsAs (Ended C.told (C.to_come calls.new)) (C.failures calls.old) (C.failures calls.new)
        (C.last_failure calls.new) result }
{
    let mut filled = 0;
    while filled < into.len() {
        let count = read_again(calls, device, &mut into[filled..])?;
        if count == 0 {
            return Err(CallError::Failed(ErrorKind::UnexpectedEof));
        }
        filled += count;
    }
    Ok(())
}

/// Writes all the bytes.
pub(crate) fn write_out<C: OutputCalls>(calls: &mut C, bytes: &[u8]) -> Result<(), CallError>
    ensures written { C.told → OnOk result (C.written calls.new ≡ C.written calls.old ++ bytes.now) }
    ensures prefix { C.told → AppendsPrefix bytes.now (C.written calls.old) (C.written calls.new) }
    ensures ends { EndsAs (λ _. ⊥) (C.failures calls.old) (C.failures calls.new) (C.last_failure calls.new) result }
{
    let mut done = 0;
    while done < bytes.len() {
        done += write_again(calls, &bytes[done..])?;
    }
    Ok(())
}

/// Reads from the start of a file to its end, or until there are `limit` bytes.
pub(crate) fn read_at_most<C: FileCalls>(
    calls: &mut C,
    alloc: Global,
    file: &mut C::File,
    limit: u32,
) -> Result<Vec<u8>, CallError>
    ensures within { IfOk result (λ bytes. vec_len bytes ≤ limit) }
    ensures bytes { C.told → IfOk result (λ bytes. IsSomeAnd (C.file_at calls.old (C.path_of file.old))
        (λ stored. bytes.items ≡ take limit stored.bytes)) }
    ensures files { C.told → SameFiles (C.file_at calls.old) (C.file_at calls.new) }
    ensures calm { OnOk result (C.failures calls.new ≡ C.failures calls.old) }
{
    let mut bytes = Vec::new(alloc);
    let mut block = [0; BLOCK];
    for _ in 0..u64::MAX {
        let room = BLOCK.min(limit as usize - bytes.len());
        let count = read_at_again(calls, file, bytes.len() as u64, &mut block[..room])?;
        if count == 0 {
            return Ok(bytes);
        }
        bytes.extend_from_slice(&block[..count])?;
    }
    Err(CallError::Interrupted)
}

/// Writes all the bytes into a file that was just made.
pub(crate) fn write_new<C: FileCalls>(
    calls: &mut C,
    file: &mut C::File,
    bytes: &[u8],
) -> Result<(), CallError>
    ensures written { C.told → C.file_at calls.old (C.path_of file.old) ≡ Some (fresh_file false)
        → OnOk result (C.file_at calls.new (C.path_of file.old) ≡ Some (fresh_with bytes.now)) }
    ensures others { C.told → SameElsewhere (C.path_of file.old) (C.file_at calls.old) (C.file_at calls.new) }
    ensures path { C.path_of file.new ≡ C.path_of file.old }
    ensures calm { OnOk result (C.failures calls.new ≡ C.failures calls.old) }
{
    let mut done = 0;
    while done < bytes.len() {
        done += write_at_again(calls, file, done as u64, &bytes[done..])?;
    }
    Ok(())
}
