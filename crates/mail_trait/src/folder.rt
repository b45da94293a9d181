ghost use Rattle.std.specs.Prelude.{◌≡◌, ◌≢◌, ◌≤◌, length, false, true, string_bytes};
ghost use Rattle.std.specs.Prelude.{Some, Ok, Err, None, IfOk, IfSome, OnOk, OnErr};
ghost use Rattle.system_calls.specs.Stored.{SameFiles, SameElsewhere, fresh_file, synced, unnamed, path_in};
ghost use Rattle.mail_trait.specs.FileName.{is_file_name};
ghost use Rattle.mail_trait.specs.Folder.{IsTemporary, KeepsOthers, KeepsOrHas, Finds, lasting};
ghost use Rattle.mail_trait.specs.Streams.{fresh_with};

use crate::streams::{read_at_most, write_new};
use group_fields::Bytes;
use std::alloc::Global;
use std::io::ErrorKind;
use system_calls::{CallError, FileCalls, sync_again};

/// How the names begin under which a put writes before it renames. No packet and no card has such a name.
pub(crate) const TEMPORARY: &str = ".unfinished-";

const NO_NAME: CallError = CallError::Failed(ErrorKind::InvalidFilename);

/// Whether a file of the folder can have this name.
fn is_name(name: &[u8]) -> bool
    ensures { result ≡ is_file_name name.now }
{
    !name.is_empty()
        && !name.starts_with(TEMPORARY.as_bytes())
        && !name.contains(&b'/')
        && !name.contains(&0)
}

/// Where the name stands in the folder. A folder without a name can't be opened.
fn path_of(alloc: Global, folder: &str, name: &str) -> Result<String, CallError>
    ensures { IfOk result (λ path. string_bytes path ≡ path_in folder.now name.now) }
{
    if folder.is_empty() {
        return Err(CallError::Failed(ErrorKind::NotFound));
    }
    let mut path = String::from_str(alloc, folder)?;
    path.push('/')?;
    path.push_str(name)?;
    Ok(path)
}

/// The first `limit` bytes of a file of the folder. `None` where the folder is there and has no such name.
pub(crate) fn read_file<C: FileCalls>(
    calls: &mut C,
    alloc: Global,
    folder: &str,
    name: &str,
    limit: u32,
) -> Result<Option<Bytes>, CallError>
    ensures within { IfOk result (λ found. IfSome found (λ bytes. length bytes ≤ limit)) }
    ensures no_name { is_file_name name.now ≡ false → result ≡ Ok None }
    ensures found { C.told → is_file_name name.now ≡ true
        → IfOk result (Finds limit (C.file_at calls.old (path_in folder.now name.now))) }
    ensures files { C.told → SameFiles (C.file_at calls.old) (C.file_at calls.new) }
    ensures calm { OnOk result (C.failures calls.new ≡ C.failures calls.old) }
{
    if !is_name(name.as_bytes()) {
        return Ok(None);
    }
    let path = path_of(alloc, folder, name)?;
    match calls.open(path.as_str())? {
        Some(mut file) => {
            let bytes = read_at_most(calls, alloc, &mut file, limit)?;
            Ok(Some(Bytes::from(bytes)))
        }
        None => {
            calls.find_folder(folder)?;
            Ok(None)
        }
    }
}

/// A temporary path, one for each number.
fn temporary_path(alloc: Global, folder: &str, number: u32) -> Result<String, CallError>
    ensures { IfOk result (λ path. IsTemporary folder.now (string_bytes path)) }
{
    let mut path = path_of(alloc, folder, TEMPORARY)?;
    let digits = format!(in alloc; "{number}")?;
    path.push_str(digits.as_str())?;
    Ok(path)
}

/// Makes a file under a temporary name that nobody has, and answers its path too.
fn make_temporary<C: FileCalls>(
    calls: &mut C,
    alloc: Global,
    folder: &str,
) -> Result<(String, C::File), CallError>
    ensures temporary { IfOk result (λ made. IsTemporary folder.now (string_bytes made.0)) }
    ensures made { C.told → IfOk result (λ made. (C.path_of made.1 ≡ string_bytes made.0)
        × (C.file_at calls.new (string_bytes made.0) ≡ Some (fresh_file false))) }
    ensures others { C.told → (other : _) → (IsTemporary folder.now other → ⊥)
        → C.file_at calls.new other ≡ C.file_at calls.old other }
    ensures calm { OnOk result (C.failures calls.new ≡ C.failures calls.old) }
{
    for number in 0..u32::MAX {
        let path = temporary_path(alloc, folder, number)?;
        match calls.make(path.as_str(), false) {
            Ok(file) => return Ok((path, file)),
            Err(CallError::Taken) => {}
            Err(error) => return Err(error),
        }
    }
    Err(CallError::Taken)
}

/// Writes the bytes to the new file so that they would survive a loss of power, and closes it.
fn write_lasting<C: FileCalls>(
    calls: &mut C,
    mut file: C::File,
    bytes: &[u8],
) -> Result<(), CallError>
    ensures written { C.told → C.file_at calls.old (C.path_of file) ≡ Some (fresh_file false)
        → OnOk result (C.file_at calls.new (C.path_of file) ≡ Some (synced (fresh_with bytes.now))) }
    ensures others { C.told → SameElsewhere (C.path_of file) (C.file_at calls.old) (C.file_at calls.new) }
    ensures calm { OnOk result (C.failures calls.new ≡ C.failures calls.old) }
{
    write_new(calls, &mut file, bytes)?;
    sync_again(calls, &mut file)
}

/// Writes a new file whole, and renames it.
fn place<C: FileCalls>(
    calls: &mut C,
    file: C::File,
    temporary: &str,
    path: &str,
    bytes: &[u8],
) -> Result<(), CallError>
    requires apart { temporary.now ≢ path.now }
    requires there { C.told → (C.path_of file ≡ temporary.now)
        × (C.file_at calls.old temporary.now ≡ Some (fresh_file false)) }
    ensures placed { C.told
        → OnOk result (C.file_at calls.new path.now ≡ Some (unnamed (synced (fresh_with bytes.now)))) }
    ensures failed { C.told → OnErr result (KeepsOrHas path.now bytes.now (C.file_at calls.old) (C.file_at calls.new)) }
    ensures others { C.told → (other : _) → other ≢ path.now → other ≢ temporary.now
        → C.file_at calls.new other ≡ C.file_at calls.old other }
    ensures calm { OnOk result (C.failures calls.new ≡ C.failures calls.old) }
{
    write_lasting(calls, file, bytes)?;
    calls.rename(temporary, path)
}

/// Puts the bytes under the name. They are written under a temporary name and renamed when they are whole, so that a
/// reader of the folder never sees half a file, and so that a name keeps what it had where this fails. In the end the
/// name would survive a loss of power too.
pub(crate) fn put_file<C: FileCalls>(
    calls: &mut C,
    alloc: Global,
    folder: &str,
    name: &str,
    bytes: &[u8],
) -> Result<(), CallError>
    ensures no_name { is_file_name name.now ≡ false → result ≡ Err NO_NAME }
    ensures put { C.told → OnOk result (C.file_at calls.new (path_in folder.now name.now) ≡ Some (lasting bytes.now)) }
    ensures failed { C.told → OnErr result
        (KeepsOrHas (path_in folder.now name.now) bytes.now (C.file_at calls.old) (C.file_at calls.new)) }
    ensures others { C.told
        → KeepsOthers folder.now (path_in folder.now name.now) (C.file_at calls.old) (C.file_at calls.new) }
    ensures calm { OnOk result (C.failures calls.new ≡ C.failures calls.old) }
{
    if !is_name(name.as_bytes()) {
        return Err(NO_NAME);
    }
    let path = path_of(alloc, folder, name)?;
    let (temporary, file) = make_temporary(calls, alloc, folder)?;
    let placed = place(calls, file, temporary.as_str(), path.as_str(), bytes);
    if placed.is_err() {
        let _ = calls.remove(temporary.as_str());
        return placed;
    }
    calls.sync_name(path.as_str())
}
