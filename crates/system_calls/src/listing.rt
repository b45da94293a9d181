ghost use Rattle.std.specs.Prelude.{◌≡◌, ◌≢◌, List, ℕ, ◌++◌, None, Some, IsTrue, bytes_eq, MatchOption, IfOk, OnOk};
ghost use Rattle.std.specs.Prelude.{if◌then◌else◌};
ghost use Rattle.std.specs.Option.{option_map, option_copied};
ghost use Rattle.std.specs.BTreeMap.{get_by_text};
ghost use Rattle.system_calls.specs.Stored.{is_name, path_in, entry_of};
ghost use Rattle.system_calls.specs.Rows.{Enters};
ghost use Rattle.system_calls.specs.MemFiles.{all_changed, filled_by};

use crate::changes::{Change, look};
use crate::{CallError, FolderEntry};
use std::alloc::Global;
use std::collections::BTreeMap;
use std::io::ErrorKind;

/// Whether a name may stand in a folder.
fn may_stand(name: &[u8]) -> bool
    ensures { result ≡ is_name name.now }
{
    !name.is_empty() && !name.contains(&b'/')
}

/// The bytes behind others.
fn behind<'a>(front: &[u8], bytes: &'a [u8]) -> Option<&'a [u8]>
    ensures { MatchOption result ((rest : List ℕ) → bytes.now ≢ front.now ++ rest)
        (λ rest. bytes.now ≡ front.now ++ rest.now) }
{
    bytes.strip_prefix(front)
}

/// The name in a folder that a path leads to, if it leads to one.
fn name_in<'a>(folder: &str, path: &'a str) -> Option<&'a [u8]>
    ensures { MatchOption result ((name : List ℕ) → IsTrue (is_name name) → path.now ≢ path_in folder.now name)
        (λ name. IsTrue (is_name name.now) × (path.now ≡ path_in folder.now name.now)) }
{
    let rest = behind(folder.as_bytes(), path.as_bytes())?;
    let name = behind(b"/", rest)?;
    if may_stand(name) { Some(name) } else { None }
}

/// The path that a change put something under.
fn put_path(change: &Change) -> Option<&str>
    ensures { option_copied result ≡ filled_by change.now }
{
    match change {
        Change::Put(path, _) | Change::Moved(_, path, _) => Some(path.as_str()),
        Change::Gone(_) | Change::Named(_) => None,
    }
}

/// Gives a name a row.
fn set_row(
    rows: &mut BTreeMap<String, FolderEntry>,
    alloc: Global,
    name: &[u8],
    entry: FolderEntry,
) -> Result<(), CallError>
    ensures { OnOk result ((other : List ℕ) →
        get_by_text rows.new other ≡ (if bytes_eq name.now other then Some entry else get_by_text rows.old other)) }
{
    let name = str::from_utf8(name).map_err(|_| CallError::Failed(ErrorKind::InvalidFilename))?;
    rows.insert(String::from_str(alloc, name)?, entry)?;
    Ok(())
}

/// Enters what is under a path, if it lies in the folder.
fn enter(
    rows: &mut BTreeMap<String, FolderEntry>,
    alloc: Global,
    changes: &[Change],
    folder: &str,
    path: &str,
) -> Result<(), CallError>
    ensures { OnOk result (Enters changes.now folder.now path.now rows.old rows.new) }
{
    let Some(name) = name_in(folder, path) else {
        return Ok(());
    };
    let Some((file, _)) = look(changes, path) else {
        return Ok(());
    };
    let entry = FolderEntry {
        is_plain: file.is_plain,
        length: file.bytes.len() as u64,
    };
    set_row(rows, alloc, name, entry)?;
    Ok(())
}

/// The names in a folder after all changes, with what is under each.
pub(crate) fn list_folder(
    alloc: Global,
    changes: &[Change],
    folder: &str,
) -> Result<BTreeMap<String, FolderEntry>, CallError>
    ensures { IfOk result (λ rows. (name : List ℕ) →
        get_by_text rows name ≡ (if is_name name then option_map entry_of
        (all_changed (path_in folder.now name) None changes.now) else None)) }
{
    let mut rows = BTreeMap::new(alloc);
    for change in changes {
        if let Some(path) = put_path(change) {
            enter(&mut rows, alloc, changes, folder, path)?;
        }
    }
    Ok(rows)
}
