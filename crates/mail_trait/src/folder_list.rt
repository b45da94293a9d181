ghost use Rattle.std.specs.Prelude.{◌≡◌, IfOk, OnOk};
ghost use Rattle.std.specs.String.{string_cmp};
ghost use Rattle.std.specs.BTreeMap.{IsOrdered};
ghost use Rattle.system_calls.specs.Stored.{SameFiles};
ghost use Rattle.mail_trait.specs.Folder.{Lists, rows_shown};

use crate::folder::TEMPORARY;
use crate::{Entry, Listing};
use group_fields::{Memory, Text};
use std::alloc::Global;
use std::collections::BTreeMap;
use system_calls::{CallError, FileCalls, FolderEntry};

/// The rows of the names that are shown.
fn shown_rows(alloc: Global, names: BTreeMap<String, FolderEntry>) -> Result<Listing, Memory>
    ensures rows { IfOk result (λ rows. rows ≡ rows_shown names.entries) }
    ensures ordered { OnOk result (IsOrdered string_cmp names) }
{
    let mut rows = Vec::new(alloc);
    for (name, entry) in names {
        if !entry.is_plain || name.as_bytes().starts_with(TEMPORARY.as_bytes()) {
            continue;
        }
        rows.push(Entry {
            name: Text::from(name),
            length: entry.length,
        })?;
    }
    Ok(Listing::from(rows))
}

/// The plain files of a folder, in the order of the bytes of their names.
pub(crate) fn list_files<C: FileCalls>(
    calls: &mut C,
    alloc: Global,
    folder: &str,
) -> Result<Listing, CallError>
    ensures rows { C.told → IfOk result (Lists folder.now (C.file_at calls.old)) }
    ensures files { C.told → SameFiles (C.file_at calls.old) (C.file_at calls.new) }
    ensures calm { OnOk result (C.failures calls.new ≡ C.failures calls.old) }
{
    let names = calls.list(folder)?;
    Ok(shown_rows(alloc, names)?)
}
