ghost use Rattle.std.specs.Prelude.{◌≡◌, ◌≤◌, length, take, OnOk, OnErr, IfOk, IfSome};
ghost use Rattle.std.specs.Option.{option_map};
ghost use Rattle.std.specs.FinMap.{get, insert};
ghost use Rattle.mail_trait.specs.Files.{files_of};
ghost use Rattle.mail_trait.specs.Post.{rows_of, SameElsewhere};

use crate::{Entry, Listing};
use group_fields::{Bytes, Memory, Text};
use std::alloc::Global;
use std::collections::BTreeMap;

/// A row for each file, in the order of the names.
pub(crate) fn rows(alloc: Global, files: &BTreeMap<String, Vec<u8>>) -> Result<Listing, Memory>
    ensures { IfOk result (λ rows. rows ≡ rows_of (files_of files.now)) }
{
    let mut rows = Vec::new(alloc);
    for (name, bytes) in files {
        rows.push(Entry {
            name: Text::copy_of(alloc, name.as_str())?,
            length: bytes.len() as u64,
        })?;
    }
    Ok(Listing::from(rows))
}

/// The first `limit` bytes of the file of this name.
pub(crate) fn read_file(
    alloc: Global,
    files: &BTreeMap<String, Vec<u8>>,
    name: &str,
    limit: u32,
) -> Result<Option<Bytes>, Memory>
    ensures within { IfOk result (λ found. IfSome found (λ bytes. length bytes ≤ limit)) }
    ensures bytes { IfOk result (λ found. found ≡ option_map (take limit) (get (files_of files.now) name.now)) }
{
    match files.get(name) {
        None => Ok(None),
        Some(bytes) => {
            let end = bytes.len().min(limit as usize);
            Ok(Some(Bytes::copy_of(alloc, &bytes[..end])?))
        }
    }
}

/// Puts a copy of the bytes under the name. Where memory lacks, nothing changes.
pub(crate) fn store(
    files: &mut BTreeMap<String, Vec<u8>>,
    alloc: Global,
    name: &str,
    bytes: &[u8],
) -> Result<(), Memory>
    ensures put { OnOk result (files_of files.new ≡ insert (files_of files.old) name.now bytes.now) }
    ensures others { SameElsewhere name.now (files_of files.old) (files_of files.new) }
    ensures unchanged { OnErr result (files_of files.new ≡ files_of files.old) }
{
    let name = String::from_str(alloc, name)?;
    let bytes = bytes.to_vec(alloc)?;
    files.insert(name, bytes)?;
    Ok(())
}
