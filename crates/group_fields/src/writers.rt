// Writers of one field each, which append to a byte string.

ghost use Rattle.std.specs.Prelude.{◌≡◌, ◌<◌, ◌++◌, ◌^◌, ℕ, true, length, take, None, Option, OnErr, OnOk};
ghost use Rattle.std.specs.Int.{w8, w16, w32};
ghost use Rattle.group_fields.specs.Fields.{is_above, is_between};
ghost use Rattle.group_fields.specs.LayoutWrites.{Appends, ascends};
ghost use Rattle.group_fields.specs.Layouts.{bytes_of, counted_ids, digest, ids_above, known, next_id, number};
ghost use Rattle.group_fields.specs.declared.ids.Digest.{Digest};

use crate::Memory;
use crate::fields::is_above;
use crate::ids::Digest;

/// Appends bytes, whatever they are. Without memory nothing is appended.
pub fn append_bytes(bytes: &mut Vec<u8>, part: &[u8]) -> Result<(), Memory>
    ensures appends { OnOk result
        (Appends (bytes_of (length part.now)) part.now bytes.old.items bytes.new.items) }
    ensures plain { OnOk result (bytes.new.items ≡ bytes.old.items ++ part.now) }
    ensures same { OnErr result (bytes.new.items ≡ bytes.old.items) }
{
    bytes.extend_from_slice(part)
}

/// Appends bytes that a format wants at their place. Without memory nothing is appended.
pub fn append_known(bytes: &mut Vec<u8>, wanted: &[u8]) -> Result<(), Memory>
    ensures appends { OnOk result (Appends (known wanted.now) tt bytes.old.items bytes.new.items) }
    ensures same { OnErr result (bytes.new.items ≡ bytes.old.items) }
{
    bytes.extend_from_slice(wanted)
}

/// Appends a number of one byte. Without memory nothing is appended.
pub fn append_u8(bytes: &mut Vec<u8>, value: u8) -> Result<(), Memory>
    ensures appends { OnOk result ((least greatest : ℕ) → is_between least greatest value ≡ true
        → Appends (number w8 least greatest) value bytes.old.items bytes.new.items) }
    ensures same { OnErr result (bytes.new.items ≡ bytes.old.items) }
{
    bytes.extend_from_slice(&value.to_be_bytes())
}

/// Appends a number of two bytes, its high byte first. Without memory nothing is appended.
pub fn append_u16(bytes: &mut Vec<u8>, value: u16) -> Result<(), Memory>
    ensures appends { OnOk result ((least greatest : ℕ) → is_between least greatest value ≡ true
        → Appends (number w16 least greatest) value bytes.old.items bytes.new.items) }
    ensures same { OnErr result (bytes.new.items ≡ bytes.old.items) }
{
    bytes.extend_from_slice(&value.to_be_bytes())
}

/// Appends a number of four bytes, its high byte first. Without memory nothing is appended.
pub fn append_u32(bytes: &mut Vec<u8>, value: u32) -> Result<(), Memory>
    ensures appends { OnOk result ((least greatest : ℕ) → is_between least greatest value ≡ true
        → Appends (number w32 least greatest) value bytes.old.items bytes.new.items) }
    ensures same { OnErr result (bytes.new.items ≡ bytes.old.items) }
{
    bytes.extend_from_slice(&value.to_be_bytes())
}

/// Appends a digest, which may be an id above others. Without memory nothing is appended.
pub fn append_digest(bytes: &mut Vec<u8>, id: Digest) -> Result<(), Memory>
    ensures appends { OnOk result (Appends digest id bytes.old.items bytes.new.items) }
    ensures above { OnOk result ((last : Option Digest) → is_above last id.0 ≡ true
        → Appends (next_id last) id bytes.old.items bytes.new.items) }
    ensures same { OnErr result (bytes.new.items ≡ bytes.old.items) }
{
    bytes.extend_from_slice(&id.0)
}

/// Whether each id is above the one before it, which `append_ids` asks for.
pub fn is_ascending(ids: &[Digest]) -> bool
    ensures { result ≡ ascends None ids.now }
{
    ascends(None, ids)
}

// Whether each id is above the one before it.
fn ascends(last: Option<Digest>, ids: &[Digest]) -> bool
    ensures { result ≡ ascends last ids.now }
{
    match ids {
        [] => true,
        [id, others @ ..] => is_above(last, &id.0) && ascends(Some(*id), others),
    }
}

// Takes back what stands behind a length, where the rest of it could not be appended.
fn all_or_none(
    bytes: &mut Vec<u8>,
    before: usize,
    appended: Result<(), Memory>,
) -> Result<(), Memory>
    ensures answer { result ≡ appended }
    ensures all { OnOk appended (bytes.new.items ≡ bytes.old.items) }
    ensures none { OnErr appended (bytes.new.items ≡ take before bytes.old.items) }
{
    if appended.is_err() {
        bytes.truncate(before);
    }
    appended
}

// Appends ids, each above the one before it.
fn append_ids_above(bytes: &mut Vec<u8>, ids: &[Digest], last: Option<Digest>) -> Result<(), Memory>
    requires { ascends last ids.now ≡ true }
    ensures appends { OnOk result
        (Appends (ids_above (length ids.now) last) ids.now bytes.old.items bytes.new.items) }
    ensures same { OnErr result (bytes.new.items ≡ bytes.old.items) }
{
    let [id, others @ ..] = ids else {
        return Ok(());
    };
    let before = bytes.len();
    append_digest(bytes, *id)?;
    let appended = append_ids_above(bytes, others, Some(*id));
    all_or_none(bytes, before, appended)
}

/// Appends ids, each of which has to be above the one before it (`is_ascending`). Without memory nothing is appended.
pub fn append_ids(bytes: &mut Vec<u8>, ids: &[Digest]) -> Result<(), Memory>
    requires { ascends None ids.now ≡ true }
    ensures appends { OnOk result
        (Appends (ids_above (length ids.now) None) ids.now bytes.old.items bytes.new.items) }
    ensures same { OnErr result (bytes.new.items ≡ bytes.old.items) }
{
    append_ids_above(bytes, ids, None)
}

/// Appends a count of one byte and so many ids, each of which has to be above the one before it (`is_ascending`).
/// Without memory nothing is appended.
pub fn append_counted_ids(bytes: &mut Vec<u8>, ids: &[Digest]) -> Result<(), Memory>
    requires few { length ids.now < 2 ^ 8 }
    requires ascend { ascends None ids.now ≡ true }
    ensures appends { OnOk result ((least greatest : ℕ) → is_between least greatest (length ids.now) ≡ true
        → Appends (counted_ids least greatest) ids.now bytes.old.items bytes.new.items) }
    ensures same { OnErr result (bytes.new.items ≡ bytes.old.items) }
{
    let before = bytes.len();
    append_u8(bytes, ids.len() as u8)?;
    let appended = append_ids(bytes, ids);
    all_or_none(bytes, before, appended)
}
