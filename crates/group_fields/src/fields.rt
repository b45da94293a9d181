// Readers and writers of one field each.

ghost use Rattle.std.specs.Prelude.{◌≡◌, ◌<◌, ◌≤◌, ◌+◌, ◌*◌, ◌^◌, length, take, IfOk, OnOk, None, Some};
ghost use Rattle.std.specs.Int.{w8, w16, w32};
ghost use Rattle.group_fields.specs.Fields.{is_above, is_between};
ghost use Rattle.group_fields.specs.Ids.{ids_in};
ghost use Rattle.group_fields.specs.LayoutReads.{Takes, ended, left};
ghost use Rattle.group_fields.specs.Layouts.{bytes_of, counted_ids, digest, ids_above, known, next_id, number};

use crate::cursor::Cursor;
use crate::fault::FieldFault;
use crate::ids::Digest;
use crate::ids_view::IdsView;

/// The next so many bytes, whatever they are.
#[tactic(auto, unfolding(crate::specs::Layouts::bytes_of, crate::specs::LayoutReads::read, crate::specs::LayoutReads::read_field))]
pub fn take_bytes<'a>(cursor: &mut Cursor<'a>, count: usize) -> Result<&'a [u8], FieldFault>
    requires { cursor.old.place < 2 ^ 32 }
    ensures takes { Takes (λ bytes. bytes.now) (bytes_of count) cursor.old cursor.new result }
    ensures size { IfOk result (λ bytes. length bytes.now ≡ count) }
    ensures first { IfOk result (λ bytes. bytes.now ≡ take count (left cursor.old)) }
    ensures moved { OnOk result (cursor.new.place ≡ cursor.old.place + count) }
{
    let place = cursor.place() as u32;
    cursor.take(count).ok_or(FieldFault::Short(place))
}

/// These bytes and no others.
pub fn take_known(cursor: &mut Cursor<'_>, wanted: &[u8]) -> Result<(), FieldFault>
    requires { cursor.old.place < 2 ^ 32 }
    ensures takes { Takes (λ _. tt) (known wanted.now) cursor.old cursor.new result }
    ensures moved { OnOk result (cursor.new.place ≡ cursor.old.place + length wanted.now) }
{
    let place = cursor.place() as u32;
    let bytes = take_bytes(cursor, wanted.len())?;
    if bytes != wanted {
        return Err(FieldFault::Range(place));
    }
    Ok(())
}

// Whether a number is allowed.
fn is_between(least: u32, greatest: u32, number: u32) -> bool
    ensures { result ≡ is_between least greatest number }
{
    least <= number && number <= greatest
}

/// A number of one byte, from the least to the greatest.
pub fn take_u8(cursor: &mut Cursor<'_>, least: u8, greatest: u8) -> Result<u8, FieldFault>
    requires { cursor.old.place < 2 ^ 32 }
    ensures takes { Takes (λ n. n) (number w8 least greatest) cursor.old cursor.new result }
    ensures moved { OnOk result (cursor.new.place ≡ cursor.old.place + 1) }
{
    let place = cursor.place() as u32;
    let bytes = take_bytes(cursor, 1)?;
    let number = bytes[0];
    if is_between(least as u32, greatest as u32, number as u32) {
        Ok(number)
    } else {
        Err(FieldFault::Range(place))
    }
}

/// A number of two bytes, its high byte first, from the least to the greatest.
pub fn take_u16(cursor: &mut Cursor<'_>, least: u16, greatest: u16) -> Result<u16, FieldFault>
    requires { cursor.old.place < 2 ^ 32 }
    ensures takes { Takes (λ n. n) (number w16 least greatest) cursor.old cursor.new result }
    ensures moved { OnOk result (cursor.new.place ≡ cursor.old.place + 2) }
{
    let place = cursor.place() as u32;
    let bytes = take_bytes(cursor, 2)?;
    let high = bytes[0];
    let low = bytes[1];
    let number = u16::from_be_bytes([high, low]);
    if is_between(least as u32, greatest as u32, number as u32) {
        Ok(number)
    } else {
        Err(FieldFault::Range(place))
    }
}

/// A number of four bytes, its high byte first, from the least to the greatest.
pub fn take_u32(cursor: &mut Cursor<'_>, least: u32, greatest: u32) -> Result<u32, FieldFault>
    requires { cursor.old.place < 2 ^ 32 }
    ensures takes { Takes (λ n. n) (number w32 least greatest) cursor.old cursor.new result }
    ensures moved { OnOk result (cursor.new.place ≡ cursor.old.place + 4) }
{
    let place = cursor.place() as u32;
    let bytes = take_bytes(cursor, 4)?;
    let first = bytes[0];
    let second = bytes[1];
    let third = bytes[2];
    let fourth = bytes[3];
    let number = u32::from_be_bytes([first, second, third, fourth]);
    if is_between(least, greatest, number) {
        Ok(number)
    } else {
        Err(FieldFault::Range(place))
    }
}

/// A digest.
pub fn take_digest(cursor: &mut Cursor<'_>) -> Result<Digest, FieldFault>
    requires { cursor.old.place < 2 ^ 32 }
    ensures takes { Takes (λ id. id) digest cursor.old cursor.new result }
    ensures moved { OnOk result (cursor.new.place ≡ cursor.old.place + 32) }
{
    let bytes = take_bytes(cursor, 32)?;
    let mut id = [0; 32];
    id.copy_from_slice(bytes);
    Ok(Digest(id))
}

// Whether an id may stand behind the one before it.
pub(crate) fn is_above(last: Option<Digest>, bytes: &[u8]) -> bool
    ensures { result ≡ is_above last bytes.now }
{
    match last {
        None => true,
        Some(last) => last.0.as_slice().cmp(bytes).is_lt(),
    }
}

/// An id above the one before it.
pub fn take_next_id(cursor: &mut Cursor<'_>, last: Option<Digest>) -> Result<Digest, FieldFault>
    requires { cursor.old.place < 2 ^ 32 }
    ensures takes { Takes (λ id. id) (next_id last) cursor.old cursor.new result }
    ensures first { IfOk result (λ id. id.0 ≡ take 32 (left cursor.old)) }
    ensures moved { OnOk result (cursor.new.place ≡ cursor.old.place + 32) }
{
    let place = cursor.place() as u32;
    let bytes = take_bytes(cursor, 32)?;
    if is_above(last, bytes) {
        let mut id = [0; 32];
        id.copy_from_slice(bytes);
        Ok(Digest(id))
    } else {
        Err(FieldFault::Range(place))
    }
}

// Passes so many ids, each above the one before it.
fn pass_ids(cursor: &mut Cursor<'_>, count: u8, last: Option<Digest>) -> Result<(), FieldFault>
    requires within { cursor.old.place ≤ length cursor.old.whole }
    requires room { cursor.old.place + 32 * count < 2 ^ 32 }
    ensures takes { Takes (λ _. ids_in count (left cursor.old)) (ids_above count last) cursor.old cursor.new result }
    ensures moved { OnOk result (cursor.new.place ≡ cursor.old.place + 32 * count) }
{
    if count == 0 {
        return Ok(());
    }
    let id = take_next_id(cursor, last)?;
    pass_ids(cursor, count - 1, Some(id))
}

/// So many ids, each above the one before it.
pub fn take_ids<'a>(cursor: &mut Cursor<'a>, count: u8) -> Result<IdsView<'a>, FieldFault>
    requires { cursor.old.place < 2 ^ 31 }
    ensures takes { Takes (λ ids. ids) (ids_above count None) cursor.old cursor.new result }
    ensures count { IfOk result (λ ids. length ids ≡ count) }
    ensures moved { OnOk result (cursor.new.place ≡ cursor.old.place + 32 * count) }
{
    let from = cursor.place();
    pass_ids(cursor, count, None)?;
    let _end = cursor.place();
    Ok(IdsView::new(cursor.since(from), u32::from(count)))
}

/// A count of one byte, from the least to the greatest, and so many ids, each above the one before it.
pub fn take_counted_ids<'a>(
    cursor: &mut Cursor<'a>,
    least: u8,
    greatest: u8,
) -> Result<IdsView<'a>, FieldFault>
    requires { cursor.old.place < 2 ^ 30 }
    ensures takes { Takes (λ ids. ids) (counted_ids least greatest) cursor.old cursor.new result }
    ensures few { IfOk result (λ ids. length ids ≤ greatest) }
    ensures moved { IfOk result (λ ids. cursor.new.place ≡ cursor.old.place + (1 + 32 * length ids)) }
{
    let count = take_u8(cursor, least, greatest)?;
    let ids = take_ids(cursor, count)?;
    Ok(ids)
}

/// Nothing is left behind the last field.
pub fn end(cursor: &mut Cursor<'_>) -> Result<(), FieldFault>
    requires { cursor.old.place < 2 ^ 32 }
    ensures { result ≡ ended tt cursor.old.place (left cursor.old) }
{
    let place = cursor.place() as u32;
    match cursor.take(1) {
        None => Ok(()),
        Some(_) => Err(FieldFault::Excess(place)),
    }
}
