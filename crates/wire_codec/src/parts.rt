ghost use Rattle.std.specs.Prelude.{◌≡◌, ◌<◌, ◌+◌, Some, None, length, slice_get, IfOk};
ghost use Rattle.group_fields.specs.LayoutReads.{Takes};
ghost use Rattle.wire_codec.specs.Packets.{addressed, ciphertext_size, greatest_size, part, part_size, parts};
ghost use Rattle.wire_codec.specs.Packets.{parts_above, sealed_size};
ghost use Rattle.wire_codec.specs.Readings.{IsIn, Passes, addressed_of};

use group_fields::{Cursor, Digest, FieldFault, MemberId, take_bytes, take_next_id, take_u8};
use std::marker::Model;

// Parts that are lent out of the bytes in which they stand, each behind the id of its member.
#[derive(Debug, Drop)]
pub struct PartsView<'a> {
    bytes: &'a [u8],
    set: u8,
    count: u8,
}

impl<'a> Model for PartsView<'a> {
    ghost use Rattle.std.specs.Prelude.{List, None};
    ghost use Rattle.wire_codec.specs.Packets.{AddressedPart, addressed};
    ghost use Rattle.wire_codec.specs.Repeated.{SpellsItems, items_in};

    ghost Value = { List AddressedPart };

    ghost view = { λ parts. items_in (addressed parts.set None) parts.count parts.bytes.now };

    ghost invariant = { λ parts. SpellsItems (addressed parts.set None) parts.count parts.bytes.now };
}

impl<'a> PartsView<'a> {
    // How many there are.
    pub(crate) fn count(&self) -> u8
        ensures { result ≡ length self.now }
    {
        self.count
    }

    // The part at an index below the count, and the member that it is for.
    pub(crate) fn part(&self, index: u8) -> (MemberId, &'a [u8])
        requires { index < length self.now }
        ensures { slice_get self.now index ≡ Some (record { to = result.0; bytes = result.1.now }) }
    {
        let size = part_size(self.set);
        let from = index as usize * (32 + size);
        let mut id = [0; 32];
        id.copy_from_slice(&self.bytes[from..from + 32]);
        (
            MemberId(Digest(id)),
            &self.bytes[from + 32..from + 32 + size],
        )
    }
}

fn ciphertext_size(set: u8) -> usize
    ensures { result ≡ ciphertext_size set }
{
    if set == 1 { 1039 } else { 58 }
}

fn sealed_size(set: u8) -> usize
    ensures { result ≡ sealed_size set }
{
    if set == 1 { 2957 } else { 164 }
}

// The bytes of a part of a set.
fn part_size(set: u8) -> usize
    ensures { result ≡ part_size set }
{
    37 + (ciphertext_size(set) + sealed_size(set))
}

// A part.
#[tactic(auto, using(group_fields::proofs::ReadSteps::since_is), unfolding(crate::specs::Packets::part, group_fields::specs::LayoutReads::read))]
pub(crate) fn take_part<'a>(cursor: &mut Cursor<'a>, set: u8) -> Result<&'a [u8], FieldFault>
    requires { IsIn greatest_size cursor.old }
    ensures { Takes (λ bytes. bytes.now) (part set) cursor.old cursor.new result }
{
    let from = cursor.place();
    take_u8(cursor, 0, 1)?;
    take_bytes(cursor, 4)?;
    take_bytes(cursor, ciphertext_size(set))?;
    take_bytes(cursor, sealed_size(set))?;
    take_bytes(cursor, 32)?;
    let _end = cursor.place();
    Ok(cursor.since(from))
}

// An id above the one before it, and the part for that member.
#[tactic(auto, unfolding(crate::specs::Packets::addressed, group_fields::specs::LayoutReads::read))]
fn take_addressed<'a>(
    cursor: &mut Cursor<'a>,
    set: u8,
    last: Option<Digest>,
) -> Result<(Digest, &'a [u8]), FieldFault>
    requires { IsIn greatest_size cursor.old }
    ensures { Takes addressed_of (addressed set last) cursor.old cursor.new result }
{
    let id = take_next_id(cursor, last)?;
    let bytes = take_part(cursor, set)?;
    Ok((id, bytes))
}

// Passes so many parts, each for a member with an id above the one before it.
fn pass_parts(
    cursor: &mut Cursor<'_>,
    set: u8,
    count: u8,
    last: Option<Digest>,
) -> Result<(), FieldFault>
    requires { IsIn greatest_size cursor.old }
    ensures { Passes (parts_above set count last) cursor.old cursor.new result }
{
    if count == 0 {
        return Ok(());
    }
    let one = take_addressed(cursor, set, last)?;
    pass_parts(cursor, set, count - 1, Some(one.0))
}

// So many parts, each for a member with an id above the one before it.
fn take_parts_above<'a>(
    cursor: &mut Cursor<'a>,
    set: u8,
    count: u8,
) -> Result<PartsView<'a>, FieldFault>
    requires { IsIn greatest_size cursor.old }
    ensures takes { Takes (λ parts. parts) (parts_above set count None) cursor.old cursor.new result }
    ensures count { IfOk result (λ parts. length parts ≡ count) }
{
    let from = cursor.place();
    pass_parts(cursor, set, count, None)?;
    let _end = cursor.place();
    Ok(PartsView {
        bytes: cursor.since(from),
        set,
        count,
    })
}

// A count up to the greatest, and so many parts.
pub(crate) fn take_parts<'a>(
    cursor: &mut Cursor<'a>,
    set: u8,
    greatest: u8,
) -> Result<PartsView<'a>, FieldFault>
    requires { IsIn greatest_size cursor.old }
    ensures { Takes (λ parts. parts) (parts set greatest) cursor.old cursor.new result }
{
    let count = take_u8(cursor, 0, greatest)?;
    let parts = take_parts_above(cursor, set, count)?;
    Ok(parts)
}
