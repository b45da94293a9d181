ghost use Rattle.std.specs.Prelude.{◌≡◌};
ghost use Rattle.std.specs.Int.{w16};
ghost use Rattle.group_fields.specs.LayoutReads.{Takes};
ghost use Rattle.group_fields.specs.Layouts.{bytes_of, counted, number};
ghost use Rattle.wire_codec.specs.Packets.{greatest_size, text};
ghost use Rattle.wire_codec.specs.Readings.{IsIn};
ghost use Rattle.wire_codec.specs.Views.{sealed_of};

use group_fields::{Cursor, FieldFault, take_bytes, take_u16};

// The most bytes of a text.
const GREATEST_TEXT: u16 = 4096;

// A sealed text and its tag, lent out of their packet.
#[derive(Debug, Drop)]
pub struct TextView<'a> {
    pub(crate) body: &'a [u8],
    pub(crate) tag: &'a [u8; 32],
}

// The bytes of a sealed text, their number before them.
fn take_sealed<'a>(cursor: &mut Cursor<'a>) -> Result<&'a [u8], FieldFault>
    requires { IsIn greatest_size cursor.old }
    ensures { Takes (λ bytes. bytes.now) (counted (number w16 0 4096) bytes_of) cursor.old cursor.new result }
{
    let size = take_u16(cursor, 0, GREATEST_TEXT)?;
    let bytes = take_bytes(cursor, size as usize)?;
    Ok(bytes)
}

// A sealed text, and its tag.
#[tactic(auto, unfolding(crate::specs::Packets::text, group_fields::specs::Layouts::bytes_of, group_fields::specs::LayoutReads::read))]
pub(crate) fn take_text<'a>(cursor: &mut Cursor<'a>) -> Result<TextView<'a>, FieldFault>
    requires { IsIn greatest_size cursor.old }
    ensures { Takes sealed_of text cursor.old cursor.new result }
{
    let body = take_sealed(cursor)?;
    let tag = take_bytes(cursor, 32)?;
    Ok(TextView {
        body,
        tag: tag.as_array().unwrap(),
    })
}
