ghost use Rattle.std.specs.Prelude.{◌≡◌};
ghost use Rattle.group_fields.specs.Cards.{least_lms_type};
ghost use Rattle.group_fields.specs.LayoutReads.{Takes};
ghost use Rattle.wire_codec.specs.Packets.{greatest_size, path_size, signature};
ghost use Rattle.wire_codec.specs.Readings.{IsIn};

use group_fields::{Cursor, FieldFault, take_bytes, take_known, take_u32};

// The one-time type of each signature, and the greatest LMS type.
const ONE_TIME_TYPE: [u8; 4] = [0, 0, 0, 3];

const GREATEST_LMS_TYPE: u32 = 6;

// The bytes of the chains of a one-time signature.
const CHAINS_SIZE: usize = 2144;

// The least of the LMS types of a set.
fn least_lms_type(set: u8) -> u32
    ensures { result ≡ least_lms_type set }
{
    if set == 1 { 6 } else { 5 }
}

// The bytes of a path in a tree of a type.
fn path_size(lms_type: u32) -> usize
    ensures { result ≡ path_size lms_type }
{
    if lms_type == 5 { 160 } else { 320 }
}

// The bytes of a signature of a set.
#[tactic(auto, using(group_fields::proofs::ReadSteps::since_is), unfolding(crate::specs::Packets::signature, group_fields::specs::LayoutReads::read))]
pub(crate) fn take_signature<'a>(cursor: &mut Cursor<'a>, set: u8) -> Result<&'a [u8], FieldFault>
    requires { IsIn greatest_size cursor.old }
    ensures { Takes (λ bytes. bytes.now) (signature set) cursor.old cursor.new result }
{
    let from = cursor.place();
    take_bytes(cursor, 4)?;
    take_known(cursor, &ONE_TIME_TYPE)?;
    take_bytes(cursor, 32)?;
    take_bytes(cursor, CHAINS_SIZE)?;
    let lms_type = take_u32(cursor, least_lms_type(set), GREATEST_LMS_TYPE)?;
    take_bytes(cursor, path_size(lms_type))?;
    let _end = cursor.place();
    Ok(cursor.since(from))
}
