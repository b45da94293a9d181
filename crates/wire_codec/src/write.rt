ghost use Rattle.std.specs.Prelude.{◌≡◌, ◌<◌, ◌≤◌, ◌^◌, length, IfOk};
ghost use Rattle.wire_codec.specs.Packets.{AreOf, IsPacket, Packet, greatest_size, joined};

use crate::packet::MAGIC;
use group_fields::{Bytes, Memory, append_bytes, append_u16, append_u32};
use std::alloc::Global;

/// Joins a packet of the bytes of its header, of its body and of its signature. Where they are those of a packet, and
/// not too long together, these bytes are its spelling.
pub fn write_packet(
    alloc: Global,
    header: &[u8],
    body: &[u8],
    signature: &[u8],
) -> Result<Bytes, Memory>
    requires header { length header.now < 2 ^ 16 }
    requires body { length body.now < 2 ^ 32 }
    ensures joined { IfOk result (λ bytes. bytes ≡ joined header.now body.now signature.now) }
    ensures packet { IfOk result (λ bytes. (packet : Packet) → AreOf packet header.now body.now signature.now
        → length bytes ≤ greatest_size → IsPacket packet bytes) }
{
    let mut bytes = Vec::new(alloc);
    append_bytes(&mut bytes, &MAGIC)?;
    append_bytes(&mut bytes, &(header.len() as u16).to_be_bytes())?;
    append_bytes(&mut bytes, header)?;
    append_bytes(&mut bytes, &(body.len() as u32).to_be_bytes())?;
    append_bytes(&mut bytes, body)?;
    append_bytes(&mut bytes, signature)?;
    Ok(Bytes::from(bytes))
}
