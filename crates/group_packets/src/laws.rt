//! Laws of packets as the model's. Each function does nothing; its contract is the law.

ghost use Rattle.std.specs.Prelude.{◌≡◌, ◌<◌, ◌≤◌, ◌^◌, ℕ, List, length, map, slice_get, Some};
ghost use Rattle.group_model.specs.Packets.{Addressed, Packet};
ghost use Rattle.group_model.specs.Sets.{Bytes};
ghost use Rattle.group_packets.specs.Packets.{AreOfPacket, AreSized, addressed_of, packet_of, part_written};
ghost use Rattle.group_model.specs.Pairing.{Part};
ghost use Rattle.group_parts.specs.Parts.{IsSized, part_bytes, part_read};
ghost use Rattle.wire_codec.specs.Packets.{AddressedPart, AreOf, IsPacket, Packet as WrittenPacket, greatest_size};
ghost use Rattle.wire_codec.specs.Packets.{joined, part};
ghost use Rattle.group_fields.specs.Layouts.{Spells};

use group_parts::parts_are_spelled;
use kem_trait::Kem;
use wire_codec::{packets_are_joined, packets_are_spelled_once};

/// Bytes are those of one packet of the model at most.
pub fn packets_are_of_one<K: Kem>()
    ensures { (bytes : Bytes) (a b : Packet) → AreOfPacket ⟦<K as Kem>⟧ a bytes → AreOfPacket ⟦<K as Kem>⟧ b bytes
        → a ≡ b }
{
    packets_are_spelled_once();
}

/// What is joined reads back: where bytes are those of a packet's header, body and signature, and not too long together,
/// what is joined of them is the bytes of that packet of the model; and parts that are written, each with the sizes of
/// its fields, are read as they were.
pub fn packets_read_back<K: Kem>()
    ensures joined { (packet : WrittenPacket) (head carried signed : Bytes) → AreOf packet head carried signed
        → length head < 2 ^ 16 → length (joined head carried signed) ≤ greatest_size
        → AreOfPacket ⟦<K as Kem>⟧ (packet_of ⟦<K as Kem>⟧ packet) (joined head carried signed) }
    ensures parts { (parts : List Addressed) → AreSized ⟦<K as Kem>⟧ parts
        → map (addressed_of ⟦<K as Kem>⟧) (map (part_written ⟦<K as Kem>⟧) parts) ≡ parts }
{
    packets_are_joined();
    parts_are_spelled::<K>();
}

/// The bytes of a part whose fields have their sizes are those of a part of this set.
pub fn parts_are_written<K: Kem>()
    ensures { (one : Part) → IsSized ⟦<K as Kem>⟧ one
        → Spells (part K.SET) (part_bytes ⟦<K as Kem>⟧ one) (part_bytes ⟦<K as Kem>⟧ one) }
{}

/// Each part of a packet of this set reads as a part.
pub fn parts_are_read<K: Kem>()
    ensures { (packet : WrittenPacket) (bytes : Bytes) (index : ℕ) (one : AddressedPart) → IsPacket packet bytes
        → packet.header.set ≡ K.SET → slice_get packet.parts index ≡ Some one
        → part_read ⟦<K as Kem>⟧ one.bytes ≡ Some (addressed_of ⟦<K as Kem>⟧ one).part }
{
    packets_are_joined();
    parts_are_spelled::<K>();
}
