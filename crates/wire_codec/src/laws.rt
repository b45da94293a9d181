ghost use Rattle.std.specs.Prelude.{◌≡◌, ◌<◌, ◌≤◌, ◌^◌, ℕ, List, length};
ghost use Rattle.wire_codec.specs.Order.{IsJoined, IsInOrder, SuitsHeader};
ghost use Rattle.wire_codec.specs.Packets.{AreOf, IsMalformed, IsPacket, Packet, greatest_size, joined};

/// The law of spellings: bytes spell one packet at most, a packet has one spelling, and bytes that spell one are not
/// refused at any place.
#[tactic(auto, using(crate::proofs::Joins::one_packet, crate::proofs::Joins::one_packet_spelling))]
pub fn packets_are_spelled_once()
    ensures one_packet { (bytes : List ℕ) (a b : Packet) → IsPacket a bytes → IsPacket b bytes → a ≡ b }
    ensures one_spelling { (packet : Packet) (a b : List ℕ) → IsPacket packet a → IsPacket packet b → a ≡ b }
    ensures never_both { (packet : Packet) (bytes : List ℕ) (place : ℕ) → IsPacket packet bytes
        → IsMalformed bytes place → ⊥ }
{}

/// The law of joining: a packet is joined of the bytes of its header, of its body and of its signature, and where bytes
/// are those of a packet, and not too long together, they are joined to it.
#[tactic(auto, using(crate::proofs::Joins::apart, crate::proofs::Joins::together))]
pub fn packets_are_joined()
    ensures apart { (packet : Packet) (bytes : List ℕ) → IsPacket packet bytes → IsJoined packet bytes }
    ensures together { (packet : Packet) (head carried signed : List ℕ) → AreOf packet head carried signed
        → length head < 2 ^ 16 → length (joined head carried signed) ≤ greatest_size
        → IsPacket packet (joined head carried signed) }
{}

/// The law of order: the parts of a packet ascend by the ids of their members, and so do the cards of a history by
/// theirs; there are at most 31 parts, 32 cards and 4,095 headers; and what a packet carries suits its header.
#[tactic(auto, using(crate::proofs::Joins::in_order, crate::proofs::Joins::suits_header))]
pub fn packets_are_in_order()
    ensures order { (packet : Packet) (bytes : List ℕ) → IsPacket packet bytes → IsInOrder packet }
    ensures suits { (packet : Packet) (bytes : List ℕ) → IsPacket packet bytes → SuitsHeader packet }
{}
