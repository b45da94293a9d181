//! The law of plans. The function does nothing; its contract is the law.

ghost use Rattle.std.specs.Prelude.{◌≡◌, ℕ, Bool, List};
ghost use Rattle.group_keys.specs.Primitives.{primitives_of};
ghost use Rattle.group_messages.specs.Messages.{message_of};
ghost use Rattle.group_model.specs.Sets.{Bytes, Id};
ghost use Rattle.group_model.specs.Membership.{IsMembershipRule};
ghost use Rattle.group_model.specs.Messages.{History, Message};
ghost use Rattle.two_party.specs.Drawn.{Drawn};
ghost use Rattle.wire_codec.specs.Packets.{Packet as ReadPacket};
ghost use Rattle.forwarding.specs.Answers.{IsAnswerOf};
ghost use Rattle.reference_member.specs.Accepted.{DrawsForAnswer, part_is_there, with_taken};
ghost use Rattle.reference_member.specs.Members.{Member, known};
ghost use Rattle.member_answers.specs.Plans.{IsPlanned, answer_to};

use kem_trait::Kem;

/// Where an answer was planned as if the operation's part opened, the step's random bytes give usable keys for each of
/// those whom the answer would have a part for then, whether that part does open or not.
pub fn planned_answers_are_drawn<K: Kem>()
    ensures { (rule : History → List Id) → IsMembershipRule rule → (packet : ReadPacket) (M : Member) (place : ℕ)
        (me : Id) (random : Bytes) (bits : ℕ → Bool) (drawn : List Drawn)
        → IsPlanned (primitives_of ⟦<K as Kem>⟧) rule (known (with_taken ⟦<K as Kem>⟧ packet M)) place me
        (message_of packet.header) (part_is_there ⟦<K as Kem>⟧ packet M) random bits drawn
        → (a : Message) (opened : Bool) → IsAnswerOf (known (with_taken ⟦<K as Kem>⟧ packet M)) place a
        → a.kind ≡ answer_to me (message_of packet.header) opened
        → DrawsForAnswer ⟦<K as Kem>⟧ rule random packet M a }
{}
