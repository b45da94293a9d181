//! Laws of parts that are made. Each function does nothing; its contract is the law.

ghost use Rattle.std.specs.Prelude.{ℕ, Bool, List, [], ◌∷◌};
ghost use Rattle.group_fields.specs.Layouts.{Spells};
ghost use Rattle.wire_codec.specs.Packets.{part};
ghost use Rattle.group_model.specs.Sets.{Bytes, Id, In};
ghost use Rattle.group_model.specs.Marks.{IsCrowd};
ghost use Rattle.group_model.specs.Membership.{AreAddressees, IsAddressee};
ghost use Rattle.group_model.specs.Messages.{History, Message};
ghost use Rattle.two_party.specs.Drawn.{Drawn};
ghost use Rattle.secret_book.specs.HeldBooks.{HeldBook};
ghost use Rattle.body_parts.specs.declared.addressing.Receiver.{Receiver};
ghost use Rattle.body_parts.specs.Receivers.{AreReceivers, ids_to};
ghost use Rattle.body_parts.specs.Sending.{AreMadeFor, IsSealedFor};

use book_standing::calls_stand;
use group_packets::parts_are_written;
use group_parts::parts_are_spelled;
use kem_trait::Kem;
use member_book::laws::{a_state_serves_a_pairing, places_serve};
use secret_book::a_book_serves_places;

/// What was sealed for a receiver is a part of the set, and it is the part that the owner of the book sends.
pub(crate) fn parts_are_the_models<K: Kem>()
    ensures spelled { (r : Receiver) (payload : Bytes) (drawn : List Drawn) (before after : HeldBook) (bytes : Bytes)
        → IsSealedFor ⟦<K as Kem>⟧ r payload drawn before after bytes → Spells (part K.SET) bytes bytes }
    ensures made { (r : Receiver) (payload : Bytes) (drawn : List Drawn) (before after : HeldBook) (bytes : Bytes)
        → IsSealedFor ⟦<K as Kem>⟧ r payload drawn before after bytes
        → AreMadeFor ⟦<K as Kem>⟧ (r ∷ []) payload drawn before after (record { to = r.member; bytes = bytes } ∷ []) }
{
    calls_stand::<K>();
    places_serve();
    a_book_serves_places();
    a_state_serves_a_pairing();
    parts_are_spelled::<K>();
    parts_are_written::<K>();
}

/// The receivers of a message's crowd are its addressees, where each of these has its place.
pub fn receivers_are_addressees()
    ensures { (rule : History → List Id) (h : History) (m : Message) (ids : List Id) (bits : ℕ → Bool)
        (to : List Receiver) → AreReceivers ids bits to → IsCrowd ids bits (λ y. IsAddressee rule h m m.kind y)
        → ((y : Id) → IsAddressee rule h m m.kind y → In y ids) → AreAddressees rule h m (ids_to to) }
{}
