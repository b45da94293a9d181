//! Laws of messages that are made next. Each function does nothing; its contract is the law.

ghost use Rattle.std.specs.Prelude.{◌≡◌, ℕ, ◌<◌, Bool, true, false, List, ◌∷◌, ◌++◌, Some, length, map};
ghost use Rattle.sha2.specs.Sha256.{sha256};
ghost use Rattle.group_fields.specs.Cards.{card_id};
ghost use Rattle.group_fields.specs.declared.card.Card.{Card};
ghost use Rattle.group_fields.specs.declared.header.Header.{Header};
ghost use Rattle.group_fields.specs.declared.header.Kind.{Kind};
ghost use Rattle.group_fields.specs.declared.header.Target.{Target};
ghost use Rattle.group_model.specs.Sets.{Bytes, Id, In};
ghost use Rattle.group_model.specs.Logs.{hist};
ghost use Rattle.group_model.specs.Messages.{Ack, History, Kind as MessageKind};
ghost use Rattle.group_fields.specs.declared.ids.Digest.{Digest};
ghost use Rattle.group_model.specs.Membership.{AreAddressees, IsMembershipRule, IsSeeded, ids_named};
ghost use Rattle.group_model.specs.Marks.{IsPlace};
ghost use Rattle.group_model.specs.Packets.{Given};
ghost use Rattle.group_model.specs.Parts.{part_sent, parts_of};
ghost use Rattle.group_model.specs.Settings.{Owner};
ghost use Rattle.group_keys.specs.Primitives.{primitives_of};
ghost use Rattle.group_messages.specs.Messages.{kind_of, message_of};
ghost use Rattle.group_packets.specs.Packets.{addressed_of};
ghost use Rattle.causal_history.specs.Rows.{IsKept, Row, cards_of, history_of};
ghost use Rattle.wire_codec.specs.Packets.{AddressedPart, Body};
ghost use Rattle.member_book.specs.Books.{BookState};
ghost use Rattle.member_book.specs.BooksAfter.{payload_of};
ghost use Rattle.member_book.specs.Standing.{MayStill};
ghost use Rattle.two_party.specs.Drawn.{Drawn};
ghost use Rattle.secret_book.specs.HeldBooks.{HeldBook};
ghost use Rattle.book_standing.specs.Standing.{HeldStands};
ghost use Rattle.body_parts.specs.declared.addressing.Receiver.{Receiver};
ghost use Rattle.body_parts.specs.Receivers.{ArePlaced, AreReceivers, ids_to};
ghost use Rattle.body_parts.specs.Sending.{AreDrawnFrom, AreMadeFor};
ghost use Rattle.group_ops.specs.Making.{placed_by};
ghost use Rattle.reference_member.specs.Members.{Member, known, own_id, own_pair, public_key_by};
ghost use Rattle.reference_member.specs.Messages.{IsNext, MadeMessage};
ghost use Rattle.next_messages.specs.Bodies.{HasNextBody, IsBookOf, IsSeededNext, SendsSeed};
ghost use Rattle.next_messages.specs.Due.{IsDueTo, IsNew, message_with};
ghost use Rattle.next_messages.specs.Headers.{HasNextHeader, IsNextHeader};

use body_parts::receivers_are_addressees;
use kem_trait::Kem;
use member_book::laws::the_book_carries_what_is_sent;

/// The header of the next message of the member that has these rows, this id and these random bytes is the one that the
/// reference member asks for, as far as it doesn't speak of the body.
pub fn next_headers_are_the_models<K: Kem>()
    ensures { (rule : History → List Id) (M : Member) (t : Given) (rows : List Row) (me : Id) (random : Bytes)
        (kind : Kind) (target : Target) (header : Header) → M.rows ≡ rows → own_id ⟦<K as Kem>⟧ M ≡ me
        → t.random ≡ random → IsNextHeader K.SET rows me random kind target header
        → HasNextHeader ⟦<K as Kem>⟧ rule M t kind target header }
{}

/// The receivers of the crowd that a header is due to are the addressees of its message with any body, for every
/// membership rule.
pub fn due_receivers_are_addressees()
    ensures { (rule : History → List Id) → IsMembershipRule rule → (rows : List Row) (header : Header) (bits : ℕ → Bool)
        (to : List Receiver) → IsDueTo rule rows header bits
        → AreReceivers (ids_named (message_of header ∷ history_of rows)) bits to
        → (digest : Digest) → IsNew rows (message_with header digest)
        → AreAddressees rule (message_with header digest ∷ history_of rows) (message_with header digest) (ids_to to) }
{
    receivers_are_addressees();
}

/// Parts that were made by the book of a member with what a message of the kind carries are those that the reference
/// member's next message has, where each receiver has a card. The book may have moved before, but for its pairings.
pub fn made_parts_are_the_next<K: Kem>()
    ensures { (M : Member) (cards : List Card) (O : Owner) (state : BookState)
        → IsBookOf ⟦<K as Kem>⟧ M (cards_of M.rows ++ cards) O state
        → (t : Given) (kind : MessageKind) (payload : Bytes)
        → payload_of O t kind state ≡ Some payload → (sealing : BookState) → sealing.events ≡ state.events
        → ((i : Id) → kind ≡ Ack i true → MayStill O.rule (hist M.log) i O.id)
        → (to : List Receiver) (drawn : List Drawn) (ids : List Id) (before after : HeldBook)
        (parts : List AddressedPart)
        → AreMadeFor ⟦<K as Kem>⟧ to payload drawn before after parts → HeldStands ⟦<K as Kem>⟧ O ids before sealing
        → ArePlaced ids to → AreDrawnFrom (primitives_of ⟦<K as Kem>⟧) t.random drawn (ids_to to)
        → ((y : Id) → In y (ids_to to) → In y (map card_id (cards_of M.rows ++ cards)))
        → parts_of (part_sent (primitives_of ⟦<K as Kem>⟧) (own_pair ⟦<K as Kem>⟧ M) (own_id ⟦<K as Kem>⟧ M)
        (public_key_by (cards_of M.rows ++ cards)) M.log t kind) (ids_to to)
        ≡ Some (map (addressed_of ⟦<K as Kem>⟧) parts) }
{
    the_book_carries_what_is_sent();
}

/// Who makes a message that sends a seed is not among those whom it is due to.
pub fn makers_are_left_out()
    ensures { (rule : History → List Id) (rows : List Row) (header : Header) (bits : ℕ → Bool)
        → IsDueTo rule rows header bits → IsSeeded (kind_of header) → (p : ℕ)
        → IsPlace (ids_named (message_of header ∷ history_of rows)) p header.sender.0.0 → bits p ≡ false }
{}

/// The body that the book of a member made for its next create, update or remove carries what the reference member asks
/// of it, where one of those who have places is left out.
pub fn seeded_bodies_are_the_next<K: Kem>()
    ensures { (rule : History → List Id) (M : Member) (t : Given) → IsKept M.rows → (cards : List Card) (O : Owner)
        (state : BookState) → IsBookOf ⟦<K as Kem>⟧ M (cards_of M.rows ++ cards) O state → (header : Header)
        → SendsSeed header.kind header.target cards → (bits : ℕ → Bool) (before after : HeldBook) (bytes : Bytes)
        → HeldStands ⟦<K as Kem>⟧ O (placed_by (ids_named (known M)) cards) before state
        → (p : ℕ) → p < length (placed_by (ids_named (known M)) cards) → bits p ≡ false
        → (made : IsSeededNext ⟦<K as Kem>⟧ (ids_named (known M)) cards bits t.random before after bytes)
        → (carried : Body) × HasNextBody ⟦<K as Kem>⟧ rule M t cards header (ids_to made.made.to) carried bytes }
{
    the_book_carries_what_is_sent();
}

/// A header that is the next, with the digest of its body, and a body that carries what the next does are the reference
/// member's next message, where no message before has its id.
pub fn headers_and_bodies_are_the_next<K: Kem>()
    ensures { (rule : History → List Id) (M : Member) (t : Given) (cards : List Card) (kind : Kind) (target : Target)
        (made : MadeMessage) (addressees : List Id) → HasNextHeader ⟦<K as Kem>⟧ rule M t kind target made.header
        → made.header.body.0 ≡ sha256 made.body
        → HasNextBody ⟦<K as Kem>⟧ rule M t cards made.header addressees made.carried made.body
        → AreAddressees rule (message_of made.header ∷ known M) (message_of made.header) addressees
        → IsNew M.rows (message_of made.header) → IsNext ⟦<K as Kem>⟧ rule M t cards kind target made }
{}
