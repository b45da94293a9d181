//! Laws of the bodies of answers, texts and adds. Each function does nothing; its contract is the law.

ghost use Rattle.std.specs.Prelude.{◌≡◌, ℕ, ◌<◌, ◌≤◌, Bool, true, List, [], ◌∷◌, ◌++◌, Some, length};
ghost use Rattle.group_fields.specs.Cards.{card_id};
ghost use Rattle.group_fields.specs.declared.card.Card.{Card};
ghost use Rattle.group_fields.specs.declared.header.Header.{Header};
ghost use Rattle.group_fields.specs.declared.header.Kind.TheVariants as kinds;
ghost use Rattle.group_fields.specs.declared.header.Target.TheVariants as targets;
ghost use Rattle.group_model.specs.Sets.{Bytes, Id};
ghost use Rattle.group_model.specs.Messages.{Ack, History};
ghost use Rattle.group_model.specs.Logs.{hist};
ghost use Rattle.group_model.specs.Membership.{ids_named};
ghost use Rattle.group_model.specs.Packets.{Given};
ghost use Rattle.group_model.specs.Settings.{Owner};
ghost use Rattle.group_keys.specs.Primitives.{primitives_of};
ghost use Rattle.group_messages.specs.Messages.{kind_of};
ghost use Rattle.causal_history.specs.Rows.{IsKept, cards_of};
ghost use Rattle.wire_codec.specs.Packets.{Body, id_of};
ghost use Rattle.member_book.specs.Books.{BookState};
ghost use Rattle.member_book.specs.BooksAfter.{payload_of};
ghost use Rattle.member_book.specs.Places.{id_at};
ghost use Rattle.member_book.specs.Standing.{MayStill};
ghost use Rattle.two_party.specs.Drawn.{Drawn};
ghost use Rattle.secret_book.specs.HeldBooks.{HeldBook};
ghost use Rattle.book_standing.specs.Standing.{HeldStands};
ghost use Rattle.body_parts.specs.Receivers.{ids_to};
ghost use Rattle.body_parts.specs.Sending.{AreDrawnFrom, IsPartsBody};
ghost use Rattle.app_messages.specs.Texts.{IsTextBody};
ghost use Rattle.reference_member.specs.Members.{Member, known};
ghost use Rattle.next_messages.specs.Bodies.{GivesParts, HasNextBody, IsAddNext, IsBookOf};

use book_standing::calls_stand;
use kem_trait::Kem;
use member_book::laws::the_book_carries_what_is_sent;

/// The body of parts that the book of a member made for its next ack or add-ack carries what the reference member asks
/// of it: where the parts carry what the book has for it, and where they are nobody's.
///
/// Before it seals, the book may have moved, but for its pairings.
pub fn answer_bodies_are_the_next<K: Kem>()
    ensures carries { (rule : History → List Id) (M : Member) (t : Given) → IsKept M.rows → (O : Owner)
        (state : BookState) → IsBookOf ⟦<K as Kem>⟧ M (cards_of M.rows ++ []) O state → (header : Header)
        (greatest : ℕ) → GivesParts header.kind greatest → (payload : Bytes)
        → payload_of O t (kind_of header) state ≡ Some payload
        → ((i : Id) → kind_of header ≡ Ack i true → MayStill O.rule (hist M.log) i O.id)
        → (sealing : BookState) → sealing.events ≡ state.events → (bits : ℕ → Bool) (drawn : List Drawn)
        (before after : HeldBook) (bytes : Bytes) → HeldStands ⟦<K as Kem>⟧ O (ids_named (known M)) before sealing
        → (made : IsPartsBody ⟦<K as Kem>⟧ (ids_named (known M)) bits payload drawn before after bytes)
        → length made.parts ≤ greatest
        → AreDrawnFrom (primitives_of ⟦<K as Kem>⟧) t.random drawn (ids_to made.to)
        → (carried : Body) × HasNextBody ⟦<K as Kem>⟧ rule M t [] header (ids_to made.to) carried bytes }
    ensures silent { (rule : History → List Id) (M : Member) (t : Given) (header : Header) (greatest : ℕ)
        → GivesParts header.kind greatest → (bits : ℕ → Bool) (payload : Bytes) (drawn : List Drawn)
        (before after : HeldBook) (bytes : Bytes)
        → (made : IsPartsBody ⟦<K as Kem>⟧ (ids_named (known M)) bits payload drawn before after bytes)
        → made.to ≡ [] → (carried : Body) × HasNextBody ⟦<K as Kem>⟧ rule M t [] header [] carried bytes }
{
    the_book_carries_what_is_sent();
}

/// The body of a text that was sealed with the chain of the own place carries what the reference member asks of its
/// next text.
pub fn text_bodies_are_the_next<K: Kem>()
    ensures { (rule : History → List Id) (M : Member) (t : Given) (cards : List Card) (O : Owner) (state : BookState)
        → IsBookOf ⟦<K as Kem>⟧ M cards O state → (ids : List Id) (p : ℕ) (before : HeldBook)
        → HeldStands ⟦<K as Kem>⟧ O ids before state → p < length ids → id_at ids p ≡ O.id
        → (header : Header) → header.kind ≡ kinds.Text → (bytes : Bytes)
        → IsTextBody (primitives_of ⟦<K as Kem>⟧) (before.chain p) t.text bytes
        → (carried : Body) × HasNextBody ⟦<K as Kem>⟧ rule M t [] header [] carried bytes }
{
    calls_stand::<K>();
}

/// The body of an add that the book of a member made, which has met whom it adds, carries what the reference member
/// asks of its next add.
pub fn add_bodies_are_the_next<K: Kem>()
    ensures { (rule : History → List Id) (M : Member) (t : Given) (card : Card) (O : Owner) (state : BookState)
        → IsBookOf ⟦<K as Kem>⟧ M (cards_of M.rows ++ card ∷ []) O state → (header : Header)
        → header.kind ≡ kinds.Add → header.target ≡ targets.Member (record { 0 = id_of card }) → (me : ℕ)
        (before after : HeldBook) (ratchet bytes : Bytes)
        → HeldStands ⟦<K as Kem>⟧ O (ids_named (known M) ++ card_id card ∷ []) before state
        → me < length (ids_named (known M) ++ card_id card ∷ [])
        → id_at (ids_named (known M) ++ card_id card ∷ []) me ≡ O.id → before.ratchet me ≡ Some ratchet
        → IsAddNext ⟦<K as Kem>⟧ M.rows card ratchet t.random before after bytes
        → (carried : Body)
        × HasNextBody ⟦<K as Kem>⟧ rule M t (card ∷ []) header (card_id card ∷ []) carried bytes }
{
    calls_stand::<K>();
    the_book_carries_what_is_sent();
}
