ghost use Rattle.std.specs.Prelude.{◌≡◌, ◌↔◌, ◌≤◌, ◌<◌, ◌∷◌, ◌+◌, ◌++◌, ℕ, true, List, [], length, map, take};
ghost use Rattle.std.specs.Prelude.{IsTrue, IfOk, OnOk};
ghost use Rattle.group_fields.specs.Cards.{HasSpelling, card_id};
ghost use Rattle.group_fields.specs.declared.card.Card.{Card};
ghost use Rattle.group_model.specs.Membership.{ids_named, joined, with_id};
ghost use Rattle.group_model.specs.Sets.{Id, In, IsDistinct};
ghost use Rattle.group_model.specs.Settings.{Owner};
ghost use Rattle.member_book.specs.Books.{BookState};
ghost use Rattle.causal_history.specs.Rows.{cards_of, history_of};
ghost use Rattle.secret_book.specs.HeldBooks.{held};
ghost use Rattle.book_standing.specs.Standing.{HeldStands};
ghost use Rattle.met_members.specs.Meeting.{AreMet, AreNew, CanMeet, MeetsMore};

use book_standing::meetings_stand;
use causal_history::{History, cards_are_of_their_ids};
use group_fields::{Card, CardView, Cards, Digest, MemberId, Memory, write_card};
use kem_trait::Kem;
use secret_book::Book;
use sha2::{Digest as Hasher, Sha256};
use std::alloc::Global;

// Whether two ids are one.
pub(crate) fn is_same(a: &MemberId, b: &MemberId) -> bool
    ensures { IsTrue result ↔ (a.now.0.0 ≡ b.now.0.0) }
{
    *a == *b
}

// Meets one more member, with the key on its card; the own place is met without one.
fn meet_one<K: Kem>(
    alloc: Global,
    book: &mut Book<K>,
    me: &MemberId,
    id: &MemberId,
    key: &[u8],
) -> Result<(), Memory>
    requires met { (ids : List Id) × AreMet ids me.now.0.0 book.old × (In id.now.0.0 ids → ⊥) }
    requires room { length book.old.places < 256 }
    requires key { K.is_public key.now ≡ true }
    ensures { OnOk result ((ids : List Id) → AreMet ids me.now.0.0 book.old → (In id.now.0.0 ids → ⊥)
        → AreMet (ids ++ id.now.0.0 ∷ []) me.now.0.0 book.new
        × ((O : Owner) (state : BookState) → O.id ≡ me.now.0.0 → O.public_key id.now.0.0 ≡ key.now
        → HeldStands ⟦<K as Kem>⟧ O ids (held book.old) state
        → HeldStands ⟦<K as Kem>⟧ O (ids ++ id.now.0.0 ∷ []) (held book.new) state)) }
{
    meetings_stand::<K>();
    let place = book.met() as u8;
    if is_same(id, me) {
        book.meet(alloc, place, None)
    } else {
        book.meet(alloc, place, Some(key))
    }
}

// The id of a card.
#[tactic(auto, unfolding(group_fields::specs::Cards::card_id))]
fn id_of(alloc: Global, card: &Card) -> Result<MemberId, Memory>
    requires { HasSpelling card.now }
    ensures { IfOk result (λ id. id.0.0 ≡ card_id card.now) }
{
    let bytes = write_card(alloc, card)?;
    Ok(MemberId(Digest(Sha256::digest(bytes.as_slice()))))
}

// Meets the member of a card, which is none of those that were met.
fn meet_card<K: Kem>(
    alloc: Global,
    book: &mut Book<K>,
    me: &MemberId,
    card: &Card,
) -> Result<(), Memory>
    requires met { (ids : List Id) × AreMet ids me.now.0.0 book.old × (In (card_id card.now) ids → ⊥) }
    requires room { length book.old.places < 256 }
    requires spelled { HasSpelling card.now }
    requires key { K.is_public card.now.kem_public ≡ true }
    ensures { OnOk result ((ids : List Id) → AreMet ids me.now.0.0 book.old → (In (card_id card.now) ids → ⊥)
        → MeetsMore ⟦<K as Kem>⟧ me.now.0.0 (card.now ∷ []) ids (with_id ids (card_id card.now)) book.old book.new) }
{
    let id = id_of(alloc, card)?;
    meet_one(alloc, book, me, &id, card.kem_public.as_slice())
}

// Meets the members of cards, one after the other.
fn meet_each<K: Kem>(
    alloc: Global,
    book: &mut Book<K>,
    me: &MemberId,
    cards: &[Card],
) -> Result<(), Memory>
    requires met { (ids : List Id) × AreMet ids me.now.0.0 book.old × AreNew ids cards.now }
    requires room { length book.old.places + length cards.now ≤ 256 }
    requires can { CanMeet ⟦<K as Kem>⟧ cards.now }
    ensures { OnOk result ((ids : List Id) → AreMet ids me.now.0.0 book.old → AreNew ids cards.now
        → MeetsMore ⟦<K as Kem>⟧ me.now.0.0 cards.now ids (joined ids (map card_id cards.now)) book.old book.new) }
{
    let [first, others @ ..] = cards else {
        return Ok(());
    };
    meet_card(alloc, book, me, first)?;
    meet_each(alloc, book, me, others)
}

/// Meets the members of a new group, in the order of their cards. No place was met before; of each member there is one
/// card, its key is a public key, and there are at most 32.
///
/// `Memory` where an allocation was refused; then the book is only to be closed.
pub fn meet_founders<K: Kem>(
    alloc: Global,
    book: &mut Book<K>,
    me: &MemberId,
    cards: &Cards,
) -> Result<(), Memory>
    requires none { length book.old.places ≡ 0 }
    requires few { length cards.now ≤ 32 }
    requires distinct { IsDistinct (map card_id cards.now) }
    requires can { CanMeet ⟦<K as Kem>⟧ cards.now }
    ensures { OnOk result (MeetsMore ⟦<K as Kem>⟧ me.now.0.0 cards.now [] (joined [] (map card_id cards.now)) book.old
        book.new) }
{
    meet_each(alloc, book, me, cards.as_slice())
}

/// Meets who is added to a group, where the history doesn't name it yet. All whom the history names were met; the key
/// on the card is a public key.
///
/// `Memory` where an allocation was refused; then the book is as before.
pub fn meet_added<K: Kem>(
    alloc: Global,
    book: &mut Book<K>,
    history: &History,
    me: &MemberId,
    card: &CardView<'_>,
) -> Result<(), Memory>
    requires met { AreMet (ids_named (history_of history.now)) me.now.0.0 book.old }
    requires key { K.is_public card.now.kem_public ≡ true }
    ensures { OnOk result (MeetsMore ⟦<K as Kem>⟧ me.now.0.0 (card.now ∷ []) (ids_named (history_of history.now))
        (joined (ids_named (history_of history.now)) (card_id card.now ∷ [])) book.old book.new) }
{
    let few = history.places();
    let id = card.id();
    match history.place(&id) {
        Some(_) => Ok(()),
        None => meet_one(alloc, book, me, &id, card.kem_public()),
    }
}

// Meets the member at the next place of a history.
fn meet_place<K: Kem>(
    alloc: Global,
    book: &mut Book<K>,
    history: &History,
    me: &MemberId,
    place: u8,
) -> Result<(), Memory>
    requires place { place < length (ids_named (history_of history.now)) }
    requires met { AreMet (take place (ids_named (history_of history.now))) me.now.0.0 book.old }
    requires keys { (card : Card) → In card (cards_of history.now) → K.is_public card.kem_public ≡ true }
    ensures { OnOk result (MeetsMore ⟦<K as Kem>⟧ me.now.0.0 (cards_of history.now)
        (take place (ids_named (history_of history.now))) (take (place + 1) (ids_named (history_of history.now)))
        book.old book.new) }
{
    cards_are_of_their_ids();
    let few = history.places();
    let id = history.member(place);
    let card = history.card(place);
    meet_one(alloc, book, me, &id, card.kem_public())
}

/// Meets all members that a history names, in the order of their places. No place was met before; the keys on their
/// cards are public keys.
///
/// `Memory` where an allocation was refused; then the book is only to be closed.
pub fn meet_history<K: Kem>(
    alloc: Global,
    book: &mut Book<K>,
    history: &History,
    me: &MemberId,
) -> Result<(), Memory>
    requires none { length book.old.places ≡ 0 }
    requires keys { (card : Card) → In card (cards_of history.now) → K.is_public card.kem_public ≡ true }
    ensures { OnOk result (MeetsMore ⟦<K as Kem>⟧ me.now.0.0 (cards_of history.now) []
        (ids_named (history_of history.now)) book.old book.new) }
{
    for place in 0..history.places() {
        meet_place(alloc, book, history, me, place)?;
    }
    Ok(())
}
