ghost use Rattle.std.specs.Prelude.{◌≡◌, ℕ, ◌<◌, ◌++◌, true, List, length, map, IfOk, OnOk};
ghost use Rattle.group_fields.specs.Cards.{HasSpelling, card_id};
ghost use Rattle.group_fields.specs.LayoutWrites.{Appends};
ghost use Rattle.group_fields.specs.declared.card.Card.{Card};
ghost use Rattle.wire_codec.specs.Packets.{card_named, cards_named, id_of};
ghost use Rattle.group_model.specs.Marks.{IsPlace};
ghost use Rattle.group_model.specs.Membership.{ids_named};
ghost use Rattle.group_model.specs.Sets.{Id, In};
ghost use Rattle.causal_history.specs.Bits.{bit};
ghost use Rattle.causal_history.specs.Rows.{history_of};
ghost use Rattle.secret_book.specs.HeldBooks.{held};
ghost use Rattle.body_parts.specs.Sending.{CanSend};
ghost use Rattle.group_ops.specs.Making.{AreFounders, IsSeededBody, placed_by};

use body_parts::{append_parts, parts_body, receivers_among};
use causal_history::{Crowd, History};
use group_fields::{Bytes, Card, Cards, Digest, MemberId, Memory, append_bytes, write_card};
use kem_trait::Kem;
use secret_book::Book;
use sha2::{Digest as Hasher, Sha256};
use std::alloc::Global;
use two_party::PartDraws;

// Writes a card behind the bytes, and gives its id: SHA-256 of what was written.
fn append_card(alloc: Global, card: &Card, into: &mut Vec<u8>) -> Result<MemberId, Memory>
    requires { HasSpelling card.now }
    ensures id { IfOk result (λ id. id.0.0 ≡ card_id card.now) }
    ensures card { IfOk result (λ id. (set : ℕ) → card.now.set ≡ set
        → Appends (card_named set (id_of card.now)) card.now into.old.items into.new.items) }
{
    let bytes = write_card(alloc, card)?;
    append_bytes(into, bytes.as_slice())?;
    Ok(MemberId(Digest(Sha256::digest(bytes.as_slice()))))
}

// Writes the cards of a new group's members behind the bytes, in their order, and their ids behind those of others.
fn append_cards(
    alloc: Global,
    cards: &[Card],
    members: &mut Vec<MemberId>,
    into: &mut Vec<u8>,
) -> Result<(), Memory>
    requires { (card : Card) → In card cards.now → HasSpelling card }
    ensures members { OnOk result (map (λ id. id.0.0) members.new.items
        ≡ map (λ id. id.0.0) members.old.items ++ map card_id cards.now) }
    ensures cards { OnOk result ((set : ℕ) → ((card : Card) → In card cards.now → card.set ≡ set)
        → Appends (cards_named set (map id_of cards.now)) cards.now into.old.items into.new.items) }
{
    let [first, others @ ..] = cards else {
        return Ok(());
    };
    let member = append_card(alloc, first, into)?;
    members.push(member)?;
    append_cards(alloc, others, members, into)
}

// Makes the body of a create: the cards of the new group's members, and the seed, sealed to each of a crowd of them.
fn create_body<K: Kem>(
    alloc: Global,
    book: &mut Book<K>,
    to: Crowd,
    cards: &[Card],
    seed: &[u8; 32],
    draws: PartDraws<K>,
) -> Result<Bytes, Memory>
    requires some { 0 < length cards.now }
    requires cards { AreFounders K.SET cards.now }
    requires can { (p : ℕ) (id : Id) → IsPlace (map card_id cards.now) p id → bit to.0 p ≡ true
        → CanSend (held book.old) draws p id }
    ensures { IfOk result (λ bytes. (ids : List Id) → IsSeededBody ⟦<K as Kem>⟧ ids cards.now (bit to.0) seed.now
        draws (held book.old) (held book.new) bytes) }
{
    let mut members = Vec::new(alloc);
    let mut body = Vec::new(alloc);
    append_cards(alloc, cards, &mut members, &mut body)?;
    let receivers = receivers_among(alloc, members.as_slice(), to)?;
    let mut draws = draws;
    append_parts::<K>(
        alloc,
        book,
        receivers.as_slice(),
        seed,
        &mut draws,
        &mut body,
    )?;
    Ok(Bytes::from(body))
}

/// Makes the body of a create, an update or a remove: the cards of a new group's members, of a create alone, and the
/// seed, sealed to each of a crowd, ascending by their ids. Without cards the places of the crowd are those of the
/// history; with cards, over the empty history, those of the cards, which ascend by their ids.
///
/// A part can be made for each of the crowd. With `Memory`, where an allocation was refused, the book may have moved
/// and is only to be closed.
pub fn make_seeded<K: Kem>(
    alloc: Global,
    book: &mut Book<K>,
    history: &History,
    to: Crowd,
    cards: &Cards,
    seed: &[u8; 32],
    draws: PartDraws<K>,
) -> Result<Bytes, Memory>
    requires cards { AreFounders K.SET cards.now }
    requires can { (p : ℕ) (id : Id) → IsPlace (placed_by (ids_named (history_of history.now)) cards.now) p id
        → bit to.0 p ≡ true → CanSend (held book.old) draws p id }
    ensures { IfOk result (IsSeededBody ⟦<K as Kem>⟧ (ids_named (history_of history.now)) cards.now (bit to.0) seed.now
        draws (held book.old) (held book.new)) }
{
    if cards.is_empty() {
        parts_body(alloc, book, history, to, seed, draws)
    } else {
        create_body(alloc, book, to, cards.as_slice(), seed, draws)
    }
}
