//! The history that an add hands on, as it is written.

ghost use Rattle.std.specs.Prelude.{◌≡◌, ◌≤◌, List, length, Some, IfOk, OnOk};
ghost use Rattle.group_fields.specs.Cards.{card};
ghost use Rattle.group_fields.specs.LayoutWrites.{Appends};
ghost use Rattle.group_fields.specs.declared.card.Card.{Card};
ghost use Rattle.group_model.specs.Membership.{ids_named};
ghost use Rattle.group_model.specs.Sets.{In, Within};
ghost use Rattle.causal_history.specs.Rows.{cards_of, card_in, history_of};
ghost use Rattle.wire_codec.specs.Packets as packets;
ghost use Rattle.wire_codec.specs.Packets.{WelcomeRows, counted_cards, counted_rows, row};
ghost use Rattle.wire_codec.specs.Repeated.{repeated};
ghost use Rattle.welcome_history.specs.Welcomes.{AreInOrder, AreCardsHandedOn, AreFirstCards, IsWelcomeOf, headers_of};

use causal_history::{History, cards_are_of_their_ids};
use group_fields::{
    CardView, Digest, HeaderView, MemberId, Memory, append_bytes, append_u8, append_u16,
};
use kem_trait::Kem;
use std::alloc::Global;

// The ids that the history names, in ascending order.
fn ids_in_order(alloc: Global, history: &History) -> Result<Vec<[u8; 32]>, Memory>
    ensures { IfOk result (λ ids. AreInOrder (ids_named (history_of history.now)) ids.items) }
{
    let mut ids = Vec::new(alloc);
    for place in 0..history.places() {
        ids.push(history.member(place).0.0)?;
    }
    ids.sort()?;
    Ok(ids)
}

// The first card of an id that the history names.
fn first_card<'a>(history: &'a History, id: &[u8; 32]) -> CardView<'a>
    requires { In id.now (ids_named (history_of history.now)) }
    ensures { card_in history.now id.now ≡ Some result }
{
    let place = history.place(&MemberId(Digest(*id))).unwrap();
    history.card(place)
}

// Appends the first card of each of the ids.
fn append_each_card(history: &History, ids: &[[u8; 32]], into: &mut Vec<u8>) -> Result<(), Memory>
    requires { Within ids.now (ids_named (history_of history.now)) }
    ensures { OnOk result ((cards : List Card) × AreFirstCards history.now ids.now cards
        × Appends (repeated (length ids.now) card) cards into.old.items into.new.items) }
{
    cards_are_of_their_ids();
    for id in ids {
        append_bytes(into, first_card(history, id).bytes())?;
    }
    Ok(())
}

// Appends how many ids the history names, and their cards.
fn append_cards<K: Kem>(alloc: Global, history: &History, into: &mut Vec<u8>) -> Result<(), Memory>
    requires { (card : Card) → In card (cards_of history.now) → card.set ≡ K.SET }
    ensures { OnOk result ((cards : List Card) × AreCardsHandedOn history.now cards
        × Appends (counted_cards K.SET) cards into.old.items into.new.items) }
{
    let ids = ids_in_order(alloc, history)?;
    append_u8(into, history.places())?;
    append_each_card(history, ids.as_slice(), into)
}

// Appends a header behind its length.
fn append_row(header: &HeaderView<'_>, into: &mut Vec<u8>) -> Result<(), Memory>
    ensures { OnOk result (Appends row header.now into.old.items into.new.items) }
{
    let bytes = header.bytes();
    append_u16(into, bytes.len() as u16)?;
    append_bytes(into, bytes)
}

// Appends the headers of the rows, each behind its length.
fn append_each_row(history: &History, into: &mut Vec<u8>) -> Result<(), Memory>
    ensures { OnOk result (Appends (repeated (length history.now) row) (headers_of history.now)
        into.old.items into.new.items) }
{
    for index in 0..history.count() {
        append_row(&history.row(index), into)?;
    }
    Ok(())
}

// Appends how many rows there are, and their headers.
fn append_rows(history: &History, into: &mut Vec<u8>) -> Result<(), Memory>
    requires { length history.now ≤ 4095 }
    ensures { OnOk result (Appends counted_rows (headers_of history.now) into.old.items into.new.items) }
{
    append_u16(into, history.count() as u16)?;
    append_each_row(history, into)
}

/// Writes behind the bytes the history that an add hands on: the cards of all whom the history names, ascending by
/// their ids, and the headers of its rows, in their order.
///
/// There are fewer than 4,096 rows, and the cards are of the set. `Memory` where an allocation was refused.
pub fn append_welcome<K: Kem>(
    alloc: Global,
    history: &History,
    into: &mut Vec<u8>,
) -> Result<(), Memory>
    requires few { length history.now ≤ 4095 }
    requires set { (card : Card) → In card (cards_of history.now) → card.set ≡ K.SET }
    ensures { OnOk result ((welcome : WelcomeRows) × IsWelcomeOf history.now welcome
        × Appends (packets.history K.SET) welcome into.old.items into.new.items) }
{
    append_cards::<K>(alloc, history, into)?;
    append_rows(history, into)
}

// How many bytes the cards have, with their number.
fn cards_len(history: &History) -> usize {
    let mut len = 1usize;
    for place in 0..history.places() {
        len = len.saturating_add(history.card(place).bytes().len());
    }
    len
}

/// How many bytes `append_welcome` writes, as a measure for the room of a buffer.
pub fn welcome_len(history: &History) -> usize {
    let mut len = cards_len(history).saturating_add(2);
    for row in 0..history.count() {
        len = len
            .saturating_add(2)
            .saturating_add(history.row(row).bytes().len());
    }
    len
}
