//! Bodies of adds.

ghost use Rattle.std.specs.Prelude.{◌≡◌, ◌<◌, Some, length, IfOk, IsSome};
ghost use Rattle.group_fields.specs.Cards.{card_id};
ghost use Rattle.group_fields.specs.declared.card.Card.{Card};
ghost use Rattle.group_model.specs.Membership.{ids_named};
ghost use Rattle.group_model.specs.Sets.{Bytes, In};
ghost use Rattle.causal_history.specs.Rows.{cards_of, history_of};
ghost use Rattle.secret_book.specs.HeldBooks.{held};
ghost use Rattle.body_parts.specs.Sending.{CanSend};
ghost use Rattle.add_ops.specs.Making.{IsAddBody, added_to};

use body_parts::{Receiver, append_part};
use causal_history::History;
use group_fields::{Bytes, CardView, Memory, append_bytes};
use kem_trait::Kem;
use secret_book::Book;
use std::alloc::Global;
use two_party::PartDraws;
use welcome_history::{append_welcome, welcome_len};

// The bytes of a part beside its keys: origin, number, secret, number and tag.
const PART_FIELDS: usize = 73;

// How many bytes the body of an add has, as a measure for the room of its buffer.
fn body_len<K: Kem>(history: &History, card: &CardView<'_>) -> usize {
    let fields = PART_FIELDS.saturating_add(K::CIPHER_LEN);
    let part = fields
        .saturating_add(K::SECRET_LEN)
        .saturating_add(K::PUBLIC_LEN);
    let added = card.bytes().len().saturating_add(part);
    added.saturating_add(welcome_len(history))
}

// Whom an add adds, with the place behind those of the history.
fn receiver_of(history: &History, card: &CardView<'_>) -> Receiver
    ensures { result ≡ added_to history.now card.now }
{
    Receiver {
        place: history.places(),
        member: card.id(),
    }
}

/// Makes the body of an add: the card of whom it adds, the own ratchet sealed to it, and the whole history.
///
/// The own ratchet is known, a part can be made for who is added, whose place is the next behind those of the history,
/// there are fewer than 4,096 rows, and all cards are of the set. With `Memory`, where an allocation was refused, the
/// book may have moved and is only to be closed.
pub fn make_add<K: Kem>(
    alloc: Global,
    book: &mut Book<K>,
    history: &History,
    me: u8,
    card: &CardView<'_>,
    draws: PartDraws<K>,
) -> Result<Bytes, Memory>
    requires own { me < length book.old.places }
    requires known { IsSome ((held book.old).ratchet me) }
    requires set { card.now.set ≡ K.SET }
    requires sets { (c : Card) → In c (cards_of history.now) → c.set ≡ K.SET }
    requires few { length history.now < 4096 }
    requires can { CanSend (held book.old) draws (length (ids_named (history_of history.now))) (card_id card.now) }
    ensures { IfOk result (λ bytes. (ratchet : Bytes) → (held book.old).ratchet me ≡ Some ratchet
        → IsAddBody ⟦<K as Kem>⟧ history.now card.now ratchet draws (held book.old) (held book.new) bytes) }
{
    let ratchet = book.ratchet(me).unwrap();
    let to = receiver_of(history, card);
    let mut draws = draws;
    let mut body = Vec::with_capacity(alloc, body_len::<K>(history, card))?;
    append_bytes(&mut body, card.bytes())?;
    append_part::<K>(alloc, book, &to, &ratchet, &mut draws, &mut body)?;
    append_welcome::<K>(alloc, history, &mut body)?;
    Ok(Bytes::from(body))
}
