//! Bodies of next messages, with draws from a step's random bytes.

ghost use Rattle.std.specs.Prelude.{◌≡◌, ◌<◌, ◌≤◌, ℕ, true, ◌∷◌, length, Some, None, IfOk, IsErrOf, IsSome};
ghost use Rattle.group_fields.specs.Headers.{HasSpelling};
ghost use Rattle.group_fields.specs.Cards.{card_id};
ghost use Rattle.group_fields.specs.declared.card.Card.{Card};
ghost use Rattle.group_model.specs.Sets.{Bytes, Id, In};
ghost use Rattle.group_model.specs.Pairing.{draws};
ghost use Rattle.group_model.specs.Membership.{ids_named};
ghost use Rattle.group_model.specs.Marks.{IsPlace};
ghost use Rattle.group_keys.specs.Primitives.{primitives_of};
ghost use Rattle.group_messages.specs.Messages.{message_of};
ghost use Rattle.causal_history.specs.Bits.{bit};
ghost use Rattle.causal_history.specs.Rows.{cards_of, history_of};
ghost use Rattle.secret_book.specs.HeldBooks.{held};
ghost use Rattle.body_parts.specs.Sending.{CanReach};
ghost use Rattle.group_ops.specs.Making.{AreFounders, placed_by};
ghost use Rattle.next_messages.specs.Bodies.{IsAddNext, IsSeededNext, LacksDraws};

use crate::addressees::receivers_of;
use add_ops::make_add;
use body_parts::{Receiver, draw_for};
use causal_history::{Crowd, History};
use group_fields::{Bytes, CardView, Cards, Header};
use group_ops::make_seeded;
use hkdf_seal::kdf;
use kem_trait::{Kem, KemRefusal};
use secret_book::Book;
use std::alloc::Global;

/// Makes the body of the create, update or remove of a header, with its cards: one part for each of a crowd, with the
/// seed and the draws that the step's 32 random bytes give.
///
/// The places of the crowd are those of the history and behind it those of the header; each can be reached.
/// `NoUsableKey` only where the random bytes give no usable key for one of the crowd; then the book is as it was. `Memory`
/// where an allocation was refused; then the book may have moved, and is only to be closed.
pub fn next_seeded<K: Kem>(
    alloc: Global,
    book: &mut Book<K>,
    history: &History,
    header: &Header,
    to: Crowd,
    cards: &Cards,
    random: &[u8; 32],
) -> Result<Bytes, KemRefusal>
    requires spelled { HasSpelling header.now }
    requires cards { AreFounders K.SET cards.now }
    requires places { placed_by (ids_named (history_of history.now)) cards.now
        ≡ ids_named (message_of header.now ∷ history_of history.now) }
    requires few { length (ids_named (message_of header.now ∷ history_of history.now)) ≤ 32 }
    requires reach { (p : ℕ) (id : Id) → IsPlace (ids_named (message_of header.now ∷ history_of history.now)) p id
        → bit to.0 p ≡ true → CanReach (held book.old) p }
    ensures body { IfOk result (IsSeededNext ⟦<K as Kem>⟧ (ids_named (history_of history.now)) cards.now (bit to.0)
        random.now (held book.old) (held book.new)) }
    ensures unusable { IsErrOf result KemRefusal.NoUsableKey → LacksDraws (primitives_of ⟦<K as Kem>⟧)
        (ids_named (message_of header.now ∷ history_of history.now)) (bit to.0) random.now }
    ensures unmoved { IsErrOf result KemRefusal.NoUsableKey → book.new ≡ book.old }
{
    let receivers = receivers_of(alloc, history, header, to)?;
    let draws = draw_for::<K>(alloc, random, receivers.as_slice())?;
    let seed = kdf(random, b"seed", &[]);
    Ok(make_seeded::<K>(alloc, book, history, to, cards, &seed, draws)?)
}

/// Makes the body of an add: the card of whom it adds, the own ratchet sealed to it with the draws that the step's 32
/// random bytes give, and the whole history.
///
/// The own place is `me`, whose ratchet is known; the place of who is added, the next behind those of the history, can
/// be reached; there are fewer than 4,096 rows, and all cards are of the set. `NoUsableKey` only where the random bytes
/// give no usable key for it. `Memory` where an allocation was refused; then the book may have moved, and is only to be
/// closed.
pub fn next_add<K: Kem>(
    alloc: Global,
    book: &mut Book<K>,
    history: &History,
    me: u8,
    card: &CardView<'_>,
    random: &[u8; 32],
) -> Result<Bytes, KemRefusal>
    requires own { me < length book.old.places }
    requires known { IsSome ((held book.old).ratchet me) }
    requires set { card.now.set ≡ K.SET }
    requires sets { (c : Card) → In c (cards_of history.now) → c.set ≡ K.SET }
    requires few { length history.now < 4096 }
    requires reach { CanReach (held book.old) (length (ids_named (history_of history.now))) }
    ensures body { IfOk result (λ bytes. (ratchet : Bytes) → (held book.old).ratchet me ≡ Some ratchet
        → IsAddNext ⟦<K as Kem>⟧ history.now card.now ratchet random.now (held book.old) (held book.new) bytes) }
    ensures unusable { IsErrOf result KemRefusal.NoUsableKey
        → draws (primitives_of ⟦<K as Kem>⟧) random.now (card_id card.now) ≡ None }
{
    let to = [Receiver {
        place: history.places(),
        member: card.id(),
    }];
    let drawn = draw_for::<K>(alloc, random, &to)?;
    Ok(make_add::<K>(alloc, book, history, me, card, drawn)?)
}
