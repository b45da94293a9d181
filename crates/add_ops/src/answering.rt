ghost use Rattle.std.specs.Prelude.{◌≡◌, ◌<◌, ◌∷◌, ℕ, List, length, true, Some, IsSome, IfSome, IfOk, option_map};
ghost use Rattle.body_parts.specs.Sending.{CanSend, IsPartsBody};
ghost use Rattle.causal_history.specs.Bits.{bit};
ghost use Rattle.causal_history.specs.Rows.{history_of};
ghost use Rattle.group_messages.specs.Messages.{message_of};
ghost use Rattle.group_model.specs.Marks.{IsPlace};
ghost use Rattle.group_model.specs.Membership.{ids_named};
ghost use Rattle.group_model.specs.Messages.{AddAck};
ghost use Rattle.group_model.specs.Sets.{Bytes, Id, In};
ghost use Rattle.group_model.specs.Settings.{Owner};
ghost use Rattle.member_book.specs.Books.{BookState};
ghost use Rattle.opened_parts.specs.Opening.{given_part};
ghost use Rattle.secret_book.specs.HeldBooks.{held};
ghost use Rattle.book_standing.specs.Standing.{HeldStands};
ghost use Rattle.add_ops.specs.Taking.{TakesAddAck};

use crate::moves::{hand_ratchet, step_by_add};
use body_parts::parts_body;
use book_standing::calls_stand;
use causal_history::{Crowd, History};
use group_fields::{Bytes, HeaderView, Memory};
use kem_trait::Kem;
use opened_parts::{open_part, sender_place};
use secret_book::Book;
use std::alloc::Global;
use two_party::PartDraws;

/// Takes the answer to an add of another: opens the part that is for this member, takes the ratchet in it as the
/// sender's, and steps the sender's ratchet by "add". Answers the update secret, where the ratchet is known.
///
/// `Memory` where an allocation was refused; then the book is only to be closed.
pub fn take_add_ack<K: Kem>(
    alloc: Global,
    book: &mut Book<K>,
    history: &History,
    answer: &HeaderView<'_>,
    part: Option<&[u8]>,
) -> Result<Option<[u8; 32]>, Memory>
    requires answer { (i : Id) × ((message_of answer.now).kind ≡ AddAck i) }

    // The book has met exactly whom the history and the message name, and a part is for a member that is not the sender.
    requires met { length (ids_named (message_of answer.now ∷ history_of history.now)) ≡ length book.old.places }
    requires sender { In (message_of answer.now).sender (ids_named (message_of answer.now ∷ history_of history.now)) }
    requires other { IfSome part (λ _. (p : ℕ)
        → IsPlace (ids_named (message_of answer.now ∷ history_of history.now)) p (message_of answer.now).sender
        → IsSome ((held book.old).pairing p)) }

    // Of each book of the model that the book stands for. The answer names nobody.
    ensures { IfOk result (λ learned. (O : Owner) (state : BookState)
        → HeldStands ⟦<K as Kem>⟧ O (ids_named (history_of history.now)) (held book.old) state
        → (i : Id) → (message_of answer.now).kind ≡ AddAck i
        → TakesAddAck ⟦<K as Kem>⟧ O (history_of history.now) (message_of answer.now) i
        (given_part ⟦<K as Kem>⟧ (option_map (λ p. p.now) part.entry)) state learned (held book.new)) }
{
    calls_stand::<K>();
    let place = sender_place(history, answer);
    let opened = open_part::<K>(alloc, book, place, part)?;
    hand_ratchet::<K>(book, place, opened);
    Ok(step_by_add::<K>(book, place))
}

// The ratchet of a place, which is known.
fn known_ratchet<K: Kem>(book: &Book<K>, place: u8) -> [u8; 32]
    requires met { place < length book.now.places }
    requires known { IsSome ((held book.now).ratchet place) }
    ensures { (held book.now).ratchet place ≡ Some result }
{
    match book.ratchet(place) {
        Some(ratchet) => ratchet,
        None => unreachable!(),
    }
}

/// Makes the body of the answer to an add of another: the own ratchet, sealed to who was added where it is in the crowd,
/// else no part.
///
/// The own ratchet is known, and a part can be made for each of the crowd. With `Memory`, where an allocation was
/// refused, the book may have moved and is only to be closed.
pub fn make_add_ack<K: Kem>(
    alloc: Global,
    book: &mut Book<K>,
    history: &History,
    me: u8,
    to: Crowd,
    draws: PartDraws<K>,
) -> Result<Bytes, Memory>
    requires own { me < length book.old.places }
    requires known { IsSome ((held book.old).ratchet me) }
    requires can { (p : ℕ) (id : Id) → IsPlace (ids_named (history_of history.now)) p id → bit to.0 p ≡ true
        → CanSend (held book.old) draws p id }
    ensures { IfOk result (λ bytes. (ratchet : Bytes) → (held book.old).ratchet me ≡ Some ratchet
        → IsPartsBody ⟦<K as Kem>⟧ (ids_named (history_of history.now)) (bit to.0) ratchet draws (held book.old)
        (held book.new) bytes) }
{
    let ratchet = known_ratchet::<K>(book, me);
    parts_body(alloc, book, history, to, &ratchet, draws)
}
