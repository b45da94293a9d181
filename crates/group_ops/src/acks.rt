ghost use Rattle.std.specs.Prelude.{◌≡◌, ◌<◌, ◌∷◌, ℕ, Bool, List, length, cond, None, IsSome, IfSome, IfOk, option_map};
ghost use Rattle.causal_history.specs.Rows.{history_of};
ghost use Rattle.group_keys.specs.Primitives.{primitives_of};
ghost use Rattle.group_messages.specs.Messages.{message_of};
ghost use Rattle.group_model.specs.Knowledge.{or_else};
ghost use Rattle.group_model.specs.Marks.{IsPlace};
ghost use Rattle.group_model.specs.Membership.{ids_named};
ghost use Rattle.group_model.specs.Messages.{Ack};
ghost use Rattle.group_model.specs.Sets.{Id, In};
ghost use Rattle.group_model.specs.Settings.{Owner};
ghost use Rattle.member_book.specs.Books.{BookState};
ghost use Rattle.opened_parts.specs.Opening.{given_part};
ghost use Rattle.secret_book.specs.HeldBooks.{held, secret_by, stepped, with_kept};
ghost use Rattle.book_standing.specs.Standing.{HeldStands};
ghost use Rattle.group_ops.specs.Taking.{IsAck, TakesAck};

use book_standing::calls_stand;
use causal_history::History;
use group_fields::{HeaderView, Memory, MessageId};
use kem_trait::Kem;
use member_view::{Act, act_of};
use opened_parts::{open_part, sender_place};
use secret_book::Book;
use std::alloc::Global;

// The first of two secrets that is there.
fn first_of(first: Option<[u8; 32]>, second: Option<[u8; 32]>) -> Option<[u8; 32]>
    ensures { result ≡ or_else first second }
{
    match first {
        Some(secret) => Some(secret),
        None => second,
    }
}

// Steps the ratchet of a place by an input, where it is known.
pub(crate) fn step_by<K: Kem>(
    book: &mut Book<K>,
    place: u8,
    input: Option<[u8; 32]>,
) -> Option<[u8; 32]>
    requires { place < length book.old.places }
    ensures secret { result
        ≡ secret_by (primitives_of ⟦<K as Kem>⟧) input ((held book.old).ratchet place) }
    ensures book { held book.new ≡ stepped (primitives_of ⟦<K as Kem>⟧) place input (held book.old) }
{
    match &input {
        Some(input) => book.step(place, Some(input.as_slice())),
        None => book.step(place, None),
    }
}

// Spends the input that is kept for the answer of a place, and with `took` steps the place's ratchet by it, or else by
// what was forwarded.
fn spend_answer<K: Kem>(
    book: &mut Book<K>,
    place: u8,
    operation: &MessageId,
    took: bool,
    forwarded: Option<[u8; 32]>,
) -> Option<[u8; 32]>
    requires { place < length book.old.places }
    ensures learned { result ≡ cond took (secret_by (primitives_of ⟦<K as Kem>⟧)
        (or_else ((held book.old).kept operation.now.0.0 place) forwarded) ((held book.old).ratchet place)) None }
    ensures book { held book.new ≡ cond took (stepped (primitives_of ⟦<K as Kem>⟧) place
        (or_else ((held book.old).kept operation.now.0.0 place) forwarded)
        (with_kept operation.now.0.0 place None (held book.old)))
        (with_kept operation.now.0.0 place None (held book.old)) }
{
    let kept = book.spend(operation, place);
    if !took {
        return None;
    }
    step_by::<K>(book, place, first_of(kept, forwarded))
}

/// Takes an ack: opens the part that is for this member, spends the input that is kept for this answer, and with `took`
/// steps the sender's ratchet by it, or else by what the part brought. Answers the update secret of the sender; `None`
/// without `took`, and where no input or the ratchet isn't known, and then the ratchet is forgotten.
///
/// `Memory` where an allocation was refused; then the book is only to be closed.
pub fn take_ack<K: Kem>(
    alloc: Global,
    book: &mut Book<K>,
    history: &History,
    answer: &HeaderView<'_>,
    part: Option<&[u8]>,
) -> Result<Option<[u8; 32]>, Memory>
    requires ack { IsAck (message_of answer.now).kind }

    // The book has met exactly whom the history and the message name, and a part is for a member that is not the sender.
    requires met { length (ids_named (message_of answer.now ∷ history_of history.now)) ≡ length book.old.places }
    requires sender { In (message_of answer.now).sender (ids_named (message_of answer.now ∷ history_of history.now)) }
    requires other { IfSome part (λ _. (p : ℕ)
        → IsPlace (ids_named (message_of answer.now ∷ history_of history.now)) p (message_of answer.now).sender
        → IsSome ((held book.old).pairing p)) }

    // Of each book of the model that the book stands for. An ack names nobody.
    ensures { IfOk result (λ learned. (O : Owner) (state : BookState)
        → HeldStands ⟦<K as Kem>⟧ O (ids_named (history_of history.now)) (held book.old) state
        → (i : Id) (took : Bool) → (message_of answer.now).kind ≡ Ack i took
        → TakesAck ⟦<K as Kem>⟧ O (history_of history.now) (message_of answer.now) i took
        (given_part ⟦<K as Kem>⟧ (option_map (λ p. p.now) part.entry)) state learned (held book.new)) }
{
    calls_stand::<K>();
    let place = sender_place(history, answer);
    let forwarded = open_part::<K>(alloc, book, place, part)?;
    match act_of(answer) {
        Act::Ack(operation, took) => Ok(spend_answer::<K>(
            book, place, &operation, took, forwarded,
        )),
        _ => unreachable!(),
    }
}
