ghost use Rattle.std.specs.Prelude.{◌≡◌, ◌<◌, ◌∷◌, ℕ, List, length, None, Some, IsSome, IfSome, IfOk, option_map};
ghost use Rattle.causal_history.specs.Rows.{history_of};
ghost use Rattle.group_messages.specs.Messages.{message_of};
ghost use Rattle.group_model.specs.Knowledge.{or_else};
ghost use Rattle.group_model.specs.Marks.{IsPlace};
ghost use Rattle.group_model.specs.Membership.{IsSeeded, ids_named};
ghost use Rattle.group_model.specs.Messages.{Stands};
ghost use Rattle.group_model.specs.Sets.{Id, In};
ghost use Rattle.group_model.specs.Settings.{Owner};
ghost use Rattle.member_book.specs.Books.{BookState};
ghost use Rattle.member_view.specs.Crowds.{StandsWell};
ghost use Rattle.opened_parts.specs.Opening.{given_part};
ghost use Rattle.secret_book.specs.HeldBooks.{held};
ghost use Rattle.book_standing.specs.Standing.{HeldStands};
ghost use Rattle.group_ops.specs.Taking.{MovesSeeded, TakesSeeded};

use crate::acks::step_by;
use crate::answers::{keep_answers, secret_of};
use book_standing::calls_stand;
use causal_history::History;
use group_fields::{HeaderView, Memory};
use group_messages::named_ids_are_few;
use kem_trait::Kem;
use member_book::laws::places_serve;
use member_view::{Membership, recipients};
use opened_parts::{Taken, open_part, sender_place};
use secret_book::Book;
use std::alloc::Global;

// The own seed where it is given, or else what the part opened to.
fn seed_of(own: Option<&[u8; 32]>, opened: Option<[u8; 32]>) -> Option<[u8; 32]>
    ensures { result ≡ or_else (option_map (λ seed. seed.now) own.entry) opened }
{
    match own {
        Some(seed) => Some(*seed),
        None => opened,
    }
}

// What an operation does whose seed is known: the secret of each recipient is kept, and the sender's ratchet steps by
// that of the sender.
fn move_by<K: Kem, G: Membership>(
    book: &mut Book<K>,
    history: &History,
    op: &HeaderView<'_>,
    place: u8,
    seed: &[u8; 32],
) -> Result<Option<[u8; 32]>, Memory>
    requires seeded { IsSeeded (message_of op.now).kind }
    requires create { StandsWell (history_of history.now) (message_of op.now) (message_of op.now).kind }
    requires stand { (i : Id) → In i (message_of op.now).predecessors → Stands (history_of history.now) i }
    requires new { Stands (history_of history.now) (message_of op.now).id → ⊥ }
    requires met { length (ids_named (message_of op.now ∷ history_of history.now)) ≡ length book.old.places }
    requires sender { IsPlace (ids_named (message_of op.now ∷ history_of history.now)) place
        (message_of op.now).sender }
    ensures { IfOk result (λ learned. (O : Owner) (state : BookState) → O.rule ≡ G.rule
        → HeldStands ⟦<K as Kem>⟧ O (ids_named (message_of op.now ∷ history_of history.now)) (held book.old) state
        → MovesSeeded ⟦<K as Kem>⟧ O (history_of history.now) (message_of op.now) (Some seed.now) state learned
        (held book.new)) }
{
    let _kept = history.count();
    let _bytes = op.bytes();
    named_ids_are_few();
    calls_stand::<K>();
    places_serve();
    let crowd = recipients::<G>(history, op);
    keep_answers::<K>(book, history, op, crowd, seed)?;
    let input = secret_of::<K>(seed, &op.sender());
    Ok(step_by::<K>(book, place, Some(input)))
}

// What an operation does, whether its seed is known or not; where it isn't, the sender's ratchet is forgotten.
fn move_seeded<K: Kem, G: Membership>(
    book: &mut Book<K>,
    history: &History,
    op: &HeaderView<'_>,
    place: u8,
    seed: Option<[u8; 32]>,
) -> Result<Option<[u8; 32]>, Memory>
    requires seeded { IsSeeded (message_of op.now).kind }
    requires create { StandsWell (history_of history.now) (message_of op.now) (message_of op.now).kind }
    requires stand { (i : Id) → In i (message_of op.now).predecessors → Stands (history_of history.now) i }
    requires new { Stands (history_of history.now) (message_of op.now).id → ⊥ }
    requires met { length (ids_named (message_of op.now ∷ history_of history.now)) ≡ length book.old.places }
    requires sender { IsPlace (ids_named (message_of op.now ∷ history_of history.now)) place
        (message_of op.now).sender }
    ensures { IfOk result (λ learned. (O : Owner) (state : BookState) → O.rule ≡ G.rule
        → HeldStands ⟦<K as Kem>⟧ O (ids_named (message_of op.now ∷ history_of history.now)) (held book.old) state
        → MovesSeeded ⟦<K as Kem>⟧ O (history_of history.now) (message_of op.now) seed state learned
        (held book.new)) }
{
    calls_stand::<K>();
    match &seed {
        Some(seed) => move_by::<K, G>(book, history, op, place, seed),
        None => Ok(step_by::<K>(book, place, None)),
    }
}

/// Takes a create, an update or a remove: opens the part that is for this member, keeps for each recipient of the
/// operation the input of its answer, and steps the sender's ratchet. The seed is the own one where it is given, or else
/// what the part opened to; where there is none nothing is kept, and the sender's ratchet is forgotten.
///
/// The history is that before the message, whose predecessors are in it; ids that the message names and the history
/// doesn't have the next places, in the order of its target, and the book has met them. With `Memory`, where an
/// allocation was refused, the book may have moved and is only to be closed.
pub fn take_seeded<K: Kem, G: Membership>(
    alloc: Global,
    book: &mut Book<K>,
    history: &History,
    op: &HeaderView<'_>,
    part: Option<&[u8]>,
    own_seed: Option<&[u8; 32]>,
) -> Result<Taken, Memory>
    requires seeded { IsSeeded (message_of op.now).kind }
    requires create { StandsWell (history_of history.now) (message_of op.now) (message_of op.now).kind }
    requires stand { (i : Id) → In i (message_of op.now).predecessors → Stands (history_of history.now) i }
    requires new { Stands (history_of history.now) (message_of op.now).id → ⊥ }

    // The book has met exactly whom the history and the message name, and a part is for a member that is not the sender.
    requires met { length (ids_named (message_of op.now ∷ history_of history.now)) ≡ length book.old.places }
    requires sender { In (message_of op.now).sender (ids_named (message_of op.now ∷ history_of history.now)) }
    requires other { IfSome part (λ _. (p : ℕ)
        → IsPlace (ids_named (message_of op.now ∷ history_of history.now)) p (message_of op.now).sender
        → IsSome ((held book.old).pairing p)) }

    // Of each book of the model that the book stands for.
    ensures { IfOk result (λ taken. (O : Owner) (state : BookState) → O.rule ≡ G.rule
        → HeldStands ⟦<K as Kem>⟧ O (ids_named (message_of op.now ∷ history_of history.now)) (held book.old) state
        → TakesSeeded ⟦<K as Kem>⟧ O (history_of history.now) (message_of op.now)
        (given_part ⟦<K as Kem>⟧ (option_map (λ p. p.now) part.entry))
        (option_map (λ seed. seed.now) own_seed.entry) state taken (held book.new)) }
{
    let place = sender_place(history, op);
    let opened = open_part::<K>(alloc, book, place, part)?;
    let seed = seed_of(own_seed, opened);
    let learned = move_seeded::<K, G>(book, history, op, place, seed)?;
    Ok(Taken {
        took: opened.is_some(),
        learned,
    })
}
