ghost use Rattle.std.specs.Prelude.{◌≡◌, ◌≢◌, ◌<◌, ◌∷◌, length, IfOk};
ghost use Rattle.causal_history.specs.Rows.{history_of};
ghost use Rattle.group_messages.specs.Messages.{message_of};
ghost use Rattle.group_model.specs.KeyTerms.{seed_of};
ghost use Rattle.group_model.specs.Logs.{Made};
ghost use Rattle.group_model.specs.Marks.{IsPlace};
ghost use Rattle.group_model.specs.Membership.{IsSeeded, ids_named};
ghost use Rattle.group_model.specs.Messages.{Add, Message, Stands};
ghost use Rattle.group_model.specs.Packets.{Given, Packet};
ghost use Rattle.group_model.specs.Sets.{Id, In};
ghost use Rattle.group_model.specs.Settings.{Owner};
ghost use Rattle.member_book.specs.Books.{BookState, sealed_to};
ghost use Rattle.member_view.specs.Crowds.{StandsWell};
ghost use Rattle.secret_book.specs.HeldBooks.{held};
ghost use Rattle.book_standing.specs.Standing.{HeldStands};
ghost use Rattle.book_steps.specs.Entries.{MakesEntry, StepsAsMade};

use add_ops::{take_add, take_add_ack};
use causal_history::History;
use group_fields::{HeaderView, Memory};
use group_ops::take_seeded;
use kem_trait::Kem;
use member_book::laws::calls_make_the_book;
use member_view::{Act, Membership, act_of, is_seeded};
use secret_book::Book;
use std::alloc::Global;

/// Takes an own create, update, remove, add or add-ack, over the history before it, once its parts are sealed: an add
/// adds somebody else. An own message has no part for its sender. The seed is that of an operation that sends one; an
/// add and an add-ack don't read it. Answers the own update secret, `None` where the own ratchet isn't known.
///
/// The history is that before the message; ids that the message names and the history doesn't have the next places, in
/// their order, and the book has met them. With `Memory`, where an allocation was refused, the book may have moved and
/// is only to be closed.
pub fn take_own<K: Kem, G: Membership>(
    alloc: Global,
    book: &mut Book<K>,
    history: &History,
    me: u8,
    header: &HeaderView<'_>,
    seed: &[u8; 32],
) -> Result<Option<[u8; 32]>, Memory>
    requires kind { StepsAsMade (message_of header.now).kind }

    // What the history has of an operation that sends a seed, and of who sent what an add hands on.
    requires create { StandsWell (history_of history.now) (message_of header.now) (message_of header.now).kind }
    requires stand { IsSeeded (message_of header.now).kind → (i : Id) → In i (message_of header.now).predecessors
        → Stands (history_of history.now) i }
    requires new { IsSeeded (message_of header.now).kind
        → Stands (history_of history.now) (message_of header.now).id → ⊥ }
    requires senders { (y : Id) → (message_of header.now).kind ≡ Add y → (m : Message) → In m (history_of history.now)
        → In m.sender (ids_named (history_of history.now)) }

    // The book has met exactly whom the history and the message name; this member is one of them.
    requires met { length (ids_named (message_of header.now ∷ history_of history.now)) ≡ length book.old.places }
    requires own { me < length book.old.places }
    requires sender { In (message_of header.now).sender (ids_named (message_of header.now ∷ history_of history.now)) }

    // Of each book of the model that the book stands for with the parts of the packet sealed, whose owner has the
    // place, and each packet of this message that is made from bytes with this seed.
    ensures { IfOk result (λ learned. (O : Owner) (state : BookState) (p : Packet) (t : Given) → O.rule ≡ G.rule
        → IsPlace (ids_named (message_of header.now ∷ history_of history.now)) me O.id
        → HeldStands ⟦<K as Kem>⟧ O (ids_named (message_of header.now ∷ history_of history.now)) (held book.old)
        (sealed_to O.primitives t p.parts state)
        → p.header ≡ message_of header.now → seed_of O.primitives t.random ≡ seed.now
        → (message_of header.now).kind ≢ Add O.id
        → MakesEntry ⟦<K as Kem>⟧ O (history_of history.now) (Made p t) state learned (held book.new)) }
{
    calls_make_the_book();
    if is_seeded(header.kind()) {
        let taken = take_seeded::<K, G>(alloc, book, history, header, None, Some(seed))?;
        return Ok(taken.learned);
    }
    match act_of(header) {
        Act::Add(_) => {
            let taken = take_add::<K>(alloc, book, history, me, header, None)?;
            Ok(taken.learned)
        }
        Act::AddAck(_) => take_add_ack::<K>(alloc, book, history, header, None),
        _ => unreachable!(),
    }
}
