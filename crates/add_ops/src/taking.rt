ghost use Rattle.std.specs.Prelude.{◌≡◌, ◌<◌, ◌∷◌, ℕ, Bool, List, length, cond, None, Some, IsSome, IfSome, IfOk};
ghost use Rattle.std.specs.Prelude.{option_map};
ghost use Rattle.causal_history.specs.Rows.{history_of};
ghost use Rattle.group_messages.specs.Messages.{message_of};
ghost use Rattle.group_model.specs.Marks.{IsPlace};
ghost use Rattle.group_model.specs.Membership.{ids_named};
ghost use Rattle.group_model.specs.Messages.{Add, Message};
ghost use Rattle.group_model.specs.Sets.{Id, In};
ghost use Rattle.group_model.specs.Settings.{Owner};
ghost use Rattle.member_book.specs.Books.{BookState};
ghost use Rattle.opened_parts.specs.Opening.{given_part};
ghost use Rattle.secret_book.specs.HeldBooks.{held};
ghost use Rattle.book_standing.specs.Standing.{HeldStands};
ghost use Rattle.add_ops.specs.Taking.{TakesAdd};

use crate::joining::join;
use crate::moves::{hand_ratchet, move_add, where_own};
use causal_history::History;
use group_fields::{HeaderView, Memory};
use kem_trait::Kem;
use member_view::{Act, act_of, place_with};
use opened_parts::{Taken, open_part, sender_place};
use secret_book::Book;
use std::alloc::Global;

// The place of whom an add adds.
fn added_place(history: &History, add: &HeaderView<'_>) -> u8
    requires { (y : Id) × ((message_of add.now).kind ≡ Add y) }
    ensures place { (y : Id) → (message_of add.now).kind ≡ Add y
        → IsPlace (ids_named (message_of add.now ∷ history_of history.now)) result y }
{
    match act_of(add) {
        Act::Add(target) => match place_with(history, Some(add), &target) {
            Some(place) => place,
            None => unreachable!(),
        },
        _ => unreachable!(),
    }
}

/// Takes an add: opens the part that is for this member, keeps for who is added the input of its ack, and steps the
/// sender's ratchet by "welcome" and then by "add". Where it adds this member, the senders of the history that it hands
/// on are forgotten first, and the ratchet in the part is the sender's. `took` tells whether the part opened, `learned`
/// is the update secret of the add.
///
/// The history is that before the add, for who is added the one that it hands on; an id that the add names and the
/// history doesn't has the next place, and the book has met it. With `Memory`, where an allocation was refused, the book
/// may have moved and is only to be closed.
pub fn take_add<K: Kem>(
    alloc: Global,
    book: &mut Book<K>,
    history: &History,
    me: u8,
    add: &HeaderView<'_>,
    part: Option<&[u8]>,
) -> Result<Taken, Memory>
    requires add { (y : Id) × ((message_of add.now).kind ≡ Add y) }

    // The book has met exactly whom the history and the add name; this member is one of them.
    requires met { length (ids_named (message_of add.now ∷ history_of history.now)) ≡ length book.old.places }
    requires own { me < length book.old.places }
    requires sender { In (message_of add.now).sender (ids_named (message_of add.now ∷ history_of history.now)) }
    requires senders { (m : Message) → In m (history_of history.now)
        → In m.sender (ids_named (history_of history.now)) }
    requires other { IfSome part (λ _. (p : ℕ)
        → IsPlace (ids_named (message_of add.now ∷ history_of history.now)) p (message_of add.now).sender
        → IsSome ((held book.old).pairing p)) }

    // Of each book of the model that the book stands for, whose owner has the place.
    ensures { IfOk result (λ taken. (O : Owner) (state : BookState)
        → IsPlace (ids_named (message_of add.now ∷ history_of history.now)) me O.id
        → HeldStands ⟦<K as Kem>⟧ O (ids_named (message_of add.now ∷ history_of history.now)) (held book.old) state
        → (y : Id) → (message_of add.now).kind ≡ Add y
        → TakesAdd ⟦<K as Kem>⟧ O (history_of history.now) (message_of add.now) y
        (given_part ⟦<K as Kem>⟧ (option_map (λ p. p.now) part.entry)) state taken (held book.new)) }
{
    let place = sender_place(history, add);
    let target = added_place(history, add);
    let own = target == me;
    join::<K>(book, history, own);
    let opened = open_part::<K>(alloc, book, place, part)?;
    hand_ratchet::<K>(book, place, where_own(own, opened));
    let learned = move_add::<K>(book, add, place, target)?;
    Ok(Taken {
        took: opened.is_some(),
        learned,
    })
}
