ghost use Rattle.std.specs.Prelude.{◌≡◌, ◌≢◌, ◌<◌, ◌∷◌, [], ℕ, length, IsSome, IfSome, IfOk, false, option_map};
ghost use Rattle.causal_history.specs.Rows.{history_of};
ghost use Rattle.group_messages.specs.Messages.{message_of};
ghost use Rattle.group_model.specs.Logs.{Joined, Took};
ghost use Rattle.group_model.specs.Marks.{IsPlace};
ghost use Rattle.group_model.specs.Membership.{IsSeeded, ids_named};
ghost use Rattle.group_model.specs.Messages.{Add, Message, Stands, Text};
ghost use Rattle.group_model.specs.Packets.{Packet, part_for};
ghost use Rattle.group_model.specs.Sets.{Id, In};
ghost use Rattle.group_model.specs.Settings.{Owner};
ghost use Rattle.member_book.specs.Books.{BookState};
ghost use Rattle.member_view.specs.Crowds.{StandsWell};
ghost use Rattle.opened_parts.specs.Opening.{given_part};
ghost use Rattle.secret_book.specs.HeldBooks.{held};
ghost use Rattle.book_standing.specs.Standing.{HeldStands};
ghost use Rattle.book_steps.specs.Entries.{TakesEntry};

use add_ops::{take_add, take_add_ack};
use causal_history::History;
use group_fields::{HeaderView, Memory};
use group_ops::{take_ack, take_seeded};
use kem_trait::Kem;
use member_book::laws::calls_make_the_book;
use member_view::{Act, Membership, act_of, is_seeded};
use opened_parts::Taken;
use secret_book::Book;
use std::alloc::Global;

// What taking an answer told.
fn of_answer(learned: Option<[u8; 32]>) -> Taken
    ensures { result ≡ record { took = false; learned = learned } }
{
    Taken {
        took: false,
        learned,
    }
}

/// Takes a message of another, of any kind but a text, over the history before it: an add adds somebody else. The part
/// that is for this member is opened. `took` tells of an operation whether its part opened, and is false for an answer;
/// `learned` is the update secret of the sender, `None` where it isn't known, and of an ack without `took`.
///
/// The history is that before the message; ids that the message names and the history doesn't have the next places, in
/// their order, and the book has met them. With `Memory`, where an allocation was refused, the book may have moved and
/// is only to be closed.
pub fn take_packet<K: Kem, G: Membership>(
    alloc: Global,
    book: &mut Book<K>,
    history: &History,
    me: u8,
    header: &HeaderView<'_>,
    part: Option<&[u8]>,
) -> Result<Taken, Memory>
    requires no_text { (message_of header.now).kind ≢ Text }

    // What the history has of an operation that sends a seed, and of who sent what an add hands on.
    requires create { StandsWell (history_of history.now) (message_of header.now) (message_of header.now).kind }
    requires stand { IsSeeded (message_of header.now).kind → (i : Id) → In i (message_of header.now).predecessors
        → Stands (history_of history.now) i }
    requires new { IsSeeded (message_of header.now).kind
        → Stands (history_of history.now) (message_of header.now).id → ⊥ }
    requires senders { (y : Id) → (message_of header.now).kind ≡ Add y → (m : Message) → In m (history_of history.now)
        → In m.sender (ids_named (history_of history.now)) }

    // The book has met exactly whom the history and the message name; this member is one of them, and a part is for a
    // member that is not the sender.
    requires met { length (ids_named (message_of header.now ∷ history_of history.now)) ≡ length book.old.places }
    requires own { me < length book.old.places }
    requires sender { In (message_of header.now).sender (ids_named (message_of header.now ∷ history_of history.now)) }
    requires other { IfSome part (λ _. (p : ℕ)
        → IsPlace (ids_named (message_of header.now ∷ history_of history.now)) p (message_of header.now).sender
        → IsSome ((held book.old).pairing p)) }

    // Of each book of the model that the book stands for, whose owner has the place, and each packet of this message.
    ensures { IfOk result (λ taken. (O : Owner) (state : BookState) (p : Packet) → O.rule ≡ G.rule
        → IsPlace (ids_named (message_of header.now ∷ history_of history.now)) me O.id
        → HeldStands ⟦<K as Kem>⟧ O (ids_named (message_of header.now ∷ history_of history.now)) (held book.old) state
        → p.header ≡ message_of header.now
        → part_for p.parts O.id ≡ given_part ⟦<K as Kem>⟧ (option_map (λ p. p.now) part.entry)
        → (message_of header.now).kind ≢ Add O.id
        → TakesEntry ⟦<K as Kem>⟧ O (history_of history.now) (Took p) state taken (held book.new)) }
{
    calls_make_the_book();
    if is_seeded(header.kind()) {
        return take_seeded::<K, G>(alloc, book, history, header, part, None);
    }
    match act_of(header) {
        Act::Add(_) => take_add::<K>(alloc, book, history, me, header, part),
        Act::Ack(_, _) => {
            let learned = take_ack::<K>(alloc, book, history, header, part)?;
            Ok(of_answer(learned))
        }
        Act::AddAck(_) => {
            let learned = take_add_ack::<K>(alloc, book, history, header, part)?;
            Ok(of_answer(learned))
        }
        _ => unreachable!(),
    }
}

/// Joins by the add of this member: the senders of the history that it hands on are forgotten, the part that is for
/// this member is opened, and the ratchet in it is the sender's. `took` tells whether the part opened, `learned` is the
/// update secret of the add.
///
/// The history is the one that the add hands on; this member has the next place behind those that it names, and the
/// book has met it. With `Memory`, where an allocation was refused, the book may have moved and is only to be closed.
pub fn join_by<K: Kem>(
    alloc: Global,
    book: &mut Book<K>,
    history: &History,
    me: u8,
    header: &HeaderView<'_>,
    part: Option<&[u8]>,
) -> Result<Taken, Memory>
    requires add { (y : Id) × ((message_of header.now).kind ≡ Add y) }

    // The book has met exactly whom the history and the add name; this member is one of them.
    requires met { length (ids_named (message_of header.now ∷ history_of history.now)) ≡ length book.old.places }
    requires own { me < length book.old.places }
    requires sender { In (message_of header.now).sender (ids_named (message_of header.now ∷ history_of history.now)) }
    requires senders { (m : Message) → In m (history_of history.now)
        → In m.sender (ids_named (history_of history.now)) }
    requires other { IfSome part (λ _. (p : ℕ)
        → IsPlace (ids_named (message_of header.now ∷ history_of history.now)) p (message_of header.now).sender
        → IsSome ((held book.old).pairing p)) }

    // Of each book of the model that the book stands for, whose owner has the place and is added, and each packet of
    // this add that hands on these rows. Nothing stands in the member's log before.
    ensures { IfOk result (λ taken. (O : Owner) (state : BookState) (p : Packet)
        → IsPlace (ids_named (message_of header.now ∷ history_of history.now)) me O.id
        → HeldStands ⟦<K as Kem>⟧ O (ids_named (message_of header.now ∷ history_of history.now)) (held book.old) state
        → p.header ≡ message_of header.now → p.rows ≡ history_of history.now
        → part_for p.parts O.id ≡ given_part ⟦<K as Kem>⟧ (option_map (λ p. p.now) part.entry)
        → (message_of header.now).kind ≡ Add O.id
        → TakesEntry ⟦<K as Kem>⟧ O [] (Joined p) state taken (held book.new)) }
{
    calls_make_the_book();
    take_add::<K>(alloc, book, history, me, header, part)
}
