//! The book that an add is taken with: who is added has forgotten the senders of what is handed on.

ghost use Rattle.std.specs.Prelude.{◌≡◌, ◌<◌, ◌≤◌, ◌∷◌, List, [], length, cond};
ghost use Rattle.causal_history.specs.Rows.{history_of};
ghost use Rattle.group_model.specs.Marks.{HasNumber, IsPlace};
ghost use Rattle.group_model.specs.Membership.{ids_named};
ghost use Rattle.group_model.specs.Messages.{Message};
ghost use Rattle.group_model.specs.Sets.{In};
ghost use Rattle.add_ops.specs.Moves.{SendersForgotten};

use book_standing::calls_stand;
use causal_history::{History, rows_are_messages};
use kem_trait::Kem;
use secret_book::Book;

// The place of the sender of a row.
fn row_place(history: &History, index: u32) -> u8
    requires row { index < length history.now }
    requires senders { (m : Message) → In m (history_of history.now)
        → In m.sender (ids_named (history_of history.now)) }
    ensures place { (m : Message) → HasNumber (history_of history.now) index m
        → IsPlace (ids_named (history_of history.now)) result m.sender }
    ensures within { result < length (ids_named (history_of history.now)) }
{
    match history.place(&history.row(index).sender()) {
        Some(place) => place,
        None => unreachable!(),
    }
}

// Forgets the sender of a row.
fn forget_sender<K: Kem>(book: &mut Book<K>, history: &History, index: u32)
    requires row { index < length history.now }
    requires senders { (m : Message) → In m (history_of history.now)
        → In m.sender (ids_named (history_of history.now)) }
    requires met { length (ids_named (history_of history.now)) ≤ length book.old.places }
    ensures { (m : Message) → HasNumber (history_of history.now) index m
        → SendersForgotten ⟦<K as Kem>⟧ (ids_named (history_of history.now)) (m ∷ []) book.old book.new }
{
    calls_stand::<K>();
    book.step(row_place(history, index), None);
}

// Forgets the senders of the rows of a history.
fn forget_senders<K: Kem>(book: &mut Book<K>, history: &History)
    requires senders { (m : Message) → In m (history_of history.now)
        → In m.sender (ids_named (history_of history.now)) }
    requires met { length (ids_named (history_of history.now)) ≤ length book.old.places }
    ensures { SendersForgotten ⟦<K as Kem>⟧ (ids_named (history_of history.now)) (history_of history.now)
        book.old book.new }
{
    rows_are_messages();
    for index in 0..history.count() {
        forget_sender::<K>(book, history, index);
    }
}

// Forgets the senders of the rows of a history, where it is handed on to this member.
pub(crate) fn join<K: Kem>(book: &mut Book<K>, history: &History, own: bool)
    requires senders { (m : Message) → In m (history_of history.now)
        → In m.sender (ids_named (history_of history.now)) }
    requires met { length (ids_named (history_of history.now)) ≤ length book.old.places }
    ensures { SendersForgotten ⟦<K as Kem>⟧ (ids_named (history_of history.now)) (cond own (history_of history.now) [])
        book.old book.new }
{
    if own {
        forget_senders::<K>(book, history);
    }
}
