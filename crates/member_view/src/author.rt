//! A sender of a history, and which rows are its own.

ghost use Rattle.std.specs.Prelude.{◌≡◌, ◌<◌, ◌↔◌, IsTrue, length};
ghost use Rattle.causal_history.specs.Bits.{mark};
ghost use Rattle.causal_history.specs.Rows.{history_of};
ghost use Rattle.group_model.specs.Messages.{Message};
ghost use Rattle.group_model.specs.Marks.{HasNumber, marked};
ghost use Rattle.group_model.specs.Validity.{HasStepped, StepsRatchet, count_of};
ghost use Rattle.member_view.specs.Authors.{IsAuthor};

use crate::act::{Act, act_of};
use causal_history::{History, Marks};
use group_fields::{Kind, MemberId};

// A member, with the number by which the history knows it as a sender. None where no row is its own.
#[derive(Clone, Copy, Drop)]
pub(crate) struct Author {
    pub(crate) id: MemberId,
    pub(crate) number: Option<u16>,
}

// The member as a sender.
pub(crate) fn author_of(history: &History, id: MemberId) -> Author
    ensures id { result.id ≡ id }
    ensures author { IsAuthor (history_of history.now) result }
{
    Author {
        id,
        number: history.number_of_sender(&id),
    }
}

// Whether the row at an index is the author's own.
pub(crate) fn is_by(history: &History, index: u32, author: &Author) -> bool
    requires row { index < length history.now }
    requires author { IsAuthor (history_of history.now) author.now }
    ensures { (m : Message) → HasNumber (history_of history.now) index m
        → IsTrue result ↔ (m.sender ≡ author.now.id.0.0) }
{
    match author.number {
        None => false,
        Some(number) => number == history.sender_number(index),
    }
}

// How many of the marked rows are the author's own.
pub(crate) fn count_marked(history: &History, of: &Marks, author: &Author) -> u32
    requires { IsAuthor (history_of history.now) author.now }
    ensures count { result ≡ count_of author.now.id.0.0 (marked (mark of.now) (history_of history.now)) }
    ensures few { result < 4097 }
{
    let mut count = 0;
    for index in 0..history.count() {
        if of.has(index) && is_by(history, index, author) {
            count += 1;
        }
    }
    count
}

/// How many messages of the history the member has sent.
pub fn count_of_sender(history: &History, id: &MemberId) -> u32
    ensures { result ≡ count_of id.now.0.0 (history_of history.now) }
{
    let mut all = Marks::new();
    history.mark_all(&mut all);
    count_marked(history, &all, &author_of(history, *id))
}

// Whether the message at an index steps its sender's ratchet.
fn steps(history: &History, index: u32) -> bool
    requires { index < length history.now }
    ensures { (m : Message) → HasNumber (history_of history.now) index m → IsTrue result ↔ StepsRatchet m.kind }
{
    match history.kind(index) {
        Kind::Text => false,
        Kind::Ack => match act_of(&history.row(index)) {
            Act::Ack(_, took) => took,
            _ => false,
        },
        _ => true,
    }
}

// Whether some marked row of the author steps its ratchet.
pub(crate) fn has_stepped(history: &History, of: &Marks, author: &Author) -> bool
    requires { IsAuthor (history_of history.now) author.now }
    ensures { IsTrue result ↔ HasStepped (marked (mark of.now) (history_of history.now)) author.now.id.0.0 }
{
    for index in 0..history.count() {
        if of.has(index) && is_by(history, index, author) && steps(history, index) {
            return true;
        }
    }
    false
}
