//! Whether a member has stepped its ratchet.

ghost use Rattle.std.specs.Prelude.{◌≡◌, ◌<◌, ◌↔◌, IsTrue, length};
ghost use Rattle.causal_history.specs.Rows.{history_of, senders_of};
ghost use Rattle.group_model.specs.Marks.{HasNumber, IsPlace};
ghost use Rattle.group_model.specs.Messages.{Message};
ghost use Rattle.group_model.specs.Sets.{Id};
ghost use Rattle.group_model.specs.Validity.{HasStepped, StepsRatchet};

use causal_history::History;
use group_fields::{Kind, MemberId};
use member_view::{Act, act_of};

// Whether the message at an index steps its sender's ratchet.
fn steps(history: &History, index: u32) -> bool
    requires { index < length history.now }
    ensures { (m : Message) → HasNumber (history_of history.now) index m → IsTrue result ↔ StepsRatchet m.kind }
{
    match history.kind(index) {
        Kind::Text => false,
        Kind::Ack => match act_of(&history.row(index)) {
            Act::Ack(_, took) => took,
            _ => false,
        },
        _ => true,
    }
}

// Whether the message at an index is of the sender with the number, and steps its ratchet.
fn is_step_of(history: &History, number: u16, index: u32) -> bool
    requires { index < length history.now }
    ensures { (x : Id) (m : Message) → IsPlace (senders_of (history_of history.now)) number x
        → HasNumber (history_of history.now) index m
        → IsTrue result ↔ ((m.sender ≡ x) × StepsRatchet m.kind) }
{
    number == history.sender_number(index) && steps(history, index)
}

// Whether a message of the sender with the number steps its ratchet.
fn has_step_of(history: &History, number: u16) -> bool
    ensures { (x : Id) → IsPlace (senders_of (history_of history.now)) number x
        → IsTrue result ↔ HasStepped (history_of history.now) x }
{
    for index in 0..history.count() {
        if is_step_of(history, number, index) {
            return true;
        }
    }
    false
}

// Whether a message of the member steps its ratchet. One pass over the history.
pub(crate) fn has_stepped(history: &History, id: &MemberId) -> bool
    ensures { IsTrue result ↔ HasStepped (history_of history.now) id.now.0.0 }
{
    match history.number_of_sender(id) {
        None => false,
        Some(number) => has_step_of(history, number),
    }
}
