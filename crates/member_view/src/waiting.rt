//! What waits for a member's answer in a set of rows.

ghost use Rattle.std.specs.Prelude.{◌≡◌, ◌<◌, ◌↔◌, ◌⊎◌, ℕ, IsTrue, Some, true, false, length};
ghost use Rattle.causal_history.specs.Bits.{mark};
ghost use Rattle.causal_history.specs.Rows.{IsKept, history_of};
ghost use Rattle.group_messages.specs.Messages.{message_of};
ghost use Rattle.group_model.specs.Messages.{Add, IsHistory, Message};
ghost use Rattle.group_model.specs.Marks.{HasNumber, marked};
ghost use Rattle.group_model.specs.Plain.{HasAnswered};
ghost use Rattle.group_model.specs.Validity.{Answers, AnswersOne, IsInTurn};
ghost use Rattle.member_view.specs.Authors.{IsAuthor};
ghost use Rattle.member_view.specs.Waiting.{IsOfOthers, IsOlder, MarksMet, MarksThose, WaitsAlone};

use crate::act::{Act, act_of, is_operation};
use crate::author::{Author, is_by};
use crate::places::is_same;
use causal_history::{History, Marks};
use group_fields::{HeaderView, Kind, MemberId, MessageId};

// Whether the message at an index adds the member.
pub(crate) fn adds(history: &History, index: u32, id: &MemberId) -> bool
    requires { index < length history.now }
    ensures { (m : Message) → HasNumber (history_of history.now) index m
        → IsTrue result ↔ (m.kind ≡ Add id.now.0.0) }
{
    if history.kind(index) != Kind::Add {
        return false;
    }
    match act_of(&history.row(index)) {
        Act::Add(target) => is_same(&target, id),
        _ => false,
    }
}

// Whether the predecessors of the message at an index are older than the membership: it is itself, or it is the add of
// the member.
fn leads(history: &History, index: u32, older: &Marks, id: &MemberId) -> bool
    requires row { index < length history.now }
    requires small { index < 4096 }
    ensures { (m : Message) → HasNumber (history_of history.now) index m
        → IsTrue result ↔ ((mark older.now index ≡ true) ⊎ (m.kind ≡ Add id.now.0.0)) }
{
    older.has(index) || adds(history, index, id)
}

// Marks exactly the messages that adds of the member have in their past.
fn mark_older(history: &History, of: &Marks, id: &MemberId, into: &mut Marks)
    requires { IsHistory (marked (mark of.now) (history_of history.now)) }
    ensures { (i : ℕ) (m : Message) → HasNumber (history_of history.now) i m → (mark into.new i ≡ true)
        ↔ IsOlder (marked (mark of.now) (history_of history.now)) id.now.0.0 m }
{
    into.clear();
    let mut index = history.count();
    while index > 0 {
        index -= 1;
        if of.has(index) && leads(history, index, into, id) {
            history.mark_predecessors(index, into);
        }
    }
}

// Marks, besides those that are marked, the message that the one at an index answers, where that is the author's own.
fn mark_answer(history: &History, index: u32, author: &Author, into: &mut Marks)
    requires row { index < length history.now }
    requires kept { IsKept history.now }
    requires author { IsAuthor (history_of history.now) author.now }
    ensures { (m : Message) → HasNumber (history_of history.now) index m
        → MarksThose (history_of history.now) (mark into.old) (mark into.new)
        (λ o. (m.sender ≡ author.now.id.0.0) × Answers m.kind o.id) }
{
    if is_by(history, index, author) {
        if let Some(answered) = history.answered(index) {
            into.put(answered);
        }
    }
}

// Marks, besides those that are marked, the messages that marked ones of the author answer.
fn mark_answered(history: &History, of: &Marks, author: &Author, into: &mut Marks)
    requires { IsAuthor (history_of history.now) author.now }
    ensures { MarksThose (history_of history.now) (mark into.old) (mark into.new)
        (λ o. HasAnswered (marked (mark of.now) (history_of history.now)) author.now.id.0.0 o.id) }
{
    for index in 0..history.count() {
        if of.has(index) {
            mark_answer(history, index, author, into);
        }
    }
}

// Marks exactly the messages of which nothing is left to the author.
fn mark_met(history: &History, of: &Marks, author: &Author, into: &mut Marks)
    requires history { IsHistory (marked (mark of.now) (history_of history.now)) }
    requires author { IsAuthor (history_of history.now) author.now }
    ensures { MarksMet (history_of history.now) (marked (mark of.now) (history_of history.now)) author.now.id.0.0
        (mark into.new) }
{
    mark_older(history, of, &author.id, into);
    mark_answered(history, of, author, into);
}

// Whether the message at an index is a marked operation of others that isn't met.
fn waits(history: &History, of: &Marks, met: &Marks, author: &Author, index: u32) -> bool
    requires row { index < length history.now }
    requires small { index < 4096 }
    requires author { IsAuthor (history_of history.now) author.now }
    ensures { (m : Message) → HasNumber (history_of history.now) index m → IsTrue result
        ↔ ((mark of.now index ≡ true) × (mark met.now index ≡ false) × IsOfOthers m author.now.id.0.0) }
{
    of.has(index)
        && !met.has(index)
        && is_operation(history.kind(index))
        && !is_by(history, index, author)
}

// Whether the number is given, and is this one.
fn is_number(number: Option<u32>, index: u32) -> bool
    ensures { IsTrue result ↔ (number ≡ Some index) }
{
    match number {
        None => false,
        Some(given) => given == index,
    }
}

// Whether nothing waits for the author but the message with the number, where one is given.
fn waits_alone(
    history: &History,
    of: &Marks,
    met: &Marks,
    author: &Author,
    number: Option<u32>,
) -> bool
    requires history { IsHistory (marked (mark of.now) (history_of history.now)) }
    requires author { IsAuthor (history_of history.now) author.now }
    requires met { MarksMet (history_of history.now) (marked (mark of.now) (history_of history.now)) author.now.id.0.0
        (mark met.now) }
    ensures { IsTrue result ↔ WaitsAlone (history_of history.now) (marked (mark of.now) (history_of history.now))
        author.now.id.0.0 number }
{
    for index in 0..history.count() {
        if !is_number(number, index) && waits(history, of, met, author, index) {
            return false;
        }
    }
    true
}

// Whether the operation alone waits for the author.
fn answers_one(
    history: &History,
    of: &Marks,
    met: &Marks,
    author: &Author,
    operation: &MessageId,
) -> bool
    requires history { IsHistory (marked (mark of.now) (history_of history.now)) }
    requires author { IsAuthor (history_of history.now) author.now }
    requires met { MarksMet (history_of history.now) (marked (mark of.now) (history_of history.now)) author.now.id.0.0
        (mark met.now) }
    ensures { IsTrue result ↔ AnswersOne (marked (mark of.now) (history_of history.now)) author.now.id.0.0
        operation.now.0.0 }
{
    match history.find(operation) {
        None => false,
        Some(index) => {
            waits(history, of, met, author, index)
                && waits_alone(history, of, met, author, Some(index))
        }
    }
}

// Whether it is the author's turn to send the message of the header: nothing waits for the author but what the message
// answers.
pub(crate) fn is_in_turn(
    history: &History,
    of: &Marks,
    author: &Author,
    header: &HeaderView<'_>,
) -> bool
    requires history { IsHistory (marked (mark of.now) (history_of history.now)) }
    requires author { IsAuthor (history_of history.now) author.now }
    ensures { IsTrue result ↔ IsInTurn (marked (mark of.now) (history_of history.now)) author.now.id.0.0
        (message_of header.now).kind }
{
    let mut met = Marks::new();
    mark_met(history, of, author, &mut met);
    match act_of(header) {
        Act::Ack(operation, _) => answers_one(history, of, &met, author, &operation),
        Act::AddAck(operation) => answers_one(history, of, &met, author, &operation),
        _ => waits_alone(history, of, &met, author, None),
    }
}
