//! The conditions of each kind of message over its past.

ghost use Rattle.std.specs.Prelude.{◌≡◌, ◌≢◌, ◌<◌, ◌↔◌, IsTrue, length};
ghost use Rattle.causal_history.specs.Bits.{mark};
ghost use Rattle.causal_history.specs.Rows.{history_of};
ghost use Rattle.group_messages.specs.Messages.{message_of};
ghost use Rattle.group_model.specs.Sets.{Id, In};
ghost use Rattle.group_model.specs.Messages.{Message, Stands};
ghost use Rattle.group_model.specs.Membership.{InView, Named, ids_named};
ghost use Rattle.group_model.specs.Marks.{HasNumber, marked};
ghost use Rattle.group_model.specs.Validity.{MayAck, MayAddAck, MeetsKind};
ghost use Rattle.member_view.specs.Authors.{IsAuthor};
ghost use Rattle.member_view.specs.Crowds.{AreNumbers, StandsWell};
ghost use Rattle.member_view.specs.Rules.{IsPast, SuitsAck, SuitsAddAck, any_inviter};

use crate::act::{Act, act_of};
use crate::author::{Author, has_stepped};
use crate::members::{Membership, has_free_place, is_member, is_named};
use crate::places::{is_same, place_with};
use crate::views::view;
use crate::waiting::adds;
use causal_history::{History, Marks};
use group_fields::{HeaderView, Kind, MemberId, MessageId};

// Whether the member sees the message of the header.
fn sees<G: Membership>(history: &History, header: &HeaderView<'_>, id: &MemberId) -> bool
    requires stand { (i : Id) → In i (message_of header.now).predecessors → Stands (history_of history.now) i }
    requires create { StandsWell (history_of history.now) (message_of header.now) (message_of header.now).kind }
    ensures { IsTrue result ↔ InView G.rule (history_of history.now) (message_of header.now) id.now.0.0 }
{
    let seen_by = view::<G>(history, header);
    match place_with(history, Some(header), id) {
        None => false,
        Some(place) => seen_by.has(place),
    }
}

// Whether the message at an index is seen and not sent by the author.
fn is_recipient_of<G: Membership>(history: &History, index: u32, author: &Author) -> bool
    requires { index < length history.now }
    ensures { (o : Message) → HasNumber (history_of history.now) index o → IsTrue result
        ↔ (InView G.rule (history_of history.now) o author.now.id.0.0 × (author.now.id.0.0 ≢ o.sender)) }
{
    let _count = history.count();
    let row = history.row(index);
    !is_same(&row.sender(), &author.id) && sees::<G>(history, &row, &author.id)
}

// Whether the operation at an index suits an ack of the author.
fn suits_ack<G: Membership>(history: &History, index: u32, author: &Author, took: bool) -> bool
    requires { index < length history.now }
    ensures { (o : Message) → HasNumber (history_of history.now) index o → IsTrue result
        ↔ SuitsAck G.rule (history_of history.now) author.now.id.0.0 took o }
{
    match history.kind(index) {
        Kind::Create | Kind::Update | Kind::Remove => {
            !took || is_recipient_of::<G>(history, index, author)
        }
        Kind::Add => adds(history, index, &author.id),
        Kind::Ack | Kind::AddAck | Kind::Text => false,
    }
}

// Whether the operation at an index suits an add-ack of the author.
fn suits_add_ack(history: &History, index: u32, author: &Author) -> bool
    requires { index < length history.now }
    ensures { (o : Message) → HasNumber (history_of history.now) index o
        → IsTrue result ↔ SuitsAddAck author.now.id.0.0 o }
{
    history.kind(index) == Kind::Add && !adds(history, index, &author.id)
}

// Whether the author may answer the operation by an ack.
fn may_ack<G: Membership>(
    history: &History,
    of: &Marks,
    author: &Author,
    operation: &MessageId,
    took: bool,
) -> bool
    requires { IsPast (history_of history.now) (marked (mark of.now) (history_of history.now)) }
    ensures { IsTrue result ↔ MayAck G.rule (marked (mark of.now) (history_of history.now)) author.now.id.0.0
        operation.now.0.0 took }
{
    match history.find(operation) {
        None => true,
        Some(index) => !of.has(index) || suits_ack::<G>(history, index, author, took),
    }
}

// Whether the author may answer the operation by an add-ack.
fn may_add_ack(history: &History, of: &Marks, author: &Author, operation: &MessageId) -> bool
    ensures { IsTrue result ↔ MayAddAck (marked (mark of.now) (history_of history.now)) author.now.id.0.0
        operation.now.0.0 }
{
    match history.find(operation) {
        None => true,
        Some(index) => !of.has(index) || suits_add_ack(history, index, author),
    }
}

// Whether the author may remove the target: another member.
fn may_remove<G: Membership>(
    history: &History,
    of: &Marks,
    author: &Author,
    target: &MemberId,
) -> bool
    requires { AreNumbers (history_of history.now) (mark of.now) }
    ensures { IsTrue result ↔ (In target.now.0.0 (G.rule (marked (mark of.now) (history_of history.now)))
        × (target.now.0.0 ≢ author.now.id.0.0)) }
{
    is_member::<G>(history, of, target) && !is_same(target, &author.id)
}

// Whether the target may be added, where its card is left open: it is new, and there is a place for it.
fn may_add(history: &History, of: &Marks, target: &MemberId) -> bool
    ensures { IsTrue result ↔ ((Named (marked (mark of.now) (history_of history.now)) target.now.0.0 → ⊥)
        × (length (ids_named (marked (mark of.now) (history_of history.now))) < 32)) }
{
    !is_named(history, of, target) && has_free_place(history, of)
}

// Whether the message of the header, whose sender is the author, meets the conditions of its kind over its past, which
// is marked. Its card is left open.
pub(crate) fn meets_kind<G: Membership>(
    history: &History,
    of: &Marks,
    author: &Author,
    header: &HeaderView<'_>,
) -> bool
    requires past { IsPast (history_of history.now) (marked (mark of.now) (history_of history.now)) }
    requires rows { AreNumbers (history_of history.now) (mark of.now) }
    requires author { IsAuthor (history_of history.now) author.now }
    requires sender { author.now.id ≡ header.now.sender }
    ensures { IsTrue result ↔ MeetsKind G.rule (any_inviter (message_of header.now))
        (marked (mark of.now) (history_of history.now)) (message_of header.now).sender (message_of header.now).kind }
{
    match act_of(header) {
        Act::Create(_) => false,
        Act::Update => true,
        Act::Remove(target) => may_remove::<G>(history, of, author, &target),
        Act::Add(target) => may_add(history, of, &target),
        Act::Ack(operation, took) => may_ack::<G>(history, of, author, &operation, took),
        Act::AddAck(operation) => may_add_ack(history, of, author, &operation),
        Act::Text => has_stepped(history, of, author),
    }
}
