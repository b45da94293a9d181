//! Which rule of validity a header breaks first.

ghost use Rattle.std.specs.Prelude.{◌≡◌, ◌≢◌, ◌↔◌, ◌<◌, ℕ, IsTrue, MatchOption, Some, None, length};
ghost use Rattle.causal_history.specs.Bits.{mark};
ghost use Rattle.causal_history.specs.Rows.{history_of};
ghost use Rattle.group_messages.specs.Messages.{ids_of, message_of};
ghost use Rattle.group_model.specs.Sets.{Id, In};
ghost use Rattle.group_model.specs.Messages.{Create, IsHistory, Message, Stands, past};
ghost use Rattle.group_model.specs.Marks.{HasNumber, marked};
ghost use Rattle.group_model.specs.Validity.{MayFollow, Opens};
ghost use Rattle.member_view.specs.Authors.{IsAuthor};
ghost use Rattle.member_view.specs.Causes.{GivesNone, IsFirst};
ghost use Rattle.member_view.specs.Rules.{ForksNone, IsForkOf, IsInOrder, IsOldestFork, any_inviter, causes_over};
ghost use Rattle.member_view.specs.Rules.{rule_causes};
ghost use Rattle.member_view.specs.declared.faults.RuleFault.{RuleFault};

use crate::act::{Act, act_of};
use crate::author::{Author, author_of, count_marked, is_by};
use crate::conditions::meets_kind;
use crate::members::{Membership, is_member, is_named};
use crate::places::is_same;
use crate::waiting::is_in_turn;
use causal_history::{History, Marks};
use group_fields::{HeaderView, IdsView, MemberId, MessageId};

/// The first rule of validity that a message breaks, as far as its header and the history tell.
#[derive(Clone, Copy, Debug, PartialEq, Eq, Drop)]
pub enum RuleFault {
    /// No create or add of the message's past names the sender.
    Stranger,
    /// The sender is no member of the message's past.
    NotMember,
    /// The history holds another message of this sender and sequence number. The id is that of the oldest.
    Forked(MessageId),
    /// The sequence number is not the sender's next one, or something is unanswered but what the message answers, or
    /// the predecessors are not the heads of the past.
    BadOrder,
    /// A condition of the kind is not met, or it is a create over a history that has messages.
    BadKind,
}

// Whether the ids have the id.
fn has_id(ids: &IdsView<'_>, id: &MemberId) -> bool
    ensures { IsTrue result ↔ In id.now.0.0 (ids_of ids.now) }
{
    for index in 0..ids.count() {
        if is_same(&MemberId(ids.id(index)), id) {
            return true;
        }
    }
    false
}

// Whether a create of these members opens a history, where the cards are left open.
fn opens(header: &HeaderView<'_>, members: &IdsView<'_>) -> bool
    requires { (message_of header.now).kind ≡ Create (ids_of members.now) }
    ensures { IsTrue result ↔ Opens (any_inviter (message_of header.now)) (message_of header.now) }
{
    header.predecessors().count() == 0 && header.seq() == 1 && has_id(members, &header.sender())
}

// Whether two messages have different ids.
fn is_other(a: &MessageId, b: &MessageId) -> bool
    ensures { IsTrue result ↔ (a.now.0.0 ≢ b.now.0.0) }
{
    *a != *b
}

// Whether the message at an index forks with the one of the header, whose sender is the author.
fn is_fork(history: &History, index: u32, author: &Author, header: &HeaderView<'_>) -> bool
    requires row { index < length history.now }
    requires author { IsAuthor (history_of history.now) author.now }
    requires sender { author.now.id ≡ header.now.sender }
    ensures { (a : Message) → HasNumber (history_of history.now) index a
        → IsTrue result ↔ IsForkOf (message_of header.now) a }
{
    is_by(history, index, author)
        && history.seq(index) == header.seq()
        && is_other(&history.id(index), &header.id())
}

// The oldest message of the history that forks with the one of the header, whose sender is the author.
fn fork(history: &History, author: &Author, header: &HeaderView<'_>) -> Option<MessageId>
    requires author { IsAuthor (history_of history.now) author.now }
    requires sender { author.now.id ≡ header.now.sender }
    ensures { MatchOption result (ForksNone (history_of history.now) (message_of header.now))
        (λ id. IsOldestFork (history_of history.now) (message_of header.now) id) }
{
    for index in 0..history.count() {
        if is_fork(history, index, author, header) {
            return Some(history.id(index));
        }
    }
    None
}

// Whether the message of the header comes in order over its past, which is marked.
fn is_in_order(history: &History, of: &Marks, author: &Author, header: &HeaderView<'_>) -> bool
    requires history { IsHistory (marked (mark of.now) (history_of history.now)) }
    requires author { IsAuthor (history_of history.now) author.now }
    requires sender { author.now.id ≡ header.now.sender }
    ensures { IsTrue result
        ↔ IsInOrder (marked (mark of.now) (history_of history.now)) (message_of header.now) }
{
    header.seq() == count_marked(history, of, author) + 1
        && is_in_turn(history, of, author, header)
        && history.follows_heads(of, header)
}

// The first fault of a message that goes on from its past.
fn fault_over<G: Membership>(history: &History, header: &HeaderView<'_>) -> Option<RuleFault>
    requires { (i : Id) → In i (message_of header.now).predecessors → Stands (history_of history.now) i }
    ensures { let causes = causes_over G.rule (history_of history.now)
        (past (history_of history.now) (message_of header.now).predecessors) (message_of header.now) in
        MatchOption result (GivesNone causes) (λ fault. IsFirst causes fault) }
{
    let _count = history.count();
    let mut past = Marks::new();
    history.mark_past(header, &mut past);
    let author = author_of(history, header.sender());
    if !is_named(history, &past, &author.id) {
        return Some(RuleFault::Stranger);
    }
    if !is_member::<G>(history, &past, &author.id) {
        return Some(RuleFault::NotMember);
    }
    if let Some(id) = fork(history, &author, header) {
        return Some(RuleFault::Forked(id));
    }
    if !is_in_order(history, &past, &author, header) {
        return Some(RuleFault::BadOrder);
    }
    if !meets_kind::<G>(history, &past, &author, header) {
        return Some(RuleFault::BadKind);
    }
    None
}

// The first fault, or none.
fn first_fault<G: Membership>(history: &History, header: &HeaderView<'_>) -> Option<RuleFault>
    requires { (i : Id) → In i (message_of header.now).predecessors → Stands (history_of history.now) i }
    ensures { let causes = rule_causes G.rule (history_of history.now) (message_of header.now) in
        MatchOption result (GivesNone causes) (λ fault. IsFirst causes fault) }
{
    if history.count() == 0 {
        if let Act::Create(members) = act_of(header) {
            if opens(header, &members) {
                return None;
            }
            return Some(RuleFault::BadKind);
        }
    }
    fault_over::<G>(history, header)
}

/// The first fault of the message, in the order of `RuleFault`, that the history and the header alone show. It takes
/// no memory. Cards are left open: each is taken as one whose inviter is the sender.
///
/// The header's predecessors are in the history. Of a create over the empty history the conditions of its kind alone
/// are asked.
pub fn rules<G: Membership>(history: &History, header: &HeaderView<'_>) -> Option<RuleFault>
    requires { (i : Id) → In i (message_of header.now).predecessors → Stands (history_of history.now) i }
    ensures first { (fault : RuleFault) → (result ≡ Some fault)
        ↔ IsFirst (rule_causes G.rule (history_of history.now) (message_of header.now)) fault }
    ensures none { (result ≡ None) ↔ GivesNone (rule_causes G.rule (history_of history.now) (message_of header.now)) }

    // Without a fault the message is valid over its past, up to the card, and forks with no other.
    ensures goes_on { result ≡ None
        → MayFollow G.rule (any_inviter (message_of header.now)) (history_of history.now) (message_of header.now) }
    ensures unforked { result ≡ None → ForksNone (history_of history.now) (message_of header.now) }
{
    first_fault::<G>(history, header)
}
