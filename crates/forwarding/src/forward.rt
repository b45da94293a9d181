ghost use Rattle.std.specs.Prelude.{◌≡◌, ◌<◌, length};
ghost use Rattle.causal_history.specs.Bits.{bit};
ghost use Rattle.causal_history.specs.Rows.{history_of};
ghost use Rattle.group_messages.specs.Messages.{message_of};
ghost use Rattle.group_model.specs.Sets.{Id, In};
ghost use Rattle.group_model.specs.Messages.{Message};
ghost use Rattle.group_model.specs.Membership.{IsForwardedTo, IsSeeded, ids_named};
ghost use Rattle.group_model.specs.Marks.{IsCrowd, IsPlace};
ghost use Rattle.forwarding.specs.Answers.{IsAnswerOf};

use causal_history::{Crowd, History, Marks};
use group_fields::{HeaderView, MemberId};
use member_view::{Membership, is_seeded, view};

// The members by all rows of the history.
fn members_now<G: Membership>(history: &History) -> Crowd
    ensures { IsCrowd (ids_named (history_of history.now)) (bit result.0)
        (λ y. In y (G.rule (history_of history.now))) }
{
    let mut all = Marks::new();
    history.mark_all(&mut all);
    G::members(history, &all, None)
}

// The place of the id alone, where the history names it.
fn alone(history: &History, id: &MemberId) -> Crowd
    ensures { IsCrowd (ids_named (history_of history.now)) (bit result.0) (λ y. id.now.0.0 ≡ y) }
{
    match history.place(id) {
        Some(place) => Crowd::new().with(place),
        None => Crowd::new(),
    }
}

// Whom the ack of a seeded operation forwards its secret to: who is a member now and doesn't see the operation, but its
// sender and the acknowledger.
fn left_out<G: Membership>(history: &History, me: u8, operation: &HeaderView<'_>) -> Crowd
    requires place { me < length (ids_named (history_of history.now)) }
    requires row { In (message_of operation.now) (history_of history.now) }
    requires seeded { IsSeeded (message_of operation.now).kind }
    ensures { (m : Message) → IsAnswerOf (history_of history.now) me m
        → IsCrowd (ids_named (history_of history.now)) (bit result.0)
        (λ y. IsForwardedTo G.rule (history_of history.now) (message_of operation.now).id m y) }
{
    let _kept = history.count();
    let now = members_now::<G>(history);
    let met = view::<G>(history, operation);
    let maker = operation.sender();
    let own = history.member(me);
    let first = alone(history, &maker);
    let last = alone(history, &own);
    let new = now.without(met);
    let others = new.without(first);
    others.without(last)
}

/// Whom the ack of an operation forwards its sender's secret to: the members of the whole history, to which the ack is
/// added, that the operation had no part for, but the senders of both. Nobody where the operation is an add. It takes
/// no memory.
///
/// The operation is a row of the history, and the acknowledger is the member at the place `me`.
pub fn forward_to<G: Membership>(history: &History, me: u8, operation: &HeaderView<'_>) -> Crowd
    requires place { me < length (ids_named (history_of history.now)) }
    requires row { In (message_of operation.now) (history_of history.now) }

    // For each ack that the acknowledger may make next, whatever its body.
    ensures { (m : Message) → IsAnswerOf (history_of history.now) me m
        → IsCrowd (ids_named (history_of history.now)) (bit result.0)
        (λ y. IsForwardedTo G.rule (history_of history.now) (message_of operation.now).id m y) }
{
    if is_seeded(operation.kind()) {
        left_out::<G>(history, me, operation)
    } else {
        Crowd::new()
    }
}
