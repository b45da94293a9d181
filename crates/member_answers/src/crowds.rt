//! Whom the answer to a message has a part for, before that message is a row of the history.

ghost use Rattle.std.specs.Prelude.{◌≡◌, ◌↔◌, ◌<◌, ◌∷◌, ◌&&◌, ℕ, IsTrue, MatchOption};
ghost use Rattle.causal_history.specs.Bits.{bit};
ghost use Rattle.causal_history.specs.Rows.{history_of};
ghost use Rattle.group_messages.specs.Messages.{message_of};
ghost use Rattle.group_model.specs.Sets.{Id, In};
ghost use Rattle.group_model.specs.Messages.{Add, IsHistory, Message};
ghost use Rattle.group_model.specs.Membership.{IsForwardedTo, IsHandedTo, IsSeeded, ids_named};
ghost use Rattle.group_model.specs.Marks.{IsCrowd, IsPlace};
ghost use Rattle.member_view.specs.Crowds.{StandsWell};
ghost use Rattle.forwarding.specs.Answers.{IsAnswerOf};
ghost use Rattle.member_answers.specs.Plans.{IsAnswerCrowd};

use causal_history::{Crowd, History, Marks};
use group_fields::{HeaderView, MemberId};
use member_view::{Act, Membership, act_of, is_seeded, place_with, view};

// The members by all rows of the history and the operation.
fn members_with<G: Membership>(history: &History, operation: &HeaderView<'_>) -> Crowd
    requires { StandsWell (history_of history.now) (message_of operation.now) (message_of operation.now).kind }
    ensures { IsCrowd (ids_named (message_of operation.now ∷ history_of history.now)) (bit result.0)
        (λ y. In y (G.rule (message_of operation.now ∷ history_of history.now))) }
{
    let mut all = Marks::new();
    history.mark_all(&mut all);
    G::members(history, &all, Some(operation))
}

// The place of the id alone, where the history or the operation names it.
fn alone(history: &History, operation: &HeaderView<'_>, id: &MemberId) -> Crowd
    ensures { IsCrowd (ids_named (message_of operation.now ∷ history_of history.now)) (bit result.0)
        (λ y. id.now.0.0 ≡ y) }
{
    match place_with(history, Some(operation), id) {
        Some(place) => Crowd::new().with(place),
        None => Crowd::new(),
    }
}

// The places in both crowds.
fn both(a: Crowd, b: Crowd) -> Crowd
    ensures { (p : ℕ) → bit result.0 p ≡ (bit a.0 p && bit b.0 p) }
{
    a.without(a.without(b))
}

// Whether two ids are one.
fn is_same(a: &MemberId, b: &MemberId) -> bool
    ensures { IsTrue result ↔ (a.now.0.0 ≡ b.now.0.0) }
{
    *a == *b
}

// Whom the message adds, where it is an add.
fn added_by(header: &HeaderView<'_>) -> Option<MemberId>
    ensures { MatchOption result ((y : Id) → (message_of header.now).kind ≡ Add y → ⊥)
        (λ id. (message_of header.now).kind ≡ Add id.0.0) }
{
    match act_of(header) {
        Act::Add(target) => Some(target),
        _ => None,
    }
}

// Whom the ack of a seeded operation forwards its secret to: who is a member with the operation and doesn't see it, but
// its sender and the member at the place.
fn left_out<G: Membership>(history: &History, place: u8, operation: &HeaderView<'_>) -> Crowd
    requires history { IsHistory (message_of operation.now ∷ history_of history.now) }
    requires well { StandsWell (history_of history.now) (message_of operation.now) (message_of operation.now).kind }
    requires small { place < 64 }
    requires seeded { IsSeeded (message_of operation.now).kind }
    ensures { let h = message_of operation.now ∷ history_of history.now in (m : Message) → IsAnswerOf h place m
        → IsCrowd (ids_named h) (bit result.0) (λ y. IsForwardedTo G.rule h (message_of operation.now).id m y) }
{
    let now = members_with::<G>(history, operation);
    let seen = view::<G>(history, operation);
    let maker = operation.sender();
    let first = alone(history, operation, &maker);
    let own = Crowd::new().with(place);
    let new = now.without(seen);
    let others = new.without(first);
    others.without(own)
}

// Whom the add-ack of the add hands its sender's ratchet to: whom that adds, where it is a member with it.
fn handed<G: Membership>(history: &History, operation: &HeaderView<'_>, target: &MemberId) -> Crowd
    requires history { IsHistory (message_of operation.now ∷ history_of history.now) }
    requires adds { (message_of operation.now).kind ≡ Add target.now.0.0 }
    requires well { StandsWell (history_of history.now) (message_of operation.now) (message_of operation.now).kind }
    ensures { let h = message_of operation.now ∷ history_of history.now in (place : ℕ) (m : Message)
        → IsAnswerOf h place m
        → IsCrowd (ids_named h) (bit result.0) (λ y. IsHandedTo G.rule h (message_of operation.now).id m y) }
{
    let now = members_with::<G>(history, operation);
    let added = alone(history, operation, target);
    both(now, added)
}

// Whom the answer to a seeded operation has a part for.
fn due_to_seeded<G: Membership>(
    history: &History,
    place: u8,
    operation: &HeaderView<'_>,
    took: bool,
) -> Crowd
    requires history { IsHistory (message_of operation.now ∷ history_of history.now) }
    requires well { StandsWell (history_of history.now) (message_of operation.now) (message_of operation.now).kind }
    requires small { place < 64 }
    requires seeded { IsSeeded (message_of operation.now).kind }
    ensures { (me : Id) → IsAnswerCrowd G.rule (message_of operation.now ∷ history_of history.now) place me
        (message_of operation.now) took (bit result.0) }
{
    if took {
        left_out::<G>(history, place, operation)
    } else {
        Crowd::new()
    }
}

// Whom the answer to any other message has a part for.
fn due_to_unseeded<G: Membership>(
    history: &History,
    me: &MemberId,
    operation: &HeaderView<'_>,
    took: bool,
) -> Crowd
    requires history { IsHistory (message_of operation.now ∷ history_of history.now) }
    requires well { StandsWell (history_of history.now) (message_of operation.now) (message_of operation.now).kind }
    requires unseeded { IsSeeded (message_of operation.now).kind → ⊥ }
    ensures { (place : ℕ) → IsAnswerCrowd G.rule (message_of operation.now ∷ history_of history.now) place me.now.0.0
        (message_of operation.now) took (bit result.0) }
{
    match added_by(operation) {
        Some(target) => {
            if is_same(&target, me) {
                Crowd::new()
            } else {
                handed::<G>(history, operation, &target)
            }
        }
        None => Crowd::new(),
    }
}

// Whom the member's answer to a message of another has a part for, whatever answer it makes next: of an ack that took
// those that the operation left out, of the add-ack of an add whom that adds, and else nobody.
pub(crate) fn due_to<G: Membership>(
    history: &History,
    me: &MemberId,
    place: u8,
    operation: &HeaderView<'_>,
    took: bool,
) -> Crowd
    requires history { IsHistory (message_of operation.now ∷ history_of history.now) }
    requires well { StandsWell (history_of history.now) (message_of operation.now) (message_of operation.now).kind }
    requires small { place < 64 }
    ensures { IsAnswerCrowd G.rule (message_of operation.now ∷ history_of history.now) place me.now.0.0
        (message_of operation.now) took (bit result.0) }
{
    if is_seeded(operation.kind()) {
        due_to_seeded::<G>(history, place, operation, took)
    } else {
        due_to_unseeded::<G>(history, me, operation, took)
    }
}
