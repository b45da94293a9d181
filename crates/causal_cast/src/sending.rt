//! Whom a message sends a part to.

ghost use Rattle.std.specs.Prelude.{◌≡◌, ◌∷◌, ◌&&◌, ℕ, MatchOption};
ghost use Rattle.causal_history.specs.Bits.{bit};
ghost use Rattle.causal_history.specs.Rows.{history_of};
ghost use Rattle.group_messages.specs.Messages.{message_of};
ghost use Rattle.group_model.specs.Sets.{Id, In};
ghost use Rattle.group_model.specs.Messages.{Add, Stands};
ghost use Rattle.group_model.specs.Membership.{IsAddressee, IsForwardedTo, IsHandedTo, IsSeeded, MovesNobody};
ghost use Rattle.group_model.specs.Membership.{ids_named};
ghost use Rattle.group_model.specs.Marks.{IsCrowd};
ghost use Rattle.member_view.specs.Crowds.{StandsWell};

use causal_history::{Crowd, History};
use group_fields::{HeaderView, MemberId, MessageId};
use member_view::{Act, Membership, act_of, is_seeded, place_with, recipients, view};

// The places in both crowds.
fn both(a: Crowd, b: Crowd) -> Crowd
    ensures { (p : ℕ) → bit result.0 p ≡ (bit a.0 p && bit b.0 p) }
{
    a.without(a.without(b))
}

// The place of the id alone, where it has one.
fn only(history: &History, header: &HeaderView<'_>, id: &MemberId) -> Crowd
    ensures { IsCrowd (ids_named (message_of header.now ∷ history_of history.now)) (bit result.0)
        (λ y. id.now.0.0 ≡ y) }
{
    match place_with(history, Some(header), id) {
        Some(place) => Crowd::new().with(place),
        None => Crowd::new(),
    }
}

// The row with the id.
fn row_with<'a>(history: &'a History, id: &MessageId) -> Option<HeaderView<'a>>
    ensures { MatchOption result (Stands (history_of history.now) id.now.0.0 → ⊥)
        (λ row. In (message_of row) (history_of history.now) × ((message_of row).id ≡ id.now.0.0)) }
{
    match history.find(id) {
        Some(at) => Some(history.row(at)),
        None => None,
    }
}

// Whom the message adds, where it is an add.
fn added_by(header: &HeaderView<'_>) -> Option<MemberId>
    ensures { MatchOption result ((y : Id) → (message_of header.now).kind ≡ Add y → ⊥)
        (λ id. (message_of header.now).kind ≡ Add id.0.0) }
{
    match act_of(header) {
        Act::Add(target) => Some(target),
        _ => None,
    }
}

// Whom the ack of a seeded operation forwards its secret to: who sees the ack and doesn't see the operation, but the
// senders of both.
fn left_out<G: Membership>(
    history: &History,
    header: &HeaderView<'_>,
    row: &HeaderView<'_>,
) -> Crowd
    requires nobody { MovesNobody (message_of header.now).kind }
    requires create { StandsWell (history_of history.now) (message_of header.now) (message_of header.now).kind }
    requires stand { (i : Id) → In i (message_of header.now).predecessors → Stands (history_of history.now) i }
    requires row { In (message_of row.now) (history_of history.now) }
    requires seeded { IsSeeded (message_of row.now).kind }
    ensures { IsCrowd (ids_named (message_of header.now ∷ history_of history.now)) (bit result.0)
        (λ y. IsForwardedTo G.rule (history_of history.now) (message_of row.now).id (message_of header.now) y) }
{
    let _kept = history.count();
    let seen = view::<G>(history, header);
    let before = view::<G>(history, row);
    let maker = row.sender();
    let answerer = header.sender();
    let first = only(history, header, &maker);
    let own = only(history, header, &answerer);
    let new = seen.without(before);
    let others = new.without(first);
    others.without(own)
}

// Whom the ack of the operation forwards its secret to. Nobody where the operation is not seeded, or not there.
fn forwarded<G: Membership>(
    history: &History,
    header: &HeaderView<'_>,
    operation: &MessageId,
) -> Crowd
    requires nobody { MovesNobody (message_of header.now).kind }
    requires create { StandsWell (history_of history.now) (message_of header.now) (message_of header.now).kind }
    requires stand { (i : Id) → In i (message_of header.now).predecessors → Stands (history_of history.now) i }
    ensures { IsCrowd (ids_named (message_of header.now ∷ history_of history.now)) (bit result.0)
        (λ y. IsForwardedTo G.rule (history_of history.now) operation.now.0.0 (message_of header.now) y) }
{
    let _kept = history.count();
    match row_with(history, operation) {
        None => Crowd::new(),
        Some(row) => {
            if is_seeded(row.kind()) {
                left_out::<G>(history, header, &row)
            } else {
                Crowd::new()
            }
        }
    }
}

// Whom the add-ack of the operation hands the ratchet to: whom that adds, where it sees the add-ack.
fn handed<G: Membership>(history: &History, header: &HeaderView<'_>, operation: &MessageId) -> Crowd
    requires nobody { MovesNobody (message_of header.now).kind }
    requires create { StandsWell (history_of history.now) (message_of header.now) (message_of header.now).kind }
    requires stand { (i : Id) → In i (message_of header.now).predecessors → Stands (history_of history.now) i }
    ensures { IsCrowd (ids_named (message_of header.now ∷ history_of history.now)) (bit result.0)
        (λ y. IsHandedTo G.rule (history_of history.now) operation.now.0.0 (message_of header.now) y) }
{
    let _kept = history.count();
    match row_with(history, operation) {
        None => Crowd::new(),
        Some(row) => match added_by(&row) {
            None => Crowd::new(),
            Some(target) => {
                let seen = view::<G>(history, header);
                let added = only(history, header, &target);
                both(seen, added)
            }
        },
    }
}

/// Whom the message of the header sends a part to. It takes no memory.
///
/// The header's predecessors are in the history, and a create stands over the empty history or is a row of it. Ids that
/// the header names and the history doesn't have the next places, in the order of its target.
pub fn addressees<G: Membership>(history: &History, header: &HeaderView<'_>) -> Crowd
    requires stand { (i : Id) → In i (message_of header.now).predecessors → Stands (history_of history.now) i }
    requires create { StandsWell (history_of history.now) (message_of header.now) (message_of header.now).kind }
    ensures { IsCrowd (ids_named (message_of header.now ∷ history_of history.now)) (bit result.0)
        (λ y. IsAddressee G.rule (history_of history.now) (message_of header.now) (message_of header.now).kind y) }
{
    match act_of(header) {
        Act::Create(_) | Act::Update | Act::Remove(_) => recipients::<G>(history, header),
        Act::Add(target) => only(history, header, &target),
        Act::Ack(operation, true) => forwarded::<G>(history, header, &operation),
        Act::AddAck(operation) => handed::<G>(history, header, &operation),
        Act::Ack(_, false) | Act::Text => Crowd::new(),
    }
}
