//! Where a member stands: in a group, or out of it, and with room for one more message.

ghost use Rattle.std.specs.Prelude.{◌≡◌, ◌≢◌, ◌↔◌, ◌≤◌, ◌^◌, [], IsTrue, nat_lt};
ghost use Rattle.causal_history.specs.Rows.{history_of};
ghost use Rattle.group_model.specs.Sets.{In};
ghost use Rattle.group_model.specs.Membership.{ids_named};
ghost use Rattle.group_model.specs.Validity.{count_of};
ghost use Rattle.reference_member.specs.Members.{Member};
ghost use Rattle.reference_member.specs.Refusals.{IsOut, on_joined, on_room};
ghost use Rattle.member_checks.specs.Answers.{AnswersFirst};
ghost use Rattle.member_checks.specs.Seats.{IsSeatOf};

use crate::seat::Seat;
use causal_history::{History, Marks};
use group_fields::MemberId;
use kem_trait::Kem;
use member_view::{Membership, count_of_sender, is_among};
use reference_member::Refusal;

// The most messages that a history may have.
const MESSAGES: u32 = 4096;

/// Whether a member is one by all rows of the history.
pub fn is_member<G: Membership>(history: &History, id: &MemberId) -> bool
    ensures { IsTrue result ↔ In id.now.0.0 (G.rule (history_of history.now)) }
{
    let mut all = Marks::new();
    history.mark_all(&mut all);
    is_among(history, G::members(history, &all, None), id)
}

/// Whether the history names a member.
pub fn is_named(history: &History, id: &MemberId) -> bool
    ensures { IsTrue result ↔ In id.now.0.0 (ids_named (history_of history.now)) }
{
    match history.place(id) {
        None => false,
        Some(_) => true,
    }
}

// Whether the history has no row.
pub(crate) fn is_empty(history: &History) -> bool
    ensures { IsTrue result ↔ (history.now ≡ []) }
{
    history.count() == 0
}

// Whether the member was in a group, and is a member no more.
pub(crate) fn is_out<K: Kem, G: Membership>(seat: &Seat<'_>) -> bool
    ensures { (M : Member) → IsSeatOf ⟦<K as Kem>⟧ M seat.now → IsTrue result ↔ IsOut ⟦<K as Kem>⟧ G.rule M }
{
    !is_empty(seat.history) && !is_member::<G>(seat.history, &seat.me)
}

// The refusal of a command that is asked of who is in a group.
pub(crate) fn joined_refusal<K: Kem, G: Membership>(seat: &Seat<'_>) -> Option<Refusal>
    ensures { (M : Member) → IsSeatOf ⟦<K as Kem>⟧ M seat.now
        → AnswersFirst (on_joined ⟦<K as Kem>⟧ G.rule M) result }
{
    if is_out::<K, G>(seat) {
        return Some(Refusal::Out);
    }
    if is_empty(seat.history) {
        Some(Refusal::NotJoined)
    } else {
        None
    }
}

// Whether fewer messages were made than a tree of the height has leaves.
fn is_below(made: u32, height: u32) -> bool
    requires { height ≤ 10 }
    ensures { result ≡ nat_lt made (2 ^ height) }
{
    made < 1 << height
}

// Whether a leaf is left to sign one more message with.
pub(crate) fn has_leaf(seat: &Seat<'_>) -> bool
    requires { seat.now.height ≤ 10 }
    ensures { result ≡ nat_lt (count_of seat.now.me.0.0 (history_of seat.now.history.now)) (2 ^ seat.now.height) }
{
    is_below(count_of_sender(seat.history, &seat.me), seat.height)
}

// The refusal where there is no room for one more message, or no leaf to sign it with.
pub(crate) fn room_refusal<K: Kem, G: Membership>(seat: &Seat<'_>) -> Option<Refusal>
    requires { seat.now.height ≤ 10 }
    ensures { (M : Member) → IsSeatOf ⟦<K as Kem>⟧ M seat.now
        → AnswersFirst (on_room ⟦<K as Kem>⟧ G.rule M) result }
{
    let count = seat.history.count();
    if count >= MESSAGES {
        return Some(Refusal::HistoryFull(count));
    }
    if has_leaf(seat) {
        None
    } else {
        Some(Refusal::KeysSpent(count_of_sender(seat.history, &seat.me)))
    }
}
