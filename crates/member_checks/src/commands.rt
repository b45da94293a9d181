//! The refusals of the five commands that make a message.

ghost use Rattle.std.specs.Prelude.{◌≤◌, ◌++◌, IfOk};
ghost use Rattle.reference_member.specs.Members.{Member};
ghost use Rattle.reference_member.specs.Refusals.{on_add, on_create, on_joined, on_remove, on_room, on_send};
ghost use Rattle.member_checks.specs.Answers.{AnswersFirst};
ghost use Rattle.member_checks.specs.Inputs.{AreSpelled};
ghost use Rattle.member_checks.specs.Seats.{IsSeatOf};

use crate::cards::{cards_refusal, is_same};
use crate::facts::{facts_of_cards, facts_of_view};
use crate::seat::Seat;
use crate::standing::{is_empty, is_member, is_out, joined_refusal, room_refusal};
use crate::stepped::has_stepped;
use group_fields::{CardView, Cards, MemberId, Memory};
use kem_trait::Kem;
use member_view::Membership;
use reference_member::Refusal;
use std::alloc::Global;

// The most cards of a create, and the most members that a group may name.
const FOUNDERS: usize = 31;

const MEMBERS: u8 = 32;

// The most bytes of a text.
const TEXT: usize = 4096;

// The refusal of a create. It takes no memory where it is refused before its cards are asked.
pub(crate) fn create_refusal<K: Kem, G: Membership>(
    alloc: Global,
    seat: &Seat<'_>,
    cards: &Cards,
) -> Result<Option<Refusal>, Memory>
    requires height { seat.now.height ≤ 10 }
    requires cards { AreSpelled cards.now }
    ensures { IfOk result (λ answer. (M : Member) → IsSeatOf ⟦<K as Kem>⟧ M seat.now
        → AnswersFirst (on_create ⟦<K as Kem>⟧ G.rule M cards.now) answer) }
{
    if is_out::<K, G>(seat) {
        return Ok(Some(Refusal::Out));
    }
    if !is_empty(seat.history) {
        return Ok(Some(Refusal::AlreadyJoined));
    }
    let facts = facts_of_cards::<K>(alloc, cards.as_slice())?;
    if let Some(refusal) = cards_refusal::<K, G>(seat, facts.as_slice()) {
        return Ok(Some(refusal));
    }
    if cards.len() > FOUNDERS {
        return Ok(Some(Refusal::MembersFull));
    }
    Ok(room_refusal::<K, G>(seat))
}

// The refusal of an add.
pub(crate) fn add_refusal<K: Kem, G: Membership>(
    seat: &Seat<'_>,
    card: &CardView<'_>,
) -> Option<Refusal>
    requires { seat.now.height ≤ 10 }
    ensures { (M : Member) → IsSeatOf ⟦<K as Kem>⟧ M seat.now
        → AnswersFirst (on_add ⟦<K as Kem>⟧ G.rule M card.now) result }
{
    if let Some(refusal) = joined_refusal::<K, G>(seat) {
        return Some(refusal);
    }
    let facts = [facts_of_view::<K>(card)];
    if let Some(refusal) = cards_refusal::<K, G>(seat, &facts) {
        return Some(refusal);
    }
    if seat.history.places() >= MEMBERS {
        return Some(Refusal::MembersFull);
    }
    room_refusal::<K, G>(seat)
}

// The refusal of a remove.
pub(crate) fn remove_refusal<K: Kem, G: Membership>(
    seat: &Seat<'_>,
    target: &MemberId,
) -> Option<Refusal>
    requires { seat.now.height ≤ 10 }
    ensures { (M : Member) → IsSeatOf ⟦<K as Kem>⟧ M seat.now
        → AnswersFirst (on_remove ⟦<K as Kem>⟧ G.rule M target.now.0.0) result }
{
    if let Some(refusal) = joined_refusal::<K, G>(seat) {
        return Some(refusal);
    }
    if is_same(target, &seat.me) {
        return Some(Refusal::SelfTarget);
    }
    if !is_member::<G>(seat.history, target) {
        return Some(Refusal::UnknownTarget(*target));
    }
    room_refusal::<K, G>(seat)
}

// The refusal of an update.
pub(crate) fn update_refusal<K: Kem, G: Membership>(seat: &Seat<'_>) -> Option<Refusal>
    requires { seat.now.height ≤ 10 }
    ensures { (M : Member) → IsSeatOf ⟦<K as Kem>⟧ M seat.now
        → AnswersFirst (on_joined ⟦<K as Kem>⟧ G.rule M ++ on_room ⟦<K as Kem>⟧ G.rule M) result }
{
    if let Some(refusal) = joined_refusal::<K, G>(seat) {
        return Some(refusal);
    }
    room_refusal::<K, G>(seat)
}

// The refusal of a text.
pub(crate) fn send_refusal<K: Kem, G: Membership>(seat: &Seat<'_>, text: &[u8]) -> Option<Refusal>
    requires { seat.now.height ≤ 10 }
    ensures { (M : Member) → IsSeatOf ⟦<K as Kem>⟧ M seat.now
        → AnswersFirst (on_send ⟦<K as Kem>⟧ G.rule M text.now) result }
{
    if let Some(refusal) = joined_refusal::<K, G>(seat) {
        return Some(refusal);
    }
    if text.len() > TEXT {
        return Some(Refusal::TextTooLong(text.len() as u64));
    }
    if !has_stepped(seat.history, &seat.me) {
        return Some(Refusal::NoSecret);
    }
    room_refusal::<K, G>(seat)
}
