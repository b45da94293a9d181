//! What is asked of the cards of a create or an add: one refusal after the other, each of all cards.

ghost use Rattle.std.specs.Prelude.{◌≡◌, ◌≢◌, ◌⊎◌, ◌↔◌, ◌<◌, ◌+◌, ℕ, List, Some, IsTrue, length, map, slice_get};
ghost use Rattle.group_fields.specs.declared.card.Card.{Card};
ghost use Rattle.group_model.specs.Sets.{In};
ghost use Rattle.group_model.specs.Membership.{ids_named};
ghost use Rattle.causal_history.specs.Rows.{history_of};
ghost use Rattle.reference_member.specs.Members.{Member};
ghost use Rattle.reference_member.specs.Refusals.{on_cards};
ghost use Rattle.member_checks.specs.Answers.{AnswersFirst, FindsItem, IsFirstItem};
ghost use Rattle.member_checks.specs.Facts.{IsFaulty, IsKnown, IsOf, IsOfOther, facts_of};
ghost use Rattle.member_checks.specs.Seats.{IsSeatOf};
ghost use Rattle.member_checks.specs.declared.facts.CardFacts.{CardFacts as Facts};

use crate::facts::CardFacts;
use crate::seat::Seat;
use crate::standing::is_named;
use causal_history::History;
use group_fields::MemberId;
use kem_trait::Kem;
use member_view::Membership;
use reference_member::Refusal;

// Whether two ids are one.
pub(crate) fn is_same(a: &MemberId, b: &MemberId) -> bool
    ensures { IsTrue result ↔ (a.now.0.0 ≡ b.now.0.0) }
{
    *a == *b
}

// The card at an index.
fn card_at(cards: &[CardFacts], index: usize) -> CardFacts
    requires { index < length cards.now }
    ensures { slice_get cards.now index ≡ Some result }
{
    cards[index]
}

// The first card that has a fault.
fn first_fault(cards: &[CardFacts]) -> Option<usize>
    ensures { FindsItem cards.now IsFaulty result }
{
    for index in 0..cards.len() {
        if card_at(cards, index).fault.is_some() {
            return Some(index);
        }
    }
    None
}

// The first card that is the member's own.
fn first_own(cards: &[CardFacts], me: &MemberId) -> Option<usize>
    ensures { FindsItem cards.now (IsOf me.now.0.0) result }
{
    for index in 0..cards.len() {
        if is_same(&card_at(cards, index).id, me) {
            return Some(index);
        }
    }
    None
}

// Whether another card has the id of the one at an index.
fn is_twice(cards: &[CardFacts], index: usize, id: &MemberId) -> bool
    ensures { IsTrue result ↔ ((i : ℕ) × (other : Facts) × (i ≢ index) × (slice_get cards.now i ≡ Some other)
        × (other.id.0.0 ≡ id.now.0.0)) }
{
    for other in 0..cards.len() {
        if other != index && is_same(&card_at(cards, other).id, id) {
            return true;
        }
    }
    false
}

// The first card that is given twice, or whose member the history names.
fn first_known(history: &History, cards: &[CardFacts]) -> Option<usize>
    ensures { FindsItem cards.now (IsKnown (ids_named (history_of history.now)) cards.now) result }
{
    for index in 0..cards.len() {
        let id = card_at(cards, index).id;
        if is_named(history, &id) || is_twice(cards, index, &id) {
            return Some(index);
        }
    }
    None
}

// The first card that names another inviter.
fn first_of_other(cards: &[CardFacts], me: &MemberId) -> Option<usize>
    ensures { FindsItem cards.now (IsOfOther me.now.0.0) result }
{
    for index in 0..cards.len() {
        if !is_same(&card_at(cards, index).inviter, me) {
            return Some(index);
        }
    }
    None
}

// The refusal of the first card that has a fault.
fn fault_refusal(cards: &[CardFacts], index: usize) -> Refusal
    requires { IsFirstItem cards.now IsFaulty index }
    ensures { (card : Facts) (place : ℕ) → slice_get cards.now index ≡ Some card → card.fault ≡ Some place
        → result ≡ Refusal.NotCard (index + 1) place }
{
    let place = card_at(cards, index).fault.unwrap();
    Refusal::NotCard(index as u64 + 1, place)
}

// The refusal by the cards, where one holds.
pub(crate) fn cards_refusal<K: Kem, G: Membership>(
    seat: &Seat<'_>,
    cards: &[CardFacts],
) -> Option<Refusal>
    ensures { (M : Member) (given : List Card) → IsSeatOf ⟦<K as Kem>⟧ M seat.now
        → cards.now ≡ map (facts_of ⟦<K as Kem>⟧) given
        → AnswersFirst (on_cards ⟦<K as Kem>⟧ G.rule M given) result }
{
    if let Some(index) = first_fault(cards) {
        return Some(fault_refusal(cards, index));
    }
    if first_own(cards, &seat.me).is_some() {
        return Some(Refusal::SelfTarget);
    }
    if let Some(index) = first_known(seat.history, cards) {
        return Some(Refusal::AlreadyMember(card_at(cards, index).id));
    }
    match first_of_other(cards, &seat.me) {
        None => None,
        Some(index) => Some(Refusal::WrongInviter(card_at(cards, index).id)),
    }
}
