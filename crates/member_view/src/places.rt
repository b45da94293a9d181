//! Places of members: of those that a history names, and behind them of those that one more message names besides.

ghost use Rattle.std.specs.Prelude.{◌≡◌, ◌<◌, ◌≤◌, ◌↔◌, IsTrue, IfSome, MatchOption, length};
ghost use Rattle.causal_history.specs.Bits.{bit};
ghost use Rattle.causal_history.specs.Rows.{history_of};
ghost use Rattle.group_messages.specs.Messages.{ids_of};
ghost use Rattle.group_model.specs.Sets.{In, IsDistinct};
ghost use Rattle.group_model.specs.Membership.{Names, Removes, ids_named, joined};
ghost use Rattle.group_model.specs.Marks.{IsPlace};
ghost use Rattle.member_view.specs.Acts.{act_kind};
ghost use Rattle.member_view.specs.Crowds.{IsAmong, MorePlaces, ids_with, last_of};

use crate::act::{Act, act_of};
use causal_history::{Crowd, History};
use group_fields::{HeaderView, IdsView, MemberId};
use group_messages::named_ids_are_few;

// Whether two ids are one.
pub(crate) fn is_same(a: &MemberId, b: &MemberId) -> bool
    ensures { IsTrue result ↔ (a.now.0.0 ≡ b.now.0.0) }
{
    *a == *b
}

// The place of an id that the history doesn't name, among others that stand behind those that it names.
fn place_among(history: &History, more: &IdsView<'_>, id: &MemberId) -> Option<u8>
    requires distinct { IsDistinct (ids_of more.now) }
    requires few { length more.now ≤ 32 }
    requires new { In id.now.0.0 (ids_named (history_of history.now)) → ⊥ }
    ensures place { MatchOption result
        (In id.now.0.0 (joined (ids_named (history_of history.now)) (ids_of more.now)) → ⊥)
        (λ p. IsPlace (joined (ids_named (history_of history.now)) (ids_of more.now)) p id.now.0.0) }
    ensures small { IfSome result (λ p. p < 64) }
{
    let mut next = history.places();
    for index in 0..more.count() {
        let other = MemberId(more.id(index));
        if is_same(&other, id) {
            return Some(next);
        }
        match history.place(&other) {
            None => next += 1,
            Some(_) => {}
        }
    }
    None
}

/// The place of the id among those that the history names and, behind them, those that the header names besides, in
/// the order of its target. None exactly where it is none of them.
pub fn place_with(history: &History, last: Option<&HeaderView<'_>>, id: &MemberId) -> Option<u8>
    ensures place { MatchOption result (In id.now.0.0 (ids_with (last_of last.entry) (history_of history.now)) → ⊥)
        (λ p. IsPlace (ids_with (last_of last.entry) (history_of history.now)) p id.now.0.0) }
    ensures small { IfSome result (λ p. p < 64) }
{
    if let Some(place) = history.place(id) {
        return Some(place);
    }
    let header = last?;
    let _bytes = header.bytes();
    named_ids_are_few();
    match act_of(header) {
        Act::Create(ids) => place_among(history, &ids, id),
        Act::Add(target) => {
            if is_same(&target, id) {
                Some(history.places())
            } else {
                None
            }
        }
        _ => None,
    }
}

/// Whether the crowd has the place of the id among those that the history names.
pub fn is_among(history: &History, crowd: Crowd, id: &MemberId) -> bool
    ensures { IsTrue result ↔ IsAmong (ids_named (history_of history.now)) (bit crowd.0) id.now.0.0 }
{
    match history.place(id) {
        None => false,
        Some(place) => crowd.has(place),
    }
}

// The crowd with the place of the id.
fn with_id(history: &History, last: Option<&HeaderView<'_>>, id: &MemberId, crowd: Crowd) -> Crowd
    ensures { MorePlaces (ids_with (last_of last.entry) (history_of history.now)) (bit crowd.0) (bit result.0)
        (λ x. id.now.0.0 ≡ x) }
{
    match place_with(history, last, id) {
        None => crowd,
        Some(place) => crowd.with(place),
    }
}

// The crowd with the places of the ids.
fn with_ids(
    history: &History,
    last: Option<&HeaderView<'_>>,
    ids: &IdsView<'_>,
    crowd: Crowd,
) -> Crowd
    ensures { MorePlaces (ids_with (last_of last.entry) (history_of history.now)) (bit crowd.0) (bit result.0)
        (λ x. In x (ids_of ids.now)) }
{
    let mut wider = crowd;
    for index in 0..ids.count() {
        wider = with_id(history, last, &MemberId(ids.id(index)), wider);
    }
    wider
}

/// The crowd with the places of those that a message names as members.
pub(crate) fn with_named(
    history: &History,
    last: Option<&HeaderView<'_>>,
    act: &Act<'_>,
    crowd: Crowd,
) -> Crowd
    ensures { MorePlaces (ids_with (last_of last.entry) (history_of history.now)) (bit crowd.0) (bit result.0)
        (λ x. Names (act_kind act.now) x) }
{
    match act {
        Act::Create(ids) => with_ids(history, last, ids, crowd),
        Act::Add(id) => with_id(history, last, id, crowd),
        _ => crowd,
    }
}

/// The crowd with the place of whom a message removes.
pub(crate) fn with_removed(
    history: &History,
    last: Option<&HeaderView<'_>>,
    act: &Act<'_>,
    crowd: Crowd,
) -> Crowd
    ensures { MorePlaces (ids_with (last_of last.entry) (history_of history.now)) (bit crowd.0) (bit result.0)
        (λ x. Removes (act_kind act.now) x) }
{
    match act {
        Act::Remove(id) => with_id(history, last, id, crowd),
        _ => crowd,
    }
}
