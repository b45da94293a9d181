//! Membership rules, and the first of them.

ghost use Rattle.std.specs.Prelude.{◌≡◌, ◌<◌, ◌↔◌, ℕ, List, IsTrue, true, false, length};
ghost use Rattle.causal_history.specs.Bits.{bit, mark};
ghost use Rattle.causal_history.specs.Rows.{history_of};
ghost use Rattle.group_messages.specs.Messages.{header_kind};
ghost use Rattle.group_model.specs.Sets.{Id, In};
ghost use Rattle.group_model.specs.Messages.{History as Messages, Kind as MessageKind, Message};
ghost use Rattle.group_model.specs.Membership.{IsMembershipRule, Named, Names, Removes, ids_named, remove_wins};
ghost use Rattle.group_model.specs.Marks.{HasNumber, IsCrowd, marked};
ghost use Rattle.member_view.specs.Acts.{act_kind};
ghost use Rattle.member_view.specs.Crowds.{AreNumbers, MayBeLast, MorePlaces, MovesMore, ids_with, last_of, with_last};

use crate::act::{Act, act_of};
use crate::places::{is_among, with_named, with_removed};
use causal_history::{Crowd, History, Marks};
use group_fields::{HeaderView, Kind, MemberId};

/// A rule that says who is a member of a set of messages.
pub trait Membership {
    /// The members of a set of messages.
    ghost rule: { Messages → List Id };

    /// The answer depends on the set alone; who was in and is out of a set stays out of each larger one; and what else
    /// agreement asks.
    ghost is_rule: { IsMembershipRule rule };

    /// The members of the marked rows, together with `last` where it is given, which needn't be a row. Ids that `last`
    /// names and the history doesn't have the next places, in the order of its target.
    fn members(history: &History, of: &Marks, last: Option<&HeaderView<'_>>) -> Crowd
        requires rows { AreNumbers (history_of history.now) (mark of.now) }
        requires last { MayBeLast (history_of history.now) (mark of.now) (last_of last) }
        ensures { IsCrowd (ids_with (last_of last.entry) (history_of history.now)) (bit result.0)
            (λ x. In x (rule (with_last (last_of last.entry) (marked (mark of.now) (history_of history.now))))) };
}

/// "Remove wins": the members are all whom a create or an add names, less all whom a remove removes.
pub struct RemoveWins;

impl Membership for RemoveWins {
    ghost use Rattle.group_model.specs.Membership.{remove_wins};
    ghost use Rattle.group_model.proofs.RemoveWins.{remove_wins-rule};

    ghost rule = { remove_wins };

    ghost is_rule = { remove_wins-rule };

    fn members(history: &History, of: &Marks, last: Option<&HeaderView<'_>>) -> Crowd {
        members_less_removed(history, of, last)
    }
}

// Whom the messages so far name, and whom they remove.
#[derive(Clone, Copy, Drop)]
struct Moves {
    named: Crowd,
    removed: Crowd,
}

// Whether a message of the kind names or removes a member.
fn moves_members(kind: Kind) -> bool
    ensures { (k : MessageKind) (x : Id) → header_kind k ≡ kind → result ≡ false
        → (Names k x → ⊥) × (Removes k x → ⊥) }
{
    match kind {
        Kind::Create | Kind::Remove | Kind::Add => true,
        _ => false,
    }
}

// What a message does besides.
fn with_act(history: &History, last: Option<&HeaderView<'_>>, act: &Act<'_>, moves: Moves) -> Moves
    ensures { MovesMore (ids_with (last_of last.entry) (history_of history.now)) (bit moves.named.0)
        (bit moves.removed.0) (bit result.named.0) (bit result.removed.0) (act_kind act.now) }
{
    Moves {
        named: with_named(history, last, act, moves.named),
        removed: with_removed(history, last, act, moves.removed),
    }
}

// What the row at an index does besides.
fn with_row(history: &History, last: Option<&HeaderView<'_>>, index: u32, moves: Moves) -> Moves
    requires { index < length history.now }
    ensures { (m : Message) → HasNumber (history_of history.now) index m
        → MovesMore (ids_with (last_of last.entry) (history_of history.now)) (bit moves.named.0)
        (bit moves.removed.0) (bit result.named.0) (bit result.removed.0) m.kind }
{
    if !moves_members(history.kind(index)) {
        return moves;
    }
    with_act(history, last, &act_of(&history.row(index)), moves)
}

// The members by "remove wins".
fn members_less_removed(history: &History, of: &Marks, last: Option<&HeaderView<'_>>) -> Crowd
    ensures { IsCrowd (ids_with (last_of last.entry) (history_of history.now)) (bit result.0)
        (λ x. In x (remove_wins (with_last (last_of last.entry) (marked (mark of.now) (history_of history.now))))) }
{
    let mut moves = Moves {
        named: Crowd::new(),
        removed: Crowd::new(),
    };
    for index in 0..history.count() {
        if of.has(index) {
            moves = with_row(history, last, index, moves);
        }
    }
    if let Some(header) = last {
        moves = with_act(history, last, &act_of(header), moves);
    }
    moves.named.without(moves.removed)
}

// Whom the messages of the marked rows name as members.
pub(crate) fn named(history: &History, of: &Marks) -> Crowd
    ensures { IsCrowd (ids_named (history_of history.now)) (bit result.0)
        (λ x. Named (marked (mark of.now) (history_of history.now)) x) }
{
    let mut crowd = Crowd::new();
    for index in 0..history.count() {
        if of.has(index) {
            crowd = named_with_row(history, index, crowd);
        }
    }
    crowd
}

// Whom the row at an index names besides.
fn named_with_row(history: &History, index: u32, crowd: Crowd) -> Crowd
    requires { index < length history.now }
    ensures { (m : Message) → HasNumber (history_of history.now) index m
        → MorePlaces (ids_named (history_of history.now)) (bit crowd.0) (bit result.0) (λ x. Names m.kind x) }
{
    if !moves_members(history.kind(index)) {
        return crowd;
    }
    with_named(history, None, &act_of(&history.row(index)), crowd)
}

// Whether a message of the marked rows names the member.
pub(crate) fn is_named(history: &History, of: &Marks, id: &MemberId) -> bool
    ensures { IsTrue result ↔ Named (marked (mark of.now) (history_of history.now)) id.now.0.0 }
{
    is_among(history, named(history, of), id)
}

// Whether the member is one of the marked rows.
pub(crate) fn is_member<G: Membership>(history: &History, of: &Marks, id: &MemberId) -> bool
    requires { AreNumbers (history_of history.now) (mark of.now) }
    ensures { IsTrue result ↔ In id.now.0.0 (G.rule (marked (mark of.now) (history_of history.now))) }
{
    is_among(history, G::members(history, of, None), id)
}

// Whether the marked rows name fewer than 32 members.
pub(crate) fn has_free_place(history: &History, of: &Marks) -> bool
    ensures { IsTrue result ↔ (length (ids_named (marked (mark of.now) (history_of history.now))) < 32) }
{
    let _count = history.count();
    !is_full(named(history, of))
}

// Whether the crowd has each of the first 32 places.
fn is_full(crowd: Crowd) -> bool
    ensures { IsTrue result ↔ ((p : ℕ) → p < 32 → bit crowd.0 p ≡ true) }
{
    for place in 0..32 {
        if !crowd.has(place) {
            return false;
        }
    }
    true
}
