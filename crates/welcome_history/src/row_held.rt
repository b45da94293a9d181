//! Whether a row may stand behind older ones in the history of a group.

ghost use Rattle.std.specs.Prelude.{◌≡◌, ◌↔◌, List, IsTrue, MatchOption, Some, None, map};
ghost use Rattle.group_fields.specs.Cards.{card_id};
ghost use Rattle.group_messages.specs.Messages.{ids_of, message_of};
ghost use Rattle.group_model.specs.Sets.{Id, In};
ghost use Rattle.group_model.specs.Messages.{Add, Create, Stands};
ghost use Rattle.group_model.specs.Validity.{IsInvited, MayFollow};
ghost use Rattle.causal_history.specs.Rows.{history_of};
ghost use Rattle.member_view.specs.Rules.{ForksNone};
ghost use Rattle.wire_codec.specs.Order.{AreOfSet};
ghost use Rattle.causal_cast.specs.Judging.{inviter_by, inviter_in};
ghost use Rattle.welcome_history.specs.Joining.{Joining, RowHolds};

use crate::cards::card_with;
use causal_history::History;
use group_fields::{CardView, GroupId, HeaderView, IdsView, MemberId};
use kem_trait::Kem;
use member_view::{Act, Membership, act_of, rules};
use wire_codec::HistoryView;

/// The inviter that the card names, where its key is a public key.
pub(crate) fn inviter_in<K: Kem>(card: &CardView<'_>) -> Option<MemberId>
    requires { card.now.set ≡ K.SET }
    ensures { MatchOption result (inviter_in K.is_public card.now ≡ None)
        (λ by. inviter_in K.is_public card.now ≡ Some by.0.0) }
{
    let _bytes = card.bytes();
    if K::public_ok(card.kem_public()) {
        Some(card.inviter())
    } else {
        None
    }
}

// What the cards say of the inviter of an id.
fn inviter_by<K: Kem>(
    welcome: &HistoryView<'_>,
    ids: &[MemberId],
    id: &MemberId,
) -> Option<MemberId>
    requires ids { map (λ id. id.0.0) ids.now ≡ map card_id welcome.now.cards }
    requires of_set { AreOfSet K.SET welcome.now.cards }
    ensures { MatchOption result (inviter_by K.is_public welcome.now.cards id.now.0.0 ≡ None)
        (λ by. inviter_by K.is_public welcome.now.cards id.now.0.0 ≡ Some by.0.0) }
{
    match card_with(welcome, ids, id) {
        Some(card) => inviter_in::<K>(&card),
        None => None,
    }
}

// Whether the cards let the sender add the id.
fn may_add<K: Kem>(
    welcome: &HistoryView<'_>,
    ids: &[MemberId],
    sender: &MemberId,
    id: &MemberId,
) -> bool
    requires ids { map (λ id. id.0.0) ids.now ≡ map card_id welcome.now.cards }
    requires of_set { AreOfSet K.SET welcome.now.cards }
    ensures { IsTrue result
        ↔ (inviter_by K.is_public welcome.now.cards id.now.0.0 ≡ Some sender.now.0.0) }
{
    match inviter_by::<K>(welcome, ids, id) {
        Some(by) => by == *sender,
        None => false,
    }
}

// Whether the cards let the sender create a group with the id.
fn is_invited<K: Kem>(
    welcome: &HistoryView<'_>,
    ids: &[MemberId],
    sender: &MemberId,
    id: &MemberId,
) -> bool
    requires ids { map (λ id. id.0.0) ids.now ≡ map card_id welcome.now.cards }
    requires of_set { AreOfSet K.SET welcome.now.cards }
    ensures { IsTrue result
        ↔ IsInvited (inviter_by K.is_public welcome.now.cards) sender.now.0.0 id.now.0.0 }
{
    match inviter_by::<K>(welcome, ids, id) {
        Some(by) => by == *sender || *id == *sender,
        None => false,
    }
}

// Whether the cards let the sender create a group with each of the members.
fn all_invited<K: Kem>(
    welcome: &HistoryView<'_>,
    ids: &[MemberId],
    sender: &MemberId,
    members: &IdsView<'_>,
) -> bool
    requires ids { map (λ id. id.0.0) ids.now ≡ map card_id welcome.now.cards }
    requires of_set { AreOfSet K.SET welcome.now.cards }
    ensures { IsTrue result ↔ ((y : Id) → In y (ids_of members.now)
        → IsInvited (inviter_by K.is_public welcome.now.cards) sender.now.0.0 y) }
{
    for index in 0..members.count() {
        if !is_invited::<K>(welcome, ids, sender, &MemberId(members.id(index))) {
            return false;
        }
    }
    true
}

// Whether the cards let the sender take in those whom the message names.
fn cards_invite<K: Kem>(
    welcome: &HistoryView<'_>,
    ids: &[MemberId],
    header: &HeaderView<'_>,
) -> bool
    requires ids { map (λ id. id.0.0) ids.now ≡ map card_id welcome.now.cards }
    requires of_set { AreOfSet K.SET welcome.now.cards }
    ensures { let inviter = inviter_by K.is_public welcome.now.cards in
        IsTrue result
        ↔ (((y : Id) → (message_of header.now).kind ≡ Add y → inviter y ≡ Some (message_of header.now).sender)
        × ((members : List Id) → (message_of header.now).kind ≡ Create members → (y : Id) → In y members
        → IsInvited inviter (message_of header.now).sender y)) }
{
    match act_of(header) {
        Act::Create(members) => all_invited::<K>(welcome, ids, &header.sender(), &members),
        Act::Add(id) => may_add::<K>(welcome, ids, &header.sender(), &id),
        _ => true,
    }
}

// Whether the row is new to the older ones.
pub(crate) fn is_new(history: &History, header: &HeaderView<'_>) -> bool
    ensures { IsTrue result ↔ (Stands (history_of history.now) (message_of header.now).id → ⊥) }
{
    match history.find(&header.id()) {
        Some(_) => false,
        None => true,
    }
}

// Whether the row is of the set and of the group, and new, and its predecessors are among the older ones.
fn is_placed<K: Kem>(history: &History, group: &GroupId, header: &HeaderView<'_>) -> bool
    ensures { IsTrue result ↔ ((header.now.set ≡ K.SET) × (header.now.group.0.0 ≡ group.now.0.0)
        × (Stands (history_of history.now) (message_of header.now).id → ⊥)
        × ((i : Id) → In i (message_of header.now).predecessors → Stands (history_of history.now) i)) }
{
    header.set() == K::SET
        && header.group() == *group
        && is_new(history, header)
        && history.missing(header).is_none()
}

// Whether the row is valid over its past by the cards, and forks with none of the older ones.
fn is_valid<K: Kem, G: Membership>(
    history: &History,
    welcome: &HistoryView<'_>,
    ids: &[MemberId],
    header: &HeaderView<'_>,
) -> bool
    requires ids { map (λ id. id.0.0) ids.now ≡ map card_id welcome.now.cards }
    requires of_set { AreOfSet K.SET welcome.now.cards }
    requires stand { (i : Id) → In i (message_of header.now).predecessors → Stands (history_of history.now) i }
    ensures { IsTrue result
        ↔ (MayFollow G.rule (inviter_by K.is_public welcome.now.cards) (history_of history.now) (message_of header.now)
        × ForksNone (history_of history.now) (message_of header.now)) }
{
    match rules::<G>(history, header) {
        Some(_) => false,
        None => cards_invite::<K>(welcome, ids, header),
    }
}

/// Whether the row may stand behind the older ones in the history of the group. It takes no memory.
pub(crate) fn row_holds<K: Kem, G: Membership>(
    history: &History,
    welcome: &HistoryView<'_>,
    ids: &[MemberId],
    group: &GroupId,
    header: &HeaderView<'_>,
) -> bool
    requires ids { map (λ id. id.0.0) ids.now ≡ map card_id welcome.now.cards }
    requires of_set { AreOfSet K.SET welcome.now.cards }
    ensures { (F : Joining) → F.rule ≡ G.rule → F.set ≡ K.SET → F.is_public ≡ K.is_public
        → IsTrue result ↔ RowHolds F group.now.0.0 welcome.now.cards history.now header.now }
{
    is_placed::<K>(history, group, header) && is_valid::<K, G>(history, welcome, ids, header)
}
