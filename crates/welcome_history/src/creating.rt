//! The verdict on a create that takes the member into a group.

ghost use Rattle.std.specs.Prelude.{◌≡◌, ◌↔◌, ◌∷◌, List, [], IsTrue};
ghost use Rattle.group_fields.specs.Cards.{card_id};
ghost use Rattle.group_fields.specs.declared.card.Card.{Card};
ghost use Rattle.group_messages.specs.Messages.{message_of};
ghost use Rattle.group_model.specs.Sets.{Id, In};
ghost use Rattle.group_model.specs.Messages.{Create};
ghost use Rattle.group_model.specs.Validity.{IsInvited, Opens, SendsParts};
ghost use Rattle.causal_history.specs.Rows.{Row, card_among};
ghost use Rattle.member_view.specs.Causes.{IsFirst};
ghost use Rattle.member_view.specs.Rules.{any_inviter};
ghost use Rattle.causal_cast.specs.Judging.{IsSigned, inviter_by, inviter_in, receivers};
ghost use Rattle.welcome_history.specs.Joining.{Joining, on_create};

use crate::row_held::inviter_in;
use causal_cast::{Verdict, is_signed_under, parts_suit};
use causal_history::History;
use group_fields::{CardView, HeaderView, MemberId};
use group_messages::named_ids_are_few;
use kem_trait::Kem;
use member_view::{Membership, rules};
use std::alloc::Global;
use wire_codec::{PacketView, packets_are_in_order};

// Whether the card is the id's.
fn is_own(card: &CardView<'_>, id: &MemberId) -> bool
    ensures { IsTrue result ↔ (card_id card.now ≡ id.now.0.0) }
{
    card.id() == *id
}

// Whether the card lets the sender create a group with its member.
fn is_invited<K: Kem>(card: &CardView<'_>, sender: &MemberId) -> bool
    requires { card.now.set ≡ K.SET }
    ensures { IsTrue result
        ↔ IsInvited (λ y. inviter_in K.is_public card.now) sender.now.0.0 (card_id card.now) }
{
    match inviter_in::<K>(card) {
        Some(by) => by == *sender || is_own(card, sender),
        None => false,
    }
}

// Whether each of the cards lets the sender create a group with its member.
fn all_invited<K: Kem>(packet: &PacketView<'_>) -> bool
    requires { packet.now.header.set ≡ K.SET }
    ensures { IsTrue result ↔ ((card : Card) → In card packet.now.cards
        → IsInvited (λ y. inviter_in K.is_public card) (message_of packet.now.header).sender (card_id card)) }
{
    let _bytes = packet.bytes();
    packets_are_in_order();
    let header = packet.header();
    let sender = header.sender();
    for index in 0..packet.cards() {
        if !is_invited::<K>(&packet.card(index), &sender) {
            return false;
        }
    }
    true
}

// Whether the create opens a history, where the cards are left open.
fn may_open<G: Membership>(history: &History, header: &HeaderView<'_>) -> bool
    requires empty { history.now ≡ [] }
    requires create { (members : List Id) × ((message_of header.now).kind ≡ Create members) }
    ensures { IsTrue result ↔ Opens (any_inviter (message_of header.now)) (message_of header.now) }
{
    if header.predecessors().count() != 0 {
        return false;
    }
    match rules::<G>(history, header) {
        Some(_) => false,
        None => true,
    }
}

// Whether the create opens a history by its cards.
fn opens<K: Kem, G: Membership>(history: &History, packet: &PacketView<'_>) -> bool
    requires empty { history.now ≡ [] }
    requires set { packet.now.header.set ≡ K.SET }
    requires create { (members : List Id) × ((message_of packet.now.header).kind ≡ Create members) }
    ensures { IsTrue result
        ↔ Opens (inviter_by K.is_public packet.now.cards) (message_of packet.now.header) }
{
    let _bytes = packet.bytes();
    packets_are_in_order();
    named_ids_are_few();
    let header = packet.header();
    may_open::<G>(history, &header) && all_invited::<K>(packet)
}

// Whether the conditions of a create hold, and its parts are for exactly the addressees.
fn suits_create<K: Kem, G: Membership>(history: &History, packet: &PacketView<'_>) -> bool
    requires empty { history.now ≡ [] }
    requires set { packet.now.header.set ≡ K.SET }
    requires create { (members : List Id) × ((message_of packet.now.header).kind ≡ Create members) }
    ensures { IsTrue result
        ↔ (Opens (inviter_by K.is_public packet.now.cards) (message_of packet.now.header)
        × SendsParts G.rule [] (message_of packet.now.header) (receivers packet.now.parts)) }
{
    opens::<K, G>(history, packet) && parts_suit::<G>(history, packet)
}

// The card of the sender, where it is among the cards.
fn card_of_sender<'a>(packet: &PacketView<'a>) -> Option<CardView<'a>>
    ensures { result ≡ card_among packet.now.cards (message_of packet.now.header).sender }
{
    let header = packet.header();
    let sender = header.sender();
    for index in 0..packet.cards() {
        let card = packet.card(index);
        if is_own(&card, &sender) {
            return Some(card);
        }
    }
    None
}

// Whether the sender signed the create under the key in its card.
fn is_signed(packet: &PacketView<'_>) -> bool
    ensures { let row : Row = record { header = packet.now.header; cards = packet.now.cards } in
        IsTrue result ↔ IsSigned (row ∷ []) (message_of packet.now.header) packet.now.signature }
{
    let header = packet.header();
    match card_of_sender(packet) {
        Some(card) => is_signed_under(&card, &header, packet.signature()),
        None => false,
    }
}

/// The verdict on a create that takes the member into a group: by the conditions of a create over the empty history, by
/// its parts, and by the signature. It takes no memory.
pub(crate) fn judge_create<K: Kem, G: Membership>(alloc: Global, packet: &PacketView<'_>) -> Verdict
    requires set { packet.now.header.set ≡ K.SET }
    requires create { (members : List Id) × ((message_of packet.now.header).kind ≡ Create members) }
    ensures { (F : Joining) → F.rule ≡ G.rule → F.set ≡ K.SET → F.is_public ≡ K.is_public
        → IsFirst (on_create F packet.now) result }
{
    let history = History::new(alloc);
    if !suits_create::<K, G>(&history, packet) {
        return Verdict::BadKind;
    }
    if is_signed(packet) {
        Verdict::Ready
    } else {
        Verdict::BadSignature
    }
}
