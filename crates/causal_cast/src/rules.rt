//! Whether a message is valid over its past, and its parts are for those that get one.

ghost use Rattle.std.specs.Prelude.{◌≡◌, ◌↔◌, ◌∷◌, ◌<◌, ℕ, Bool, List, IsTrue, MatchOption, Some, length};
ghost use Rattle.causal_history.specs.Bits.{bit};
ghost use Rattle.causal_history.specs.Rows.{history_of};
ghost use Rattle.group_messages.specs.Messages.{message_of};
ghost use Rattle.group_model.specs.Sets.{Id, In};
ghost use Rattle.group_model.specs.Messages.{Add, Create, Stands};
ghost use Rattle.group_model.specs.Membership.{ids_named};
ghost use Rattle.group_model.specs.Validity.{SendsParts};
ghost use Rattle.group_model.specs.Marks.{IsCrowd};
ghost use Rattle.member_view.specs.Causes.{GivesNone, IsFirst};
ghost use Rattle.member_view.specs.Crowds.{StandsWell};
ghost use Rattle.causal_cast.specs.Judging.{inviter_by, inviter_in, receivers as ids_of_parts};
ghost use Rattle.causal_cast.specs.Verdicts.{on_rules as by_rules, verdict_on as verdict_by};

use crate::limits::is_own;
use crate::sending::addressees;
use crate::verdict::Verdict;
use causal_history::{Crowd, History};
use group_fields::{CardView, HeaderView, Kind, MemberId};
use kem_trait::Kem;
use member_view::{Membership, RuleFault, place_with, rules};
use wire_codec::{PacketView, packets_are_in_order};

// Whether the card's key is a public key, and its inviter is this member.
fn is_invited<K: Kem>(card: &CardView<'_>, by: &MemberId) -> bool
    requires { card.now.set ≡ K.SET }
    ensures { IsTrue result ↔ (inviter_in K.is_public card.now ≡ Some by.now.0.0) }
{
    let _bytes = card.bytes();
    K::public_ok(card.kem_public()) && card.inviter() == *by
}

// Whether the card of whom an add names lets its sender add it.
fn cards_suit<K: Kem>(packet: &PacketView<'_>) -> bool
    requires { packet.now.header.set ≡ K.SET }
    ensures { IsTrue result ↔ ((y : Id) → (message_of packet.now.header).kind ≡ Add y
        → inviter_by K.is_public packet.now.cards y ≡ Some (message_of packet.now.header).sender) }
{
    let _bytes = packet.bytes();
    packets_are_in_order();
    let header = packet.header();
    match header.kind() {
        Kind::Add => is_invited::<K>(&packet.card(0), &header.sender()),
        _ => true,
    }
}

// Whether the crowds are one.
fn same(a: Crowd, b: Crowd) -> bool
    ensures { IsTrue result ↔ ((p : ℕ) → bit a.0 p ≡ bit b.0 p) }
{
    a.without(b).is_empty() && b.without(a).is_empty()
}

// The places of those that the parts are for. None where one of them has none.
fn receivers(history: &History, packet: &PacketView<'_>) -> Option<Crowd>
    ensures { let ids = ids_named (message_of packet.now.header ∷ history_of history.now) in
        MatchOption result ((y : Id) × In y (ids_of_parts packet.now.parts) × (In y ids → ⊥))
        (λ crowd. IsCrowd ids (bit crowd.0) (λ y. In y (ids_of_parts packet.now.parts))
        × ((y : Id) → In y (ids_of_parts packet.now.parts) → In y ids)) }
{
    let header = packet.header();
    let mut crowd = Crowd::new();
    for index in 0..packet.parts() {
        let (to, _) = packet.part(index);
        crowd = crowd.with(place_with(history, Some(&header), &to)?);
    }
    Some(crowd)
}

/// Whether the parts of the packet are for exactly the addressees of its message. It takes no memory.
///
/// The message is new to the history and its predecessors are there, and a create stands over the empty history.
pub fn parts_suit<G: Membership>(history: &History, packet: &PacketView<'_>) -> bool
    requires stand { (i : Id) → In i (message_of packet.now.header).predecessors
        → Stands (history_of history.now) i }
    requires new { Stands (history_of history.now) (message_of packet.now.header).id → ⊥ }
    requires create { StandsWell (history_of history.now) (message_of packet.now.header)
        (message_of packet.now.header).kind }
    ensures { IsTrue result ↔ SendsParts G.rule (history_of history.now) (message_of packet.now.header)
        (ids_of_parts packet.now.parts) }
{
    let _kept = history.count();
    let _bytes = packet.bytes();
    packets_are_in_order();
    let header = packet.header();
    match receivers(history, packet) {
        None => false,
        Some(crowd) => same(crowd, addressees::<G>(history, &header)),
    }
}

// Whether the card of whom an add names, and the parts, suit the message.
fn suits_kind<K: Kem, G: Membership>(history: &History, packet: &PacketView<'_>) -> bool
    requires set { packet.now.header.set ≡ K.SET }
    requires stand { (i : Id) → In i (message_of packet.now.header).predecessors
        → Stands (history_of history.now) i }
    requires new { Stands (history_of history.now) (message_of packet.now.header).id → ⊥ }
    requires create { (members : List Id) → (message_of packet.now.header).kind ≡ Create members → ⊥ }
    ensures { IsTrue result
        ↔ (((y : Id) → (message_of packet.now.header).kind ≡ Add y
        → inviter_by K.is_public packet.now.cards y ≡ Some (message_of packet.now.header).sender)
        × SendsParts G.rule (history_of history.now) (message_of packet.now.header) (ids_of_parts packet.now.parts)) }
{
    cards_suit::<K>(packet) && parts_suit::<G>(history, packet)
}

// The verdict on a message that breaks a rule.
fn verdict_on(fault: RuleFault) -> Verdict
    ensures { result ≡ verdict_by fault }
{
    match fault {
        RuleFault::Stranger => Verdict::Stranger,
        RuleFault::NotMember => Verdict::NotMember,
        RuleFault::Forked(id) => Verdict::Forked(id),
        RuleFault::BadOrder => Verdict::BadOrder,
        RuleFault::BadKind => Verdict::BadKind,
    }
}

// The first verdict by the rules of validity, where one holds.
pub(crate) fn on_rules<K: Kem, G: Membership>(
    history: &History,
    me: &MemberId,
    packet: &PacketView<'_>,
) -> Option<Verdict>
    requires row { 0 < length history.now }
    requires set { packet.now.header.set ≡ K.SET }
    requires stand { (i : Id) → In i (message_of packet.now.header).predecessors
        → Stands (history_of history.now) i }
    requires new { Stands (history_of history.now) (message_of packet.now.header).id → ⊥ }
    ensures { (leaf_left : Bool) → let causes = by_rules (record {
      rule = G.rule;
      set = K.SET;
      is_public = K.is_public;
      rows = history.now;
      me = me.now.0.0;
      leaf_left = leaf_left;
    }) packet.now in
        MatchOption result (GivesNone causes) (λ verdict. IsFirst causes verdict) }
{
    let header = packet.header();
    if is_own(me, &header) {
        return Some(Verdict::Stranger);
    }
    match rules::<G>(history, &header) {
        Some(fault) => Some(verdict_on(fault)),
        None => {
            if suits_kind::<K, G>(history, packet) {
                None
            } else {
                Some(Verdict::BadKind)
            }
        }
    }
}
