//! The verdict on a packet.

ghost use Rattle.std.specs.Prelude.{◌≡◌, ◌↔◌, ◌<◌, IsTrue, Some, length};
ghost use Rattle.causal_history.specs.Rows.{history_of};
ghost use Rattle.group_messages.specs.Messages.{message_of};
ghost use Rattle.group_model.specs.Sets.{Id, In};
ghost use Rattle.group_model.specs.Messages.{Stands};
ghost use Rattle.group_model.specs.Membership.{ids_named};
ghost use Rattle.group_model.specs.Marks.{IsPlace};
ghost use Rattle.member_view.specs.Causes.{IsFirst};
ghost use Rattle.causal_cast.specs.Judging.{IsSigned, set_of};
ghost use Rattle.causal_cast.specs.Verdicts.{from_rules, verdicts};

use crate::arriving::on_arrival;
use crate::limits::on_limits;
use crate::rules::on_rules;
use crate::signed::is_signed_under;
use crate::verdict::Verdict;
use causal_history::History;
use group_fields::MemberId;
use kem_trait::Kem;
use member_view::Membership;
use wire_codec::PacketView;

// Whether the sender signed the message under the key in its card.
fn is_signed(history: &History, packet: &PacketView<'_>) -> bool
    ensures { IsTrue result ↔ IsSigned history.now (message_of packet.now.header) packet.now.signature }
{
    let _kept = history.count();
    let header = packet.header();
    match history.place(&header.sender()) {
        None => false,
        Some(place) => is_signed_under(&history.card(place), &header, packet.signature()),
    }
}

/// The first verdict on a message that is new to the history and whose predecessors are there, for a member that need
/// not be named yet, where `leaf_left` says whether it has a leaf left to sign one more message with: by the rules of
/// validity, by the limits, and by the signature. It takes no memory and keeps nothing.
///
/// The history has a row, and the message the set of the key encapsulation.
pub fn judge_message<K: Kem, G: Membership>(
    history: &History,
    me: &MemberId,
    leaf_left: bool,
    packet: &PacketView<'_>,
) -> Verdict
    requires row { 0 < length history.now }
    requires set { packet.now.header.set ≡ K.SET }
    requires stand { (i : Id) → In i (message_of packet.now.header).predecessors
        → Stands (history_of history.now) i }
    requires new { Stands (history_of history.now) (message_of packet.now.header).id → ⊥ }
    ensures { IsFirst (from_rules (record {
      rule = G.rule;
      set = K.SET;
      is_public = K.is_public;
      rows = history.now;
      me = me.now.0.0;
      leaf_left = leaf_left;
    }) packet.now) result }
{
    if let Some(verdict) = on_rules::<K, G>(history, me, packet) {
        return verdict;
    }
    if let Some(verdict) = on_limits::<K, G>(history, me, leaf_left, packet) {
        return verdict;
    }
    if is_signed(history, packet) {
        Verdict::Ready
    } else {
        Verdict::BadSignature
    }
}

/// The first verdict that holds of a packet, for the member at the place `me` of its history, where `leaf_left` says
/// whether it has a leaf left to sign one more message with. It takes no memory and keeps nothing.
///
/// The history has a row, whose set is that of the key encapsulation. `Malformed`, `NotInvited` and `BadWelcome` are
/// never answered: the packet was read, and the member was taken into a group.
pub fn judge<K: Kem, G: Membership>(
    history: &History,
    leaf_left: bool,
    me: u8,
    packet: &PacketView<'_>,
) -> Verdict
    requires set { set_of history.now ≡ Some K.SET }
    requires place { me < length (ids_named (history_of history.now)) }
    ensures { (x : Id) → IsPlace (ids_named (history_of history.now)) me x
        → IsFirst (verdicts (record {
          rule = G.rule;
          set = K.SET;
          is_public = K.is_public;
          rows = history.now;
          me = x;
          leaf_left = leaf_left;
        }) packet.now) result }
{
    if let Some(verdict) = on_arrival::<K, G>(history, me, packet) {
        return verdict;
    }
    judge_message::<K, G>(history, &history.member(me), leaf_left, packet)
}
