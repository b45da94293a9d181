ghost use Rattle.std.specs.Prelude.{◌≡◌, IfOk, Some};
ghost use Rattle.group_messages.specs.Messages.{message_of};
ghost use Rattle.group_model.specs.Sets.{Id};
ghost use Rattle.group_model.specs.Messages.{Add};
ghost use Rattle.member_view.specs.Causes.{IsFirst};
ghost use Rattle.welcome_history.specs.Joining.{first_verdicts, on_history};

use crate::cards::card_ids;
use crate::cards_held::cards_hold;
use crate::creating::judge_create;
use crate::invitation::is_invitation;
use crate::rows_judged::judge_rows;
use causal_cast::{Verdict, judge_message};
use group_fields::{MemberId, Memory};
use group_messages::targets_say_the_kind;
use kem_trait::Kem;
use member_view::Membership;
use std::alloc::Global;
use wire_codec::{HistoryView, PacketView, packets_are_in_order};

// The verdict on an add that takes the member into a group: on the history that it hands on, and then over it.
fn judge_add<K: Kem, G: Membership>(
    alloc: Global,
    me: &MemberId,
    packet: &PacketView<'_>,
    welcome: &HistoryView<'_>,
) -> Result<Verdict, Memory>
    requires set { packet.now.header.set ≡ K.SET }
    requires carried { packet.now.history ≡ Some welcome.now }
    requires add { (y : Id) × ((message_of packet.now.header).kind ≡ Add y) }
    ensures { IfOk result (λ verdict. (inviter : Id) → IsFirst (on_history (record {
      rule = G.rule;
      set = K.SET;
      is_public = K.is_public;
      me = me.now.0.0;
      inviter = inviter;
    }) packet.now packet.now.history) verdict) }
{
    let _bytes = packet.bytes();
    packets_are_in_order();
    let ids = card_ids(alloc, welcome)?;
    if !cards_hold::<K>(welcome, ids.as_slice()) {
        return Ok(Verdict::BadWelcome(0));
    }
    match judge_rows::<K, G>(alloc, packet, welcome, ids.as_slice())? {
        Ok(history) => Ok(judge_message::<K, G>(&history, me, true, packet)),
        Err(number) => Ok(Verdict::BadWelcome(number)),
    }
}

/// The first verdict that holds of a packet, for a member that is in no group yet and that only its inviter may take
/// into one. A create is judged by itself, an add by the history that it hands on, and then over this history.
///
/// `Memory` where an allocation was refused.
pub fn judge_first<K: Kem, G: Membership>(
    alloc: Global,
    me: &MemberId,
    inviter: &MemberId,
    packet: &PacketView<'_>,
) -> Result<Verdict, Memory>
    ensures { IfOk result (λ verdict. IsFirst (first_verdicts (record {
      rule = G.rule;
      set = K.SET;
      is_public = K.is_public;
      me = me.now.0.0;
      inviter = inviter.now.0.0;
    }) packet.now) verdict) }
{
    if !is_invitation::<K>(me, inviter, packet) {
        return Ok(Verdict::NotInvited);
    }
    let _bytes = packet.bytes();
    packets_are_in_order();
    targets_say_the_kind();
    match packet.history() {
        Some(welcome) => judge_add::<K, G>(alloc, me, packet, &welcome),
        None => Ok(judge_create::<K, G>(alloc, packet)),
    }
}
