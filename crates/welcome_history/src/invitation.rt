//! Whether a packet takes a member into a group.

ghost use Rattle.std.specs.Prelude.{◌≡◌, ◌≢◌, ◌↔◌, IsTrue, replicate};
ghost use Rattle.group_messages.specs.Messages.{ids_of, message_of};
ghost use Rattle.group_model.specs.Sets.{In};
ghost use Rattle.group_model.specs.Membership.{Names};
ghost use Rattle.welcome_history.specs.Joining.{IsInvitation, Joining};

use crate::cards::is_same;
use group_fields::{Digest, HeaderView, IdsView, MemberId};
use kem_trait::Kem;
use member_view::{Act, act_of};
use wire_codec::PacketView;

// Whether the id is one of the list.
fn has(ids: &IdsView<'_>, id: &MemberId) -> bool
    ensures { IsTrue result ↔ In id.now.0.0 (ids_of ids.now) }
{
    for index in 0..ids.count() {
        if is_same(&MemberId(ids.id(index)), id) {
            return true;
        }
    }
    false
}

// Whether the message names the id as a member.
fn names(header: &HeaderView<'_>, id: &MemberId) -> bool
    ensures { IsTrue result ↔ Names (message_of header.now).kind id.now.0.0 }
{
    match act_of(header) {
        Act::Create(ids) => has(&ids, id),
        Act::Add(target) => target == *id,
        _ => false,
    }
}

// Whether the id is of a member, and not of nobody.
fn is_somebody(id: &MemberId) -> bool
    ensures { IsTrue result ↔ (id.now.0.0 ≢ replicate 32 0) }
{
    *id != MemberId(Digest([0; 32]))
}

/// Whether the packet takes the member into a group: it is of the member's set, by its inviter, who is somebody else,
/// and creates a group with it or adds it.
pub(crate) fn is_invitation<K: Kem>(
    me: &MemberId,
    inviter: &MemberId,
    packet: &PacketView<'_>,
) -> bool
    ensures { (F : Joining) → F.set ≡ K.SET → F.me ≡ me.now.0.0 → F.inviter ≡ inviter.now.0.0
        → IsTrue result ↔ IsInvitation F packet.now }
{
    let header = packet.header();
    let sender = header.sender();
    is_somebody(inviter)
        && header.set() == K::SET
        && sender != *me
        && sender == *inviter
        && names(&header, me)
}
