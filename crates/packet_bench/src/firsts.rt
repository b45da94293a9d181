//! The verdict of who is added to the group on the add that takes it in.

use crate::group::{Group, Size};
use crate::histories::digest_of;
use crate::packets::make_add;
use crate::signing::{new_tree, signed};
use causal_cast::Verdict;
use group_fields::MemberId;
use member_view::RemoveWins;
use ntru_prime::Drill37;
use std::alloc::{AllocError, Global};
use welcome_history::judge_first;
use wire_codec::PacketView;

/// Verdicts on the add of a member to the group of a size.
pub(crate) fn judge(alloc: Global, size: Size, count: u32) -> Result<[u8; 32], AllocError> {
    let tree = new_tree(alloc)?;
    let group = Group::make(alloc, size, &tree.public())?;
    let add = make_add(alloc, &group)?;
    let bytes = signed(
        alloc,
        &group,
        &tree,
        add.header.as_slice(),
        add.body.as_slice(),
    )?;
    judge_bytes(alloc, &add.added, &group.creator, bytes.as_slice(), count)
}

/// Verdicts of a member with an inviter on the bytes of a packet.
fn judge_bytes(
    alloc: Global,
    me: &MemberId,
    inviter: &MemberId,
    bytes: &[u8],
    count: u32,
) -> Result<[u8; 32], AllocError> {
    let Ok(packet) = PacketView::parse(bytes) else {
        return Ok([0; 32]);
    };
    let mut ready = 0u32;
    for _ in 0..count {
        ready = ready.wrapping_add(judge_one(alloc, me, inviter, &packet)?);
    }
    Ok(digest_of(ready, &packet.header().id().0.0))
}

/// 1 where the packet may be taken, else 0.
fn judge_one(
    alloc: Global,
    me: &MemberId,
    inviter: &MemberId,
    packet: &PacketView<'_>,
) -> Result<u32, AllocError> {
    let verdict = judge_first::<Drill37, RemoveWins>(alloc, me, inviter, packet)?;
    Ok(u32::from(verdict == Verdict::Ready))
}
