//! The verdict of a member on a text that comes after the history of the group.

ghost use Rattle.std.specs.Prelude.{◌≡◌};

use crate::group::{Group, Size};
use crate::histories::{digest_of, history_of, rows_of};
use crate::signing::{new_tree, signed};
use causal_cast::{Verdict, judge as verdict_on, set_of};
use causal_history::History;
use group_fields::{Bytes, Kind, Target};
use kem_trait::Kem;
use lms_sign::Tree;
use member_view::RemoveWins;
use ntru_prime::Drill37;
use std::alloc::{AllocError, Global};
use wire_codec::PacketView;

/// How many bytes a text of five bytes has with its tag and the length before it.
const TEXT: usize = 39;

/// The packet of the creator's next text, signed.
fn text(alloc: Global, group: &Group, tree: &Tree) -> Result<Bytes, AllocError>
    requires { tree.now.height ≡ 10 }
{
    let mut body = [0u8; TEXT];
    body[1] = 5;
    let header = group.next(alloc, Kind::Text, Target::Nothing, &body)?;
    signed(alloc, group, tree, header.as_slice(), &body)
}

/// Verdicts of another member on the text.
pub(crate) fn judge(alloc: Global, count: u32) -> Result<[u8; 32], AllocError> {
    let tree = new_tree(alloc)?;
    let group = Group::make(alloc, Size::Full, &tree.public())?;
    let rows = rows_of(alloc, &group)?;
    let history = history_of(alloc, &rows)?;
    let bytes = text(alloc, &group, &tree)?;
    let Ok(packet) = PacketView::parse(bytes.as_slice()) else {
        return Ok([0; 32]);
    };
    // Another member: the one at place 0, or at place 1 where that is the sender.
    let me = u8::from(history.place(&group.creator) == Some(0));
    let mut ready = 0u32;
    for number in 0..count {
        ready = ready.wrapping_add(judge_one(&history, number % 2 == 0, me, &packet));
    }
    Ok(digest_of(ready, &packet.header().id().0.0))
}

/// 1 where the packet may be taken, else 0.
fn judge_one(history: &History, leaf_left: bool, me: u8, packet: &PacketView<'_>) -> u32 {
    if set_of(history) != Some(Drill37::SET) || me >= history.places() {
        return 0;
    }
    let verdict = verdict_on::<Drill37, RemoveWins>(history, leaf_left, me, packet);
    u32::from(verdict == Verdict::Ready)
}
