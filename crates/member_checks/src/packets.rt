//! The refusal of a packet: its verdict, where it is another than that the packet is ready.

ghost use Rattle.std.specs.Prelude.{◌≡◌, ◌≢◌, ◌≤◌, [], ◌∷◌, Some, IfOk, MatchOption};
ghost use Rattle.group_model.specs.Sets.{In};
ghost use Rattle.group_model.specs.Membership.{ids_named};
ghost use Rattle.causal_history.specs.Rows.{history_of};
ghost use Rattle.member_view.specs.Causes.{IsFirst};
ghost use Rattle.causal_cast.specs.Judging.{set_of};
ghost use Rattle.causal_cast.specs.Verdicts.{verdicts};
ghost use Rattle.reference_member.specs.Members.{Member, judging};
ghost use Rattle.reference_member.specs.Refusals.{IsVerdict, on_packet, verdicts_over};
ghost use Rattle.member_checks.specs.Answers.{AnswersFirst};
ghost use Rattle.member_checks.specs.Seats.{IsSeated, IsSeatOf};

use crate::seat::Seat;
use crate::standing::{has_leaf, is_empty};
use causal_cast::{Verdict, judge};
use group_fields::Memory;
use kem_trait::Kem;
use member_view::Membership;
use reference_member::Refusal;
use std::alloc::Global;
use welcome_history::judge_first;
use wire_codec::PacketView;

// The verdict on a packet over a history that has a row.
fn judge_over<K: Kem, G: Membership>(seat: &Seat<'_>, packet: &PacketView<'_>) -> Verdict
    requires height { seat.now.height ≤ 10 }
    requires of_set { set_of seat.now.history.now ≡ Some K.SET }
    requires named { In seat.now.me.0.0 (ids_named (history_of seat.now.history.now)) }
    ensures { (M : Member) → IsSeatOf ⟦<K as Kem>⟧ M seat.now
        → IsFirst (verdicts (judging ⟦<K as Kem>⟧ G.rule M) packet.now) result }
{
    let leaf_left = has_leaf(seat);
    match seat.history.place(&seat.me) {
        Some(place) => judge::<K, G>(seat.history, leaf_left, place, packet),
        None => unreachable!(),
    }
}

// The verdict on a packet: over the history, or that on a first packet where there is none.
fn verdict_on<K: Kem, G: Membership>(
    alloc: Global,
    seat: &Seat<'_>,
    packet: &PacketView<'_>,
) -> Result<Verdict, Memory>
    requires height { seat.now.height ≤ 10 }
    requires seated { IsSeated K.SET seat.now }
    ensures { IfOk result (λ verdict. (M : Member) → IsSeatOf ⟦<K as Kem>⟧ M seat.now
        → IsFirst (verdicts_over ⟦<K as Kem>⟧ G.rule M M.rows packet.now) verdict) }
{
    if is_empty(seat.history) {
        judge_first::<K, G>(alloc, &seat.me, &seat.inviter, packet)
    } else {
        Ok(judge_over::<K, G>(seat, packet))
    }
}

// The verdict on the bytes of a packet.
fn verdict_of<K: Kem, G: Membership>(
    alloc: Global,
    seat: &Seat<'_>,
    bytes: &[u8],
) -> Result<Verdict, Memory>
    requires height { seat.now.height ≤ 10 }
    requires seated { IsSeated K.SET seat.now }
    ensures { IfOk result (λ verdict. (M : Member) → IsSeatOf ⟦<K as Kem>⟧ M seat.now
        → IsVerdict ⟦<K as Kem>⟧ G.rule M bytes.now verdict) }
{
    match PacketView::parse(bytes) {
        Ok(packet) => verdict_on::<K, G>(alloc, seat, &packet),
        Err(malformed) => Ok(Verdict::Malformed(malformed.0)),
    }
}

// The refusal of a packet with a verdict.
fn refusal_by(verdict: Verdict) -> Option<Refusal>
    ensures { MatchOption result (verdict ≡ Verdict.Ready)
        (λ refusal. (verdict ≢ Verdict.Ready) × (refusal ≡ Refusal.Packet verdict)) }
{
    match verdict {
        Verdict::Ready => None,
        _ => Some(Refusal::Packet(verdict)),
    }
}

// The refusal of a packet.
pub(crate) fn packet_refusal<K: Kem, G: Membership>(
    alloc: Global,
    seat: &Seat<'_>,
    bytes: &[u8],
) -> Result<Option<Refusal>, Memory>
    requires height { seat.now.height ≤ 10 }
    requires seated { IsSeated K.SET seat.now }
    ensures { IfOk result (λ answer. (M : Member) → IsSeatOf ⟦<K as Kem>⟧ M seat.now
        → AnswersFirst (on_packet ⟦<K as Kem>⟧ G.rule M bytes.now ∷ []) answer) }
{
    let verdict = verdict_of::<K, G>(alloc, seat, bytes)?;
    Ok(refusal_by(verdict))
}
