//! The first refusal of a step.

ghost use Rattle.std.specs.Prelude.{◌≤◌, None, Some, IfOk};
ghost use Rattle.reference_member.specs.Members.{Member};
ghost use Rattle.reference_member.specs.Refusals.{refusals_of};
ghost use Rattle.member_checks.specs.Answers.{AnswersFirst};
ghost use Rattle.reference_member.specs.Inputs.{input_of};
ghost use Rattle.member_checks.specs.Inputs.{HasSpelledCards};
ghost use Rattle.member_checks.specs.Seats.{IsSeated, IsSeatOf};

use crate::commands::{add_refusal, create_refusal, remove_refusal, send_refusal, update_refusal};
use crate::packets::packet_refusal;
use crate::seat::Seat;
use group_fields::Memory;
use kem_trait::Kem;
use member_view::Membership;
use reference_member::{Input, Refusal};
use std::alloc::Global;

/// The refusal of a step by a member that was made: the first that holds, and None where none holds. The step's random
/// bytes are not asked, so `NoUsableKey` is never answered.
///
/// The seat is judged for each member whose it is. Where its history has a row, it has the set of the key encapsulation
/// and names the member; the height is at most 10, and the cards of a create have spellings.
///
/// `Memory` where an allocation was refused: for the cards of a create, and for a first packet that hands on a history.
pub fn first_refusal<K: Kem, G: Membership>(
    alloc: Global,
    seat: &Seat<'_>,
    input: &Input<'_>,
) -> Result<Option<Refusal>, Memory>
    requires height { seat.now.height ≤ 10 }
    requires seated { IsSeated K.SET seat.now }
    requires cards { HasSpelledCards input.now }
    ensures { IfOk result (λ answer. (M : Member) → IsSeatOf ⟦<K as Kem>⟧ M seat.now
        → AnswersFirst (refusals_of ⟦<K as Kem>⟧ G.rule (Some M) (input_of input.now)) answer) }
{
    match input {
        Input::Init(_, _) => Ok(Some(Refusal::AlreadyMade)),
        Input::Create(cards) => create_refusal::<K, G>(alloc, seat, cards),
        Input::Add(card) => Ok(add_refusal::<K, G>(seat, card)),
        Input::Remove(target) => Ok(remove_refusal::<K, G>(seat, target)),
        Input::Update => Ok(update_refusal::<K, G>(seat)),
        Input::Send(text) => Ok(send_refusal::<K, G>(seat, text)),
        Input::Packet(packet) => packet_refusal::<K, G>(alloc, seat, packet),
    }
}

/// The refusal of a step where there is no member yet: the first step makes it.
pub fn refusal_before_made<K: Kem, G: Membership>(input: &Input<'_>) -> Option<Refusal>
    ensures { AnswersFirst (refusals_of ⟦<K as Kem>⟧ G.rule None (input_of input.now)) result }
{
    match input {
        Input::Init(_, _) => None,
        _ => Some(Refusal::NotMade),
    }
}
