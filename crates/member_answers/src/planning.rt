//! What is drawn for the answer to an operation, before the operation is taken.

ghost use Rattle.std.specs.Prelude.{◌≤◌, ◌∷◌, length, IfOk, IsErrOf};
ghost use Rattle.causal_history.specs.Bits.{bit};
ghost use Rattle.causal_history.specs.Rows.{history_of};
ghost use Rattle.group_keys.specs.Primitives.{primitives_of};
ghost use Rattle.group_messages.specs.Messages.{message_of};
ghost use Rattle.group_model.specs.Messages.{IsHistory};
ghost use Rattle.group_model.specs.Membership.{ids_named};
ghost use Rattle.group_model.specs.Marks.{IsPlace};
ghost use Rattle.member_view.specs.Crowds.{StandsWell};
ghost use Rattle.body_parts.specs.Receivers.{AreReceivers};
ghost use Rattle.member_answers.specs.Plans.{IsPlanned, LacksAnswerKey};

use crate::crowds::due_to;
use body_parts::{Receiver, draw_for};
use causal_history::{Crowd, History};
use group_fields::{HeaderView, MemberId, Memory};
use kem_trait::{Kem, KemRefusal};
use member_view::Membership;
use next_messages::receivers_of;
use std::alloc::Global;
use two_party::PartDraws;

/// Whom the answer to an operation has parts for, by their places, and what was drawn for these parts. Each draw is
/// spent by the part that is sealed with it.
#[derive(Drop)]
pub struct AnswerPlan<K: Kem> {
    pub to: Crowd,
    pub draws: PartDraws<K>,
}

// The members of a crowd by the history and the operation, ascending by their ids.
fn receivers_with(
    alloc: Global,
    history: &History,
    operation: &HeaderView<'_>,
    to: Crowd,
) -> Result<Vec<Receiver>, Memory>
    requires { length (ids_named (message_of operation.now ∷ history_of history.now)) ≤ 32 }
    ensures { IfOk result (λ receivers.
        AreReceivers (ids_named (message_of operation.now ∷ history_of history.now)) (bit to.0) receivers.items) }
{
    let _bytes = operation.bytes();
    let header = operation.to_header(alloc)?;
    receivers_of(alloc, history, &header, to)
}

/// Plans a member's answer to an operation of another that it is about to take: whom the answer has parts for, and what
/// the step's 32 random bytes draw for each of these. Nothing is changed, so random bytes without a usable key leave
/// the member as it was.
///
/// The history is the one before the operation, which may be its next row; a create stands over the empty history. The
/// place is the member's own among those of the history and, behind them, those that the operation names besides.
/// `took` is whether the operation has a part for the member: the answer is planned as if that opened.
///
/// `NoUsableKey` only where the random bytes give no usable key for one of those whom the answer has a part for.
/// `Memory` where an allocation was refused.
pub fn plan_answer<K: Kem, G: Membership>(
    alloc: Global,
    history: &History,
    me: &MemberId,
    place: u8,
    operation: &HeaderView<'_>,
    took: bool,
    random: &[u8; 32],
) -> Result<AnswerPlan<K>, KemRefusal>
    requires history { IsHistory (message_of operation.now ∷ history_of history.now) }
    requires well { StandsWell (history_of history.now) (message_of operation.now) (message_of operation.now).kind }
    requires few { length (ids_named (message_of operation.now ∷ history_of history.now)) ≤ 32 }
    requires own { IsPlace (ids_named (message_of operation.now ∷ history_of history.now)) place me.now.0.0 }
    ensures planned { IfOk result (λ plan. IsPlanned (primitives_of ⟦<K as Kem>⟧) G.rule
        (message_of operation.now ∷ history_of history.now) place me.now.0.0 (message_of operation.now) took random.now
        (bit plan.to.0) plan.draws) }
    ensures unusable { IsErrOf result KemRefusal.NoUsableKey → LacksAnswerKey (primitives_of ⟦<K as Kem>⟧) G.rule
        (message_of operation.now ∷ history_of history.now) place me.now.0.0 (message_of operation.now) took
        random.now }
{
    let to = due_to::<G>(history, me, place, operation, took);
    let receivers = receivers_with(alloc, history, operation, to)?;
    let draws = draw_for::<K>(alloc, random, receivers.as_slice())?;
    Ok(AnswerPlan { to, draws })
}
