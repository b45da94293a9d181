//! What is drawn for the parts to receivers.

ghost use Rattle.std.specs.Prelude.{◌≡◌, ℕ, map, Any, IsErrOf, IfOk, IsSome, None};
ghost use Rattle.group_model.specs.Sets.{Id, In};
ghost use Rattle.group_keys.specs.Primitives.{primitives_of};
ghost use Rattle.two_party.specs.Drawn.{drawn_for, left_for};
ghost use Rattle.body_parts.specs.Receivers.{ids_to};
ghost use Rattle.body_parts.specs.Sending.{AreDrawnFrom};

use crate::addressing::Receiver;
use group_fields::{MemberId, Memory};
use kem_trait::{Kem, KemRefusal};
use std::alloc::Global;
use two_party::{PartDraws, draw_parts};

// The members that receivers are.
fn members_of(alloc: Global, to: &[Receiver]) -> Result<Vec<MemberId>, Memory>
    ensures { IfOk result (λ members. members.items ≡ map (λ receiver. receiver.member) to.now) }
{
    to.iter().map(|receiver| receiver.member).collect(alloc)
}

/// Draws for one part to each of the receivers, from a step's 32 random bytes, as `draw_parts` does.
///
/// `NoUsableKey` only where the words of some pair give no usable key; then no call with these random bytes and
/// receivers draws. `Memory` where an allocation was refused.
pub fn draw_for<K: Kem>(
    alloc: Global,
    random: &[u8; 32],
    to: &[Receiver],
) -> Result<PartDraws<K>, KemRefusal>
    ensures left { IfOk result (λ drawn. (id : Id) → In id (ids_to to.now) → IsSome (left_for drawn id)) }
    ensures drawn { IfOk result (λ drawn.
        AreDrawnFrom (primitives_of ⟦<K as Kem>⟧) random.now drawn (ids_to to.now)) }
    ensures unusable { IsErrOf result KemRefusal.NoUsableKey
        → Any (λ row. row.left ≡ None) (drawn_for (primitives_of ⟦<K as Kem>⟧) random.now (ids_to to.now)) }
{
    let members = members_of(alloc, to)?;
    draw_parts::<K>(alloc, random, members.as_slice())
}
