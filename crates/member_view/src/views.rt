//! Who sees a message, and whom it sends a part to.

ghost use Rattle.std.specs.Prelude.{◌∷◌};
ghost use Rattle.causal_history.specs.Bits.{bit};
ghost use Rattle.causal_history.specs.Rows.{history_of};
ghost use Rattle.group_messages.specs.Messages.{message_of};
ghost use Rattle.group_model.specs.Sets.{Id, In};
ghost use Rattle.group_model.specs.Messages.{Stands};
ghost use Rattle.group_model.specs.Membership.{InView, IsRecipient, ids_named};
ghost use Rattle.group_model.specs.Marks.{IsCrowd};
ghost use Rattle.member_view.specs.Crowds.{StandsWell};

use crate::members::Membership;
use crate::places::place_with;
use causal_history::{Crowd, History, Marks};
use group_fields::HeaderView;

/// Who sees the message of the header: the members of it and its past. It takes no memory.
///
/// The header's predecessors are in the history, and a create stands over the empty history or is a row of it. Ids that
/// the header names and the history doesn't have the next places, in the order of its target.
pub fn view<G: Membership>(history: &History, header: &HeaderView<'_>) -> Crowd
    requires stand { (i : Id) → In i (message_of header.now).predecessors → Stands (history_of history.now) i }
    requires create { StandsWell (history_of history.now) (message_of header.now) (message_of header.now).kind }
    ensures { IsCrowd (ids_named (message_of header.now ∷ history_of history.now)) (bit result.0)
        (λ x. InView G.rule (history_of history.now) (message_of header.now) x) }
{
    let _count = history.count();
    let mut past = Marks::new();
    history.mark_past(header, &mut past);
    G::members(history, &past, Some(header))
}

/// Whom the create, update or remove of the header sends a part to: who sees it, but its sender. It takes no memory.
///
/// The conditions and the places are those of `view`.
pub fn recipients<G: Membership>(history: &History, header: &HeaderView<'_>) -> Crowd
    requires stand { (i : Id) → In i (message_of header.now).predecessors → Stands (history_of history.now) i }
    requires create { StandsWell (history_of history.now) (message_of header.now) (message_of header.now).kind }
    ensures { IsCrowd (ids_named (message_of header.now ∷ history_of history.now)) (bit result.0)
        (λ x. IsRecipient G.rule (history_of history.now) (message_of header.now) x) }
{
    let seen_by = view::<G>(history, header);
    match place_with(history, Some(header), &header.sender()) {
        None => seen_by,
        Some(place) => seen_by.without(Crowd::new().with(place)),
    }
}
