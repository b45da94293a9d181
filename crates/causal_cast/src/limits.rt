//! Whether there is room for a message and for the answer to it.

ghost use Rattle.std.specs.Prelude.{◌≡◌, ◌↔◌, ◌∷◌, ◌+◌, ◌≤◌, ℕ, List, IsTrue, MatchOption, if◌then◌else◌, length};
ghost use Rattle.causal_history.specs.Rows.{history_of};
ghost use Rattle.group_messages.specs.Messages.{message_of};
ghost use Rattle.group_model.specs.Sets.{Id, In};
ghost use Rattle.group_model.specs.Messages.{Create, Stands};
ghost use Rattle.group_model.specs.Membership.{ids_named};
ghost use Rattle.group_model.specs.Validity.{NeedsAnswer};
ghost use Rattle.member_view.specs.Causes.{GivesNone, IsFirst};
ghost use Rattle.member_view.specs.Crowds.{StandsWell};
ghost use Rattle.causal_cast.specs.Verdicts.{on_limits as limits};

use crate::verdict::Verdict;
use causal_history::{History, Marks};
use group_fields::{HeaderView, MemberId};
use kem_trait::Kem;
use member_view::{Act, Membership, act_of, count_of_sender, is_operation, place_with};
use wire_codec::PacketView;

// The most messages that a history may have, and the most ids that it may name.
const MESSAGES: u32 = 4096;

const PLACES: u8 = 32;

// Whether a member is one by all rows of the history and the message of the header.
fn is_member_with<G: Membership>(history: &History, me: &MemberId, header: &HeaderView<'_>) -> bool
    requires { StandsWell (history_of history.now) (message_of header.now) (message_of header.now).kind }
    ensures { IsTrue result ↔ In me.now.0.0 (G.rule (message_of header.now ∷ history_of history.now)) }
{
    let mut all = Marks::new();
    history.mark_all(&mut all);
    let members = G::members(history, &all, Some(header));
    match place_with(history, Some(header), me) {
        None => false,
        Some(place) => members.has(place),
    }
}

// Whether the message of the header is the member's own.
pub(crate) fn is_own(me: &MemberId, header: &HeaderView<'_>) -> bool
    ensures { IsTrue result ↔ ((message_of header.now).sender ≡ me.now.0.0) }
{
    header.sender() == *me
}

/// Whether a member answers the message of the header in the step that takes it: an operation of another, with which it
/// is a member. It takes no memory. A create stands over the empty history or is a row of it.
pub fn needs_answer<G: Membership>(
    history: &History,
    me: &MemberId,
    header: &HeaderView<'_>,
) -> bool
    requires { StandsWell (history_of history.now) (message_of header.now) (message_of header.now).kind }
    ensures { IsTrue result ↔ NeedsAnswer G.rule me.now.0.0 (history_of history.now) (message_of header.now) }
{
    is_operation(header.kind()) && !is_own(me, header) && is_member_with::<G>(history, me, header)
}

// Whether the history has places for whom the message of the header names besides. It is no create.
fn has_places(history: &History, header: &HeaderView<'_>) -> bool
    requires { (members : List Id) → (message_of header.now).kind ≡ Create members → ⊥ }
    ensures { IsTrue result ↔ (length (ids_named (message_of header.now ∷ history_of history.now)) ≤ 32) }
{
    match act_of(header) {
        Act::Add(target) => history.places() < PLACES || history.place(&target).is_some(),
        Act::Create(_) => unreachable!(),
        _ => history.places() <= PLACES,
    }
}

// Whether the history has room for a message, and for an answer where one is needed.
fn has_room(history: &History, answers: bool) -> bool
    ensures { IsTrue result ↔ (length (history_of history.now) + (if answers then 2 else 1) ≤ 4096) }
{
    let more = if answers { 2 } else { 1 };
    history.count() + more <= MESSAGES
}

// Whether the history stays within its limits with the message of the header, and with an answer where one is needed.
fn is_within(history: &History, header: &HeaderView<'_>, answers: bool) -> bool
    requires { (members : List Id) → (message_of header.now).kind ≡ Create members → ⊥ }
    ensures { IsTrue result ↔ ((length (history_of history.now) + (if answers then 2 else 1) ≤ 4096)
        × (length (ids_named (message_of header.now ∷ history_of history.now)) ≤ 32)) }
{
    has_room(history, answers) && has_places(history, header)
}

// The first verdict by the limits, where one holds.
pub(crate) fn on_limits<K: Kem, G: Membership>(
    history: &History,
    me: &MemberId,
    leaf_left: bool,
    packet: &PacketView<'_>,
) -> Option<Verdict>
    requires { (members : List Id) → (message_of packet.now.header).kind ≡ Create members → ⊥ }
    ensures { let causes = limits (record {
      rule = G.rule;
      set = K.SET;
      is_public = K.is_public;
      rows = history.now;
      me = me.now.0.0;
      leaf_left = leaf_left;
    }) packet.now in
        MatchOption result (GivesNone causes) (λ verdict. IsFirst causes verdict) }
{
    let header = packet.header();
    let answers = needs_answer::<G>(history, me, &header);
    if !is_within(history, &header, answers) {
        return Some(Verdict::HistoryFull(history.count()));
    }
    if answers && !leaf_left {
        return Some(Verdict::KeysSpent(count_of_sender(history, me)));
    }
    None
}
