//! Whether a message is new to the group of the member that judges it, and its predecessors are there.

ghost use Rattle.std.specs.Prelude.{◌≡◌, ◌↔◌, ◌<◌, Bool, IsTrue, MatchOption, Some, length};
ghost use Rattle.causal_history.specs.Rows.{history_of};
ghost use Rattle.group_model.specs.Sets.{Id, In};
ghost use Rattle.group_model.specs.Membership.{ids_named};
ghost use Rattle.group_model.specs.Marks.{IsPlace};
ghost use Rattle.member_view.specs.Causes.{GivesNone, IsFirst};
ghost use Rattle.causal_cast.specs.Judging.{group_of, set_of as set_in};
ghost use Rattle.causal_cast.specs.Verdicts.{on_arrival as arrival};

use crate::verdict::Verdict;
use causal_history::{History, Marks};
use group_fields::HeaderView;
use kem_trait::Kem;
use member_view::Membership;
use wire_codec::PacketView;

// Whether the member at a place is one by all rows of the history.
fn is_member<G: Membership>(history: &History, me: u8) -> bool
    requires { me < length (ids_named (history_of history.now)) }
    ensures { (x : Id) → IsPlace (ids_named (history_of history.now)) me x
        → IsTrue result ↔ In x (G.rule (history_of history.now)) }
{
    let mut all = Marks::new();
    history.mark_all(&mut all);
    let _places = history.places();
    G::members(history, &all, None).has(me)
}

/// The set of a history: that of its first row. None where it has no row.
pub fn set_of(history: &History) -> Option<u8>
    ensures { result ≡ set_in history.now }
{
    if history.count() == 0 {
        return None;
    }
    Some(history.row(0).set())
}

// Whether the message has the set of the keys and the group of the history.
fn is_of_group<K: Kem>(history: &History, header: &HeaderView<'_>) -> bool
    requires { 0 < length history.now }
    ensures { IsTrue result
        ↔ ((header.now.set ≡ K.SET) × (Some header.now.group.0.0 ≡ group_of history.now)) }
{
    header.set() == K::SET && header.group() == history.row(0).group()
}

// The first verdict on the arrival of a message, where one holds.
pub(crate) fn on_arrival<K: Kem, G: Membership>(
    history: &History,
    me: u8,
    packet: &PacketView<'_>,
) -> Option<Verdict>
    requires row { 0 < length history.now }
    requires place { me < length (ids_named (history_of history.now)) }
    ensures { (x : Id) (leaf_left : Bool) → IsPlace (ids_named (history_of history.now)) me x
        → let causes = arrival (record {
          rule = G.rule;
          set = K.SET;
          is_public = K.is_public;
          rows = history.now;
          me = x;
          leaf_left = leaf_left;
        }) packet.now in
        MatchOption result (GivesNone causes) (λ verdict. IsFirst causes verdict) }
{
    let header = packet.header();
    if !is_member::<G>(history, me) {
        return Some(Verdict::Out);
    }
    if !is_of_group::<K>(history, &header) {
        return Some(Verdict::OtherGroup);
    }
    if history.find(&header.id()).is_some() {
        return Some(Verdict::Known);
    }
    match history.missing(&header) {
        Some(id) => Some(Verdict::Waits(id)),
        None => None,
    }
}
