//! Whom the parts of a message are for.

ghost use Rattle.std.specs.Prelude.{◌≡◌, ◌≤◌, length, map, IfOk, OnOk};
ghost use Rattle.std.specs.List.{insert};
ghost use Rattle.std.specs.Ordering.{nat_cmp, is_lt};
ghost use Rattle.std.specs.Cmp.Lexicographic.{slice_cmp};
ghost use Rattle.group_model.specs.Membership.{ids_named};
ghost use Rattle.group_model.specs.Plain.{place};
ghost use Rattle.group_model.specs.Sets.{IsDistinct};
ghost use Rattle.causal_history.specs.Bits.{bit};
ghost use Rattle.causal_history.specs.Rows.{history_of};
ghost use Rattle.body_parts.specs.Receivers.{AreReceivers, id_to, ids_to};

use causal_history::{Crowd, History};
use group_fields::{MemberId, Memory};
use std::alloc::Global;

/// Whom a part is for: a member, and its place in the history and in the book.
#[derive(Clone, Copy)]
pub struct Receiver {
    pub place: u8,
    pub member: MemberId,
}

// Whether an id comes before another, byte by byte.
fn is_before(id: &[u8; 32], other: &[u8; 32]) -> bool
    ensures { result ≡ is_lt (slice_cmp nat_cmp id.now other.now) }
{
    id.as_slice().cmp(other.as_slice()).is_lt()
}

// How many receivers stand before the first whose id doesn't come before this one.
fn place_for(to: &[Receiver], id: &[u8; 32]) -> usize
    ensures place { result ≡ place (ids_to to.now) id.now }
    ensures most { result ≤ length to.now }
{
    for i in 0..to.len() {
        if !is_before(&to[i].member.0.0, id) {
            return i;
        }
    }
    to.len()
}

// Puts a receiver at its place in the order of ids.
fn put(to: &mut Vec<Receiver>, receiver: Receiver) -> Result<(), Memory>
    ensures { OnOk result
        (to.new.items ≡ insert to.old.items (place (ids_to to.old.items) (id_to receiver)) receiver) }
{
    let place = place_for(to.as_slice(), &receiver.member.0.0);
    to.insert(place, receiver)?;
    Ok(())
}

/// The members of a crowd among these, each with its number here as its place, ascending by their ids. Places
/// behind the last are passed over.
///
/// No member stands twice, and there are at most 32. `Memory` where an allocation was refused.
pub fn receivers_among(
    alloc: Global,
    members: &[MemberId],
    to: Crowd,
) -> Result<Vec<Receiver>, Memory>
    requires distinct { IsDistinct (map (λ id. id.0.0) members.now) }
    requires few { length members.now ≤ 32 }
    ensures { IfOk result (λ receivers.
        AreReceivers (map (λ id. id.0.0) members.now) (bit to.0) receivers.items) }
{
    let mut receivers = Vec::new(alloc);
    for place in 0..members.len() as u8 {
        if to.has(place) {
            put(
                &mut receivers,
                Receiver {
                    place,
                    member: members[place as usize],
                },
            )?;
        }
    }
    Ok(receivers)
}

// The members that a history names, in the order of their places.
fn members_of(alloc: Global, history: &History) -> Result<Vec<MemberId>, Memory>
    ensures ids { IfOk result (λ members. map (λ id. id.0.0) members.items ≡ ids_named (history_of history.now)) }
    ensures few { IfOk result (λ members. length members.items ≤ 32) }
{
    let mut members = Vec::new(alloc);
    for place in 0..history.places() {
        members.push(history.member(place))?;
    }
    Ok(members)
}

/// The members of a crowd of the history, ascending by their ids. Places that the history doesn't have are passed over.
///
/// `Memory` where an allocation was refused.
pub fn receivers(alloc: Global, history: &History, to: Crowd) -> Result<Vec<Receiver>, Memory>
    ensures { IfOk result (λ receivers.
        AreReceivers (ids_named (history_of history.now)) (bit to.0) receivers.items) }
{
    let members = members_of(alloc, history)?;
    receivers_among(alloc, members.as_slice(), to)
}
