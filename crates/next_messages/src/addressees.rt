ghost use Rattle.std.specs.Prelude.{◌≡◌, ◌≤◌, List, [], ◌∷◌, length, map, IfOk, IfNone, IfSome, OnOk};
ghost use Rattle.group_fields.specs.Headers.{HasSpelling};
ghost use Rattle.group_fields.specs.declared.header.Kind.TheVariants as kinds;
ghost use Rattle.group_model.specs.Sets.{Id, has};
ghost use Rattle.group_model.specs.Messages.{AreHeads, Stands};
ghost use Rattle.group_model.specs.Membership.{ids_named, joined, named_by, with_id};
ghost use Rattle.group_messages.specs.Messages.{ids_of, kind_of, message_of};
ghost use Rattle.causal_history.specs.Bits.{bit};
ghost use Rattle.causal_history.specs.Rows.{history_of};
ghost use Rattle.body_parts.specs.Receivers.{AreReceivers};
ghost use Rattle.next_messages.specs.Due.{IsDueTo};

use body_parts::{Receiver, receivers_among};
use causal_cast::{addressees, addressees_are_of_the_past};
use causal_history::{Crowd, History};
use group_fields::{
    Digest, Header, HeaderView, Kind, MemberId, Memory, Target, read_header, write_header,
};
use group_model::forms::places_stay;
use member_view::Membership;
use std::alloc::Global;

// Whom a message of the header sends a part to, whatever digest its body gets.
fn due_to<G: Membership>(history: &History, header: &HeaderView<'_>) -> Option<Crowd>
    requires heads { AreHeads (history_of history.now) (ids_of header.now.predecessors) }
    requires create { header.now.kind ≡ kinds.Create → history.now ≡ [] }
    ensures due { IfSome result (λ to. IsDueTo G.rule history.now header.now (bit to.0)) }
    ensures none { IfNone result (Stands (history_of history.now) (message_of header.now).id) }
{
    addressees_are_of_the_past();
    let _kept = history.count();
    match history.find(&header.id()) {
        Some(_) => None,
        None => Some(addressees::<G>(history, header)),
    }
}

/// Whom a message of the header sends a part to, whatever digest its body gets: their places among those that the
/// history names and, behind them, those that the header names besides, in the order of its target.
///
/// The header has a spelling and goes on from all rows of the history; that of a create has no rows before it. None
/// only where a row has the id of this very header. `Memory` where an allocation was refused.
pub fn addressees_of<G: Membership>(
    alloc: Global,
    history: &History,
    header: &Header,
) -> Result<Option<Crowd>, Memory>
    requires spelled { HasSpelling header.now }
    requires heads { AreHeads (history_of history.now) (ids_of header.now.predecessors) }
    requires create { header.now.kind ≡ kinds.Create → history.now ≡ [] }
    ensures due { IfOk result (λ made. IfSome made (λ to. IsDueTo G.rule history.now header.now (bit to.0))) }
    ensures none { IfOk result (λ made. IfNone made (Stands (history_of history.now) (message_of header.now).id)) }
{
    let bytes = write_header(alloc, header)?;
    let view = read_header(bytes.as_slice()).unwrap();
    Ok(due_to::<G>(history, &view))
}

// Whether the member is among these.
fn is_among(members: &[MemberId], id: &MemberId) -> bool
    ensures { result ≡ has (map (λ member. member.0.0) members.now) id.now.0.0 }
{
    match members {
        [] => false,
        [first, others @ ..] => first.0.0 == id.0.0 || is_among(others, id),
    }
}

// Puts a member behind these, where it is new.
fn put_new(members: &mut Vec<MemberId>, id: MemberId) -> Result<(), Memory>
    ensures { OnOk result (map (λ member. member.0.0) members.new.items
        ≡ with_id (map (λ member. member.0.0) members.old.items) id.0.0) }
{
    if !is_among(members.as_slice(), &id) {
        members.push(id)?;
    }
    Ok(())
}

// Puts the members with these ids behind these, each where it is new.
fn put_all(members: &mut Vec<MemberId>, ids: &[Digest]) -> Result<(), Memory>
    ensures { OnOk result (map (λ member. member.0.0) members.new.items
        ≡ joined (map (λ member. member.0.0) members.old.items) (ids_of ids.now)) }
{
    let [first, others @ ..] = ids else {
        return Ok(());
    };
    put_new(members, MemberId(*first))?;
    put_all(members, others)
}

// Puts the members that the header names behind these, each where it is new.
fn put_named(members: &mut Vec<MemberId>, header: &Header) -> Result<(), Memory>
    requires { HasSpelling header.now }
    ensures { OnOk result (map (λ member. member.0.0) members.new.items
        ≡ joined (map (λ member. member.0.0) members.old.items) (named_by (kind_of header.now))) }
{
    match (header.kind, &header.target) {
        (Kind::Create, Target::Members(ids)) => put_all(members, ids.as_slice()),
        (Kind::Add, Target::Member(id)) => put_new(members, *id),
        _ => Ok(()),
    }
}

// The members that the history names, in the order of their places.
fn members_of(alloc: Global, history: &History) -> Result<Vec<MemberId>, Memory>
    ensures { IfOk result (λ members. map (λ member. member.0.0) members.items ≡ ids_named (history_of history.now)) }
{
    let mut members = Vec::new(alloc);
    for place in 0..history.places() {
        members.push(history.member(place))?;
    }
    Ok(members)
}

/// The members of such a crowd, each with its place, ascending by their ids.
///
/// The history and the header name at most 32 members. `Memory` where an allocation was refused.
pub fn receivers_of(
    alloc: Global,
    history: &History,
    header: &Header,
    to: Crowd,
) -> Result<Vec<Receiver>, Memory>
    requires spelled { HasSpelling header.now }
    requires few { length (ids_named (message_of header.now ∷ history_of history.now)) ≤ 32 }
    ensures { IfOk result (λ receivers.
        AreReceivers (ids_named (message_of header.now ∷ history_of history.now)) (bit to.0) receivers.items) }
{
    places_stay();
    let mut members = members_of(alloc, history)?;
    put_named(&mut members, header)?;
    receivers_among(alloc, members.as_slice(), to)
}
