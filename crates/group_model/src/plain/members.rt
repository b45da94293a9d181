//! Membership: who is a member, who sees a message, and whom its parts go to.

ghost use Rattle.std.specs.Prelude.{◌≡◌, ◌↔◌, ◌∷◌, IsTrue, IfOk};
ghost use Rattle.group_model.specs.Sets.{In};
ghost use Rattle.group_model.specs.Messages.{Add, Ack};
ghost use Rattle.group_model.specs.Membership.{Named, Removed, InView, IsRecipient, IsForwardedTo, IsHandedTo};
ghost use Rattle.group_model.specs.Membership.{IsAddressee, AreAddressees, ids_named, named_by, joined as joined_ids};
ghost use Rattle.group_model.specs.Membership.{remove_wins};
ghost use Rattle.group_model.specs.Validity.{SendsParts};
ghost use Rattle.group_model.specs.Plain.{kind_of, message_of, history_of, Forwards, IsAddedBy};

use crate::plain::messages::*;
use std::alloc::{AllocError, Global};

/// Whether a create or an add of the messages names the id. For a past and a sender this is the first rule of validity.
pub fn is_named(rows: &[PlainMessage], id: &[u8; 32]) -> bool
    ensures { IsTrue result ↔ Named (history_of rows.now) id.now }
{
    for row in rows {
        if names(&row.kind, id) {
            return true;
        }
    }
    false
}

/// Whether a remove of the messages has the id as its target.
pub fn is_removed(rows: &[PlainMessage], id: &[u8; 32]) -> bool
    ensures { IsTrue result ↔ Removed (history_of rows.now) id.now }
{
    for row in rows {
        if removes(&row.kind, id) {
            return true;
        }
    }
    false
}

/// Whether the id is a member of the messages: named, and not removed. For a past and a sender this is the second rule
/// of validity.
pub fn is_member(rows: &[PlainMessage], id: &[u8; 32]) -> bool
    ensures { IsTrue result ↔ In id.now (remove_wins (history_of rows.now)) }
{
    let named = is_named(rows, id);
    if is_removed(rows, id) {
        return false;
    }
    named
}

/// Whether the id is in the view of the message.
pub fn sees(
    alloc: Global,
    rows: &[PlainMessage],
    row: &PlainMessage,
    id: &[u8; 32],
) -> Result<bool, AllocError>
    ensures { IfOk result (λ b. IsTrue b ↔ InView remove_wins (history_of rows.now) (message_of row.now) id.now) }
{
    let set = with_past(alloc, rows, row)?;
    Ok(is_member(set.as_slice(), id))
}

/// Whether the id gets a part of the create, update or remove.
pub fn is_recipient(
    alloc: Global,
    rows: &[PlainMessage],
    row: &PlainMessage,
    id: &[u8; 32],
) -> Result<bool, AllocError>
    ensures { IfOk result (λ b. IsTrue b ↔ IsRecipient remove_wins (history_of rows.now) (message_of row.now) id.now) }
{
    Ok(sees(alloc, rows, row, id)? && *id != row.sender)
}

/// Whether the operation forwards, by the ack `answer`, to the id: the id sees the answer, and was neither recipient
/// nor sender of the operation.
fn forwards(
    alloc: Global,
    rows: &[PlainMessage],
    operation: &PlainMessage,
    answer: &PlainMessage,
    id: &[u8; 32],
) -> Result<bool, AllocError>
    ensures { IfOk result (λ b. IsTrue b
        ↔ Forwards (history_of rows.now) (message_of operation.now) (message_of answer.now) id.now) }
{
    if !is_seeded(&operation.kind) || *id == operation.sender || *id == answer.sender {
        return Ok(false);
    }
    if is_recipient(alloc, rows, operation, id)? {
        return Ok(false);
    }
    sees(alloc, rows, answer, id)
}

/// Whether the message is the operation with the id `of`, and forwards.
fn is_forwarder(
    alloc: Global,
    rows: &[PlainMessage],
    row: &PlainMessage,
    of: &[u8; 32],
    answer: &PlainMessage,
    id: &[u8; 32],
) -> Result<bool, AllocError>
    ensures { IfOk result (λ b. IsTrue b
        ↔ ((row.now.id ≡ of.now)
        × Forwards (history_of rows.now) (message_of row.now) (message_of answer.now) id.now)) }
{
    if !same(&row.id, of) {
        return Ok(false);
    }
    forwards(alloc, rows, row, answer, id)
}

/// Whether the ack `answer` of the operation with the id `of` forwards its sender's member secret to `id`.
pub fn is_forwarded_to(
    alloc: Global,
    rows: &[PlainMessage],
    of: &[u8; 32],
    answer: &PlainMessage,
    id: &[u8; 32],
) -> Result<bool, AllocError>
    ensures { IfOk result (λ b. IsTrue b
        ↔ IsForwardedTo remove_wins (history_of rows.now) of.now (message_of answer.now) id.now) }
{
    for row in rows {
        let found = is_forwarder(alloc, rows, row, of, answer, id)?;
        if found {
            return Ok(true);
        }
    }
    Ok(false)
}

/// Ids and more behind them, each once.
fn joined_once(ids: Vec<[u8; 32]>, more: &[[u8; 32]]) -> Result<Vec<[u8; 32]>, AllocError>
    ensures { IfOk result (λ wider. wider.items ≡ joined_ids ids.items more.now) }
{
    let mut wider = ids;
    for id in more {
        if !has(wider.as_slice(), id) {
            wider.push(*id)?;
        }
    }
    Ok(wider)
}

/// The ids with those that the kind names behind them, each once.
pub fn with_named(kind: &PlainKind, ids: Vec<[u8; 32]>) -> Result<Vec<[u8; 32]>, AllocError>
    ensures { IfOk result (λ wider. wider.items ≡ joined_ids ids.items (named_by (kind_of kind.now))) }
{
    match kind {
        PlainKind::Create(members) => joined_once(ids, members.as_slice()),
        PlainKind::Add(target) => joined_once(ids, [*target].as_slice()),
        _ => Ok(ids),
    }
}

/// All ids that a create or add of the messages names, each once.
pub fn named_ids(alloc: Global, rows: &[PlainMessage]) -> Result<Vec<[u8; 32]>, AllocError>
    ensures { IfOk result (λ ids. ids.items ≡ ids_named (history_of rows.now)) }
{
    let mut ids = Vec::new(alloc);
    let mut at = rows.len();
    while at > 0 {
        at -= 1;
        ids = with_named(&rows[at].kind, ids)?;
    }
    Ok(ids)
}

/// Whether the message has the id `of` and adds the id.
fn is_add_of(row: &PlainMessage, of: &[u8; 32], id: &[u8; 32]) -> bool
    ensures { IsTrue result ↔ ((row.now.id ≡ of.now) × (kind_of row.now.kind ≡ Add id.now)) }
{
    same(&row.id, of) && adds(&row.kind, id)
}

/// Whether a message of the list has the id `of` and adds the id.
fn is_added_by(rows: &[PlainMessage], of: &[u8; 32], id: &[u8; 32]) -> bool
    ensures { IsTrue result ↔ IsAddedBy (history_of rows.now) of.now id.now }
{
    for row in rows {
        if is_add_of(row, of, id) {
            return true;
        }
    }
    false
}

/// Whether the add-ack `add_ack` of the add with the id `of` hands its sender's ratchet to `id`.
pub fn is_handed_to(
    alloc: Global,
    rows: &[PlainMessage],
    of: &[u8; 32],
    add_ack: &PlainMessage,
    id: &[u8; 32],
) -> Result<bool, AllocError>
    ensures { IfOk result (λ b. IsTrue b
        ↔ IsHandedTo remove_wins (history_of rows.now) of.now (message_of add_ack.now) id.now) }
{
    if !is_added_by(rows, of, id) {
        return Ok(false);
    }
    sees(alloc, rows, add_ack, id)
}

/// Whether the ack `ack`, with this `took`, of the operation with the id `of` has a part for the id.
fn is_taken_to(
    alloc: Global,
    rows: &[PlainMessage],
    of: &[u8; 32],
    took: bool,
    ack: &PlainMessage,
    id: &[u8; 32],
) -> Result<bool, AllocError>
    ensures { IfOk result (λ b. IsTrue b
        ↔ IsAddressee remove_wins (history_of rows.now) (message_of ack.now) (Ack of.now took) id.now) }
{
    if took {
        return is_forwarded_to(alloc, rows, of, ack, id);
    }
    Ok(false)
}

/// Whether the message has a part for the id.
pub fn is_addressee(
    alloc: Global,
    rows: &[PlainMessage],
    row: &PlainMessage,
    id: &[u8; 32],
) -> Result<bool, AllocError>
    ensures { IfOk result (λ b. IsTrue b
        ↔ IsAddressee remove_wins (history_of rows.now) (message_of row.now) (kind_of row.now.kind) id.now) }
{
    match &row.kind {
        PlainKind::Create(_) => is_recipient(alloc, rows, row, id),
        PlainKind::Update => is_recipient(alloc, rows, row, id),
        PlainKind::Remove(_) => is_recipient(alloc, rows, row, id),
        PlainKind::Add(target) => Ok(same(target, id)),
        PlainKind::Ack(of, took) => is_taken_to(alloc, rows, of, *took, row, id),
        PlainKind::AddAck(of) => is_handed_to(alloc, rows, of, row, id),
        PlainKind::Text => Ok(false),
    }
}

/// The ids that the message, one of the list, has parts for, in ascending order.
pub fn addressees(
    alloc: Global,
    rows: &[PlainMessage],
    row: &PlainMessage,
) -> Result<Vec<[u8; 32]>, AllocError>
    ensures { In (message_of row.now) (history_of rows.now)
        → IfOk result (λ ids. AreAddressees remove_wins (history_of rows.now) (message_of row.now) ids.items) }
{
    let named = named_ids(alloc, rows)?;
    let candidates = named.as_slice();
    let mut ids = Vec::new(alloc);
    for id in candidates {
        let due = is_addressee(alloc, rows, row, id)?;
        if due {
            ids = with_id(ids, id)?;
        }
    }
    Ok(ids)
}

/// The fourth rule of validity, as the body of the next message tells: its parts go to exactly these ids, in their
/// order.
pub fn sends_parts(
    alloc: Global,
    rows: &[PlainMessage],
    row: &PlainMessage,
    ids: &[[u8; 32]],
) -> Result<bool, AllocError>
    ensures { IfOk result (λ b. IsTrue b ↔ SendsParts remove_wins (history_of rows.now) (message_of row.now) ids.now) }
{
    let all = with_message(alloc, rows, row)?;
    let due = addressees(alloc, all.as_slice(), row)?;
    Ok(due.as_slice() == ids)
}

/// Whether the id is a member of the messages and one more.
pub(crate) fn is_member_with(rows: &[PlainMessage], row: &PlainMessage, id: &[u8; 32]) -> bool
    ensures { IsTrue result ↔ In id.now (remove_wins (message_of row.now ∷ history_of rows.now)) }
{
    let named = is_named_with(rows, row, id);
    if is_removed_with(rows, row, id) {
        return false;
    }
    named
}

fn is_named_with(rows: &[PlainMessage], row: &PlainMessage, id: &[u8; 32]) -> bool
    ensures { IsTrue result ↔ Named (message_of row.now ∷ history_of rows.now) id.now }
{
    if names(&row.kind, id) {
        return true;
    }
    is_named(rows, id)
}

fn is_removed_with(rows: &[PlainMessage], row: &PlainMessage, id: &[u8; 32]) -> bool
    ensures { IsTrue result ↔ Removed (message_of row.now ∷ history_of rows.now) id.now }
{
    if removes(&row.kind, id) {
        return true;
    }
    is_removed(rows, id)
}
