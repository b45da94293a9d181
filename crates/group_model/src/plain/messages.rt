//! Messages and histories: what a kind does, pasts and heads.

ghost use Rattle.std.specs.Prelude.{◌≡◌, ◌+◌, ◌≤◌, ◌↔◌, ◌⊎◌, [], ◌∷◌, ◌++◌, IsTrue, IfOk, Contains, length};
ghost use Rattle.group_model.specs.Sets.{Id, In, IsBelow, IsAscending};
ghost use Rattle.group_model.specs.Messages.{Add, IsHead, AreHeads, Stands, past as past_of, with_past as with_past_of};
ghost use Rattle.group_model.specs.Membership.{Names, Removes, IsSeeded};
ghost use Rattle.group_model.specs.Validity.{IsOperation, Answers, StepsRatchet, count_of as count_by};
ghost use Rattle.group_model.specs.Plain.{kind_of, message_of, history_of, place};

use std::alloc::{AllocError, Global};
use std::cmp::Ordering;

/// What a message does, with its target.
#[derive(Drop)]
pub enum PlainKind {
    Create(Vec<[u8; 32]>),
    Update,
    Remove([u8; 32]),
    Add([u8; 32]),
    Ack([u8; 32], bool),
    AddAck([u8; 32]),
    Text,
}

/// A message: the fields of its header.
#[derive(Drop)]
pub struct PlainMessage {
    pub id: [u8; 32],
    pub set: u8,
    pub group: [u8; 32],
    pub sender: [u8; 32],
    pub seq: u32,
    pub kind: PlainKind,
    pub predecessors: Vec<[u8; 32]>,
    /// The digest of the body.
    pub body: [u8; 32],
}

/// Whether the list has the id.
pub fn has(ids: &[[u8; 32]], id: &[u8; 32]) -> bool
    ensures { IsTrue result ↔ In id.now ids.now }
{
    contains(ids, id)
}

fn contains(ids: &[[u8; 32]], id: &[u8; 32]) -> bool
    ensures { IsTrue result ↔ Contains ids.now id.now }
{
    ids.contains(id)
}

/// Whether the kind names the id as a member.
pub fn names(kind: &PlainKind, id: &[u8; 32]) -> bool
    ensures { IsTrue result ↔ Names (kind_of kind.now) id.now }
{
    match kind {
        PlainKind::Create(members) => has(members, id),
        PlainKind::Add(target) => *target == *id,
        _ => false,
    }
}

/// Whether the kind removes the id.
pub fn removes(kind: &PlainKind, id: &[u8; 32]) -> bool
    ensures { IsTrue result ↔ Removes (kind_of kind.now) id.now }
{
    match kind {
        PlainKind::Remove(target) => *target == *id,
        _ => false,
    }
}

/// Whether the kind answers the operation with this id.
pub fn answers(kind: &PlainKind, id: &[u8; 32]) -> bool
    ensures { IsTrue result ↔ Answers (kind_of kind.now) id.now }
{
    match kind {
        PlainKind::Ack(operation, _) => *operation == *id,
        PlainKind::AddAck(operation) => *operation == *id,
        _ => false,
    }
}

/// Whether the kind is an operation: a create, update, remove or add.
pub fn is_operation(kind: &PlainKind) -> bool
    ensures { IsTrue result ↔ IsOperation (kind_of kind.now) }
{
    match kind {
        PlainKind::Create(_) | PlainKind::Update | PlainKind::Remove(_) | PlainKind::Add(_) => true,
        _ => false,
    }
}

/// Whether the kind is an operation that sends a seed: a create, update or remove.
pub fn is_seeded(kind: &PlainKind) -> bool
    ensures { IsTrue result ↔ IsSeeded (kind_of kind.now) }
{
    match kind {
        PlainKind::Create(_) | PlainKind::Update | PlainKind::Remove(_) => true,
        _ => false,
    }
}

/// Whether the kind steps its sender's ratchet.
pub fn steps_ratchet(kind: &PlainKind) -> bool
    ensures { IsTrue result ↔ StepsRatchet (kind_of kind.now) }
{
    match kind {
        PlainKind::Ack(_, took) => *took,
        PlainKind::Text => false,
        _ => true,
    }
}

/// A copy of a message.
pub fn copy(alloc: Global, row: &PlainMessage) -> Result<PlainMessage, AllocError>
    ensures { IfOk result (λ r. message_of r ≡ message_of row.now) }
{
    let predecessors = row.predecessors.as_slice().to_vec(alloc)?;
    let kind = copy_of_kind(alloc, &row.kind)?;
    Ok(PlainMessage {
        id: row.id,
        set: row.set,
        group: row.group,
        sender: row.sender,
        seq: row.seq,
        kind,
        predecessors,
        body: row.body,
    })
}

fn copy_of_kind(alloc: Global, kind: &PlainKind) -> Result<PlainKind, AllocError>
    ensures { IfOk result (λ k. kind_of k ≡ kind_of kind.now) }
{
    Ok(match kind {
        PlainKind::Create(members) => PlainKind::Create(members.as_slice().to_vec(alloc)?),
        PlainKind::Update => PlainKind::Update,
        PlainKind::Remove(target) => PlainKind::Remove(*target),
        PlainKind::Add(target) => PlainKind::Add(*target),
        PlainKind::Ack(operation, took) => PlainKind::Ack(*operation, *took),
        PlainKind::AddAck(operation) => PlainKind::AddAck(*operation),
        PlainKind::Text => PlainKind::Text,
    })
}

/// Those messages of the history that the ids lead back to.
pub fn past(
    alloc: Global,
    rows: &[PlainMessage],
    ids: &[[u8; 32]],
) -> Result<Vec<PlainMessage>, AllocError>
    ensures { IfOk result (λ p. history_of p.items ≡ past_of (history_of rows.now) ids.now) }
{
    let mut found = Vec::new(alloc);
    let mut wanted = ids.to_vec(alloc)?;
    for row in rows {
        if has(wanted.as_slice(), &row.id) {
            found = with_row(alloc, found, row)?;
            wanted = joined(alloc, row.predecessors.as_slice(), wanted.as_slice())?;
        }
    }
    Ok(found)
}

fn with_row(
    alloc: Global,
    mut rows: Vec<PlainMessage>,
    row: &PlainMessage,
) -> Result<Vec<PlainMessage>, AllocError>
    ensures { IfOk result (λ r. history_of r.items ≡ history_of rows.items ++ message_of row.now ∷ []) }
{
    rows.push(copy(alloc, row)?)?;
    Ok(rows)
}

fn joined(
    alloc: Global,
    first: &[[u8; 32]],
    others: &[[u8; 32]],
) -> Result<Vec<[u8; 32]>, AllocError>
    ensures { IfOk result (λ ids. ids.items ≡ first.now ++ others.now) }
{
    let mut ids = first.to_vec(alloc)?;
    ids.extend_from_slice(others)?;
    Ok(ids)
}

/// The message with its past.
pub fn with_past(
    alloc: Global,
    rows: &[PlainMessage],
    row: &PlainMessage,
) -> Result<Vec<PlainMessage>, AllocError>
    ensures { IfOk result (λ p. history_of p.items ≡ with_past_of (history_of rows.now) (message_of row.now)) }
{
    let mut set = with_row(alloc, Vec::new(alloc), row)?;
    let mut older = past(alloc, rows, row.predecessors.as_slice())?;
    set.append(&mut older)?;
    Ok(set)
}

/// How many of the messages are of the sender.
pub fn count_of(sender: &[u8; 32], rows: &[PlainMessage]) -> usize
    ensures value { result ≡ count_by sender.now (history_of rows.now) }
    ensures at_most_all { result ≤ length rows.now }
{
    let mut count = 0;
    for row in rows {
        if row.sender == *sender {
            count += 1;
        }
    }
    count
}

/// Whether the ids are the same.
pub fn same(one: &[u8; 32], other: &[u8; 32]) -> bool
    ensures { IsTrue result ↔ (one.now ≡ other.now) }
{
    *one == *other
}

/// Whether a message of the list has the id.
pub fn stands(rows: &[PlainMessage], id: &[u8; 32]) -> bool
    ensures { IsTrue result ↔ Stands (history_of rows.now) id.now }
{
    for row in rows {
        if same(&row.id, id) {
            return true;
        }
    }
    false
}

/// Whether the kind is an add of the id.
pub fn adds(kind: &PlainKind, id: &[u8; 32]) -> bool
    ensures { IsTrue result ↔ (kind_of kind.now ≡ Add id.now) }
{
    match kind {
        PlainKind::Add(target) => *target == *id,
        _ => false,
    }
}

/// Whether the one id comes before the other, byte by byte.
pub fn is_below(one: &[u8; 32], other: &[u8; 32]) -> bool
    ensures { IsTrue result ↔ IsBelow one.now other.now }
{
    match one.cmp(other) {
        Ordering::Less => true,
        _ => false,
    }
}

/// Whether the message, one of the list, is a head: none of the list has it among its predecessors.
pub fn is_head(rows: &[PlainMessage], row: &PlainMessage) -> bool
    ensures { In (message_of row.now) (history_of rows.now)
        → (IsTrue result ↔ IsHead (history_of rows.now) (message_of row.now)) }
{
    for other in rows {
        if has(other.predecessors.as_slice(), &row.id) {
            return false;
        }
    }
    true
}

/// Where the id stands or would stand among ascending ids.
fn place_of(ids: &[[u8; 32]], id: &[u8; 32]) -> usize
    ensures value { result ≡ place ids.now id.now }
    ensures within { result ≤ length ids.now }
{
    for (at, other) in ids.iter().enumerate() {
        if !is_below(other, id) {
            return at;
        }
    }
    ids.len()
}

/// Ascending ids with one more among them, unless it is there.
pub(crate) fn with_id(mut ids: Vec<[u8; 32]>, id: &[u8; 32]) -> Result<Vec<[u8; 32]>, AllocError>
    ensures ascending { IfOk result (λ wider. IsAscending ids.items → IsAscending wider.items) }
    ensures same { IfOk result (λ wider. (x : Id) → In x wider.items ↔ ((x ≡ id.now) ⊎ In x ids.items)) }
{
    if has(ids.as_slice(), id) {
        return Ok(ids);
    }
    let at = place_of(ids.as_slice(), id);
    ids.insert(at, *id)?;
    Ok(ids)
}

/// The ids of the heads of the messages, in ascending order.
pub fn heads(alloc: Global, rows: &[PlainMessage]) -> Result<Vec<[u8; 32]>, AllocError>
    ensures { IfOk result (λ ids. AreHeads (history_of rows.now) ids.items) }
{
    let mut ids = Vec::new(alloc);
    for row in rows {
        if is_head(rows, row) {
            ids = with_id(ids, &row.id)?;
        }
    }
    Ok(ids)
}

/// The messages with one more before them.
pub(crate) fn with_message(
    alloc: Global,
    rows: &[PlainMessage],
    row: &PlainMessage,
) -> Result<Vec<PlainMessage>, AllocError>
    ensures { IfOk result (λ all. history_of all.items ≡ message_of row.now ∷ history_of rows.now) }
{
    let mut all = with_row(alloc, Vec::new(alloc), row)?;
    for other in rows {
        all = with_row(alloc, all, other)?;
    }
    Ok(all)
}
