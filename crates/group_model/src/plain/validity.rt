//! The seven rules of validity.

ghost use Rattle.std.specs.Prelude.{◌≡◌, ◌≢◌, ◌^◌, ◌<◌, ◌↔◌, IsTrue, IfOk, Some, length};
ghost use Rattle.group_model.specs.Sets.{Id, In};
ghost use Rattle.group_model.specs.Messages.{Add, Message, IsHistory};
ghost use Rattle.group_model.specs.Membership.{Named, ids_named, remove_wins};
ghost use Rattle.group_model.specs.Validity.{IsOperation, Answers, StepsRatchet, IsNextInSequence, IsUnanswered};
ghost use Rattle.group_model.specs.Validity.{AnswersOne, AnswersNone, IsInTurn, HasStepped, MayAck, MayAddAck};
ghost use Rattle.group_model.specs.Validity.{MeetsKind, FollowsHeads, IsInvited, Opens, NeedsAnswer, IsWithinLimits};
ghost use Rattle.group_model.specs.Plain.{kind_of, message_of, history_of, HasAnswered, BringsInAfter};
ghost use Rattle.group_model.specs.Plain.{IsOlderThanMembership, SuitsAck, inviter_in, inviter_named as named_by_card};

use crate::plain::members::*;
use crate::plain::messages::*;
use std::alloc::{AllocError, Global};

/// The third rule of validity: the sequence number is one more than the number of the sender's messages in the past.
pub fn is_next_in_sequence(past: &[PlainMessage], row: &PlainMessage) -> bool
    requires { length past.now < 2 ^ 32 }
    ensures { IsTrue result ↔ IsNextInSequence (history_of past.now) (message_of row.now) }
{
    row.seq as usize == count_of(&row.sender, past) + 1
}

/// Whether the message is one of the sender and answers the operation with this id.
fn is_answer(row: &PlainMessage, sender: &[u8; 32], operation: &[u8; 32]) -> bool
    ensures { IsTrue result ↔ ((row.now.sender ≡ sender.now) × Answers (kind_of row.now.kind) operation.now) }
{
    row.sender == *sender && answers(&row.kind, operation)
}

/// Whether the sender has answered the operation with this id among the messages.
pub fn has_answered(rows: &[PlainMessage], sender: &[u8; 32], operation: &[u8; 32]) -> bool
    ensures { IsTrue result ↔ HasAnswered (history_of rows.now) sender.now operation.now }
{
    for row in rows {
        if is_answer(row, sender, operation) {
            return true;
        }
    }
    false
}

/// Whether the row is an add of the member that has the operation in its past.
fn brings_in_after(
    alloc: Global,
    rows: &[PlainMessage],
    row: &PlainMessage,
    member: &[u8; 32],
    operation: &[u8; 32],
) -> Result<bool, AllocError>
    ensures { IfOk result (λ b. IsTrue b
        ↔ BringsInAfter (history_of rows.now) (message_of row.now) member.now operation.now) }
{
    if !adds(&row.kind, member) {
        return Ok(false);
    }
    let older = past(alloc, rows, row.predecessors.as_slice())?;
    Ok(stands(older.as_slice(), operation))
}

/// Whether an add that brought the member in has the operation in its past.
fn is_older_than_membership(
    alloc: Global,
    rows: &[PlainMessage],
    member: &[u8; 32],
    operation: &[u8; 32],
) -> Result<bool, AllocError>
    ensures { IfOk result (λ b. IsTrue b ↔ IsOlderThanMembership (history_of rows.now) member.now operation.now) }
{
    for row in rows {
        let brings = brings_in_after(alloc, rows, row, member, operation)?;
        if brings {
            return Ok(true);
        }
    }
    Ok(false)
}

/// Whether the message is an operation of somebody else than the member.
fn is_of_others(operation: &PlainMessage, member: &[u8; 32]) -> bool
    ensures { IsTrue result ↔ (IsOperation (kind_of operation.now.kind) × (operation.now.sender ≢ member.now)) }
{
    is_operation(&operation.kind) && operation.sender != *member
}

/// Whether the member has not answered the operation, a message of the history, and it counts. Of lists that are no
/// history nothing is said.
pub fn is_unanswered(
    alloc: Global,
    rows: &[PlainMessage],
    member: &[u8; 32],
    operation: &PlainMessage,
) -> Result<bool, AllocError>
    ensures { IsHistory (history_of rows.now) → In (message_of operation.now) (history_of rows.now)
        → IfOk result (λ b. IsTrue b ↔ IsUnanswered (history_of rows.now) member.now (message_of operation.now)) }
{
    if has_answered(rows, member, &operation.id) {
        return Ok(false);
    }
    let older = is_older_than_membership(alloc, rows, member, &operation.id)?;
    if older {
        return Ok(false);
    }
    Ok(is_of_others(operation, member))
}

/// Whether the member has answered all that counts in the history: the fifth rule of validity, for every kind but the
/// answers. Of lists that are no history nothing is said.
pub fn answers_none(
    alloc: Global,
    rows: &[PlainMessage],
    member: &[u8; 32],
) -> Result<bool, AllocError>
    ensures { IsHistory (history_of rows.now) → IfOk result (λ b. IsTrue b
        ↔ AnswersNone (history_of rows.now) member.now) }
{
    for row in rows {
        let waits = is_unanswered(alloc, rows, member, row)?;
        if waits {
            return Ok(false);
        }
    }
    Ok(true)
}

/// Whether the operation waits for the member and has another id. Of lists that are no history nothing is said.
fn waits_as_another(
    alloc: Global,
    rows: &[PlainMessage],
    member: &[u8; 32],
    operation: &PlainMessage,
    id: &[u8; 32],
) -> Result<bool, AllocError>
    ensures { IsHistory (history_of rows.now) → In (message_of operation.now) (history_of rows.now)
        → IfOk result (λ b. IsTrue b
        ↔ (IsUnanswered (history_of rows.now) member.now (message_of operation.now) × (operation.now.id ≢ id.now))) }
{
    if same(&operation.id, id) {
        return Ok(false);
    }
    is_unanswered(alloc, rows, member, operation)
}

/// Whether whatever waits for the member has this id. Of lists that are no history nothing is said.
fn answers_no_other(
    alloc: Global,
    rows: &[PlainMessage],
    member: &[u8; 32],
    id: &[u8; 32],
) -> Result<bool, AllocError>
    ensures { IsHistory (history_of rows.now)
        → IfOk result (λ b. IsTrue b
        ↔ ((o : Message) → IsUnanswered (history_of rows.now) member.now o → o.id ≡ id.now)) }
{
    for row in rows {
        let another = waits_as_another(alloc, rows, member, row, id)?;
        if another {
            return Ok(false);
        }
    }
    Ok(true)
}

/// Whether the operation waits for the member and has this id. Of lists that are no history nothing is said.
fn waits_as(
    alloc: Global,
    rows: &[PlainMessage],
    member: &[u8; 32],
    operation: &PlainMessage,
    id: &[u8; 32],
) -> Result<bool, AllocError>
    ensures { IsHistory (history_of rows.now) → In (message_of operation.now) (history_of rows.now)
        → IfOk result (λ b. IsTrue b
        ↔ (IsUnanswered (history_of rows.now) member.now (message_of operation.now) × (operation.now.id ≡ id.now))) }
{
    if same(&operation.id, id) {
        return is_unanswered(alloc, rows, member, operation);
    }
    Ok(false)
}

/// Whether exactly the operation with this id waits for the member: the fifth rule of validity for an ack or add-ack.
/// Of lists that are no history nothing is said.
pub fn answers_one(
    alloc: Global,
    rows: &[PlainMessage],
    member: &[u8; 32],
    id: &[u8; 32],
) -> Result<bool, AllocError>
    ensures { IsHistory (history_of rows.now)
        → IfOk result (λ b. IsTrue b ↔ AnswersOne (history_of rows.now) member.now id.now) }
{
    for row in rows {
        let found = waits_as(alloc, rows, member, row, id)?;
        if found {
            return answers_no_other(alloc, rows, member, id);
        }
    }
    Ok(false)
}

/// The fifth rule of validity: nothing is unanswered, but what an ack or add-ack answers. Of lists that are no history
/// nothing is said.
pub fn is_in_turn(
    alloc: Global,
    past: &[PlainMessage],
    sender: &[u8; 32],
    kind: &PlainKind,
) -> Result<bool, AllocError>
    ensures { IsHistory (history_of past.now)
        → IfOk result (λ b. IsTrue b ↔ IsInTurn (history_of past.now) sender.now (kind_of kind.now)) }
{
    match kind {
        PlainKind::Ack(operation, _) => answers_one(alloc, past, sender, operation),
        PlainKind::AddAck(operation) => answers_one(alloc, past, sender, operation),
        PlainKind::Create(_) => answers_none(alloc, past, sender),
        PlainKind::Update => answers_none(alloc, past, sender),
        PlainKind::Remove(_) => answers_none(alloc, past, sender),
        PlainKind::Add(_) => answers_none(alloc, past, sender),
        PlainKind::Text => answers_none(alloc, past, sender),
    }
}

/// What a card says of its owner: who may invite it, and whether its key is a public key.
#[derive(Drop)]
pub struct Invitation {
    pub id: [u8; 32],
    pub inviter: [u8; 32],
    pub has_key: bool,
}

/// The inviter that the card names; `None` where its key is no public key.
fn inviter_named(card: &Invitation) -> Option<[u8; 32]>
    ensures { result ≡ named_by_card card.now }
{
    if card.has_key {
        return Some(card.inviter);
    }
    None
}

/// The inviter of the id by the first of the cards that is the id's; `None` where there is no card or its key is no
/// public key.
pub fn inviter_of(cards: &[Invitation], id: &[u8; 32]) -> Option<[u8; 32]>
    ensures { result ≡ inviter_in cards.now id.now }
{
    for card in cards {
        if card.id == *id {
            return inviter_named(card);
        }
    }
    None
}

/// The sixth rule of validity: the predecessors are the heads of the past, in ascending order.
pub fn follows_heads(
    alloc: Global,
    past: &[PlainMessage],
    row: &PlainMessage,
) -> Result<bool, AllocError>
    ensures { IfOk result (λ b. IsTrue b ↔ FollowsHeads (history_of past.now) (message_of row.now)) }
{
    let ids = heads(alloc, past)?;
    Ok(ids.as_slice() == row.predecessors.as_slice())
}

/// Whether the message is the sender's and steps its ratchet.
fn is_own_step(row: &PlainMessage, sender: &[u8; 32]) -> bool
    ensures { IsTrue result ↔ ((row.now.sender ≡ sender.now) × StepsRatchet (kind_of row.now.kind)) }
{
    row.sender == *sender && steps_ratchet(&row.kind)
}

/// Whether some message of the sender steps its ratchet.
pub fn has_stepped(rows: &[PlainMessage], sender: &[u8; 32]) -> bool
    ensures { IsTrue result ↔ HasStepped (history_of rows.now) sender.now }
{
    for row in rows {
        if is_own_step(row, sender) {
            return true;
        }
    }
    false
}

/// Whether the operation suits an ack of the sender: a create, update or remove, taken only by its recipient, or the
/// add of the sender.
fn suits_ack(
    alloc: Global,
    past: &[PlainMessage],
    sender: &[u8; 32],
    took: bool,
    operation: &PlainMessage,
) -> Result<bool, AllocError>
    ensures { IfOk result (λ b. IsTrue b ↔ SuitsAck (history_of past.now) sender.now took (message_of operation.now)) }
{
    if adds(&operation.kind, sender) {
        return Ok(true);
    }
    if !is_seeded(&operation.kind) {
        return Ok(false);
    }
    if !took {
        return Ok(true);
    }
    is_recipient(alloc, past, operation, sender)
}

/// Whether the message has another id than the operation or suits an ack of the sender.
fn allows_ack(
    alloc: Global,
    past: &[PlainMessage],
    sender: &[u8; 32],
    operation: &[u8; 32],
    took: bool,
    row: &PlainMessage,
) -> Result<bool, AllocError>
    ensures { IfOk result (λ b. IsTrue b
        ↔ (row.now.id ≡ operation.now → SuitsAck (history_of past.now) sender.now took (message_of row.now))) }
{
    if same(&row.id, operation) {
        return suits_ack(alloc, past, sender, took, row);
    }
    Ok(true)
}

/// Whether the sender may answer the operation with this id by an ack: the fourth rule of validity for an ack.
pub fn may_ack(
    alloc: Global,
    past: &[PlainMessage],
    sender: &[u8; 32],
    operation: &[u8; 32],
    took: bool,
) -> Result<bool, AllocError>
    ensures { IfOk result (λ b. IsTrue b ↔ MayAck remove_wins (history_of past.now) sender.now operation.now took) }
{
    for row in past {
        let allows = allows_ack(alloc, past, sender, operation, took, row)?;
        if !allows {
            return Ok(false);
        }
    }
    Ok(true)
}

/// Whether the kind is an add of somebody else than the sender.
fn adds_another(kind: &PlainKind, sender: &[u8; 32]) -> bool
    ensures { IsTrue result ↔ ((y : Id) × (kind_of kind.now ≡ Add y) × (y ≢ sender.now)) }
{
    match kind {
        PlainKind::Add(target) => *target != *sender,
        _ => false,
    }
}

/// Whether the message has another id than the operation or adds somebody else than the sender.
fn allows_add_ack(row: &PlainMessage, sender: &[u8; 32], operation: &[u8; 32]) -> bool
    ensures { IsTrue result
        ↔ (row.now.id ≡ operation.now → (y : Id) × (kind_of row.now.kind ≡ Add y) × (y ≢ sender.now)) }
{
    if same(&row.id, operation) {
        return adds_another(&row.kind, sender);
    }
    true
}

/// Whether the sender may answer the operation with this id by an add-ack: the fourth rule of validity for an add-ack.
pub fn may_add_ack(past: &[PlainMessage], sender: &[u8; 32], operation: &[u8; 32]) -> bool
    ensures { IsTrue result ↔ MayAddAck (history_of past.now) sender.now operation.now }
{
    for row in past {
        if !allows_add_ack(row, sender, operation) {
            return false;
        }
    }
    true
}

/// Whether the sender may remove the target: the fourth rule of validity for a remove.
pub fn may_remove(past: &[PlainMessage], sender: &[u8; 32], target: &[u8; 32]) -> bool
    ensures { IsTrue result ↔ (In target.now (remove_wins (history_of past.now)) × (target.now ≢ sender.now)) }
{
    is_member(past, target) && *target != *sender
}

/// Whether the card of the id has a public key and names the inviter.
fn names_inviter(cards: &[Invitation], id: &[u8; 32], inviter: &[u8; 32]) -> bool
    ensures { IsTrue result ↔ (inviter_in cards.now id.now ≡ Some inviter.now) }
{
    match inviter_of(cards, id) {
        Some(named) => named == *inviter,
        None => false,
    }
}

/// Whether the sender may add the target: the fourth rule of validity for an add.
pub fn may_add(
    alloc: Global,
    cards: &[Invitation],
    past: &[PlainMessage],
    sender: &[u8; 32],
    target: &[u8; 32],
) -> Result<bool, AllocError>
    ensures { IfOk result (λ b. IsTrue b
        ↔ ((Named (history_of past.now) target.now → ⊥) × (inviter_in cards.now target.now ≡ Some sender.now)
        × (length (ids_named (history_of past.now)) < 32))) }
{
    if is_named(past, target) {
        return Ok(false);
    }
    let ids = named_ids(alloc, past)?;
    Ok(names_inviter(cards, target, sender) && ids.len() < 32)
}

/// The fourth rule of validity, as far as header, cards and past tell: the conditions of the kind. A create is judged
/// by `opens`.
pub fn meets_kind(
    alloc: Global,
    cards: &[Invitation],
    past: &[PlainMessage],
    sender: &[u8; 32],
    kind: &PlainKind,
) -> Result<bool, AllocError>
    ensures { IfOk result (λ b. IsTrue b
        ↔ MeetsKind remove_wins (inviter_in cards.now) (history_of past.now) sender.now (kind_of kind.now)) }
{
    match kind {
        PlainKind::Ack(operation, took) => may_ack(alloc, past, sender, operation, *took),
        PlainKind::AddAck(operation) => Ok(may_add_ack(past, sender, operation)),
        PlainKind::Create(_) => Ok(false),
        PlainKind::Update => Ok(true),
        PlainKind::Remove(target) => Ok(may_remove(past, sender, target)),
        PlainKind::Add(target) => may_add(alloc, cards, past, sender, target),
        PlainKind::Text => Ok(has_stepped(past, sender)),
    }
}

/// Whether the card of the id has a public key, and the sender as its inviter where the id is another's.
fn is_invited(cards: &[Invitation], id: &[u8; 32], sender: &[u8; 32]) -> bool
    ensures { IsTrue result ↔ IsInvited (inviter_in cards.now) sender.now id.now }
{
    if same(id, sender) {
        return inviter_of(cards, id).is_some();
    }
    names_inviter(cards, id, sender)
}

/// Whether the card of each of the ids has a public key, and the sender as its inviter where the id is another's.
fn are_invited(cards: &[Invitation], ids: &[[u8; 32]], sender: &[u8; 32]) -> bool
    ensures { IsTrue result
        ↔ ((y : Id) → In y ids.now → IsInvited (inviter_in cards.now) sender.now y) }
{
    for id in ids {
        if !is_invited(cards, id, sender) {
            return false;
        }
    }
    true
}

/// Whether the message opens a history: the fourth rule of validity for a create.
pub fn opens(cards: &[Invitation], row: &PlainMessage) -> bool
    ensures { IsTrue result ↔ Opens (inviter_in cards.now) (message_of row.now) }
{
    match &row.kind {
        PlainKind::Create(members) => {
            row.predecessors.is_empty()
                && row.seq == 1
                && has(members.as_slice(), &row.sender)
                && are_invited(cards, members.as_slice(), &row.sender)
        }
        _ => false,
    }
}

/// Whether the member with these messages answers one more in the step that takes it: an operation of somebody else,
/// with which the member is one still.
pub fn needs_answer(member: &[u8; 32], rows: &[PlainMessage], row: &PlainMessage) -> bool
    ensures { IsTrue result ↔ NeedsAnswer remove_wins member.now (history_of rows.now) (message_of row.now) }
{
    is_of_others(row, member) && is_member_with(rows, row, member)
}

/// The seventh rule of validity, for the history of the member: with the message, and the answer that the member then
/// makes, it has at most 4,096 messages, and with the message it names at most 32 ids.
pub fn is_within_limits(
    alloc: Global,
    member: &[u8; 32],
    rows: &[PlainMessage],
    row: &PlainMessage,
) -> Result<bool, AllocError>
    ensures { IfOk result (λ b. IsTrue b
        ↔ IsWithinLimits remove_wins member.now (history_of rows.now) (message_of row.now)) }
{
    if rows.len() >= 4096 || needs_answer(member, rows, row) && rows.len() >= 4095 {
        return Ok(false);
    }
    let older = named_ids(alloc, rows)?;
    let ids = with_named(&row.kind, older)?;
    Ok(ids.len() <= 32)
}
