use crate::*;
use causal_history::{Crowd, History};
use group_fields::{
    Bytes, Card, Cards, Digest, GroupId, Header, HeaderView, Ids, Kind, MemberId, Memory,
    MessageId, Target, read_card, read_header, write_card, write_header,
};
use group_model::plain::members as plain;
use group_model::plain::messages::{
    PlainKind, PlainMessage, adds, count_of, is_operation as is_plain_operation, past,
};
use group_model::plain::validity::{
    Invitation, follows_heads, is_in_turn, is_next_in_sequence, is_unanswered, meets_kind, opens,
};
use std::alloc::Global;
use std::test::Fail;

const MEMBERS: u8 = 6;

// The faults by numbers, in the order in which they are asked.
const VALID: u8 = 0;

const STRANGER: u8 = 1;

const NOT_MEMBER: u8 = 2;

const FORKED: u8 = 3;

const BAD_ORDER: u8 = 4;

const BAD_KIND: u8 = 5;

// No header could be read.
const UNREADABLE: u8 = 6;

// ---- members, by the numbers of their cards

fn card_bytes(alloc: Global, number: u8) -> Result<Bytes, Memory> {
    let mut lms_public = [number; 56];
    lms_public[..8].copy_from_slice(&[0, 0, 0, 5, 0, 0, 0, 3]);
    let card = Card {
        set: 2,
        lms_public,
        inviter: MemberId(Digest([0; 32])),
        kem_public: Bytes::copy_of(alloc, &[number; 33])?,
    };
    if card.has_spelling() {
        return write_card(alloc, &card);
    }
    Bytes::copy_of(alloc, &[])
}

fn id_of(alloc: Global, number: u8) -> Result<[u8; 32], Memory> {
    let bytes = card_bytes(alloc, number)?;
    Ok(match read_card(bytes.as_slice()) {
        Ok(card) => card.id().0.0,
        Err(_) => [0; 32],
    })
}

fn all_ids(alloc: Global) -> Result<Vec<[u8; 32]>, Memory> {
    let mut ids = Vec::new(alloc);
    for number in 0..MEMBERS {
        ids.push(id_of(alloc, number)?)?;
    }
    Ok(ids)
}

fn id_at(ids: &[[u8; 32]], number: u8) -> [u8; 32] {
    ids.get(number as usize).copied().unwrap_or([0; 32])
}

fn push_card(alloc: Global, cards: &mut Cards, id: &Digest) -> Result<(), Memory> {
    for number in 0..MEMBERS {
        let bytes = card_bytes(alloc, number)?;
        if let Ok(card) = read_card(bytes.as_slice()) {
            if card.id().0 == *id {
                cards.push(&card)?;
            }
        }
    }
    Ok(())
}

fn cards_of(alloc: Global, header: &HeaderView<'_>) -> Result<Cards, Memory> {
    let mut cards = Cards::new(alloc);
    match act_of(header) {
        Act::Create(ids) => {
            for index in 0..ids.count() {
                push_card(alloc, &mut cards, &ids.id(index))?;
            }
        }
        Act::Add(id) => push_card(alloc, &mut cards, &id.0)?,
        _ => {}
    }
    Ok(cards)
}

// ---- headers

fn ids_from(mut ids: Vec<[u8; 32]>, alloc: Global) -> Result<Ids, Memory> {
    ids.sort()?;
    let mut list = Ids::new(alloc);
    for id in ids.as_slice() {
        list.push(Digest(*id))?;
    }
    Ok(list)
}

fn spelled(
    alloc: Global,
    sender: [u8; 32],
    seq: u32,
    kind: Kind,
    target: Target,
    predecessors: Ids,
) -> Result<Bytes, Memory> {
    let header = Header {
        set: 2,
        group: GroupId(Digest([9; 32])),
        sender: MemberId(Digest(sender)),
        seq,
        kind,
        target,
        predecessors,
        body: Digest([7; 32]),
    };
    if header.has_spelling() {
        return write_header(alloc, &header);
    }
    Bytes::copy_of(alloc, &[])
}

fn plain_ids(alloc: Global, ids: &group_fields::IdsView<'_>) -> Result<Vec<[u8; 32]>, Memory> {
    let mut list = Vec::new(alloc);
    for index in 0..ids.count() {
        list.push(ids.id(index).0)?;
    }
    Ok(list)
}

fn plain_kind(alloc: Global, header: &HeaderView<'_>) -> Result<PlainKind, Memory> {
    Ok(match act_of(header) {
        Act::Create(ids) => PlainKind::Create(plain_ids(alloc, &ids)?),
        Act::Update => PlainKind::Update,
        Act::Remove(id) => PlainKind::Remove(id.0.0),
        Act::Add(id) => PlainKind::Add(id.0.0),
        Act::Ack(id, took) => PlainKind::Ack(id.0.0, took),
        Act::AddAck(id) => PlainKind::AddAck(id.0.0),
        Act::Text => PlainKind::Text,
    })
}

fn plain_of(alloc: Global, header: &HeaderView<'_>) -> Result<PlainMessage, Memory> {
    Ok(PlainMessage {
        id: header.id().0.0,
        set: header.set(),
        group: header.group().0.0,
        sender: header.sender().0.0,
        seq: header.seq(),
        kind: plain_kind(alloc, header)?,
        predecessors: plain_ids(alloc, &header.predecessors())?,
        body: header.body().0,
    })
}

// ---- a history, and the rows of the plain program, newest first

#[derive(Drop)]
struct Group {
    ids: Vec<[u8; 32]>,
    history: History,
    rows: Vec<PlainMessage>,
}

fn new_group(alloc: Global) -> Result<Group, Memory> {
    Ok(Group {
        ids: all_ids(alloc)?,
        history: History::new(alloc),
        rows: Vec::new(alloc),
    })
}

fn push(alloc: Global, group: &mut Group, header: &HeaderView<'_>) -> Result<bool, Memory> {
    let cards = cards_of(alloc, header)?;
    if !group.history.may_push(header, &cards)? {
        return Ok(false);
    }
    group.history.push(header, &cards)?;
    let row = plain_of(alloc, header)?;
    group.rows.insert(0, row)?;
    Ok(true)
}

fn row_id(group: &Group, number: u32) -> [u8; 32] {
    let back = group.rows.iter().rev().nth(number as usize);
    back.map_or([0; 32], |row| row.id)
}

fn rows_in(alloc: Global, group: &Group, bits: u32) -> Result<Ids, Memory> {
    let mut ids = Vec::new(alloc);
    for number in 0..32 {
        if bits >> number & 1 == 1 {
            ids.push(row_id(group, number))?;
        }
    }
    ids_from(ids, alloc)
}

// ---- what is compared, without clauses: what calls it is proved fast

// The number of the fault, and the id of a fork.
fn fault_of(history: &History, header: &HeaderView<'_>) -> Option<(u8, [u8; 32])> {
    if history.missing(header).is_some() {
        return None;
    }
    Some(match rules::<RemoveWins>(history, header) {
        None => (VALID, [0; 32]),
        Some(RuleFault::Stranger) => (STRANGER, [0; 32]),
        Some(RuleFault::NotMember) => (NOT_MEMBER, [0; 32]),
        Some(RuleFault::Forked(id)) => (FORKED, id.0.0),
        Some(RuleFault::BadOrder) => (BAD_ORDER, [0; 32]),
        Some(RuleFault::BadKind) => (BAD_KIND, [0; 32]),
    })
}

fn crowds_of(history: &History, header: &HeaderView<'_>) -> Option<(Crowd, Crowd)> {
    if history.missing(header).is_some() {
        return None;
    }
    match header.kind() {
        Kind::Create => None,
        _ => Some((
            view::<RemoveWins>(history, header),
            recipients::<RemoveWins>(history, header),
        )),
    }
}

fn sent(history: &History, id: &[u8; 32]) -> u32 {
    count_of_sender(history, &MemberId(Digest(*id)))
}

fn sees(
    alloc: Global,
    rows: &[PlainMessage],
    row: &PlainMessage,
    id: &[u8; 32],
) -> Result<bool, Memory> {
    plain::sees(alloc, rows, row, id)
}

fn receives(
    alloc: Global,
    rows: &[PlainMessage],
    row: &PlainMessage,
    id: &[u8; 32],
) -> Result<bool, Memory> {
    plain::is_recipient(alloc, rows, row, id)
}

fn names_of(
    alloc: Global,
    rows: &[PlainMessage],
    row: &PlainMessage,
) -> Result<Vec<[u8; 32]>, Memory> {
    plain::with_named(&row.kind, plain::named_ids(alloc, rows)?)
}

fn invitations(
    alloc: Global,
    ids: &[[u8; 32]],
    inviter: &[u8; 32],
) -> Result<Vec<Invitation>, Memory> {
    let mut cards = Vec::new(alloc);
    for id in ids {
        cards.push(Invitation {
            id: *id,
            inviter: *inviter,
            has_key: true,
        })?;
    }
    Ok(cards)
}

fn is_next(rows: &[PlainMessage], row: &PlainMessage) -> bool {
    rows.len() < 100 && is_next_in_sequence(rows, row)
}

fn in_order(alloc: Global, past: &[PlainMessage], row: &PlainMessage) -> Result<bool, Memory> {
    Ok(
        is_next(past, row)
            && is_in_turn(alloc, past, &row.sender, &row.kind)?
            && follows_heads(alloc, past, row)?,
    )
}

fn is_fork(a: &PlainMessage, row: &PlainMessage) -> bool {
    a.sender == row.sender && a.seq == row.seq && a.id != row.id
}

// The oldest of the rows that forks with the message.
fn fork_of(rows: &[PlainMessage], row: &PlainMessage) -> Option<[u8; 32]> {
    rows.iter().rev().find(|a| is_fork(a, row)).map(|a| a.id)
}

fn plain_fault(
    alloc: Global,
    ids: &[[u8; 32]],
    rows: &[PlainMessage],
    row: &PlainMessage,
) -> Result<(u8, [u8; 32]), Memory> {
    let cards = invitations(alloc, ids, &row.sender)?;
    if let (true, PlainKind::Create(_)) = (rows.is_empty(), &row.kind) {
        let fault = if opens(cards.as_slice(), row) {
            VALID
        } else {
            BAD_KIND
        };
        return Ok((fault, [0; 32]));
    }
    let older = past(alloc, rows, row.predecessors.as_slice())?;
    if !plain::is_named(older.as_slice(), &row.sender) {
        return Ok((STRANGER, [0; 32]));
    }
    if !plain::is_member(older.as_slice(), &row.sender) {
        return Ok((NOT_MEMBER, [0; 32]));
    }
    if let Some(id) = fork_of(rows, row) {
        return Ok((FORKED, id));
    }
    if !in_order(alloc, older.as_slice(), row)? {
        return Ok((BAD_ORDER, [0; 32]));
    }
    let suits = meets_kind(
        alloc,
        cards.as_slice(),
        older.as_slice(),
        &row.sender,
        &row.kind,
    )?;
    Ok((if suits { VALID } else { BAD_KIND }, [0; 32]))
}

// Whether the crowds have exactly the places of those that see the message and that it has a part for.
fn crowds_agree(
    alloc: Global,
    group: &Group,
    header: &HeaderView<'_>,
    row: &PlainMessage,
) -> Result<bool, Memory> {
    let Some((seen_by, sent_to)) = crowds_of(&group.history, header) else {
        return Ok(true);
    };
    let names = names_of(alloc, group.rows.as_slice(), row)?;
    let mut view_bits = 0;
    let mut part_bits = 0;
    let mut bit: u64 = 1;
    for id in names.as_slice() {
        if sees(alloc, group.rows.as_slice(), row, id)? {
            view_bits |= bit;
        }
        if receives(alloc, group.rows.as_slice(), row, id)? {
            part_bits |= bit;
        }
        bit = bit.wrapping_mul(2);
    }
    Ok(seen_by.0 == view_bits && sent_to.0 == part_bits)
}

// ---- drawn messages

fn draw(seed: &mut u32, below: u32) -> u32 {
    *seed = seed.wrapping_mul(1_664_525).wrapping_add(1_013_904_223);
    if below == 0 { 0 } else { (*seed >> 16) % below }
}

// The number of a row of the group, or 0 where there is none.
fn drawn_row(group: &Group, seed: &mut u32) -> u32 {
    draw(seed, u32::try_from(group.rows.len()).unwrap_or(0))
}

// One of the first so many of the ids.
fn drawn_id(ids: &[[u8; 32]], seed: &mut u32, below: u8) -> [u8; 32] {
    id_at(ids, u8::try_from(draw(seed, below.into())).unwrap_or(0))
}

fn waits(
    alloc: Global,
    rows: &[PlainMessage],
    id: &[u8; 32],
    row: &PlainMessage,
) -> Result<bool, Memory> {
    Ok(is_plain_operation(&row.kind) && is_unanswered(alloc, rows, id, row)?)
}

// The answer of the member to the oldest operation that waits for it.
fn answer(
    alloc: Global,
    rows: &[PlainMessage],
    id: &[u8; 32],
    took: bool,
) -> Result<Option<(Kind, Target)>, Memory> {
    for row in rows.iter().rev() {
        if waits(alloc, rows, id, row)? {
            let operation = MessageId(Digest(row.id));
            if let PlainKind::Add(_) = row.kind {
                if !adds(&row.kind, id) {
                    return Ok(Some((Kind::AddAck, Target::Answer(operation, true))));
                }
            }
            return Ok(Some((Kind::Ack, Target::Answer(operation, took))));
        }
    }
    Ok(None)
}

fn drawn_act(alloc: Global, group: &Group, seed: &mut u32) -> Result<(Kind, Target), Memory> {
    let other = drawn_id(group.ids.as_slice(), seed, MEMBERS);
    let at = drawn_row(group, seed);
    let row = group.rows.get(at as usize).map_or([1; 32], |row| row.id);
    Ok(match draw(seed, 8) {
        0 | 1 => (Kind::Update, Target::Nothing),
        2 => (Kind::Remove, Target::Member(MemberId(Digest(other)))),
        3 | 4 => (Kind::Add, Target::Member(MemberId(Digest(other)))),
        5 => (Kind::Ack, Target::Answer(MessageId(Digest(row)), true)),
        6 => (Kind::Text, Target::Nothing),
        _ => (
            Kind::Create,
            Target::Members(ids_from(vec![in alloc; other]?, alloc)?),
        ),
    })
}

// The create of the first three members, by the first.
fn first_message(alloc: Global, group: &Group) -> Result<Bytes, Memory> {
    let (kind, target) = act_by(alloc, group, Does::Create)?;
    let creator = id_at(group.ids.as_slice(), 0);
    spelled(alloc, creator, 1, kind, target, Ids::new(alloc))
}

// The heads, or now and then one row alone.
fn drawn_predecessors(alloc: Global, group: &Group, seed: &mut u32) -> Result<Ids, Memory> {
    let at = drawn_row(group, seed);
    if draw(seed, 4) == 0 {
        return rows_in(alloc, group, 1 << (at % 32));
    }
    group.history.heads()
}

// What is due, or now and then something else.
fn drawn_or_due(
    alloc: Global,
    group: &Group,
    seed: &mut u32,
    sender: &[u8; 32],
) -> Result<(Kind, Target), Memory> {
    if draw(seed, 8) == 0 {
        return drawn_act(alloc, group, seed);
    }
    let took = draw(seed, 4) != 0;
    match answer(alloc, group.rows.as_slice(), sender, took)? {
        Some(act) => Ok(act),
        None => drawn_act(alloc, group, seed),
    }
}

fn drawn_number(group: &Group, seed: &mut u32, sender: &[u8; 32]) -> u32 {
    let sent = sent(&group.history, sender);
    if draw(seed, 8) == 0 {
        sent
    } else {
        sent.wrapping_add(1)
    }
}

fn drawn(alloc: Global, group: &Group, seed: &mut u32) -> Result<Bytes, Memory> {
    let sender = drawn_id(group.ids.as_slice(), seed, 5);
    let seq = drawn_number(group, seed, &sender);
    let before = drawn_predecessors(alloc, group, seed)?;
    let (kind, target) = drawn_or_due(alloc, group, seed, &sender)?;
    spelled(alloc, sender, seq, kind, target, before)
}

// The fault of a message by the plain program, where the other finds the same, and the same crowds.
fn same_fault(
    alloc: Global,
    group: &Group,
    header: &HeaderView<'_>,
    row: &PlainMessage,
) -> Result<Option<u8>, Memory> {
    let fault = plain_fault(alloc, group.ids.as_slice(), group.rows.as_slice(), row)?;
    if fault_of(&group.history, header) == Some(fault) && crowds_agree(alloc, group, header, row)? {
        return Ok(Some(fault.0));
    }
    Ok(None)
}

fn fault_by_both(
    alloc: Global,
    group: &Group,
    header: &HeaderView<'_>,
) -> Result<Option<u8>, Memory> {
    let row = plain_of(alloc, header)?;
    same_fault(alloc, group, header, &row)
}

// Judges one more message both ways, and pushes it where it is valid or is to be kept. The number of its fault, or
// `None` where the two differ.
fn judged(
    alloc: Global,
    group: &mut Group,
    bytes: &[u8],
    keep: bool,
) -> Result<Option<u8>, Memory> {
    let Ok(header) = read_header(bytes) else {
        return Ok(Some(UNREADABLE));
    };
    let fault = fault_by_both(alloc, group, &header)?;
    if fault == Some(VALID) || fault.is_some() && keep {
        push(alloc, group, &header)?;
    }
    Ok(fault)
}

fn count_fault(counts: &mut [u32; 7], fault: u8) {
    if let Some(count) = counts.get_mut(fault as usize) {
        *count = u32::wrapping_add(*count, 1);
    }
}

// Draws one more message and judges it both ways.
fn judged_next(alloc: Global, group: &mut Group, seed: &mut u32) -> Result<Option<u8>, Memory> {
    let bytes = drawn(alloc, group, seed)?;
    let keep = draw(seed, 3) == 0;
    judged(alloc, group, bytes.as_slice(), keep)
}

// Judges the first message of a group both ways.
fn judged_first(alloc: Global, group: &mut Group) -> Result<Option<u8>, Memory> {
    let first = first_message(alloc, group)?;
    judged(alloc, group, first.as_slice(), false)
}

// Whether the two programs agree on the first message, which is valid, and on 24 that are drawn behind it, whose faults
// are counted.
fn agree(
    alloc: Global,
    group: &mut Group,
    seed: u32,
    counts: &mut [u32; 7],
) -> Result<bool, Memory> {
    if judged_first(alloc, group)? != Some(VALID) {
        return Ok(false);
    }
    let mut seed = seed;
    for _ in 0..24 {
        match judged_next(alloc, group, &mut seed)? {
            None => return Ok(false),
            Some(fault) => count_fault(counts, fault),
        }
    }
    Ok(true)
}

fn agree_from(alloc: Global, seed: u32, counts: &mut [u32; 7]) -> Result<bool, Memory> {
    let mut group = new_group(alloc)?;
    agree(alloc, &mut group, seed, counts)
}

// Draws histories, and counts the faults of all. The number of the first on which the two programs differ.
fn first_apart(alloc: Global, counts: &mut [u32; 7]) -> Result<Option<u32>, Memory> {
    for seed in 0..10 {
        if !agree_from(alloc, seed, counts)? {
            return Ok(Some(seed));
        }
    }
    Ok(None)
}

#[test]
fn drawn_histories(rt: HostRuntime) -> Result<(), Fail> {
    let mut counts = [0; 7];
    assert_eq!(rt; first_apart(rt.alloc(), &mut counts)?, None);
    for fault in 0..6 {
        assert!(rt; counts[fault] > 0, "fault {fault} never came");
    }
    Ok(())
}

// ---- adds and removes that cross, by hand

// What a message does. Members are numbers, and so are the rows that are answered.
#[derive(Clone, Copy)]
enum Does {
    // Makes the group of the first three members.
    Create,
    Remove(u8),
    Add(u8),
    Ack(u8),
    RefusedAck(u8),
    Text,
}

// Sender, sequence number and act of a message, the rows that it follows, its fault, who sees it, and whether it
// becomes the next row. Sets of rows and of members are bits.
type Told = (u8, u32, Does, u32, u8, u32, bool);

const CROSSING: [Told; 19] = [
    (0, 1, Does::Create, 0b0, VALID, 0, true),
    (1, 1, Does::Ack(0), 0b1, VALID, 0b111, true),
    (2, 1, Does::Ack(0), 0b1, VALID, 0b111, true),
    // a further create, after the heads and without predecessors
    (0, 2, Does::Create, 0b110, BAD_KIND, 0, false),
    (0, 2, Does::Create, 0b0, STRANGER, 0, false),
    (3, 1, Does::Text, 0b110, STRANGER, 0b111, false),
    // three at once: 0 removes 2, 1 adds 3, 2 removes 0
    (0, 2, Does::Remove(2), 0b110, VALID, 0b011, true),
    (1, 2, Does::Add(3), 0b110, VALID, 0b1111, true),
    (2, 2, Does::Remove(0), 0b110, VALID, 0b110, true),
    // after all three both are out, and two removes wait for 1
    (1, 3, Does::Ack(3), 0b111000, BAD_ORDER, 0b1010, false),
    (2, 3, Does::Text, 0b111000, NOT_MEMBER, 0b1010, false),
    (0, 3, Does::Text, 0b111000, NOT_MEMBER, 0b1010, false),
    // an add of who was removed brings nobody back
    (0, 3, Does::Add(2), 0b001000, BAD_KIND, 0b011, false),
    // 1 answers the one remove, 3 its own add
    (1, 3, Does::Ack(3), 0b011000, VALID, 0b1011, true),
    (3, 1, Does::Ack(4), 0b010000, VALID, 0b1111, true),
    // 1 can't send another message with this number
    (1, 3, Does::Text, 0b1000000, FORKED, 0b1011, false),
    // 3 was no recipient of the remove: it answers it without its secret
    (3, 2, Does::Ack(3), 0b11000000, BAD_KIND, 0b1011, false),
    (3, 2, Does::Text, 0b11000000, BAD_ORDER, 0b1011, false),
    (3, 2, Does::RefusedAck(3), 0b11000000, VALID, 0b1011, true),
];

fn first_three(alloc: Global, ids: &[[u8; 32]]) -> Result<Target, Memory> {
    let three = vec![in alloc; id_at(ids, 0), id_at(ids, 1), id_at(ids, 2)]?;
    Ok(Target::Members(ids_from(three, alloc)?))
}

fn member(group: &Group, number: u8) -> Target {
    Target::Member(MemberId(Digest(id_at(group.ids.as_slice(), number))))
}

fn answer_to(group: &Group, row: u8, took: bool) -> Target {
    Target::Answer(MessageId(Digest(row_id(group, row.into()))), took)
}

fn act_by(alloc: Global, group: &Group, does: Does) -> Result<(Kind, Target), Memory> {
    Ok(match does {
        Does::Create => (Kind::Create, first_three(alloc, group.ids.as_slice())?),
        Does::Remove(whom) => (Kind::Remove, member(group, whom)),
        Does::Add(whom) => (Kind::Add, member(group, whom)),
        Does::Ack(row) => (Kind::Ack, answer_to(group, row, true)),
        Does::RefusedAck(row) => (Kind::Ack, answer_to(group, row, false)),
        Does::Text => (Kind::Text, Target::Nothing),
    })
}

fn has_place(history: &History, header: &HeaderView<'_>, crowd: Crowd, id: &[u8; 32]) -> bool {
    match place_with(history, Some(header), &MemberId(Digest(*id))) {
        None => false,
        Some(place) => crowd.has(place),
    }
}

// The members in a crowd, by their numbers.
fn numbers_of(group: &Group, header: &HeaderView<'_>, crowd: Crowd) -> u32 {
    let mut bits = 0;
    for number in 0..MEMBERS {
        let id = id_at(group.ids.as_slice(), number);
        if has_place(&group.history, header, crowd, &id) {
            bits |= 1 << number;
        }
    }
    bits
}

// The bytes of a message that is told.
fn told(alloc: Global, group: &Group, message: &Told) -> Result<Bytes, Memory> {
    let (sender, seq, does, after, _, _, _) = *message;
    let sender = id_at(group.ids.as_slice(), sender);
    let before = rows_in(alloc, group, after)?;
    let (kind, target) = act_by(alloc, group, does)?;
    spelled(alloc, sender, seq, kind, target, before)
}

fn has_fault(history: &History, header: &HeaderView<'_>, fault: u8) -> bool {
    match fault_of(history, header) {
        None => false,
        Some((found, _)) => found == fault,
    }
}

// Whether the members who see the message are these, where that is asked.
fn is_seen_by(group: &Group, header: &HeaderView<'_>, seen_by: u32) -> bool {
    match crowds_of(&group.history, header) {
        None => true,
        Some((seers, _)) => numbers_of(group, header, seers) == seen_by,
    }
}

// Whether the message has the fault and the view that are told.
fn is_as_told(group: &Group, header: &HeaderView<'_>, message: &Told) -> bool {
    let (_, _, _, _, fault, seen_by, _) = *message;
    has_fault(&group.history, header, fault) && is_seen_by(group, header, seen_by)
}

// Whether the message of the bytes is as it is told. It is pushed where it is told so.
fn judge(alloc: Global, group: &mut Group, message: &Told, bytes: &[u8]) -> Result<bool, Memory> {
    let Ok(header) = read_header(bytes) else {
        return Ok(false);
    };
    let is = is_as_told(group, &header, message);
    if message.6 {
        return Ok(push(alloc, group, &header)? && is);
    }
    Ok(is)
}

fn judge_told(alloc: Global, group: &mut Group, message: &Told) -> Result<bool, Memory> {
    let bytes = told(alloc, group, message)?;
    judge(alloc, group, message, bytes.as_slice())
}

// The number of the first message that is judged otherwise.
fn first_wrong(alloc: Global, group: &mut Group) -> Result<Option<usize>, Memory> {
    for (at, message) in CROSSING.iter().enumerate() {
        if !judge_told(alloc, group, message)? {
            return Ok(Some(at));
        }
    }
    Ok(None)
}

fn wrong_message(alloc: Global) -> Result<Option<usize>, Memory> {
    let mut group = new_group(alloc)?;
    first_wrong(alloc, &mut group)
}

#[test]
fn crossing_adds_and_removes(rt: HostRuntime) -> Result<(), Fail> {
    assert_eq!(rt; wrong_message(rt.alloc())?, None);
    Ok(())
}
