//! Verdicts on the packets of a small group, worked out by hand: ada opens it with bob and cyd, who ack; dora and eve
//! are to come. A row of a table is a message, or what a member has taken and what it finds of what is handed to it.

mod making;

use crate::{Verdict, addressees, judge, needs_answer, set_of};
use causal_history::{Crowd, History};
use group_fields::{Digest, GroupId, HeaderView, Ids, Kind, MemberId, MessageId, Target};
use kem_trait::Kem;
use making::*;
use member_view::{RemoveWins, place_with};
use ntru_prime::Drill37;
use std::alloc::Global;
use std::test::Fail;
use wire_codec::PacketView;

/// No message, or nobody.
const NO: u8 = 255;

/// The kinds of the messages.
const CREATE: u8 = 1;

const UPDATE: u8 = 2;

const REMOVE: u8 = 3;

const ADD: u8 = 4;

const ACK: u8 = 5;

const REFUSED_ACK: u8 = 6;

const ADD_ACK: u8 = 7;

const TEXT: u8 = 8;

const STRAY: u8 = 9;

/// The people: ada, bob, cyd, dora, and eve, whose card has no public key. ada and cyd sign.
const ADA: u8 = 0;

const BOB: u8 = 1;

const CYD: u8 = 2;

const DORA: u8 = 3;

const EVE: u8 = 4;

/// Each message: its sender, its number, its kind, what it is about (a person, or a message), up to three messages
/// that it follows, whom it has parts for (a bit for each person), and who signs it, by which leaf. The kind `STRAY`
/// is a text of another group.
const MESSAGES: [[u8; 10]; 38] = [
    [ADA, 1, CREATE, NO, NO, NO, NO, 6, ADA, 0],
    [BOB, 1, ACK, 0, 0, NO, NO, 0, BOB, 0],
    [CYD, 1, ACK, 0, 0, NO, NO, 0, CYD, 0],
    [ADA, 2, UPDATE, NO, 1, 2, NO, 6, ADA, 1],
    [ADA, 2, STRAY, NO, 1, 2, NO, 0, ADA, 1],
    [ADA, 3, TEXT, NO, 1, 2, NO, 0, ADA, 2],
    [ADA, 3, TEXT, NO, 3, NO, NO, 0, ADA, 2],
    [ADA, 4, TEXT, NO, 3, 5, NO, 0, ADA, 3],
    [ADA, 2, REMOVE, CYD, 1, 2, NO, 2, ADA, 1],
    [CYD, 2, TEXT, NO, 8, NO, NO, 0, CYD, 1],
    [CYD, 1, REFUSED_ACK, 0, 0, NO, NO, 0, CYD, 0],
    [DORA, 1, TEXT, NO, 1, 2, NO, 0, DORA, 0],
    [BOB, 2, TEXT, NO, 1, 2, NO, 0, BOB, 1],
    [ADA, 2, CREATE, NO, NO, NO, NO, 6, ADA, 1],
    [ADA, 3, UPDATE, NO, 1, 2, NO, 6, ADA, 2],
    [ADA, 2, UPDATE, NO, 0, 1, 2, 6, ADA, 1],
    [CYD, 2, TEXT, NO, 3, NO, NO, 0, CYD, 1],
    [ADA, 2, UPDATE, NO, 1, 2, NO, 2, ADA, 1],
    [ADA, 2, UPDATE, NO, 1, 2, NO, 14, ADA, 1],
    [ADA, 2, UPDATE, NO, 1, 2, NO, 7, ADA, 1],
    [ADA, 2, CREATE, NO, 1, 2, NO, 6, ADA, 1],
    [ADA, 2, REMOVE, ADA, 1, 2, NO, 6, ADA, 1],
    [ADA, 2, ADD, DORA, 1, 2, NO, 0, ADA, 1],
    [BOB, 2, ADD, DORA, 1, 2, NO, 0, BOB, 1],
    [ADA, 2, ADD, EVE, 1, 2, NO, 0, ADA, 1],
    [ADA, 2, TEXT, NO, 1, 2, NO, 0, ADA, 1],
    [ADA, 2, REMOVE, BOB, 1, 2, NO, 4, ADA, 1],
    [ADA, 2, TEXT, NO, 1, 2, NO, 0, ADA, 2],
    [ADA, 2, TEXT, NO, 1, 2, NO, 0, CYD, 1],
    [ADA, 3, TEXT, NO, 25, NO, NO, 0, ADA, 2],
    [ADA, 3, UPDATE, NO, 25, NO, NO, 6, ADA, 2],
    [ADA, 4, TEXT, NO, 29, NO, NO, 0, ADA, 3],
    [BOB, 2, UPDATE, NO, 1, 2, NO, 5, BOB, 1],
    [CYD, 2, ADD_ACK, 22, 22, NO, NO, 8, CYD, 1],
    [CYD, 2, ADD_ACK, 22, 22, NO, NO, 0, CYD, 1],
    [CYD, 3, ACK, 32, 33, 32, NO, 8, CYD, 2],
    [CYD, 3, ACK, 32, 33, 32, NO, 0, CYD, 2],
    [CYD, 3, REFUSED_ACK, 32, 33, 32, NO, 0, CYD, 2],
];

/// Histories: which messages were taken.
const TAKEN: [[u8; 6]; 9] = [
    [0, 1, 2, NO, NO, NO],
    [0, 1, 2, 3, NO, NO],
    [0, 1, 2, 8, NO, NO],
    [0, 1, 2, 25, NO, NO],
    [0, 1, 2, 25, 29, NO],
    [0, 1, 2, 22, 32, NO],
    [0, 1, 2, 22, 32, 33],
    [0, 1, 2, 22, NO, NO],
    [0, 1, 2, 26, NO, NO],
];

/// The verdicts by numbers. `LEAST` is to wait for the lesser of messages 3 and 5.
const OUT: u8 = 1;

const OTHER_GROUP: u8 = 2;

const KNOWN: u8 = 3;

const WAITS: u8 = 4;

const STRANGER: u8 = 5;

const NOT_MEMBER: u8 = 6;

const FORKED: u8 = 7;

const BAD_ORDER: u8 = 8;

const BAD_KIND: u8 = 9;

const KEYS_SPENT: u8 = 10;

const BAD_SIGNATURE: u8 = 11;

const READY: u8 = 12;

const LEAST: u8 = 13;

/// Each case: the history, who judges, whether a leaf is left, the message, whether its last byte is changed, the
/// verdict, and what it carries: a message, or a number.
const CASES: [[u8; 7]; 46] = [
    // Whether it is new, and its predecessors are there.
    [0, BOB, 1, 3, 0, READY, 0],
    [0, BOB, 1, 4, 0, OTHER_GROUP, 0],
    [0, BOB, 1, 2, 0, KNOWN, 0],
    [0, BOB, 1, 6, 0, WAITS, 3],
    [0, BOB, 1, 7, 0, LEAST, 0],
    [1, ADA, 1, 7, 0, WAITS, 5],
    // Who was removed is out, whatever is handed to it.
    [2, CYD, 1, 3, 0, OUT, 0],
    [2, CYD, 1, 2, 0, OUT, 0],
    [2, CYD, 1, 4, 0, OUT, 0],
    [8, BOB, 1, 6, 0, OUT, 0],
    [2, BOB, 1, 9, 0, NOT_MEMBER, 0],
    [2, BOB, 1, 3, 0, FORKED, 8],
    // Senders and orders.
    [0, BOB, 1, 11, 0, STRANGER, 0],
    [0, BOB, 1, 12, 0, STRANGER, 0],
    [0, BOB, 1, 13, 0, STRANGER, 0],
    [0, BOB, 1, 10, 0, FORKED, 2],
    [0, BOB, 1, 14, 0, BAD_ORDER, 0],
    [0, BOB, 1, 15, 0, BAD_ORDER, 0],
    [1, BOB, 1, 16, 0, BAD_ORDER, 0],
    // Kinds, parts and cards.
    [0, BOB, 1, 17, 0, BAD_KIND, 0],
    [0, BOB, 1, 18, 0, BAD_KIND, 0],
    [0, BOB, 1, 19, 0, BAD_KIND, 0],
    [0, BOB, 1, 20, 0, BAD_KIND, 0],
    [0, BOB, 1, 21, 0, BAD_KIND, 0],
    [0, BOB, 1, 22, 0, READY, 0],
    [0, CYD, 1, 23, 0, BAD_KIND, 0],
    [0, BOB, 1, 24, 0, BAD_KIND, 0],
    // Leaves and signatures.
    [0, BOB, 0, 3, 0, KEYS_SPENT, 1],
    [0, BOB, 0, 25, 0, READY, 0],
    [0, BOB, 0, 26, 0, READY, 0],
    [0, CYD, 0, 26, 0, KEYS_SPENT, 1],
    [0, BOB, 1, 27, 0, BAD_SIGNATURE, 0],
    [0, BOB, 1, 28, 0, BAD_SIGNATURE, 0],
    [0, BOB, 1, 25, 1, BAD_SIGNATURE, 0],
    // A successor before its predecessor, and again; another message of its number, and one that doesn't follow that.
    [0, BOB, 1, 29, 0, WAITS, 25],
    [0, BOB, 1, 25, 0, READY, 0],
    [3, BOB, 1, 29, 0, READY, 0],
    [4, BOB, 1, 29, 0, KNOWN, 0],
    [4, BOB, 1, 30, 0, FORKED, 29],
    [4, BOB, 1, 31, 0, READY, 0],
    // Answers to an addition and to an update that crosses it.
    [5, ADA, 1, 33, 0, READY, 0],
    [5, ADA, 1, 34, 0, BAD_KIND, 0],
    [6, ADA, 1, 35, 0, READY, 0],
    [6, ADA, 1, 36, 0, BAD_KIND, 0],
    [6, ADA, 1, 37, 0, READY, 0],
    [6, BOB, 0, 35, 0, READY, 0],
];

/// What is asked of a message: the history, the message, and for each person, by a bit, whether it gets a part, and
/// whether it has to answer.
const ASKED: [[u8; 4]; 8] = [
    [0, 3, 6, 6],
    [0, 8, 2, 2],
    [0, 25, 0, 0],
    [0, 22, 8, 14],
    [5, 33, 8, 0],
    [6, 35, 8, 0],
    [6, 37, 0, 0],
    [7, 32, 5, 13],
];

/// The item at a place.
fn at<T>(list: &[T], index: u8) -> Result<&T, Fail> {
    match list.get(usize::from(index)) {
        Some(item) => Ok(item),
        None => Err(Fail::new("no such row")),
    }
}

/// The people and all messages.
#[derive(Drop)]
struct Group {
    people: Vec<Person>,
    letters: Vec<Letter>,
}

/// Adds a person to those before. ada may add everybody.
fn add_person(alloc: Global, people: &mut Vec<Person>, who: u8) -> Result<(), Fail> {
    let inviter = match people.as_slice().first() {
        Some(ada) => ada.id,
        None => MemberId(Digest([0; 32])),
    };
    let signs = who == ADA || who == CYD;
    let person = new_person(alloc, who.wrapping_add(1), inviter, signs, who != EVE)?;
    people.push(person)?;
    Ok(())
}

fn people(alloc: Global) -> Result<Vec<Person>, Fail> {
    let mut list = Vec::new(alloc);
    for who in [ADA, BOB, CYD, DORA, EVE] {
        add_person(alloc, &mut list, who)?;
    }
    Ok(list)
}

/// The id of a message.
fn id_of(letters: &[Letter], index: u8) -> Result<MessageId, Fail> {
    Ok(at(letters, index)?.id)
}

/// The ids of those whose bits are set.
fn ids_of(alloc: Global, people: &[Person], bits: u8) -> Result<Vec<Digest>, Fail> {
    let mut list = Vec::new(alloc);
    let mut left = bits;
    for person in people {
        if left % 2 == 1 {
            list.push(person.id.0)?;
        }
        left /= 2;
    }
    Ok(list)
}

/// The ids of the members that the create names.
fn members(alloc: Global, people: &[Person]) -> Result<Ids, Fail> {
    Ok(sorted(ids_of(alloc, people, 7)?))
}

/// The ids of the messages that a message follows.
fn after(alloc: Global, done: &[Letter], messages: &[u8]) -> Result<Ids, Fail> {
    let mut list = Vec::new(alloc);
    for message in messages {
        if *message != NO {
            list.push(id_of(done, *message)?.0)?;
        }
    }
    Ok(sorted(list))
}

fn kind_of(kind: u8) -> Kind {
    match kind {
        CREATE => Kind::Create,
        UPDATE => Kind::Update,
        REMOVE => Kind::Remove,
        ADD => Kind::Add,
        ACK | REFUSED_ACK => Kind::Ack,
        ADD_ACK => Kind::AddAck,
        _ => Kind::Text,
    }
}

/// What a message is about.
fn target_of(
    alloc: Global,
    people: &[Person],
    done: &[Letter],
    kind: u8,
    whom: u8,
) -> Result<Target, Fail> {
    Ok(match kind {
        CREATE => Target::Members(members(alloc, people)?),
        REMOVE | ADD => Target::Member(at(people, whom)?.id),
        ACK | ADD_ACK => Target::Answer(id_of(done, whom)?, true),
        REFUSED_ACK => Target::Answer(id_of(done, whom)?, false),
        _ => Target::Nothing,
    })
}

/// What the create carries.
fn creation_body(alloc: Global, people: &[Person], parts: &[u8]) -> Result<Vec<u8>, Fail> {
    let mut body = cards_of(alloc, people, members(alloc, people)?.as_slice())?;
    body.extend_from_slice(parts)?;
    Ok(body)
}

/// What a message carries.
fn body_of(alloc: Global, people: &[Person], kind: u8, whom: u8, to: u8) -> Result<Vec<u8>, Fail> {
    match kind {
        ADD => addition_body(alloc, at(people, whom)?),
        TEXT | STRAY => filled(alloc, 0, 34),
        CREATE => {
            let parts = parts(alloc, ids_of(alloc, people, to)?)?;
            creation_body(alloc, people, parts.as_slice())
        }
        _ => parts(alloc, ids_of(alloc, people, to)?),
    }
}

/// What the message of a row says, after those before it.
fn says(alloc: Global, people: &[Person], done: &[Letter], row: &[u8; 10]) -> Result<Says, Fail> {
    let [sender, seq, kind, whom, a, b, c, _, _, _] = *row;
    Ok(Says {
        group: GroupId(Digest([if kind == STRAY { 2 } else { 1 }; 32])),
        sender: at(people, sender)?.id,
        seq: u32::from(seq),
        kind: kind_of(kind),
        target: target_of(alloc, people, done, kind, whom)?,
        after: after(alloc, done, &[a, b, c])?,
    })
}

/// The message of a row, after those before it.
fn message(
    alloc: Global,
    people: &[Person],
    done: &[Letter],
    row: &[u8; 10],
) -> Result<Letter, Fail> {
    let [_, _, kind, whom, _, _, _, to, signer, leaf] = *row;
    let says = says(alloc, people, done, row)?;
    let body = body_of(alloc, people, kind, whom, to)?;
    let signer = at(people, signer)?;
    new_letter(alloc, says, body.as_slice(), signer, leaf.into())
}

/// Adds the message of a row to those before.
fn add_letter(
    alloc: Global,
    people: &[Person],
    done: &mut Vec<Letter>,
    row: &[u8; 10],
) -> Result<(), Fail> {
    let next = message(alloc, people, done.as_slice(), row)?;
    done.push(next)?;
    Ok(())
}

/// All messages.
fn letters(alloc: Global, people: &[Person]) -> Result<Vec<Letter>, Fail> {
    let mut done = Vec::new(alloc);
    for row in &MESSAGES {
        add_letter(alloc, people, &mut done, row)?;
    }
    Ok(done)
}

fn new_group(alloc: Global) -> Result<Group, Fail> {
    let people = people(alloc)?;
    let letters = letters(alloc, people.as_slice())?;
    Ok(Group { people, letters })
}

impl Group {
    fn person(&self, number: u8) -> Result<&Person, Fail> {
        at(self.people.as_slice(), number)
    }

    fn letter(&self, number: u8) -> Result<&Letter, Fail> {
        at(self.letters.as_slice(), number)
    }

    fn message_id(&self, number: u8) -> Result<MessageId, Fail> {
        id_of(self.letters.as_slice(), number)
    }
}

/// Takes messages into a history.
fn take_all(alloc: Global, group: &Group, rows: &mut History, messages: &[u8]) -> Result<(), Fail> {
    for message in messages {
        if *message != NO {
            take(alloc, rows, group.letter(*message)?)?;
        }
    }
    Ok(())
}

/// The history of a number.
fn taken(alloc: Global, group: &Group, number: u8) -> Result<History, Fail> {
    let mut rows = History::new(alloc);
    take_all(alloc, group, &mut rows, at(&TAKEN, number)?)?;
    Ok(rows)
}

/// What the member of a place finds of a packet. None where nobody can judge it.
fn judged(history: &History, me: u8, leaf_left: bool, packet: &PacketView<'_>) -> Option<Verdict> {
    if set_of(history) != Some(Drill37::SET) || me >= history.places() {
        return None;
    }
    Some(judge::<Drill37, RemoveWins>(history, leaf_left, me, packet))
}

/// The place of a member in a history, or one that nobody has.
fn place_in(history: &History, who: &MemberId) -> u8 {
    history.place(who).unwrap_or(NO)
}

/// What a member finds of the bytes of a packet.
fn found(history: &History, who: MemberId, leaf_left: bool, bytes: &[u8]) -> Result<Verdict, Fail> {
    let packet = match PacketView::parse(bytes) {
        Ok(packet) => packet,
        Err(malformed) => return Ok(Verdict::Malformed(malformed.0)),
    };
    match judged(history, place_in(history, &who), leaf_left, &packet) {
        Some(verdict) => Ok(verdict),
        None => Err(Fail::new("nothing to judge by")),
    }
}

/// The bytes of a packet, with bits of its last byte changed.
fn spoiled(alloc: Global, letter: &Letter, bits: u8) -> Result<Vec<u8>, Fail> {
    let mut bytes = letter.packet.as_slice().to_vec(alloc)?;
    if let Some(last) = bytes.as_mut_slice().last_mut() {
        *last ^= bits;
    }
    Ok(bytes)
}

/// What a member finds of bytes, where it has taken the history of a number.
fn found_after(
    alloc: Global,
    group: &Group,
    history: u8,
    who: MemberId,
    leaf_left: bool,
    bytes: &[u8],
) -> Result<Verdict, Fail> {
    let rows = taken(alloc, group, history)?;
    found(&rows, who, leaf_left, bytes)
}

/// What is found in a case.
fn found_in(alloc: Global, group: &Group, case: &[u8; 7]) -> Result<Verdict, Fail> {
    let [history, who, leaf_left, message, bits, _, _] = *case;
    let who = group.person(who)?.id;
    let bytes = spoiled(alloc, group.letter(message)?, bits)?;
    found_after(alloc, group, history, who, leaf_left == 1, bytes.as_slice())
}

/// The lesser of the ids of messages 3 and 5.
fn lesser(group: &Group) -> Result<MessageId, Fail> {
    Ok(group.message_id(3)?.min(group.message_id(5)?))
}

/// What is to be found in a case.
fn wanted_in(group: &Group, case: &[u8; 7]) -> Result<Verdict, Fail> {
    let [_, _, _, _, _, verdict, value] = *case;
    Ok(match verdict {
        OUT => Verdict::Out,
        OTHER_GROUP => Verdict::OtherGroup,
        KNOWN => Verdict::Known,
        WAITS => Verdict::Waits(group.message_id(value)?),
        LEAST => Verdict::Waits(lesser(group)?),
        STRANGER => Verdict::Stranger,
        NOT_MEMBER => Verdict::NotMember,
        FORKED => Verdict::Forked(group.message_id(value)?),
        BAD_ORDER => Verdict::BadOrder,
        BAD_KIND => Verdict::BadKind,
        KEYS_SPENT => Verdict::KeysSpent(value.into()),
        BAD_SIGNATURE => Verdict::BadSignature,
        _ => Verdict::Ready,
    })
}

/// Whether a case is judged as it is told.
fn is_as_told(alloc: Global, group: &Group, case: &[u8; 7]) -> Result<bool, Fail> {
    Ok(found_in(alloc, group, case)? == wanted_in(group, case)?)
}

/// The number of the first case that is judged otherwise.
fn first_wrong(alloc: Global, group: &Group) -> Result<Option<usize>, Fail> {
    for (index, case) in CASES.iter().enumerate() {
        if !is_as_told(alloc, group, case)? {
            return Ok(Some(index));
        }
    }
    Ok(None)
}

/// The number of the first case that is judged otherwise, in a new group.
fn wrong_case(alloc: Global) -> Result<Option<usize>, Fail> {
    let group = new_group(alloc)?;
    first_wrong(alloc, &group)
}

#[test]
fn packets_are_judged(rt: HostRuntime) -> Result<(), Fail> {
    assert_eq!(rt; wrong_case(rt.alloc())?, None);
    Ok(())
}

/// Whom a message sends parts to. None where nothing is to be asked.
fn sent_to(history: &History, header: &HeaderView<'_>) -> Option<Crowd> {
    if header.kind() == Kind::Create || history.missing(header).is_some() {
        return None;
    }
    Some(addressees::<RemoveWins>(history, header))
}

/// The place of a member in a history with a message, or one that nobody has.
fn place_of(history: &History, header: &HeaderView<'_>, who: &MemberId) -> u8 {
    place_with(history, Some(header), who).unwrap_or(NO)
}

fn has_place(crowd: Crowd, place: u8) -> bool {
    place < 64 && crowd.has(place)
}

/// Whether a member has to answer a message.
fn has_to_answer(history: &History, header: &HeaderView<'_>, who: &MemberId) -> bool {
    header.kind() != Kind::Create && needs_answer::<RemoveWins>(history, who, header)
}

/// Whom a message sends parts to, and who has to answer it, by the bits of the people.
fn asked(people: &[Person], history: &History, header: &HeaderView<'_>) -> Option<(u8, u8)> {
    let sent_to = sent_to(history, header)?;
    let mut bits = (0u8, 0u8);
    let mut bit = 1u8;
    for person in people {
        let place = place_of(history, header, &person.id);
        if has_place(sent_to, place) {
            bits.0 |= bit;
        }
        if has_to_answer(history, header, &person.id) {
            bits.1 |= bit;
        }
        bit = bit.wrapping_mul(2);
    }
    Some(bits)
}

/// Whether a row is answered as it is told.
fn is_answered(alloc: Global, group: &Group, row: &[u8; 4]) -> Result<bool, Fail> {
    let [history, message, to, answering] = *row;
    let header = header_in(group.letter(message)?.header.as_slice())?;
    let rows = taken(alloc, group, history)?;
    Ok(asked(group.people.as_slice(), &rows, &header) == Some((to, answering)))
}

/// The number of the first row that is answered otherwise.
fn first_amiss(alloc: Global, group: &Group) -> Result<Option<usize>, Fail> {
    for (index, row) in ASKED.iter().enumerate() {
        if !is_answered(alloc, group, row)? {
            return Ok(Some(index));
        }
    }
    Ok(None)
}

/// The number of the first row that is answered otherwise, in a new group.
fn wrong_answer(alloc: Global) -> Result<Option<usize>, Fail> {
    let group = new_group(alloc)?;
    first_amiss(alloc, &group)
}

#[test]
fn parts_and_answers(rt: HostRuntime) -> Result<(), Fail> {
    assert_eq!(rt; wrong_answer(rt.alloc())?, None);
    Ok(())
}

/// A text or an update of ada's that follows one message.
fn next_of(alloc: Global, ada: MemberId, seq: u32, kind: Kind, last: Digest) -> Result<Says, Fail> {
    Ok(Says {
        group: GroupId(Digest([1; 32])),
        sender: ada,
        seq,
        kind,
        target: Target::Nothing,
        after: sorted([last].to_vec(alloc)?),
    })
}

/// Ada's next message of a kind. Bob signs it, so its signature is not good.
fn next_letter(
    alloc: Global,
    group: &Group,
    seq: u32,
    kind: u8,
    last: Digest,
) -> Result<Letter, Fail> {
    let body = body_of(alloc, group.people.as_slice(), kind, NO, 6)?;
    let says = next_of(alloc, group.person(ADA)?.id, seq, kind_of(kind), last)?;
    new_letter(alloc, says, body.as_slice(), group.person(BOB)?, 0)
}

/// What bob finds of ada's next message of a kind.
fn found_next(
    alloc: Global,
    group: &Group,
    rows: &History,
    kind: u8,
    last: Digest,
) -> Result<Verdict, Fail> {
    let bob = group.person(BOB)?.id;
    let seq = rows.count().saturating_sub(1);
    let next = next_letter(alloc, group, seq, kind, last)?;
    found(rows, bob, true, next.packet.as_slice())
}

/// Puts ada's text of a number behind her last message, and answers its id.
fn put_text(
    alloc: Global,
    group: &Group,
    rows: &mut History,
    seq: u32,
    last: Digest,
) -> Result<Digest, Fail> {
    let ada = group.person(ADA)?.id;
    put(alloc, rows, next_of(alloc, ada, seq, Kind::Text, last)?)
}

/// Where the history has 4,094 messages or more: what bob finds of ada's next text, and of her next update.
fn find_where_full(
    alloc: Global,
    group: &Group,
    rows: &History,
    last: Digest,
    into: &mut Vec<Verdict>,
) -> Result<(), Fail> {
    if rows.count() < 4094 {
        return Ok(());
    }
    for kind in [TEXT, UPDATE] {
        into.push(found_next(alloc, group, rows, kind, last)?)?;
    }
    Ok(())
}

/// What is found while further texts of ada's fill the history up.
fn found_filling(alloc: Global, group: &Group, rows: &mut History) -> Result<Vec<Verdict>, Fail> {
    let mut last = group.message_id(25)?.0;
    let mut all = Vec::new(alloc);
    for seq in 3..4095 {
        last = put_text(alloc, group, rows, seq, last)?;
        find_where_full(alloc, group, rows, last, &mut all)?;
    }
    Ok(all)
}

/// What is found from the first three messages and ada's text on.
fn found_behind(alloc: Global, group: &Group) -> Result<Vec<Verdict>, Fail> {
    let mut rows = taken(alloc, group, 3)?;
    found_filling(alloc, group, &mut rows)
}

fn filling(alloc: Global) -> Result<Vec<Verdict>, Fail> {
    let group = new_group(alloc)?;
    found_behind(alloc, &group)
}

#[test]
fn a_history_fills_up(rt: HostRuntime) -> Result<(), Fail> {
    let wanted = [
        Verdict::BadSignature,
        Verdict::BadSignature,
        Verdict::BadSignature,
        Verdict::HistoryFull(4095),
        Verdict::HistoryFull(4096),
        Verdict::HistoryFull(4096),
    ];
    let found = filling(rt.alloc())?;
    assert!(rt; found.as_slice() == wanted.as_slice());
    Ok(())
}
