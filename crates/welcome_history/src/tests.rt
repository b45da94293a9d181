//! First verdicts of members that are in no group yet, worked out by hand: ada opens a group with bob and cyd, who ack;
//! dora, fay and others are to be taken in. A row of a table is a message, a history that an add hands on, or what a
//! member finds of what is handed to it.

mod making;
mod writing;

use crate::{judge_first, read_welcome, what_is_ready_may_be_read};
use causal_cast::Verdict::{
    self, BadKind, BadOrder, BadSignature, NotInvited, NotMember, Ready, Stranger,
};
use causal_history::History;
use group_fields::{Digest, GroupId, Ids, Kind, MemberId, MessageId, Target};
use group_messages::targets_say_the_kind;
use making::*;
use member_view::RemoveWins;
use ntru_prime::Drill37;
use std::alloc::Global;
use std::test::Fail;
use wire_codec::{PacketView, packets_are_in_order};

/// Nobody, whose id is 32 zero bytes.
const NOBODY: u8 = 255;

/// The people. eve's card has no public key, and hal's is of the other set.
const ADA: u8 = 0;

const BOB: u8 = 1;

const CYD: u8 = 2;

const DORA: u8 = 3;

const EVE: u8 = 4;

const FAY: u8 = 5;

const GUS: u8 = 6;

const HAL: u8 = 7;

/// Of each: the inviter, the set, whether signatures are good, and whether the card has a public key.
const PEOPLE: [(u8, u8, bool, bool); 8] = [
    (NOBODY, 2, true, true),
    (ADA, 2, true, true),
    (ADA, 2, false, true),
    (ADA, 2, false, true),
    (ADA, 2, false, false),
    (BOB, 2, false, true),
    (EVE, 2, false, true),
    (ADA, 1, false, false),
];

/// The kinds of the messages, some of them of another group or of the other set.
#[derive(Clone, Copy, PartialEq, Eq)]
enum Sort {
    Create,
    OtherSetCreate,
    Update,
    Remove,
    Add,
    OtherGroupAdd,
    Ack,
    Refusal,
    AddAck,
    Text,
    OtherGroupText,
    OtherSetText,
}

use Sort::{
    Ack, Add, AddAck, Create, OtherGroupAdd, OtherGroupText, OtherSetCreate, OtherSetText, Refusal,
    Remove, Text, Update,
};

/// A message: its sender, its number, its kind; what it is about: the members by a bit for each person, or a person,
/// or a message; the messages that it follows; what it carries: parts by a bit for each person, or a history by its
/// number; who signs it, and by which leaf.
type Told = (u8, u8, Sort, u8, &'static [u8], u8, u8, u8);

const MESSAGES: [Told; 89] = [
    // A group, and what is done in it.
    (ADA, 1, Create, 7, &[], 6, ADA, 0),
    (BOB, 1, Ack, 0, &[0], 0, BOB, 0),
    (CYD, 1, Ack, 0, &[0], 0, CYD, 0),
    (ADA, 2, Update, 0, &[1, 2], 6, ADA, 1),
    (ADA, 2, Text, 0, &[1, 2], 0, ADA, 1),
    (ADA, 2, Remove, BOB, &[1, 2], 4, ADA, 1),
    (BOB, 2, Add, FAY, &[1, 2], 0, BOB, 1),
    (FAY, 1, Ack, 6, &[6], 0, FAY, 0),
    (FAY, 2, Refusal, 3, &[3, 7], 0, FAY, 1),
    (FAY, 2, Ack, 3, &[3, 7], 0, FAY, 1),
    (ADA, 3, AddAck, 6, &[3, 6], 0, ADA, 2),
    // Creates. From 13 on: by number, predecessors, cards, parts and signature; the last is bob's own.
    (NOBODY, 1, Create, 7, &[], 6, ADA, 0),
    (ADA, 1, OtherSetCreate, 128, &[], 0, HAL, 0),
    (ADA, 2, Create, 7, &[], 6, ADA, 1),
    (ADA, 1, Create, 7, &[0], 6, ADA, 0),
    (ADA, 1, Create, 35, &[], 34, ADA, 0),
    (ADA, 1, Create, 6, &[], 6, ADA, 0),
    (ADA, 1, Create, 19, &[], 18, ADA, 0),
    (EVE, 1, Create, 80, &[], 64, EVE, 0),
    (ADA, 1, Create, 7, &[], 2, ADA, 0),
    (ADA, 1, Create, 7, &[], 7, ADA, 0),
    (ADA, 1, Create, 7, &[], 14, ADA, 0),
    (ADA, 1, Create, 7, &[], 6, ADA, 1),
    (ADA, 1, Create, 7, &[], 6, BOB, 0),
    (BOB, 1, Create, 34, &[], 32, BOB, 0),
    // Rows that don't hold.
    (BOB, 1, Refusal, 0, &[0], 0, BOB, 0),
    (ADA, 2, OtherGroupText, 0, &[1, 2], 0, ADA, 1),
    (ADA, 2, OtherSetText, 0, &[1, 2], 0, HAL, 0),
    (ADA, 2, Create, 7, &[1, 2], 6, ADA, 1),
    (ADA, 1, Text, 0, &[], 0, ADA, 0),
    (ADA, 3, Update, 0, &[1, 2], 6, ADA, 2),
    (ADA, 2, Update, 0, &[0, 1, 2], 6, ADA, 1),
    (ADA, 2, Remove, ADA, &[1, 2], 6, ADA, 1),
    (BOB, 2, Text, 0, &[5], 0, BOB, 1),
    (DORA, 1, Text, 0, &[1, 2], 0, DORA, 0),
    (CYD, 1, Update, 0, &[0], 3, CYD, 0),
    // A row that crosses the acks.
    (ADA, 2, Update, 0, &[0], 6, ADA, 1),
    // Adds over histories that hold.
    (ADA, 2, Add, DORA, &[1, 2], 0, ADA, 1),
    (ADA, 2, Add, DORA, &[1, 2], 4, ADA, 1),
    (ADA, 3, Add, DORA, &[36, 1, 2], 29, ADA, 2),
    (ADA, 3, Add, DORA, &[4], 31, ADA, 2),
    (ADA, 4, Add, DORA, &[8, 10], 25, ADA, 3),
    (ADA, 2, Add, DORA, &[19], 18, ADA, 1),
    // Cards that aren't those of the rows, or have no key.
    (ADA, 2, Add, DORA, &[1, 2], 2, ADA, 1),
    (ADA, 2, Add, DORA, &[1, 2], 3, ADA, 1),
    (ADA, 2, Add, DORA, &[17], 17, ADA, 1),
    (ADA, 2, Add, DORA, &[1], 28, ADA, 1),
    // No rows.
    (ADA, 2, Add, DORA, &[1, 2], 1, ADA, 1),
    (ADA, 1, Add, DORA, &[], 1, ADA, 0),
    // First rows.
    (ADA, 2, Add, DORA, &[1], 12, ADA, 1),
    (ADA, 2, Add, DORA, &[29], 13, ADA, 1),
    (ADA, 3, Add, DORA, &[13], 14, ADA, 2),
    (ADA, 2, Add, DORA, &[14], 32, ADA, 1),
    (ADA, 2, Add, DORA, &[15], 15, ADA, 1),
    (ADA, 2, Add, DORA, &[16], 16, ADA, 1),
    (ADA, 2, OtherGroupAdd, DORA, &[1, 2], 0, ADA, 1),
    // Later rows.
    (ADA, 3, Add, DORA, &[3], 5, ADA, 2),
    (ADA, 2, Add, DORA, &[1, 2], 6, ADA, 1),
    (ADA, 2, Add, DORA, &[1, 2, 25], 7, ADA, 1),
    (ADA, 3, Add, DORA, &[26], 8, ADA, 2),
    (ADA, 3, Add, DORA, &[27], 9, ADA, 2),
    (ADA, 3, Add, DORA, &[0, 13], 10, ADA, 2),
    (ADA, 3, Add, DORA, &[28], 11, ADA, 2),
    (ADA, 3, Add, DORA, &[30], 19, ADA, 2),
    (ADA, 3, Add, DORA, &[31], 20, ADA, 2),
    (ADA, 3, Add, DORA, &[32], 21, ADA, 2),
    (ADA, 3, Add, DORA, &[33], 22, ADA, 2),
    (ADA, 3, Add, DORA, &[9], 24, ADA, 2),
    (ADA, 2, Add, DORA, &[34], 26, ADA, 1),
    (ADA, 2, Add, DORA, &[35], 27, ADA, 1),
    (ADA, 2, Add, FAY, &[1, 2], 0, ADA, 1),
    (ADA, 3, Add, DORA, &[70], 33, ADA, 2),
    // Predecessors that aren't the heads of the rows.
    (ADA, 2, Add, DORA, &[1], 0, ADA, 1),
    (ADA, 2, Add, DORA, &[0, 1, 2], 0, ADA, 1),
    (ADA, 3, Add, DORA, &[3], 0, ADA, 2),
    // Adds that break a rule over rows that hold.
    (FAY, 1, Add, DORA, &[1, 2], 0, FAY, 0),
    (BOB, 2, Add, DORA, &[5], 23, BOB, 1),
    (ADA, 1, Add, DORA, &[1, 2], 0, ADA, 0),
    (BOB, 1, Add, DORA, &[1, 2], 0, BOB, 0),
    (ADA, 3, Add, DORA, &[1, 2], 0, ADA, 2),
    (BOB, 1, Add, FAY, &[0], 30, BOB, 0),
    (ADA, 2, Add, EVE, &[1, 2], 0, ADA, 1),
    (ADA, 2, Add, BOB, &[1, 2], 0, ADA, 1),
    (ADA, 3, Add, BOB, &[5], 23, ADA, 2),
    (ADA, 2, Add, DORA, &[1, 2], 0, ADA, 2),
    (ADA, 2, Add, DORA, &[1, 2], 0, BOB, 1),
    (ADA, 2, Add, ADA, &[1, 2], 0, ADA, 1),
    // Another third row than the one that the fourth names.
    (CYD, 1, Refusal, 0, &[0], 0, CYD, 0),
    (ADA, 3, Add, DORA, &[87, 3], 34, ADA, 2),
];

/// Histories that are handed on: whose cards, by a bit for each person, and the rows.
const HISTORIES: [(u8, &[u8]); 35] = [
    (7, &[0, 1, 2]),
    (0, &[]),
    (3, &[0, 1, 2]),
    (15, &[0, 1, 2]),
    (7, &[0, 2, 1]),
    (7, &[0, 3, 1, 2]),
    (7, &[0, 1, 1, 2]),
    (7, &[0, 1, 25, 2]),
    (7, &[0, 1, 2, 26]),
    (7, &[0, 1, 2, 27]),
    (7, &[0, 13]),
    (7, &[0, 1, 2, 28]),
    (0, &[1]),
    (0, &[29]),
    (7, &[13]),
    (35, &[15]),
    (6, &[16]),
    (19, &[17]),
    (7, &[19]),
    (7, &[0, 1, 2, 30]),
    (7, &[0, 1, 2, 31]),
    (7, &[0, 1, 2, 32]),
    (7, &[0, 1, 2, 5, 33]),
    (7, &[0, 1, 2, 5]),
    (39, &[0, 1, 2, 3, 6, 7, 9]),
    (39, &[0, 1, 2, 3, 6, 7, 8, 10]),
    (7, &[0, 1, 2, 34]),
    (7, &[0, 35]),
    (3, &[0, 1, 1]),
    (7, &[0, 36, 1, 2]),
    (7, &[0]),
    (7, &[0, 1, 2, 4]),
    (7, &[14]),
    (39, &[0, 1, 2, 70]),
    (7, &[0, 1, 87, 3]),
];

/// What is to be found: a verdict, that the history is refused at a row, or that a message is forked with another.
#[derive(Clone, Copy)]
enum Wanted {
    Is(Verdict),
    Row(u32),
    Forks(u8),
}

use Wanted::{Forks, Is, Row};

/// A case: the message, who judges, its inviter, whether the last byte is changed, and what is to be found.
type Case = (u8, u8, u8, bool, Wanted);

const CASES: [Case; 84] = [
    // Invitations.
    (0, BOB, ADA, false, Is(Ready)),
    (0, CYD, ADA, false, Is(Ready)),
    (0, BOB, CYD, false, Is(NotInvited)),
    (0, DORA, ADA, false, Is(NotInvited)),
    (0, ADA, ADA, false, Is(NotInvited)),
    (0, BOB, NOBODY, false, Is(NotInvited)),
    (11, BOB, NOBODY, false, Is(NotInvited)),
    (12, HAL, ADA, false, Is(NotInvited)),
    (37, DORA, ADA, false, Is(Ready)),
    (37, DORA, BOB, false, Is(NotInvited)),
    (37, CYD, ADA, false, Is(NotInvited)),
    (37, DORA, NOBODY, false, Is(NotInvited)),
    (86, ADA, ADA, false, Is(NotInvited)),
    (1, ADA, BOB, false, Is(NotInvited)),
    (3, BOB, ADA, false, Is(NotInvited)),
    (4, BOB, ADA, false, Is(NotInvited)),
    (5, BOB, ADA, false, Is(NotInvited)),
    (10, BOB, ADA, false, Is(NotInvited)),
    // Creates.
    (13, BOB, ADA, false, Is(BadKind)),
    (14, BOB, ADA, false, Is(BadKind)),
    (15, BOB, ADA, false, Is(BadKind)),
    (16, BOB, ADA, false, Is(BadKind)),
    (17, BOB, ADA, false, Is(BadKind)),
    (18, GUS, EVE, false, Is(BadKind)),
    (19, BOB, ADA, false, Is(BadKind)),
    (20, BOB, ADA, false, Is(BadKind)),
    (21, BOB, ADA, false, Is(BadKind)),
    (13, BOB, ADA, true, Is(BadKind)),
    (22, BOB, ADA, false, Is(BadSignature)),
    (23, BOB, ADA, false, Is(BadSignature)),
    (0, BOB, ADA, true, Is(BadSignature)),
    (24, FAY, BOB, false, Is(Ready)),
    // Adds over histories that hold.
    (6, FAY, BOB, false, Is(Ready)),
    (38, DORA, ADA, false, Is(Ready)),
    (39, DORA, ADA, false, Is(Ready)),
    (40, DORA, ADA, false, Is(Ready)),
    (41, DORA, ADA, false, Is(Ready)),
    (42, DORA, ADA, false, Is(Ready)),
    // Cards.
    (43, DORA, ADA, false, Row(0)),
    (44, DORA, ADA, false, Row(0)),
    (45, DORA, ADA, false, Row(0)),
    (46, DORA, ADA, false, Row(0)),
    // No rows.
    (47, DORA, ADA, false, Row(1)),
    (48, DORA, ADA, false, Row(1)),
    // First rows.
    (49, DORA, ADA, false, Row(1)),
    (50, DORA, ADA, false, Row(1)),
    (51, DORA, ADA, false, Row(1)),
    (52, DORA, ADA, false, Row(1)),
    (53, DORA, ADA, false, Row(1)),
    (54, DORA, ADA, false, Row(1)),
    (55, DORA, ADA, false, Row(1)),
    // Later rows.
    (56, DORA, ADA, false, Row(2)),
    (57, DORA, ADA, false, Row(3)),
    (58, DORA, ADA, false, Row(3)),
    (59, DORA, ADA, false, Row(4)),
    (60, DORA, ADA, false, Row(4)),
    (61, DORA, ADA, false, Row(2)),
    (62, DORA, ADA, false, Row(4)),
    (63, DORA, ADA, false, Row(4)),
    (64, DORA, ADA, false, Row(4)),
    (65, DORA, ADA, false, Row(4)),
    (66, DORA, ADA, false, Row(5)),
    (67, DORA, ADA, false, Row(7)),
    (68, DORA, ADA, false, Row(4)),
    (69, DORA, ADA, false, Row(2)),
    (71, DORA, ADA, false, Row(4)),
    (88, DORA, ADA, false, Row(4)),
    // Predecessors.
    (72, DORA, ADA, false, Row(4)),
    (73, DORA, ADA, false, Row(4)),
    (74, DORA, ADA, false, Row(4)),
    // Rules.
    (75, DORA, FAY, false, Is(Stranger)),
    (76, DORA, BOB, false, Is(NotMember)),
    (77, DORA, ADA, false, Forks(0)),
    (78, DORA, BOB, false, Forks(1)),
    (79, DORA, ADA, false, Is(BadOrder)),
    (80, FAY, BOB, false, Is(BadOrder)),
    (70, FAY, ADA, false, Is(BadKind)),
    (81, EVE, ADA, false, Is(BadKind)),
    (82, BOB, ADA, false, Is(BadKind)),
    (83, BOB, ADA, false, Is(BadKind)),
    // Signatures.
    (37, DORA, ADA, true, Is(BadSignature)),
    (84, DORA, ADA, false, Is(BadSignature)),
    (85, DORA, ADA, false, Is(BadSignature)),
    (43, DORA, ADA, true, Row(0)),
];

/// The item at a place.
fn at<T>(list: &[T], index: u8) -> Result<&T, Fail> {
    match list.get(usize::from(index)) {
        Some(item) => Ok(item),
        None => Err(Fail::new("no such row")),
    }
}

/// The people and all messages.
#[derive(Drop)]
struct Group {
    people: Vec<Person>,
    letters: Vec<Letter>,
}

/// The id of a person. That of nobody is 32 zero bytes.
fn member(people: &[Person], who: u8) -> Result<MemberId, Fail> {
    if who == NOBODY {
        Ok(MemberId(Digest([0; 32])))
    } else {
        Ok(at(people, who)?.id)
    }
}

/// Adds a person to those before.
fn add_person(
    alloc: Global,
    people: &mut Vec<Person>,
    number: u8,
    row: &(u8, u8, bool, bool),
) -> Result<(), Fail> {
    let (inviter, set, signs, has_key) = *row;
    let inviter = member(people.as_slice(), inviter)?;
    let traits = Traits {
        number,
        set,
        inviter,
        signs,
        has_key,
    };
    people.push(new_person(alloc, &traits)?)?;
    Ok(())
}

fn people(alloc: Global) -> Result<Vec<Person>, Fail> {
    let mut list = Vec::new(alloc);
    let mut number = 0u8;
    for row in &PEOPLE {
        number = number.wrapping_add(1);
        add_person(alloc, &mut list, number, row)?;
    }
    Ok(list)
}

/// The id of a message.
fn id_of(letters: &[Letter], index: u8) -> Result<MessageId, Fail> {
    Ok(at(letters, index)?.id)
}

/// The ids of those whose bits are set, in ascending order.
fn ids_of(alloc: Global, people: &[Person], bits: u8) -> Result<Ids, Fail> {
    let mut list = Vec::new(alloc);
    let mut left = bits;
    for person in people {
        if left % 2 == 1 {
            list.push(person.id.0)?;
        }
        left /= 2;
    }
    Ok(sorted(list))
}

/// The ids of the messages that a message follows.
fn after(alloc: Global, done: &[Letter], messages: &[u8]) -> Result<Ids, Fail> {
    let mut list = Vec::new(alloc);
    for message in messages {
        list.push(id_of(done, *message)?.0)?;
    }
    Ok(sorted(list))
}

fn kind_of(sort: Sort) -> Kind {
    match sort {
        Create | OtherSetCreate => Kind::Create,
        Update => Kind::Update,
        Remove => Kind::Remove,
        Add | OtherGroupAdd => Kind::Add,
        Ack | Refusal => Kind::Ack,
        AddAck => Kind::AddAck,
        Text | OtherGroupText | OtherSetText => Kind::Text,
    }
}

/// The set of a message.
fn set_of(sort: Sort) -> u8 {
    match sort {
        OtherSetCreate | OtherSetText => 1,
        _ => 2,
    }
}

/// The group of a message.
fn group_of(sort: Sort) -> GroupId {
    GroupId(Digest(match sort {
        OtherGroupAdd | OtherGroupText => [2; 32],
        _ => [1; 32],
    }))
}

/// What a message is about.
fn target_of(
    alloc: Global,
    people: &[Person],
    done: &[Letter],
    sort: Sort,
    whom: u8,
) -> Result<Target, Fail> {
    Ok(match kind_of(sort) {
        Kind::Create => Target::Members(ids_of(alloc, people, whom)?),
        Kind::Remove | Kind::Add => Target::Member(member(people, whom)?),
        Kind::Ack | Kind::AddAck => Target::Answer(id_of(done, whom)?, sort != Refusal),
        Kind::Update | Kind::Text => Target::Nothing,
    })
}

/// The rows of messages.
fn rows_of(alloc: Global, done: &[Letter], messages: &[u8]) -> Result<Rows, Fail> {
    let mut rows = no_rows(alloc);
    for message in messages {
        append_row(&mut rows, at(done, *message)?.header.as_slice())?;
    }
    Ok(rows)
}

/// The history of a number.
fn history(alloc: Global, people: &[Person], done: &[Letter], number: u8) -> Result<Vec<u8>, Fail> {
    let (cards, messages) = *at(&HISTORIES, number)?;
    let rows = rows_of(alloc, done, messages)?;
    let ids = ids_of(alloc, people, cards)?;
    history_bytes(alloc, people, ids.as_slice(), &rows)
}

/// What an add carries: the card of whom it adds, and the history of a number.
fn addition(
    alloc: Global,
    people: &[Person],
    done: &[Letter],
    whom: u8,
    number: u8,
) -> Result<Vec<u8>, Fail> {
    let handed_on = history(alloc, people, done, number)?;
    addition_body(alloc, at(people, whom)?, handed_on.as_slice())
}

/// What a create carries: the cards of its members, and parts for some.
fn creation(alloc: Global, people: &[Person], members: u8, to: u8) -> Result<Vec<u8>, Fail> {
    let members = ids_of(alloc, people, members)?;
    let to = ids_of(alloc, people, to)?;
    creation_body(alloc, people, members.as_slice(), to.as_slice())
}

/// Parts for some of the people.
fn parts_for(alloc: Global, people: &[Person], to: u8) -> Result<Vec<u8>, Fail> {
    parts(alloc, ids_of(alloc, people, to)?.as_slice())
}

/// What a message carries.
fn body_of(alloc: Global, people: &[Person], done: &[Letter], row: &Told) -> Result<Vec<u8>, Fail> {
    let (_, _, sort, whom, _, carries, _, _) = *row;
    match kind_of(sort) {
        Kind::Create => creation(alloc, people, whom, carries),
        Kind::Add => addition(alloc, people, done, whom, carries),
        Kind::Text => filled(alloc, 0, 34),
        _ => parts_for(alloc, people, carries),
    }
}

/// What the message of a row says, after those before it.
fn says(alloc: Global, people: &[Person], done: &[Letter], row: &Told) -> Result<Says, Fail> {
    let (sender, seq, sort, whom, follows, _, _, _) = *row;
    Ok(Says {
        set: set_of(sort),
        group: group_of(sort),
        sender: member(people, sender)?,
        seq: u32::from(seq),
        kind: kind_of(sort),
        target: target_of(alloc, people, done, sort, whom)?,
        after: after(alloc, done, follows)?,
    })
}

/// The message of a row, after those before it.
fn message(alloc: Global, people: &[Person], done: &[Letter], row: &Told) -> Result<Letter, Fail> {
    let (_, _, _, _, _, _, signer, leaf) = *row;
    let says = says(alloc, people, done, row)?;
    let body = body_of(alloc, people, done, row)?;
    let signer = at(people, signer)?;
    new_letter(alloc, says, body.as_slice(), signer, leaf.into())
}

/// Adds the message of a row to those before.
fn add_letter(
    alloc: Global,
    people: &[Person],
    done: &mut Vec<Letter>,
    row: &Told,
) -> Result<(), Fail> {
    let next = message(alloc, people, done.as_slice(), row)?;
    done.push(next)?;
    Ok(())
}

/// All messages.
fn letters(alloc: Global, people: &[Person]) -> Result<Vec<Letter>, Fail> {
    let mut done = Vec::new(alloc);
    for row in &MESSAGES {
        add_letter(alloc, people, &mut done, row)?;
    }
    Ok(done)
}

fn new_group(alloc: Global) -> Result<Group, Fail> {
    let people = people(alloc)?;
    let letters = letters(alloc, people.as_slice())?;
    Ok(Group { people, letters })
}

impl Group {
    fn member(&self, who: u8) -> Result<MemberId, Fail> {
        member(self.people.as_slice(), who)
    }

    fn letter(&self, number: u8) -> Result<&Letter, Fail> {
        at(self.letters.as_slice(), number)
    }

    fn message_id(&self, number: u8) -> Result<MessageId, Fail> {
        id_of(self.letters.as_slice(), number)
    }
}

/// What a member finds of a packet.
fn judged(
    alloc: Global,
    me: &MemberId,
    inviter: &MemberId,
    packet: &PacketView<'_>,
) -> Result<Verdict, Fail> {
    Ok(judge_first::<Drill37, RemoveWins>(alloc, me, inviter, packet)?)
}

/// What a member finds of the bytes of a packet.
fn found(alloc: Global, me: MemberId, inviter: MemberId, bytes: &[u8]) -> Result<Verdict, Fail> {
    let packet = packet_in(bytes)?;
    judged(alloc, &me, &inviter, &packet)
}

/// The bytes of a packet, whose last byte is changed where it is to be spoiled.
fn bytes_of(alloc: Global, letter: &Letter, spoiled: bool) -> Result<Vec<u8>, Fail> {
    let mut bytes = letter.packet.as_slice().to_vec(alloc)?;
    if let Some(last) = bytes.as_mut_slice().last_mut() {
        if spoiled {
            *last ^= 1;
        }
    }
    Ok(bytes)
}

/// What is found in a case.
fn found_in(alloc: Global, group: &Group, case: &Case) -> Result<Verdict, Fail> {
    let (message, me, inviter, spoiled, _) = *case;
    let me = group.member(me)?;
    let inviter = group.member(inviter)?;
    let bytes = bytes_of(alloc, group.letter(message)?, spoiled)?;
    found(alloc, me, inviter, bytes.as_slice())
}

/// What is to be found in a case.
fn wanted_in(group: &Group, case: &Case) -> Result<Verdict, Fail> {
    let (_, _, _, _, wanted) = *case;
    Ok(match wanted {
        Is(verdict) => verdict,
        Row(number) => Verdict::BadWelcome(number),
        Forks(message) => Verdict::Forked(group.message_id(message)?),
    })
}

/// Whether a case is judged as it is told.
fn is_as_told(alloc: Global, group: &Group, case: &Case) -> Result<bool, Fail> {
    Ok(found_in(alloc, group, case)? == wanted_in(group, case)?)
}

/// The number of the first case that is judged otherwise.
fn first_wrong(alloc: Global, group: &Group) -> Result<Option<usize>, Fail> {
    for (index, case) in CASES.iter().enumerate() {
        if !is_as_told(alloc, group, case)? {
            return Ok(Some(index));
        }
    }
    Ok(None)
}

/// The number of the first case that is judged otherwise, in a new group.
fn wrong_case(alloc: Global) -> Result<Option<usize>, Fail> {
    let group = new_group(alloc)?;
    first_wrong(alloc, &group)
}

#[test]
fn first_packets_are_judged(rt: HostRuntime) -> Result<(), Fail> {
    assert_eq!(rt; wrong_case(rt.alloc())?, None);
    Ok(())
}

/// Adds whose history is read: those over histories that hold.
const READ: [u8; 7] = [6, 37, 38, 39, 40, 41, 42];

/// The history that a packet hands on, where the member finds the packet ready.
fn read(
    alloc: Global,
    me: &MemberId,
    inviter: &MemberId,
    packet: &PacketView<'_>,
) -> Result<History, Fail> {
    let _bytes = packet.bytes();
    packets_are_in_order();
    targets_say_the_kind();
    what_is_ready_may_be_read();
    match judge_first::<Drill37, RemoveWins>(alloc, me, inviter, packet)? {
        Ready => {}
        _ => return Err(Fail::new("a packet that isn't ready")),
    }
    match packet.history() {
        Some(_welcome) => Ok(read_welcome(alloc, packet)?),
        None => Err(Fail::new("a packet without a history")),
    }
}

/// The id of a row, where there is one.
fn row_id(rows: &History, index: u32) -> Option<MessageId> {
    if index < rows.count() {
        Some(rows.id(index))
    } else {
        None
    }
}

/// Whether the rows are those of messages, in their order.
fn are_rows(rows: &History, letters: &[Letter], messages: &[u8]) -> Result<bool, Fail> {
    let mut index = 0u32;
    for message in messages {
        if row_id(rows, index) != Some(id_of(letters, *message)?) {
            return Ok(false);
        }
        index = index.wrapping_add(1);
    }
    Ok(rows.count() == index)
}

/// Whether the card that the rows have of a person is the person's, or they have none.
fn has_card(rows: &History, person: &Person) -> bool {
    match rows.place(&person.id) {
        Some(place) if place < rows.places() => is_card_of(person, rows.card(place).bytes()),
        _ => false,
    }
}

/// Whether the rows have the cards of exactly those whose bits are set.
fn are_cards(rows: &History, people: &[Person], bits: u8) -> bool {
    let mut left = bits;
    for person in people {
        if has_card(rows, person) != (left % 2 == 1) {
            return false;
        }
        left /= 2;
    }
    true
}

/// The history of a message that takes a member in, as that member reads it.
fn read_of(alloc: Global, group: &Group, message: u8) -> Result<History, Fail> {
    let (sender, _, _, whom, _, _, _, _) = *at(&MESSAGES, message)?;
    let packet = packet_in(group.letter(message)?.packet.as_slice())?;
    read(alloc, &group.member(whom)?, &group.member(sender)?, &packet)
}

/// Whether the history of a message is read as it was handed on.
fn is_read(alloc: Global, group: &Group, message: u8) -> Result<bool, Fail> {
    let (_, _, _, _, _, number, _, _) = *at(&MESSAGES, message)?;
    let (cards, messages) = *at(&HISTORIES, number)?;
    let rows = read_of(alloc, group, message)?;
    Ok(
        are_cards(&rows, group.people.as_slice(), cards)
            && are_rows(&rows, group.letters.as_slice(), messages)?,
    )
}

/// The first message whose history is read otherwise.
fn first_misread(alloc: Global, group: &Group) -> Result<Option<u8>, Fail> {
    for message in &READ {
        if !is_read(alloc, group, *message)? {
            return Ok(Some(*message));
        }
    }
    Ok(None)
}

/// The first message whose history is read otherwise, in a new group.
fn misread(alloc: Global) -> Result<Option<u8>, Fail> {
    let group = new_group(alloc)?;
    first_misread(alloc, &group)
}

#[test]
fn histories_are_read(rt: HostRuntime) -> Result<(), Fail> {
    assert_eq!(rt; misread(rt.alloc())?, None);
    Ok(())
}
