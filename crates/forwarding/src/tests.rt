//! Whom an ack forwards to, by the rows of small histories, and the body of an ack, opened by the book of whom it is
//! for.
ghost use Rattle.std.specs.Prelude.{All, IsTrue};
ghost use Rattle.secret_book.specs.HeldBooks.{held};
ghost use Rattle.body_parts.specs.Sending.{CanReach};

use crate::*;
use body_parts::{Receiver, can_reach, draw_for, receivers};
use causal_history::{Crowd, History};
use group_fields::{
    Bytes, Card, Cards, Digest, GroupId, Header, HeaderView, Ids, Kind, MemberId, Memory,
    MessageId, Target, read_card, read_header, write_card, write_header,
};
use kem_trait::{Kem, SeedWords};
use member_view::RemoveWins;
use ntru_prime::Drill37;
use secret_book::Book;
use std::alloc::Global;
use std::test::Fail;

// ---- members, by the numbers of their cards

fn card_bytes(alloc: Global, number: u8) -> Result<Bytes, Memory> {
    let mut lms_public = [number; 56];
    lms_public[..8].copy_from_slice(&[0, 0, 0, 5, 0, 0, 0, 3]);
    let card = Card {
        set: 2,
        lms_public,
        inviter: MemberId(Digest([0; 32])),
        kem_public: Bytes::copy_of(alloc, &[number; 33])?,
    };
    if card.has_spelling() {
        return write_card(alloc, &card);
    }
    Bytes::copy_of(alloc, &[])
}

fn member(alloc: Global, number: u8) -> Result<MemberId, Memory> {
    let bytes = card_bytes(alloc, number)?;
    Ok(match read_card(bytes.as_slice()) {
        Ok(card) => card.id(),
        Err(_) => MemberId(Digest([0; 32])),
    })
}

fn digests(alloc: Global, mut ids: Vec<[u8; 32]>) -> Result<Ids, Memory> {
    ids.sort()?;
    let mut list = Ids::new(alloc);
    for id in ids.as_slice() {
        list.push(Digest(*id))?;
    }
    Ok(list)
}

fn members(alloc: Global, numbers: &[u8]) -> Result<Ids, Memory> {
    let mut ids = Vec::new(alloc);
    for number in numbers {
        ids.push(member(alloc, *number)?.0.0)?;
    }
    digests(alloc, ids)
}

// The cards of these members, in the order of their ids.
fn cards(alloc: Global, numbers: &[u8]) -> Result<Cards, Memory> {
    let ids = members(alloc, numbers)?;
    let mut cards = Cards::new(alloc);
    for id in ids.as_slice() {
        for number in numbers {
            let bytes = card_bytes(alloc, *number)?;
            if let Ok(card) = read_card(bytes.as_slice()) {
                if card.id().0 == *id {
                    cards.push(&card)?;
                }
            }
        }
    }
    Ok(cards)
}

// ---- rows

enum Does {
    Create,
    Add(u8),
    Remove(u8),
    Update,
    AddAck(u32),
}

struct Row {
    sender: u8,
    seq: u32,
    does: Does,
    behind: &'static [u32],
}

// Member 0 makes the group of 0 to 3, then adds 4 and 5; member 1 updates beside the adds; member 2 removes 5 behind
// both.
const ROWS: [Row; 5] = [
    Row {
        sender: 0,
        seq: 1,
        does: Does::Create,
        behind: &[],
    },
    Row {
        sender: 0,
        seq: 2,
        does: Does::Add(4),
        behind: &[0],
    },
    Row {
        sender: 0,
        seq: 3,
        does: Does::Add(5),
        behind: &[1],
    },
    Row {
        sender: 1,
        seq: 1,
        does: Does::Update,
        behind: &[0],
    },
    Row {
        sender: 2,
        seq: 1,
        does: Does::Remove(5),
        behind: &[2, 3],
    },
];

// Member 0 makes the group of 0 to 3, and adds 4, which 2 answers; member 1 updates beside the add.
const CROSSED: [Row; 4] = [
    Row {
        sender: 0,
        seq: 1,
        does: Does::Create,
        behind: &[],
    },
    Row {
        sender: 1,
        seq: 1,
        does: Does::Update,
        behind: &[0],
    },
    Row {
        sender: 0,
        seq: 2,
        does: Does::Add(4),
        behind: &[0],
    },
    Row {
        sender: 2,
        seq: 1,
        does: Does::AddAck(2),
        behind: &[2],
    },
];

fn kind_of(does: &Does) -> Kind {
    match does {
        Does::Create => Kind::Create,
        Does::Add(_) => Kind::Add,
        Does::Remove(_) => Kind::Remove,
        Does::Update => Kind::Update,
        Does::AddAck(_) => Kind::AddAck,
    }
}

// The id of a row; 32 zero bytes where there is none.
fn row_id(history: &History, row: u32) -> MessageId {
    if row < history.count() {
        history.id(row)
    } else {
        MessageId(Digest([0; 32]))
    }
}

fn target_of(alloc: Global, history: &History, does: &Does) -> Result<Target, Memory> {
    Ok(match does {
        Does::Create => Target::Members(members(alloc, &[0, 1, 2, 3])?),
        Does::Add(number) | Does::Remove(number) => Target::Member(member(alloc, *number)?),
        Does::Update => Target::Nothing,
        Does::AddAck(row) => Target::Answer(row_id(history, *row), true),
    })
}

fn cards_of(alloc: Global, does: &Does) -> Result<Cards, Memory> {
    match does {
        Does::Create => cards(alloc, &[0, 1, 2, 3]),
        Does::Add(number) => cards(alloc, &[*number]),
        Does::Remove(_) | Does::Update | Does::AddAck(_) => Ok(Cards::new(alloc)),
    }
}

fn predecessors(alloc: Global, history: &History, rows: &[u32]) -> Result<Ids, Memory> {
    let mut ids = Vec::new(alloc);
    for row in rows {
        ids.push(row_id(history, *row).0.0)?;
    }
    digests(alloc, ids)
}

fn header_bytes(alloc: Global, history: &History, row: &Row) -> Result<Bytes, Memory> {
    let header = Header {
        set: 2,
        group: GroupId(Digest([9; 32])),
        sender: member(alloc, row.sender)?,
        seq: row.seq,
        kind: kind_of(&row.does),
        target: target_of(alloc, history, &row.does)?,
        predecessors: predecessors(alloc, history, row.behind)?,
        body: Digest([7; 32]),
    };
    if header.has_spelling() {
        return write_header(alloc, &header);
    }
    Bytes::copy_of(alloc, &[])
}

// Pushes the row of a header. Answers whether that could be.
fn push_view(
    history: &mut History,
    header: &HeaderView<'_>,
    cards: &Cards,
) -> Result<bool, Memory> {
    if !history.may_push(header, cards)? {
        return Ok(false);
    }
    history.push(header, cards)?;
    Ok(true)
}

fn push(alloc: Global, history: &mut History, row: &Row) -> Result<bool, Memory> {
    let bytes = header_bytes(alloc, history, row)?;
    let cards = cards_of(alloc, &row.does)?;
    match read_header(bytes.as_slice()) {
        Ok(view) => push_view(history, &view, &cards),
        Err(_) => Ok(false),
    }
}

fn push_all(alloc: Global, history: &mut History, rows: &[Row]) -> Result<bool, Memory> {
    for row in rows {
        if !push(alloc, history, row)? {
            return Ok(false);
        }
    }
    Ok(true)
}

// ---- what is compared, without clauses: what calls it is proved fast

// Whom the ack of the member at a place to the operation at a row forwards to.
fn crowd_of(history: &History, row: u32, place: u8) -> Crowd {
    if row >= history.count() || place >= history.places() {
        return Crowd::new();
    }
    forward_to::<RemoveWins>(history, place, &history.row(row))
}

// Which of the members 0 to 5 are forwarded the secret by the ack of a member to the operation at a row.
fn forwarded(alloc: Global, history: &History, row: u32, me: u8) -> Result<Vec<u8>, Memory> {
    let mut numbers = Vec::new(alloc);
    let place = history.place(&member(alloc, me)?).unwrap_or(u8::MAX);
    let crowd = crowd_of(history, row, place);
    for number in 0..6 {
        let at = history.place(&member(alloc, number)?).unwrap_or(u8::MAX);
        if at < 64 && crowd.has(at) {
            numbers.push(number)?;
        }
    }
    Ok(numbers)
}

// The row of an operation, the acknowledger, and whom it forwards to.
type Case = (u32, u8, &'static [u8]);

// 5 is removed, and an add is never forwarded.
const CASES: [Case; 9] = [
    (0, 1, &[4]),
    (0, 2, &[4]),
    (0, 4, &[]),
    (1, 4, &[]),
    (2, 5, &[]),
    (3, 0, &[4]),
    (3, 2, &[4]),
    (3, 4, &[]),
    (4, 3, &[]),
];

// Who answered the add forwards to whom it added, and to nobody else; so does 3, who has seen the add since.
const CROSSED_CASES: [Case; 2] = [(1, 2, &[4]), (1, 3, &[4])];

// Who hasn't seen the add forwards to nobody.
const EARLY_CASES: [Case; 2] = [(1, 2, &[]), (1, 3, &[])];

// The number of the first case that is answered otherwise; none where all are answered so.
fn first_amiss(alloc: Global, history: &History, cases: &[Case]) -> Result<Option<usize>, Memory> {
    for (index, (row, me, to)) in cases.iter().enumerate() {
        let numbers = forwarded(alloc, history, *row, *me)?;
        if numbers.as_slice() != *to {
            return Ok(Some(index));
        }
    }
    Ok(None)
}

// The same of a history of these rows.
fn told(alloc: Global, rows: &[Row], cases: &[Case]) -> Result<Option<usize>, Fail> {
    let mut history = History::new(alloc);
    if !push_all(alloc, &mut history, rows)? {
        return Err(Fail::new("a row can't be pushed"));
    }
    Ok(first_amiss(alloc, &history, cases)?)
}

#[test]
fn forwards_to_whom_the_operation_left_out(rt: HostRuntime) -> Result<(), Fail> {
    assert_eq!(rt; told(rt.alloc(), &ROWS, &CASES)?, None);
    assert_eq!(rt; told(rt.alloc(), &CROSSED, &CROSSED_CASES)?, None);
    assert_eq!(rt; told(rt.alloc(), &CROSSED[..2], &EARLY_CASES)?, None);
    Ok(())
}

// ---- the body of an ack

type Drill = Book<Drill37>;

const SECRET: [u8; 32] = [0x5a; 32];

fn pair(alloc: Global, number: u8) -> Result<<Drill37 as Kem>::Pair, Fail> {
    Ok(Drill37::make(alloc, &mut SeedWords::new(&[number; 32]))?)
}

// Meets the own place, and then the member whose pair is made by the seed of a number.
fn meet(alloc: Global, book: &mut Drill, number: u8) -> Result<(), Fail> {
    if book.met() != 0 {
        return Err(Fail::new("the own place is the first here"));
    }
    book.meet(alloc, 0, None)?;
    let theirs = pair(alloc, number)?;
    let mut public = vec![in alloc; 0; Drill37::PUBLIC_LEN]?;
    Drill37::public(&theirs, public.as_mut_slice());
    if book.met() != 1 || !Drill37::public_ok(public.as_slice()) {
        return Err(Fail::new("no place, or the public key of a pair is none"));
    }
    Ok(book.meet(alloc, 1, Some(public.as_slice()))?)
}

// Whether parts can be sent to each of the receivers.
fn can_reach_each(book: &Drill, to: &[Receiver]) -> bool
    ensures { IsTrue result → All (λ r. CanReach (held book.now) r.place) to.now }
{
    for i in 0..to.len() {
        if !can_reach(book, to[i].place) {
            return false;
        }
    }
    true
}

// The body of an ack that forwards the secret to a crowd.
fn ack(alloc: Global, book: &mut Drill, history: &History, to: Crowd) -> Result<Bytes, Fail> {
    let list = receivers(alloc, history, to)?;
    let all = list.as_slice();
    if !can_reach_each(book, all) {
        return Err(Fail::new("a place that no part can be sent to"));
    }
    let draws = draw_for::<Drill37>(alloc, &[3; 32], all)?;
    Ok(make_ack(alloc, book, history, to, &SECRET, draws)?)
}

// Whether a part of the member at place 1 opens to the secret.
fn opens(alloc: Global, book: &mut Drill, part: &[u8]) -> Result<bool, Fail> {
    if !can_reach(book, 1) {
        return Err(Fail::new("a place that was not met"));
    }
    Ok(book.open_from(alloc, 1, part)? == Some(SECRET))
}

// The id of the member at place 1.
fn second(history: &History) -> MemberId {
    if history.places() < 2 {
        return MemberId(Digest([0; 32]));
    }
    history.member(1)
}

// Whether the bytes are the count of one part, the id of the member at place 1, and a part that opens to the secret.
fn is_one_part(
    alloc: Global,
    bytes: &[u8],
    history: &History,
    bob: &mut Drill,
) -> Result<bool, Fail> {
    let Some(rest) = bytes.strip_prefix(&[1]) else {
        return Ok(false);
    };
    if rest.len() != 291 {
        return Ok(false);
    }
    let (id, part) = rest.split_at(32);
    Ok(id == second(history).0.0.as_slice() && opens(alloc, bob, part)?)
}

// The first of two members acknowledges to the second, and to nobody.
fn acknowledges(alloc: Global, ada: &mut Drill, bob: &mut Drill) -> Result<bool, Fail> {
    meet(alloc, ada, 2)?;
    meet(alloc, bob, 1)?;
    let mut history = History::new(alloc);
    if !push_all(alloc, &mut history, &ROWS[..1])? {
        return Err(Fail::new("a row can't be pushed"));
    }
    let one = ack(alloc, ada, &history, Crowd::new().with(1))?;
    let nobody = ack(alloc, ada, &history, Crowd::new())?;
    Ok(nobody.as_slice() == [0].as_slice() && is_one_part(alloc, one.as_slice(), &history, bob)?)
}

#[test]
fn an_ack_carries_the_secret_to_whom_it_is_for(rt: HostRuntime) -> Result<(), Fail> {
    let mine = pair(rt.alloc(), 1)?;
    let theirs = pair(rt.alloc(), 2)?;
    let mut ada = Book::start(rt.alloc(), mine);
    let mut bob = Book::start(rt.alloc(), theirs);
    let right = acknowledges(rt.alloc(), &mut ada, &mut bob);
    ada.close();
    bob.close();
    assert!(rt; right?);
    Ok(())
}
