//! Whom answers are planned for, over a group of two members into which a third is added beside an update, worked out by
//! hand.

ghost use Rattle.std.specs.Prelude.{◌≡◌, true};
ghost use Rattle.causal_history.specs.Rows.{history_of};
ghost use Rattle.group_messages.specs.Messages.{message_of};
ghost use Rattle.member_view.specs.Crowds.{StandsWell};

use crate::*;
use causal_history::History;
use group_fields::{
    Bytes, Card, Cards, Digest, GroupId, Header, HeaderView, Ids, Kind, MemberId, Memory, Target,
    read_card, read_header, write_card, write_header,
};
use member_view::{RemoveWins, place_with};
use ntru_prime::Drill37;
use std::alloc::Global;
use std::test::Fail;

// ---- members, by the numbers of their cards

fn card_bytes(alloc: Global, number: u8) -> Result<Bytes, Memory> {
    let mut lms_public = [number; 56];
    lms_public[..8].copy_from_slice(&[0, 0, 0, 5, 0, 0, 0, 3]);
    let card = Card {
        set: 2,
        lms_public,
        inviter: MemberId(Digest([0; 32])),
        kem_public: Bytes::copy_of(alloc, &[number; 33])?,
    };
    if card.has_spelling() {
        return write_card(alloc, &card);
    }
    Bytes::copy_of(alloc, &[])
}

fn member(alloc: Global, number: u8) -> Result<MemberId, Memory> {
    let bytes = card_bytes(alloc, number)?;
    Ok(match read_card(bytes.as_slice()) {
        Ok(card) => card.id(),
        Err(_) => MemberId(Digest([0; 32])),
    })
}

// The ids of the members with these numbers, in ascending order.
fn members(alloc: Global, numbers: &[u8]) -> Result<Ids, Memory> {
    let mut ids = Vec::new(alloc);
    for number in numbers {
        ids.push(member(alloc, *number)?.0)?;
    }
    ids.sort()?;
    Ok(Ids::from(ids))
}

fn append_card(cards: &mut Cards, bytes: &Bytes, id: &Digest) -> Result<(), Memory> {
    match read_card(bytes.as_slice()) {
        Ok(card) if card.id().0 == *id => cards.push(&card),
        _ => Ok(()),
    }
}

// The cards of the members with these numbers, in the order of their ids.
fn cards(alloc: Global, numbers: &[u8]) -> Result<Cards, Memory> {
    let ids = members(alloc, numbers)?;
    let mut cards = Cards::new(alloc);
    for id in ids.as_slice() {
        for number in numbers {
            append_card(&mut cards, &card_bytes(alloc, *number)?, id)?;
        }
    }
    Ok(cards)
}

// ---- messages

#[derive(Clone, Copy)]
enum Does {
    /// Member 0 makes the group of 0 and 1.
    Create,
    /// Behind that, member 0 adds 2.
    Add,
    /// Beside the add, member 1 updates.
    Update,
}

const STORY: [Does; 3] = [Does::Create, Does::Add, Does::Update];

fn kind_of(does: Does) -> Kind {
    match does {
        Does::Create => Kind::Create,
        Does::Add => Kind::Add,
        Does::Update => Kind::Update,
    }
}

fn target_of(alloc: Global, does: Does) -> Result<Target, Memory> {
    Ok(match does {
        Does::Create => Target::Members(members(alloc, &[0, 1])?),
        Does::Add => Target::Member(member(alloc, 2)?),
        Does::Update => Target::Nothing,
    })
}

fn cards_of(alloc: Global, does: Does) -> Result<Cards, Memory> {
    match does {
        Does::Create => cards(alloc, &[0, 1]),
        Does::Add => cards(alloc, &[2]),
        Does::Update => Ok(Cards::new(alloc)),
    }
}

// The sender and its number of the message.
fn author(does: Does) -> (u8, u32) {
    match does {
        Does::Create => (0, 1),
        Does::Add => (0, 2),
        Does::Update => (1, 1),
    }
}

// The create, which is the first row, where there is one.
fn predecessors(alloc: Global, history: &History) -> Result<Ids, Memory> {
    let mut ids = Ids::new(alloc);
    if 0 < history.count() {
        ids.push(history.id(0).0)?;
    }
    Ok(ids)
}

fn header_bytes(alloc: Global, history: &History, does: Does) -> Result<Bytes, Memory> {
    let (sender, seq) = author(does);
    let header = Header {
        set: 2,
        group: GroupId(Digest([9; 32])),
        sender: member(alloc, sender)?,
        seq,
        kind: kind_of(does),
        target: target_of(alloc, does)?,
        predecessors: predecessors(alloc, history)?,
        body: Digest([7; 32]),
    };
    if header.has_spelling() {
        return write_header(alloc, &header);
    }
    Bytes::copy_of(alloc, &[])
}

fn push(alloc: Global, history: &mut History, does: Does) -> Result<bool, Memory> {
    let bytes = header_bytes(alloc, history, does)?;
    let cards = cards_of(alloc, does)?;
    match read_header(bytes.as_slice()) {
        Ok(view) if history.may_push(&view, &cards)? => {
            history.push(&view, &cards)?;
            Ok(true)
        }
        _ => Ok(false),
    }
}

// ---- what is asked, without clauses: what calls it is proved fast

// Whether the operation is no create, or the first message.
fn stands_well(history: &History, operation: &HeaderView<'_>) -> bool
    ensures { result ≡ true
        → StandsWell (history_of history.now) (message_of operation.now) (message_of operation.now).kind }
{
    let first = history.count() == 0;
    match operation.kind() {
        Kind::Create => first,
        _ => true,
    }
}

// The plan of the member. None where it may not be asked.
fn plan(
    alloc: Global,
    history: &History,
    me: &MemberId,
    operation: &HeaderView<'_>,
    cards: &Cards,
    took: bool,
) -> Result<Option<AnswerPlan<Drill37>>, Fail> {
    let _rows = history.count();
    if !stands_well(history, operation) || !history.may_push(operation, cards)? {
        return Ok(None);
    }
    let Some(place) = place_with(history, Some(operation), me) else {
        return Ok(None);
    };
    Ok(Some(plan_answer::<Drill37, RemoveWins>(
        alloc, history, me, place, operation, took, &[3; 32],
    )?))
}

// Whether the plan has a part and draws for the member exactly where this is wanted.
fn is_for(
    history: &History,
    operation: &HeaderView<'_>,
    plan: &mut AnswerPlan<Drill37>,
    id: &MemberId,
    wanted: bool,
) -> bool {
    let among = match place_with(history, Some(operation), id) {
        Some(place) => plan.to.has(place),
        None => false,
    };
    let drawn = plan.draws.take(id).is_some();
    among == wanted && drawn == wanted
}

// How many messages were taken before the one that is answered, this one, who answers it, whether it has a part for that
// member, and for whom the answer has one.
type Case = (usize, Does, u8, bool, Option<u8>);

const CASES: [Case; 8] = [
    (0, Does::Create, 1, true, None),
    (1, Does::Update, 0, true, None),
    (1, Does::Update, 0, false, None),
    (2, Does::Update, 0, true, Some(2)),
    (2, Does::Update, 0, false, None),
    (2, Does::Update, 2, true, None),
    (1, Does::Add, 1, false, Some(2)),
    (1, Does::Add, 2, true, None),
];

// Whether the case is planned as it is wanted.
fn is_right(alloc: Global, history: &History, case: &Case) -> Result<bool, Fail> {
    let (_, does, me, took, to) = *case;
    let bytes = header_bytes(alloc, history, does)?;
    let Ok(operation) = read_header(bytes.as_slice()) else {
        return Err(Fail::new("no header"));
    };
    let cards = cards_of(alloc, does)?;
    let me = member(alloc, me)?;
    let Some(mut planned) = plan(alloc, history, &me, &operation, &cards, took)? else {
        return Err(Fail::new("an operation that can't be taken"));
    };
    for number in 0..3 {
        let id = member(alloc, number)?;
        if !is_for(history, &operation, &mut planned, &id, to == Some(number)) {
            return Ok(false);
        }
    }
    Ok(true)
}

// How many cases are planned otherwise.
fn amiss(alloc: Global) -> Result<u32, Fail> {
    let mut count: u32 = 0;
    for case in &CASES {
        let mut history = History::new(alloc);
        for does in &STORY[..case.0] {
            if !push(alloc, &mut history, *does)? {
                return Err(Fail::new("a row can't be pushed"));
            }
        }
        if !is_right(alloc, &history, case)? {
            count = count.wrapping_add(1);
        }
    }
    Ok(count)
}

#[test]
fn answers_are_planned_for_whom_the_operation_left_out(rt: HostRuntime) -> Result<(), Fail> {
    assert_eq!(rt; amiss(rt.alloc())?, 0);
    Ok(())
}
