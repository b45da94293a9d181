use super::members::*;
use super::messages::*;
use super::validity::*;
use std::alloc::{AllocError, Global};
use std::test::Fail;

fn id(n: u8) -> [u8; 32] {
    [n; 32]
}

fn ids_of(alloc: Global, numbers: &[u8]) -> Result<Vec<[u8; 32]>, AllocError> {
    let mut ids = Vec::new(alloc);
    for n in numbers {
        ids.push(id(*n))?;
    }
    Ok(ids)
}

fn are(ids: &[[u8; 32]], numbers: &[u8]) -> bool {
    ids.len() == numbers.len() && ids.iter().zip(numbers.iter()).all(|(i, n)| *i == id(*n))
}

fn message(
    alloc: Global,
    number: u8,
    sender: u8,
    seq: u32,
    kind: PlainKind,
    predecessors: &[u8],
) -> Result<PlainMessage, AllocError> {
    Ok(PlainMessage {
        id: id(number),
        set: 2,
        group: id(9),
        sender: id(sender),
        seq,
        kind,
        predecessors: ids_of(alloc, predecessors)?,
        body: id(number),
    })
}

fn create_of(alloc: Global, members: &[u8]) -> Result<PlainKind, AllocError> {
    Ok(PlainKind::Create(ids_of(alloc, members)?))
}

// The functions under test by the numbers of ids, without clauses: what calls them is proved fast.

fn past_of(
    alloc: Global,
    h: &[PlainMessage],
    newest: &[u8],
) -> Result<Vec<PlainMessage>, AllocError> {
    let ids = ids_of(alloc, newest)?;
    past(alloc, h, ids.as_slice())
}

fn member(p: &[PlainMessage], n: u8) -> bool {
    is_member(p, &id(n))
}

fn named(p: &[PlainMessage], n: u8) -> bool {
    is_named(p, &id(n))
}

fn removed(p: &[PlainMessage], n: u8) -> bool {
    is_removed(p, &id(n))
}

fn standing(p: &[PlainMessage], n: u8) -> bool {
    stands(p, &id(n))
}

fn count(p: &[PlainMessage], n: u8) -> usize {
    count_of(&id(n), p)
}

fn sees_it(alloc: Global, h: &[PlainMessage], m: &PlainMessage, n: u8) -> Result<bool, AllocError> {
    sees(alloc, h, m, &id(n))
}

fn receives(
    alloc: Global,
    h: &[PlainMessage],
    m: &PlainMessage,
    n: u8,
) -> Result<bool, AllocError> {
    is_recipient(alloc, h, m, &id(n))
}

fn forwarded(
    alloc: Global,
    h: &[PlainMessage],
    of: u8,
    ack: &PlainMessage,
    n: u8,
) -> Result<bool, AllocError> {
    is_forwarded_to(alloc, h, &id(of), ack, &id(n))
}

fn handed(
    alloc: Global,
    h: &[PlainMessage],
    of: u8,
    ack: &PlainMessage,
    n: u8,
) -> Result<bool, AllocError> {
    is_handed_to(alloc, h, &id(of), ack, &id(n))
}

fn waits(
    alloc: Global,
    p: &[PlainMessage],
    n: u8,
    operation: &PlainMessage,
) -> Result<bool, AllocError> {
    is_unanswered(alloc, p, &id(n), operation)
}

fn settled(alloc: Global, p: &[PlainMessage], n: u8) -> Result<bool, AllocError> {
    answers_none(alloc, p, &id(n))
}

fn in_turn(alloc: Global, p: &[PlainMessage], n: u8, kind: &PlainKind) -> Result<bool, AllocError> {
    is_in_turn(alloc, p, &id(n), kind)
}

fn is_next(p: &[PlainMessage], m: &PlainMessage) -> bool {
    p.len() < 100 && is_next_in_sequence(p, m)
}

fn heads_are(alloc: Global, p: &[PlainMessage], numbers: &[u8]) -> Result<bool, AllocError> {
    let ids = heads(alloc, p)?;
    Ok(are(ids.as_slice(), numbers))
}

fn follows(alloc: Global, p: &[PlainMessage], m: &PlainMessage) -> Result<bool, AllocError> {
    follows_heads(alloc, p, m)
}

fn suits(
    alloc: Global,
    cards: &[Invitation],
    p: &[PlainMessage],
    n: u8,
    kind: &PlainKind,
) -> Result<bool, AllocError> {
    meets_kind(alloc, cards, p, &id(n), kind)
}

fn names_are(alloc: Global, p: &[PlainMessage], numbers: &[u8]) -> Result<bool, AllocError> {
    let ids = named_ids(alloc, p)?;
    Ok(are(ids.as_slice(), numbers))
}

fn addressed_to(
    alloc: Global,
    h: &[PlainMessage],
    m: &PlainMessage,
    numbers: &[u8],
) -> Result<bool, AllocError> {
    let ids = addressees(alloc, h, m)?;
    Ok(are(ids.as_slice(), numbers))
}

fn parts_go_to(
    alloc: Global,
    h: &[PlainMessage],
    m: &PlainMessage,
    numbers: &[u8],
) -> Result<bool, AllocError> {
    let ids = ids_of(alloc, numbers)?;
    sends_parts(alloc, h, m, ids.as_slice())
}

fn opens_it(cards: &[Invitation], m: &PlainMessage) -> bool {
    opens(cards, m)
}

fn must_answer(n: u8, h: &[PlainMessage], m: &PlainMessage) -> bool {
    needs_answer(&id(n), h, m)
}

fn fits(alloc: Global, n: u8, h: &[PlainMessage], m: &PlainMessage) -> Result<bool, AllocError> {
    is_within_limits(alloc, &id(n), h, m)
}

// Whether the message is valid by the rules from the first to the sixth over its past.
fn goes_on(
    alloc: Global,
    cards: &[Invitation],
    h: &[PlainMessage],
    m: &PlainMessage,
) -> Result<bool, AllocError> {
    let set = past(alloc, h, m.predecessors.as_slice())?;
    let p = set.as_slice();
    Ok(
        is_named(p, &m.sender)
            && is_member(p, &m.sender)
            && is_next(p, m)
            && meets_kind(alloc, cards, p, &m.sender, &m.kind)?
            && is_in_turn(alloc, p, &m.sender, &m.kind)?
            && follows_heads(alloc, p, m)?,
    )
}

// Whether each message but the oldest goes on from the older ones, and is within the limits of the member.
fn all_go_on(
    alloc: Global,
    cards: &[Invitation],
    h: &[PlainMessage],
    n: u8,
) -> Result<bool, AllocError> {
    for at in 0..h.len() {
        if at + 1 < h.len() {
            if !goes_on(alloc, cards, &h[at + 1..], &h[at])?
                || !fits(alloc, n, &h[at + 1..], &h[at])?
            {
                return Ok(false);
            }
        }
    }
    Ok(true)
}

fn card_of(owner: u8, inviter: u8, has_key: bool) -> Invitation {
    Invitation {
        id: id(owner),
        inviter: id(inviter),
        has_key,
    }
}

fn cards_of(alloc: Global, pairs: &[(u8, u8)]) -> Result<Vec<Invitation>, AllocError> {
    let mut all = Vec::new(alloc);
    for (owner, inviter) in pairs {
        all.push(card_of(*owner, *inviter, true))?;
    }
    Ok(all)
}

// 1 creates {1, 2, 3}; both ack; then 1 updates while 2 adds 4. 2 acks the update with the add in its past.
// At last 1 removes 3, and an add of 3 comes after it.
fn history(alloc: Global) -> Result<Vec<PlainMessage>, AllocError> {
    let mut h = Vec::new(alloc);
    h.push(message(alloc, 17, 2, 1, PlainKind::Add(id(3)), &[16])?)?;
    h.push(message(alloc, 16, 1, 1, PlainKind::Remove(id(3)), &[15])?)?;
    h.push(message(alloc, 15, 2, 1, PlainKind::Ack(id(13), true), &[13, 14])?)?;
    h.push(message(alloc, 14, 2, 1, PlainKind::Add(id(4)), &[11, 12])?)?;
    h.push(message(alloc, 13, 1, 1, PlainKind::Update, &[11, 12])?)?;
    h.push(message(alloc, 12, 3, 1, PlainKind::Ack(id(10), true), &[10])?)?;
    h.push(message(alloc, 11, 2, 1, PlainKind::Ack(id(10), true), &[10])?)?;
    h.push(message(alloc, 10, 1, 1, create_of(alloc, &[1, 2, 3])?, &[])?)?;
    Ok(h)
}

// 1 invited 2 and 3, 2 invited 4, 6 and 7, and 9 invited 5. The card of 7 has no public key.
fn cards(alloc: Global) -> Result<Vec<Invitation>, AllocError> {
    let mut all = cards_of(alloc, &[(1, 0), (2, 1), (3, 1), (4, 2), (5, 9), (6, 2)])?;
    all.push(card_of(7, 2, false))?;
    Ok(all)
}

#[test]
fn members_and_views(rt: HostRuntime) -> Result<(), Fail> {
    let alloc = rt.alloc();
    let all = history(alloc)?;
    assert!(rt; all.len() == 8);
    let h = all.as_slice();
    // (the newest message, the members of 1 to 4 in the past that it leads to)
    let table: [(u8, [bool; 4]); 5] = [
        (12, [true, true, true, false]),
        (13, [true, true, true, false]),
        (14, [true, true, true, true]),
        (16, [true, true, false, true]),
        (17, [true, true, false, true]),
    ];
    for (newest, expected) in table {
        let set = past_of(alloc, h, &[newest])?;
        for n in 0..4u8 {
            assert!(rt; member(set.as_slice(), n + 1) == expected[n as usize]);
        }
    }
    let older = past_of(alloc, h, &[13, 14])?;
    assert!(rt;
        older.len() == 5 && standing(older.as_slice(), 10) && !standing(older.as_slice(), 15)
    );
    assert!(rt; named(h, 4) && !named(h, 5) && removed(h, 3) && !removed(h, 4) && count(h, 2) == 4);
    assert!(rt; names_are(alloc, older.as_slice(), &[1, 2, 3, 4])?);
    // (the message by its place, who sees it, who doesn't): 4 was added beside the update, and 3 removed.
    for (at, sees, misses) in [(3, 4, 5), (4, 2, 4), (2, 4, 5), (1, 4, 3)] {
        if at < 8 {
            assert!(rt; sees_it(alloc, h, &h[at], sees)? && !sees_it(alloc, h, &h[at], misses)?);
        }
    }
    assert!(rt; receives(alloc, h, &h[4], 2)? && !receives(alloc, h, &h[4], 1)?);
    // The ack of 2 forwards to 4, and to nobody else.
    for n in 1..5u8 {
        assert!(rt; forwarded(alloc, h, 13, &h[2], n)? == (n == 4));
    }
    Ok(())
}

#[test]
fn what_is_unanswered(rt: HostRuntime) -> Result<(), Fail> {
    let alloc = rt.alloc();
    let all = history(alloc)?;
    let set = past_of(alloc, all.as_slice(), &[13, 14])?;
    assert!(rt; set.len() == 5);
    let p = set.as_slice();
    // (the member, whether the add, the update and the create wait for it)
    let table: [(u8, bool, bool, bool); 4] = [
        (1, true, false, false),
        (2, false, true, false),
        (3, true, true, false),
        (4, true, true, false),
    ];
    for (n, add, update, create) in table {
        assert!(rt; waits(alloc, p, n, &p[0])? == add && waits(alloc, p, n, &p[1])? == update);
        assert!(rt; waits(alloc, p, n, &p[4])? == create && !settled(alloc, p, n)?);
    }
    // After 13 and 14 the member 3 owes two answers, and 1 owes one.
    let turns = [
        (1, PlainKind::Ack(id(14), true), true),
        (1, PlainKind::Ack(id(13), true), false),
        (3, PlainKind::AddAck(id(14)), false),
        (2, PlainKind::Update, false),
    ];
    for (n, kind, expected) in &turns {
        assert!(rt; in_turn(alloc, p, *n, kind)? == *expected);
    }
    // 3 has one message in the set, its ack.
    let first = message(alloc, 18, 3, 1, PlainKind::Text, &[])?;
    assert!(rt; count(p, 3) == 1 && !is_next(p, &first));
    let acked = past_of(alloc, all.as_slice(), &[11, 12])?;
    assert!(rt; in_turn(alloc, acked.as_slice(), 1, &PlainKind::Update)?);
    for n in 1..4u8 {
        assert!(rt; settled(alloc, acked.as_slice(), n)?);
    }
    Ok(())
}

#[test]
fn heads_and_kinds(rt: HostRuntime) -> Result<(), Fail> {
    let alloc = rt.alloc();
    let all = history(alloc)?;
    assert!(rt; all.len() == 8);
    let h = all.as_slice();
    let first = past_of(alloc, h, &[12, 11])?;
    let second = past_of(alloc, h, &[14, 13])?;
    let p = second.as_slice();
    assert!(rt; heads_are(alloc, first.as_slice(), &[11, 12])? && heads_are(alloc, p, &[13, 14])?);
    assert!(rt; heads_are(alloc, h, &[17])? && heads_are(alloc, &h[8..], &[])?);
    assert!(rt; follows(alloc, p, &h[2])? && follows(alloc, first.as_slice(), &h[4])?);
    // In descending order, with a message too many, and with one too few.
    for wrong in [
        [14, 13].as_slice(),
        [12, 13, 14].as_slice(),
        [13].as_slice(),
    ] {
        let other = message(alloc, 18, 1, 1, PlainKind::Update, wrong)?;
        assert!(rt; !follows(alloc, p, &other)?);
    }
    let known = cards(alloc)?;
    // (the sender, the kind, the verdict): 13 is an update of 1, and 14 an add of 4 by 2 beside it.
    let table = [
        (1, PlainKind::Update, true),
        (1, PlainKind::Remove(id(3)), true),
        (1, PlainKind::Remove(id(1)), false),
        (1, PlainKind::Remove(id(5)), false),
        (2, PlainKind::Add(id(6)), true),
        (2, PlainKind::Add(id(7)), false),
        (2, PlainKind::Add(id(8)), false),
        (1, PlainKind::Add(id(6)), false),
        (2, PlainKind::Add(id(5)), false),
        (2, PlainKind::Add(id(4)), false),
        (2, PlainKind::Ack(id(13), true), true),
        (1, PlainKind::Ack(id(13), true), false),
        (1, PlainKind::Ack(id(13), false), true),
        (4, PlainKind::Ack(id(13), true), false),
        (4, PlainKind::Ack(id(13), false), true),
        (4, PlainKind::Ack(id(14), true), true),
        (3, PlainKind::Ack(id(14), true), false),
        (3, PlainKind::Ack(id(11), false), false),
        (3, PlainKind::AddAck(id(14)), true),
        (4, PlainKind::AddAck(id(14)), false),
        (3, PlainKind::AddAck(id(13)), false),
        (3, PlainKind::Text, true),
        (4, PlainKind::Text, false),
        (1, PlainKind::Create(Vec::new(alloc)), false),
    ];
    for (sender, kind, expected) in &table {
        assert!(rt; suits(alloc, known.as_slice(), p, *sender, kind)? == *expected);
    }
    Ok(())
}

#[test]
fn parts(rt: HostRuntime) -> Result<(), Fail> {
    let alloc = rt.alloc();
    let all = history(alloc)?;
    assert!(rt; all.len() == 8);
    let h = all.as_slice();
    // (the message by its place, the ids that it has parts for): an add after a remove, a remove of 3, an ack that
    // forwards, an add of 4, an update beside it, two acks of the create, and the create.
    let table = [
        (0, [3].as_slice()),
        (1, [2, 4].as_slice()),
        (2, [4].as_slice()),
        (3, [4].as_slice()),
        (4, [2, 3].as_slice()),
        (5, [].as_slice()),
        (6, [].as_slice()),
        (7, [2, 3].as_slice()),
    ];
    for (at, to) in table {
        if at < 8 {
            assert!(rt; addressed_to(alloc, h, &h[at], to)?);
            assert!(rt; parts_go_to(alloc, &h[at + 1..], &h[at], to)?);
            assert!(rt; !parts_go_to(alloc, &h[at + 1..], &h[at], &[9])?);
        }
    }
    // An add-ack of 1 hands its ratchet to 4; an ack without the secret has no part.
    let hands = message(alloc, 18, 1, 1, PlainKind::AddAck(id(14)), &[13, 14])?;
    assert!(rt; handed(alloc, h, 14, &hands, 4)? && !handed(alloc, h, 14, &hands, 3)?);
    assert!(rt; parts_go_to(alloc, h, &hands, &[4])?);
    let bare = message(alloc, 18, 3, 1, PlainKind::Ack(id(13), false), &[13, 14])?;
    assert!(rt; parts_go_to(alloc, h, &bare, &[])? && !parts_go_to(alloc, h, &bare, &[4])?);
    Ok(())
}

#[test]
fn openings_and_limits(rt: HostRuntime) -> Result<(), Fail> {
    let alloc = rt.alloc();
    let known = cards(alloc)?;
    // (the sender, its number, the predecessors, the members, whether their create opens a history)
    let table = [
        (1, 1, [].as_slice(), [1, 2, 3].as_slice(), true),
        (1, 1, [9].as_slice(), [1, 2, 3].as_slice(), false),
        (2, 1, [].as_slice(), [1, 2, 3].as_slice(), false),
        (4, 1, [].as_slice(), [1, 2, 3].as_slice(), false),
        (1, 2, [].as_slice(), [1, 2, 3].as_slice(), false),
        (2, 1, [].as_slice(), [2, 4, 6].as_slice(), true),
        (2, 1, [].as_slice(), [2, 4, 7].as_slice(), false),
        (6, 1, [].as_slice(), [6].as_slice(), true),
        (7, 1, [].as_slice(), [7].as_slice(), false),
        (8, 1, [].as_slice(), [8].as_slice(), false),
    ];
    for (sender, seq, predecessors, members, expected) in table {
        let kind = create_of(alloc, members)?;
        let m = message(alloc, 10, sender, seq, kind, predecessors)?;
        assert!(rt; opens_it(known.as_slice(), &m) == expected);
    }
    let update = message(alloc, 10, 1, 1, PlainKind::Update, &[])?;
    assert!(rt; !opens_it(known.as_slice(), &update));
    let mut few = Vec::new(alloc);
    for n in 1..33u8 {
        few.push(n)?;
    }
    let full = message(alloc, 10, 1, 1, create_of(alloc, few.as_slice())?, &[])?;
    few.push(33)?;
    let over = message(alloc, 10, 1, 1, create_of(alloc, few.as_slice())?, &[])?;
    assert!(rt; fits(alloc, 1, &[], &full)? && !fits(alloc, 1, &[], &over)?);
    // An add needs an answer of all members but its sender, a remove of all that stay, a text of nobody.
    let add = message(alloc, 11, 1, 1, PlainKind::Add(id(40)), &[10])?;
    let remove = message(alloc, 11, 1, 1, PlainKind::Remove(id(3)), &[10])?;
    let text = message(alloc, 11, 1, 1, PlainKind::Text, &[10])?;
    let mut all = Vec::new(alloc);
    all.push(full)?;
    let h = all.as_slice();
    assert!(rt; must_answer(2, h, &add) && must_answer(40, h, &add) && !must_answer(1, h, &add));
    assert!(rt; must_answer(2, h, &remove) && !must_answer(3, h, &remove));
    assert!(rt; !must_answer(2, h, &text) && !must_answer(40, h, &remove));
    assert!(rt; fits(alloc, 2, h, &text)? && !fits(alloc, 2, h, &add)?);
    Ok(())
}

#[test]
fn room_for_an_answer(rt: HostRuntime) -> Result<(), Fail> {
    let alloc = rt.alloc();
    let add = message(alloc, 11, 1, 1, PlainKind::Add(id(40)), &[])?;
    let text = message(alloc, 11, 1, 1, PlainKind::Text, &[])?;
    let remove = message(alloc, 11, 1, 1, PlainKind::Remove(id(2)), &[])?;
    let mut all = Vec::new(alloc);
    all.push(message(alloc, 10, 1, 1, create_of(alloc, &[1, 2])?, &[])?)?;
    for _ in 0..4093u32 {
        all.push(message(alloc, 9, 1, 1, PlainKind::Text, &[])?)?;
    }
    // (whether the member 2 may take an add, a text, and a remove of itself), from 4,094 messages on
    for (takes_add, takes_text, takes_remove) in [
        (true, true, true),
        (false, true, true),
        (false, false, false),
    ] {
        let h = all.as_slice();
        assert!(rt; fits(alloc, 2, h, &add)? == takes_add);
        assert!(rt; fits(alloc, 2, h, &text)? == takes_text);
        assert!(rt; fits(alloc, 2, h, &remove)? == takes_remove);
        all.push(message(alloc, 9, 1, 1, PlainKind::Text, &[])?)?;
    }
    Ok(())
}

// The history of ada, 1, in the example of three members: bob is 2 and cyd is 3.
fn history_of_ada(alloc: Global) -> Result<Vec<PlainMessage>, AllocError> {
    let mut h = Vec::new(alloc);
    h.push(message(alloc, 19, 1, 4, PlainKind::Text, &[18])?)?;
    h.push(message(alloc, 18, 3, 3, PlainKind::Text, &[15, 16, 17])?)?;
    h.push(message(alloc, 17, 3, 2, PlainKind::Ack(id(12), false), &[12, 14])?)?;
    h.push(message(alloc, 16, 2, 3, PlainKind::Ack(id(12), true), &[12, 13])?)?;
    h.push(message(alloc, 14, 3, 1, PlainKind::Ack(id(13), true), &[13])?)?;
    h.push(message(alloc, 15, 1, 3, PlainKind::AddAck(id(13)), &[12, 13])?)?;
    h.push(message(alloc, 13, 2, 2, PlainKind::Add(id(3)), &[11])?)?;
    h.push(message(alloc, 12, 1, 2, PlainKind::Update, &[11])?)?;
    h.push(message(alloc, 11, 2, 1, PlainKind::Ack(id(10), true), &[10])?)?;
    h.push(message(alloc, 10, 1, 1, create_of(alloc, &[1, 2])?, &[])?)?;
    Ok(h)
}

#[test]
fn three_members(rt: HostRuntime) -> Result<(), Fail> {
    let alloc = rt.alloc();
    // ada invited bob, and bob invited cyd.
    let known = cards_of(alloc, &[(1, 0), (2, 1), (3, 2)])?;
    let all = history_of_ada(alloc)?;
    assert!(rt; all.len() == 10);
    let h = all.as_slice();
    assert!(rt; opens_it(known.as_slice(), &h[9]) && all_go_on(alloc, known.as_slice(), h, 1)?);
    assert!(rt; heads_are(alloc, h, &[19])?);
    // cyd is no recipient of the update, and bob's ack forwards to cyd alone.
    assert!(rt; receives(alloc, h, &h[7], 2)? && !receives(alloc, h, &h[7], 3)?);
    for n in 1..4u8 {
        assert!(rt; forwarded(alloc, h, 12, &h[3], n)? == (n == 3));
    }
    // A text of ada without an answer to the add; an ack of cyd that took what was not sent to cyd; an add of cyd by
    // ada, who is not the inviter; a text of cyd whose predecessors are no heads;
    // a text with a number left out; a text of nobody's.
    let others = [
        message(alloc, 30, 1, 3, PlainKind::Text, &[12, 13])?,
        message(alloc, 30, 3, 2, PlainKind::Ack(id(12), true), &[12, 14])?,
        message(alloc, 30, 1, 2, PlainKind::Add(id(3)), &[11])?,
        message(alloc, 30, 3, 3, PlainKind::Text, &[12, 15, 17])?,
        message(alloc, 30, 3, 4, PlainKind::Text, &[15, 16, 17])?,
        message(alloc, 30, 4, 1, PlainKind::Text, &[15, 16, 17])?,
    ];
    for other in &others {
        assert!(rt; !goes_on(alloc, known.as_slice(), h, other)?);
    }
    Ok(())
}

// The history of cyd, 3, in the example with the rows of an outsider: ada is 1, bob is 2, and the outsider is 4.
fn history_with_rows(alloc: Global) -> Result<Vec<PlainMessage>, AllocError> {
    let mut h = Vec::new(alloc);
    h.push(message(alloc, 28, 1, 3, PlainKind::AddAck(id(26)), &[25, 26])?)?;
    h.push(message(alloc, 25, 1, 2, PlainKind::Ack(id(23), false), &[23])?)?;
    h.push(message(alloc, 27, 3, 1, PlainKind::Ack(id(26), true), &[26])?)?;
    h.push(message(alloc, 26, 2, 3, PlainKind::Add(id(3)), &[24])?)?;
    h.push(message(alloc, 24, 2, 2, PlainKind::Ack(id(23), false), &[23])?)?;
    h.push(message(alloc, 23, 4, 2, PlainKind::Update, &[21, 22])?)?;
    h.push(message(alloc, 22, 4, 1, PlainKind::Ack(id(20), true), &[20])?)?;
    h.push(message(alloc, 21, 2, 1, PlainKind::Ack(id(20), true), &[20])?)?;
    h.push(message(alloc, 20, 1, 1, create_of(alloc, &[1, 2, 4])?, &[])?)?;
    Ok(h)
}

#[test]
fn rows_of_an_outsider(rt: HostRuntime) -> Result<(), Fail> {
    let alloc = rt.alloc();
    let known = cards_of(alloc, &[(1, 0), (2, 1), (3, 2), (4, 1)])?;
    let all = history_with_rows(alloc)?;
    assert!(rt; all.len() == 9);
    let h = all.as_slice();
    assert!(rt; opens_it(known.as_slice(), &h[8]) && all_go_on(alloc, known.as_slice(), h, 3)?);
    assert!(rt; heads_are(alloc, h, &[27, 28])?);
    // The outsider's update has a part for each other member, whether these open or not.
    assert!(rt;
        addressed_to(alloc, h, &h[5], &[1, 2])? && parts_go_to(alloc, &h[6..], &h[5], &[1, 2])?
    );
    Ok(())
}
