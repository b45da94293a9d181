//! What three members make of an add and of its answer: ada, who opened a group with bob, adds carol. Their places are
//! 0, 1 and 2. Expected secrets and ratchets are steps by their definition.

ghost use Rattle.std.specs.Prelude.{◌≡◌, ◌∷◌, ℕ, All, IsSome, IsTrue, length};
ghost use Rattle.causal_history.specs.Rows.{history_of};
ghost use Rattle.group_messages.specs.Messages.{message_of};
ghost use Rattle.group_model.specs.Marks.{IsPlace};
ghost use Rattle.group_model.specs.Membership.{ids_named};
ghost use Rattle.group_model.specs.Messages.{Add, AddAck};
ghost use Rattle.group_model.specs.Sets.{Id, In};
ghost use Rattle.secret_book.specs.HeldBooks.{held};
ghost use Rattle.body_parts.specs.Sending.{CanReach};

use super::adding::{
    CARD, Drill, PART, RATCHET, Told, added, card_bytes, card_in, hand, header_bytes, history_of,
    id_of, is_placed, meet_all, pair, tell,
};
use crate::{make_add_ack, take_add, take_add_ack};
use body_parts::{Receiver, can_reach, draw_for, receivers};
use causal_history::{Crowd, History};
use group_fields::{Bytes, Digest, HeaderView, Kind, MessageId, Target, read_header};
use hkdf_seal::{expand, extract};
use member_view::{Act, act_of};
use ntru_prime::Drill37;
use opened_parts::{Taken, sender_place};
use secret_book::Book;
use std::alloc::Global;
use std::test::Fail;

/// The ratchet of bob, who answers; and that of who sent nothing.
const THEIRS: [u8; 32] = [0x6b; 32];

const EMPTY: [u8; 32] = [0; 32];

/// The first 32 bytes and the others.
fn halves(bytes: &[u8; 64]) -> ([u8; 32], [u8; 32]) {
    let (front, back) = bytes.split_at(32);
    let mut first = [0; 32];
    let mut last = [0; 32];
    first.copy_from_slice(front);
    last.copy_from_slice(back);
    (first, last)
}

/// The update secret of a ratchet's step by an input, and the ratchet after it: 64 bytes of HKDF, by their definition.
fn stepped(ratchet: &[u8; 32], input: &[u8]) -> ([u8; 32], [u8; 32]) {
    let mut output = [0; 64];
    expand(&extract(ratchet, input), b"ratchet", &mut output);
    halves(&output)
}

// ---- what the calls ask

fn is_add(header: &HeaderView<'_>) -> bool
    ensures { IsTrue result → (y : Id) × ((message_of header.now).kind ≡ Add y) }
{
    match act_of(header) {
        Act::Add(_target) => true,
        _ => false,
    }
}

fn is_answer(header: &HeaderView<'_>) -> bool
    ensures { IsTrue result → (i : Id) × ((message_of header.now).kind ≡ AddAck i) }
{
    match act_of(header) {
        Act::AddAck(_operation) => true,
        _ => false,
    }
}

/// Whether the book has met exactly the members that the history and the message name.
fn all_met(history: &History, header: &HeaderView<'_>, book: &Drill) -> bool
    ensures { IsTrue result
        → length (ids_named (message_of header.now ∷ history_of history.now)) ≡ length book.now.places }
{
    match act_of(header) {
        Act::Add(target) => match history.place(&target) {
            Some(_) => false,
            None => history.places() as usize + 1 == book.met(),
        },
        Act::AddAck(_operation) => history.places() as usize == book.met(),
        _ => false,
    }
}

/// Whether the sender's place has a pairing.
fn is_paired(history: &History, header: &HeaderView<'_>, book: &Drill) -> bool
    requires { In (message_of header.now).sender (ids_named (message_of header.now ∷ history_of history.now)) }
    ensures { IsTrue result → (p : ℕ)
        → IsPlace (ids_named (message_of header.now ∷ history_of history.now)) p (message_of header.now).sender
        → IsSome ((held book.now).pairing p) }
{
    let place = sender_place(history, header);
    if place as usize >= book.met() {
        return false;
    }
    match book.sends(place) {
        Some(_) => true,
        None => false,
    }
}

fn refused() -> Fail {
    Fail::new("a message that may not be taken")
}

fn take(
    alloc: Global,
    book: &mut Drill,
    told: &Told,
    me: u8,
    bytes: &[u8],
    part: Option<&[u8]>,
) -> Result<Taken, Fail> {
    let history = &told.history;
    let Ok(header) = read_header(bytes) else {
        return Err(refused());
    };
    if !is_add(&header) || !all_met(history, &header, book) || !is_placed(history, &header) {
        return Err(refused());
    }
    if me as usize >= book.met() || (part.is_some() && !is_paired(history, &header, book)) {
        return Err(refused());
    }
    Ok(take_add(alloc, book, history, me, &header, part)?)
}

fn take_answer(
    alloc: Global,
    book: &mut Drill,
    told: &Told,
    bytes: &[u8],
    part: Option<&[u8]>,
) -> Result<Option<[u8; 32]>, Fail> {
    let history = &told.history;
    let Ok(header) = read_header(bytes) else {
        return Err(refused());
    };
    if !is_answer(&header) || !all_met(history, &header, book) || !is_placed(history, &header) {
        return Err(refused());
    }
    if part.is_some() && !is_paired(history, &header, book) {
        return Err(refused());
    }
    Ok(take_add_ack(alloc, book, history, &header, part)?)
}

/// Whether parts can be sent to each of the receivers.
fn can_reach_each(book: &Drill, to: &[Receiver]) -> bool
    ensures { IsTrue result → All (λ r. CanReach (held book.now) r.place) to.now }
{
    for i in 0..to.len() {
        if !can_reach(book, to[i].place) {
            return false;
        }
    }
    true
}

/// The body of bob's answer, for a crowd.
fn answered(alloc: Global, book: &mut Drill, told: &Told, to: Crowd) -> Result<Bytes, Fail> {
    let history = &told.history;
    let list = receivers(alloc, history, to)?;
    let all = list.as_slice();
    if !can_reach_each(book, all) || book.met() < 2 || book.ratchet(1).is_none() {
        return Err(Fail::new("an answer that may not be made"));
    }
    let draws = draw_for::<Drill37>(alloc, &[6; 32], all)?;
    Ok(make_add_ack(alloc, book, history, 1, to, draws)?)
}

// ---- what a book says

fn ratchet(book: &Drill, place: u8) -> Option<[u8; 32]> {
    if (place as usize) < book.met() {
        book.ratchet(place)
    } else {
        None
    }
}

fn forget(book: &mut Drill, place: u8) {
    if (place as usize) < book.met() {
        book.step(place, None);
    }
}

/// What is kept for carol's answer to a message.
fn spent(book: &mut Drill, of: &MessageId) -> Option<[u8; 32]> {
    if book.met() > 2 {
        book.spend(of, 2)
    } else {
        None
    }
}

// ---- the story

/// The history of one row, that with the add behind it, the add, its answer by bob, and carol's card.
#[derive(Drop)]
struct Story {
    told: Told,
    behind: Told,
    add: Bytes,
    answer: Bytes,
    card: Bytes,
}

/// The id of a header.
fn message_id(bytes: &[u8]) -> Result<MessageId, Fail> {
    match read_header(bytes) {
        Ok(header) => Ok(header.id()),
        Err(_) => Err(Fail::new("no header")),
    }
}

/// The numbers of two cards, in the order of their ids.
fn in_order(alloc: Global) -> Result<[u8; 2], Fail> {
    Ok(if id_of(alloc, 1)? < id_of(alloc, 2)? {
        [1, 2]
    } else {
        [2, 1]
    })
}

/// The add of carol behind the create.
fn add_bytes(alloc: Global, told: &Told, ada: u8) -> Result<Bytes, Fail> {
    if told.history.count() != 1 {
        return Err(Fail::new("not one row"));
    }
    let create = told.history.id(0).0;
    let carol = Target::Member(id_of(alloc, 3)?);
    header_bytes(alloc, id_of(alloc, ada)?, Kind::Add, carol, &[create])
}

/// The answer of bob behind the add.
fn answer_bytes(alloc: Global, add: Digest, bob: u8) -> Result<Bytes, Fail> {
    let target = Target::Answer(MessageId(add), true);
    header_bytes(alloc, id_of(alloc, bob)?, Kind::AddAck, target, &[add])
}

fn new_story(alloc: Global) -> Result<Story, Fail> {
    let numbers = in_order(alloc)?;
    let told = history_of(alloc, &numbers)?;
    let add = add_bytes(alloc, &told, numbers[0])?;
    let mut behind = history_of(alloc, &numbers)?;
    tell(alloc, &mut behind, add.as_slice(), &[3])?;
    let answer = answer_bytes(alloc, message_id(add.as_slice())?.0, numbers[1])?;
    Ok(Story {
        told,
        behind,
        add,
        answer,
        card: card_bytes(alloc, 3)?,
    })
}

fn expect(right: bool, what: &'static str) -> Result<(), Fail> {
    if right { Ok(()) } else { Err(Fail::new(what)) }
}

/// Takes the add, and compares: whether the part opened, what was learned, and ada's ratchet then.
fn takes(
    alloc: Global,
    book: &mut Drill,
    story: &Story,
    me: u8,
    part: Option<&[u8]>,
    knows: bool,
) -> Result<(), Fail> {
    let welcome = stepped(&RATCHET, b"welcome");
    let (secret, next) = stepped(&welcome.1, b"add");
    let taken = take(alloc, book, &story.told, me, story.add.as_slice(), part)?;
    let kept = spent(book, &message_id(story.add.as_slice())?);
    expect(taken.took == (knows && part.is_some()), "took")?;
    expect(taken.learned == knows.then_some(secret), "learned")?;
    expect(
        ratchet(book, 0) == knows.then_some(next),
        "the adder's ratchet",
    )?;
    expect(kept == knows.then_some(welcome.0), "what is kept")
}

/// Takes bob's answer, and compares what was learned, and bob's ratchet then.
fn hears(
    alloc: Global,
    book: &mut Drill,
    story: &Story,
    part: Option<&[u8]>,
    knows: bool,
) -> Result<(), Fail> {
    let (secret, next) = stepped(&THEIRS, b"add");
    let told = take_answer(alloc, book, &story.behind, story.answer.as_slice(), part)?;
    expect(told == knows.then_some(secret), "the answer's secret")?;
    expect(
        ratchet(book, 1) == knows.then_some(next),
        "the answerer's ratchet",
    )
}

/// ada makes the add and takes it; the part for carol. Later she doesn't know bob's ratchet, and learns nothing.
fn adds(alloc: Global, book: &mut Drill, story: &Story) -> Result<Vec<u8>, Fail> {
    meet_all(alloc, book, &[1, 2, 3], 1)?;
    hand(book, 0, RATCHET);
    let card = card_in(story.card.as_slice())?;
    let body = added(alloc, book, &story.told, &card)?;
    takes(alloc, book, story, 0, None, true)?;
    forget(book, 1);
    hears(alloc, book, story, None, false)?;
    match body.as_slice().get(CARD..CARD + PART) {
        Some(part) => Ok(part.to_vec(alloc)?),
        None => Err(Fail::new("no part")),
    }
}

fn ada(alloc: Global, story: &Story) -> Result<Vec<u8>, Fail> {
    let mut book = Book::start(alloc, pair(alloc, 1)?);
    let part = adds(alloc, &mut book, story);
    book.close();
    part
}

/// bob takes the add, and makes and takes its answer: its body.
fn answers(alloc: Global, book: &mut Drill, story: &Story) -> Result<Bytes, Fail> {
    meet_all(alloc, book, &[1, 2, 3], 2)?;
    hand(book, 0, RATCHET);
    hand(book, 1, THEIRS);
    takes(alloc, book, story, 1, None, true)?;
    let nobody = answered(alloc, book, &story.behind, Crowd::new())?;
    expect(nobody.as_slice() == [0].as_slice(), "an answer to nobody")?;
    let body = answered(alloc, book, &story.behind, Crowd::new().with(2))?;
    hears(alloc, book, story, None, true)?;
    Ok(body)
}

fn bob(alloc: Global, story: &Story) -> Result<Bytes, Fail> {
    let mut book = Book::start(alloc, pair(alloc, 2)?);
    let body = answers(alloc, &mut book, story);
    book.close();
    body
}

/// The one part of an answer's body, behind carol's id.
fn part_in<'a>(alloc: Global, body: &'a [u8]) -> Result<&'a [u8], Fail> {
    expect(
        body.len() == 33 + PART && body.first() == Some(&1),
        "one part",
    )?;
    match (body.get(1..33), body.get(33..)) {
        (Some(id), Some(part)) if id == id_of(alloc, 3)?.0.0.as_slice() => Ok(part),
        _ => Err(Fail::new("not for carol")),
    }
}

/// carol, whose parts open.
fn joins(
    alloc: Global,
    book: &mut Drill,
    story: &Story,
    part: &[u8],
    answer: &[u8],
) -> Result<(), Fail> {
    meet_all(alloc, book, &[1, 2, 3], 3)?;
    takes(alloc, book, story, 2, Some(part), true)?;
    expect(ratchet(book, 1) == Some(EMPTY), "who sent nothing")?;
    hears(alloc, book, story, Some(part_in(alloc, answer)?), true)
}

/// carol, to whom a part comes that doesn't open: ada sent a row of what is handed on, and is forgotten.
fn stays_out(alloc: Global, book: &mut Drill, story: &Story) -> Result<(), Fail> {
    meet_all(alloc, book, &[1, 2, 3], 3)?;
    takes(alloc, book, story, 2, Some(b"no part"), false)?;
    forget(book, 1);
    hears(alloc, book, story, Some(b"no part"), false)
}

fn carol(alloc: Global, story: &Story, parts: Option<(&[u8], &[u8])>) -> Result<(), Fail> {
    let mut book = Book::start(alloc, pair(alloc, 3)?);
    let told = match parts {
        Some((part, answer)) => joins(alloc, &mut book, story, part, answer),
        None => stays_out(alloc, &mut book, story),
    };
    book.close();
    told
}

#[test]
fn an_add_and_its_answer_are_taken(rt: HostRuntime) -> Result<(), Fail> {
    let story = new_story(rt.alloc())?;
    let part = ada(rt.alloc(), &story)?;
    let answer = bob(rt.alloc(), &story)?;
    carol(
        rt.alloc(),
        &story,
        Some((part.as_slice(), answer.as_slice())),
    )?;
    carol(rt.alloc(), &story, None)
}
