//! A member of two updates, and then removes the other: what the messages have, and what the member learns, by the
//! definition of a ratchet's step. Another says a text, against an independent program.
ghost use Rattle.std.specs.Prelude.{◌≡◌, ◌<◌, true, length};

use crate::{MadeNext, NotMade, make_seeded_message, make_text_message};
use app_messages::make_text;
use causal_history::History;
use group_fields::{
    Bytes, Card, Cards, Digest, GroupId, Header, Ids, Kind, MemberId, Memory, Target, read_card,
    read_header, write_card, write_header,
};
use hkdf_seal::{expand, extract, kdf};
use kem_trait::{Kem, SeedWords};
use member_view::RemoveWins;
use ntru_prime::Drill37;
use secret_book::Book;
use sha2::{Digest as Hasher, Sha256};
use std::alloc::Global;
use std::test::Fail;

type Drill = Book<Drill37>;

const RANDOM: [u8; 32] = [7; 32];

/// The ratchet before a first step.
const EMPTY: [u8; 32] = [0; 32];

// ---- a group of two

/// A card, by the number that its bytes have.
fn card_bytes(alloc: Global, number: u8) -> Result<Bytes, Memory> {
    let mut lms_public = [number; 56];
    for (at, byte) in [0, 0, 0, 5, 0, 0, 0, 3].iter().enumerate() {
        lms_public[at] = *byte;
    }
    let card = Card {
        set: 2,
        lms_public,
        inviter: MemberId(Digest([0; 32])),
        kem_public: Bytes::copy_of(alloc, &[number; 33])?,
    };
    if !card.has_spelling() {
        return Bytes::copy_of(alloc, &[]);
    }
    write_card(alloc, &card)
}

fn id_of(alloc: Global, number: u8) -> Result<Digest, Fail> {
    match read_card(card_bytes(alloc, number)?.as_slice()) {
        Ok(card) => Ok(card.id().0),
        Err(_) => Err(Fail::new("no card")),
    }
}

/// The numbers of two cards, in the order of their ids.
fn in_order(alloc: Global) -> Result<(u8, u8), Fail> {
    let one = id_of(alloc, 1)?;
    let other = id_of(alloc, 2)?;
    Ok(if one.0 < other.0 { (1, 2) } else { (2, 1) })
}

fn cards_of(alloc: Global, numbers: (u8, u8)) -> Result<Cards, Fail> {
    let mut cards = Cards::new(alloc);
    for number in [numbers.0, numbers.1] {
        if let Ok(card) = read_card(card_bytes(alloc, number)?.as_slice()) {
            cards.push(&card)?;
        }
    }
    Ok(cards)
}

/// The create of the group by the first.
fn create(alloc: Global, numbers: (u8, u8)) -> Result<Bytes, Fail> {
    let first = id_of(alloc, numbers.0)?;
    let mut ids = Vec::new(alloc);
    ids.push(first)?;
    ids.push(id_of(alloc, numbers.1)?)?;
    let header = Header {
        set: 2,
        group: GroupId(Digest([9; 32])),
        sender: MemberId(first),
        seq: 1,
        kind: Kind::Create,
        target: Target::Members(Ids::from(ids)),
        predecessors: Ids::new(alloc),
        body: Digest([7; 32]),
    };
    if !header.has_spelling() {
        return Err(Fail::new("no header"));
    }
    Ok(write_header(alloc, &header)?)
}

fn group_of(alloc: Global, numbers: (u8, u8)) -> Result<History, Fail> {
    let bytes = create(alloc, numbers)?;
    let cards = cards_of(alloc, numbers)?;
    let mut history = History::new(alloc);
    match read_header(bytes.as_slice()) {
        Ok(view) if history.may_push(&view, &cards)? => history.push(&view, &cards)?,
        _ => return Err(Fail::new("a row that may not be pushed")),
    }
    Ok(history)
}

fn pair(alloc: Global, number: u8) -> Result<<Drill37 as Kem>::Pair, Fail> {
    Ok(Drill37::make(alloc, &mut SeedWords::new(&[number; 32]))?)
}

/// Meets the own place, and then another member.
fn meet(alloc: Global, book: &mut Drill) -> Result<(), Fail> {
    if book.met() != 0 {
        return Err(Fail::new("the own place is the first here"));
    }
    book.meet(alloc, 0, None)?;
    let theirs = pair(alloc, 2)?;
    let mut public = vec![in alloc; 0; Drill37::PUBLIC_LEN]?;
    Drill37::public(&theirs, public.as_mut_slice());
    if book.met() != 1 || !Drill37::public_ok(public.as_slice()) {
        return Err(Fail::new("no place, or the public key of a pair is none"));
    }
    Ok(book.meet(alloc, 1, Some(public.as_slice()))?)
}

// ---- what is made

fn update(
    alloc: Global,
    history: &mut History,
    book: &mut Drill,
    me: &MemberId,
) -> Result<MadeNext, Fail> {
    let Some(place) = history.place(me) else {
        return Err(Fail::new("no place"));
    };
    if history.count() > 4095 || book.met() != history.places() as usize {
        return Err(Fail::new("another book"));
    }
    match make_seeded_message::<Drill37, RemoveWins>(
        alloc,
        history,
        book,
        me,
        place,
        Kind::Update,
        Target::Nothing,
        &RANDOM,
    ) {
        Ok(made) => Ok(made),
        Err(_) => Err(Fail::new("no update")),
    }
}

fn remove(
    alloc: Global,
    history: &mut History,
    book: &mut Drill,
    me: &MemberId,
    other: MemberId,
) -> Result<MadeNext, Fail> {
    let Some(place) = history.place(me) else {
        return Err(Fail::new("no place"));
    };
    if history.count() > 4095 || book.met() != history.places() as usize {
        return Err(Fail::new("another book"));
    }
    match make_seeded_message::<Drill37, RemoveWins>(
        alloc,
        history,
        book,
        me,
        place,
        Kind::Remove,
        Target::Member(other),
        &RANDOM,
    ) {
        Ok(made) => Ok(made),
        Err(_) => Err(Fail::new("no remove")),
    }
}

/// Whether the header is one of this number with the digest of the body, which has so many bytes.
fn is_said(made: &MadeNext, seq: u32, size: usize) -> bool {
    match read_header(made.header.as_slice()) {
        Ok(header) => {
            header.seq() == seq
                && made.seq == seq
                && header.id().0.0 == made.id.0.0
                && header.body().0 == Sha256::digest(made.body.as_slice())
                && made.body.len() == size
        }
        Err(_) => false,
    }
}

/// The member's secret under the seed of the random bytes.
fn input_of(id: &MemberId) -> [u8; 32] {
    kdf(&kdf(&RANDOM, b"seed", &[]), b"member", &id.0.0)
}

/// The update secret of a ratchet's step by an input, and the ratchet after it: 64 bytes of HKDF, by their definition.
fn stepped(ratchet: &[u8; 32], input: &[u8]) -> ([u8; 32], [u8; 32]) {
    let mut output = [0; 64];
    expand(&extract(ratchet, input), b"ratchet", &mut output);
    let (front, back) = output.split_at(32);
    let mut first = [0; 32];
    let mut last = [0; 32];
    first.copy_from_slice(front);
    last.copy_from_slice(back);
    (first, last)
}

/// Whether the secrets are those of two steps.
fn are_learned(me: &MemberId, first: &MadeNext, second: &MadeNext) -> bool {
    let input = input_of(me);
    let (one, ratchet) = stepped(&EMPTY, &input);
    let (other, _) = stepped(&ratchet, &input);
    first.learned == Some(one) && second.learned == Some(other)
}

/// Of an update one part is for the other, of the remove of the other none.
fn story(alloc: Global, book: &mut Drill) -> Result<bool, Fail> {
    meet(alloc, book)?;
    let numbers = in_order(alloc)?;
    let mut history = group_of(alloc, numbers)?;
    let me = MemberId(id_of(alloc, numbers.0)?);
    let other = MemberId(id_of(alloc, numbers.1)?);
    let first = update(alloc, &mut history, book, &me)?;
    let second = remove(alloc, &mut history, book, &me, other)?;
    let said = is_said(&first, 2, 292) && is_said(&second, 3, 1);
    Ok(said && are_learned(&me, &first, &second) && history.count() == 3)
}

#[test]
fn a_member_makes_an_update_and_a_remove(rt: HostRuntime) -> Result<(), Fail> {
    let own = pair(rt.alloc(), 1)?;
    let mut book = Book::start(rt.alloc(), own);
    let right = story(rt.alloc(), &mut book);
    book.close();
    assert!(rt; right?);
    Ok(())
}

// ---- texts

/// The fourth text of the chain that the input "welcome" starts on the empty ratchet, `hello`. Computed by Python's hmac
/// and hashlib, with a ChaCha20 written for it.
const HELLO: [u8; 39] = [
    0x00, 0x05, 0x4c, 0x8e, 0xa4, 0xe5, 0x14, 0x9c, 0xb0, 0x40, 0x81, 0x16, 0x18, 0x45, 0xb7, 0xbe,
    0xb0, 0xad, 0xf7, 0x83, 0x84, 0x86, 0x06, 0x3d, 0x51, 0x91, 0xc8, 0x8f, 0x1f, 0x7e, 0x52, 0x66,
    0x91, 0x40, 0x4a, 0x9e, 0x72, 0x73, 0xf7,
];

fn was_met(book: &Drill) -> bool
    ensures { result ≡ true → 0 < length book.now.places }
{
    0 < book.met()
}

/// Spends a key of the own text chain.
fn spend(alloc: Global, book: &mut Drill) -> Result<(), Fail> {
    if !was_met(book) {
        return Err(Fail::new("no place"));
    }
    make_text(alloc, book, 0, b"early")?;
    Ok(())
}

/// Starts the own text chain, and spends its first three keys.
fn start_chain(alloc: Global, book: &mut Drill) -> Result<(), Fail> {
    if was_met(book) {
        book.step(0, Some(b"welcome"));
    }
    for _ in 0..3 {
        spend(alloc, book)?;
    }
    Ok(())
}

/// Whether the message is the text of this number, with the body that is wanted, and nothing was learned.
fn is_hello(made: &MadeNext, seq: u32) -> bool {
    is_said(made, seq, 39) && made.body.as_slice() == HELLO.as_slice() && made.learned == None
}

/// Says `hello`. False without a text chain.
fn says(
    alloc: Global,
    history: &mut History,
    book: &mut Drill,
    me: &MemberId,
    seq: u32,
) -> Result<bool, Fail> {
    let Some(place) = history.place(me) else {
        return Err(Fail::new("no place"));
    };
    if history.count() > 4095 || book.met() != history.places() as usize {
        return Err(Fail::new("another book"));
    }
    match make_text_message::<Drill37, RemoveWins>(
        alloc, history, book, me, place, b"hello", &RANDOM,
    ) {
        Ok(made) => Ok(is_hello(&made, seq)),
        Err(NotMade::Unfit) => Ok(false),
        Err(_) => Err(Fail::new("no text")),
    }
}

/// The first text has no chain yet.
fn speaks(
    alloc: Global,
    history: &mut History,
    book: &mut Drill,
    me: &MemberId,
) -> Result<bool, Fail> {
    let early = says(alloc, history, book, me, 2)? || history.count() != 1;
    start_chain(alloc, book)?;
    let late = says(alloc, history, book, me, 2)? && history.count() == 2;
    Ok(late && !early)
}

fn told(alloc: Global, book: &mut Drill) -> Result<bool, Fail> {
    meet(alloc, book)?;
    let numbers = in_order(alloc)?;
    let mut history = group_of(alloc, numbers)?;
    let me = MemberId(id_of(alloc, numbers.0)?);
    speaks(alloc, &mut history, book, &me)
}

#[test]
fn a_member_says_a_text(rt: HostRuntime) -> Result<(), Fail> {
    let own = pair(rt.alloc(), 1)?;
    let mut book = Book::start(rt.alloc(), own);
    let right = told(rt.alloc(), &mut book);
    book.close();
    assert!(rt; right?);
    Ok(())
}
