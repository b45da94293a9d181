//! Headers over small histories of updates, worked out by hand.

mod due;

use crate::*;
use causal_history::{Crowd, History};
use group_fields::{
    Bytes, Cards, Digest, GroupId, Header, HeaderView, Ids, Kind, MemberId, Memory, Target,
    read_header, write_header,
};
use kem_trait::{Kem, SeedWords};
use ntru_prime::Drill37;
use secret_book::Book;
use std::alloc::Global;
use std::test::Fail;

const RANDOM: [u8; 32] = [7; 32];

const GROUP: [u8; 32] = [9; 32];

/// HMAC of "group" and a byte of 1, under HMAC of the random bytes under "dcgka v1", by another program.
const NEW_GROUP: [u8; 32] = [
    0x53, 0x7f, 0x15, 0xdf, 0xd1, 0xe8, 0x5f, 0x61, 0xab, 0x1b, 0xea, 0xd3, 0x3a, 0xd0, 0x83, 0xfb,
    0xe2, 0x28, 0xc1, 0x3c, 0x78, 0x16, 0x39, 0xab, 0x62, 0x52, 0x92, 0xaf, 0xfb, 0xbf, 0xe6, 0x7b,
];

/// SHA-256 of "abc", of FIPS 180-4.
const ABC: [u8; 32] = [
    0xba, 0x78, 0x16, 0xbf, 0x8f, 0x01, 0xcf, 0xea, 0x41, 0x41, 0x40, 0xde, 0x5d, 0xae, 0x22, 0x23,
    0xb0, 0x03, 0x61, 0xa3, 0x96, 0x17, 0x7a, 0x9c, 0xb4, 0x10, 0xff, 0x61, 0xf2, 0x00, 0x15, 0xad,
];

fn member(number: u8) -> MemberId {
    MemberId(Digest([number; 32]))
}

// ---- rows: who updates, with which number, behind which rows

type Row = (u8, u32, &'static [u32]);

// The update of one beside two of another: two heads.
const ROWS: [Row; 3] = [(1, 1, &[]), (1, 2, &[0]), (2, 1, &[0])];

fn ids_of(alloc: Global, history: &History, rows: &[u32]) -> Result<Vec<[u8; 32]>, Memory> {
    let mut ids = Vec::new(alloc);
    for row in rows {
        if *row < history.count() {
            ids.push(history.id(*row).0.0)?;
        }
    }
    ids.sort()?;
    Ok(ids)
}

fn digests(alloc: Global, ids: &[[u8; 32]]) -> Result<Ids, Memory> {
    let mut list = Ids::new(alloc);
    for id in ids {
        list.push(Digest(*id))?;
    }
    Ok(list)
}

fn header_bytes(
    alloc: Global,
    history: &History,
    sender: u8,
    seq: u32,
    behind: &[u32],
) -> Result<Bytes, Memory> {
    let ids = ids_of(alloc, history, behind)?;
    let header = Header {
        set: 2,
        group: GroupId(Digest(GROUP)),
        sender: member(sender),
        seq,
        kind: Kind::Update,
        target: Target::Nothing,
        predecessors: digests(alloc, ids.as_slice())?,
        body: Digest([0; 32]),
    };
    if header.has_spelling() {
        return write_header(alloc, &header);
    }
    Bytes::copy_of(alloc, &[])
}

fn push_view(
    history: &mut History,
    header: &HeaderView<'_>,
    cards: &Cards,
) -> Result<bool, Memory> {
    if !history.may_push(header, cards)? {
        return Ok(false);
    }
    history.push(header, cards)?;
    Ok(true)
}

// Pushes an update. Answers whether that could be.
fn push(
    alloc: Global,
    history: &mut History,
    sender: u8,
    seq: u32,
    behind: &[u32],
) -> Result<bool, Memory> {
    let bytes = header_bytes(alloc, history, sender, seq, behind)?;
    let cards = Cards::new(alloc);
    match read_header(bytes.as_slice()) {
        Ok(view) => push_view(history, &view, &cards),
        Err(_) => Ok(false),
    }
}

fn push_rows(alloc: Global, history: &mut History) -> Result<bool, Memory> {
    for (sender, seq, behind) in &ROWS {
        if !push(alloc, history, *sender, *seq, behind)? {
            return Ok(false);
        }
    }
    Ok(true)
}

// Pushes so many updates of which none follows another.
fn push_heads(alloc: Global, history: &mut History, count: u32) -> Result<bool, Memory> {
    for seq in 0..count {
        if !push(alloc, history, 1, seq + 1, &[])? {
            return Ok(false);
        }
    }
    Ok(true)
}

// ---- what is asked, without clauses: what calls it is proved fast

// The header of the member's next update.
fn next_update(history: &History, me: u8) -> Result<Option<Header>, Memory> {
    if history.count() > 4095 {
        return Ok(None);
    }
    next_header::<Drill37>(history, &member(me), &RANDOM, Kind::Update, Target::Nothing)
}

// Whether the header is that of an update with the number, behind the heads of the rows.
fn is_update(header: &Header, me: u8, seq: u32, heads: &Ids) -> bool {
    header.set == 2
        && header.group.0.0 == GROUP
        && header.sender == member(me)
        && header.seq == seq
        && header.kind == Kind::Update
        && header.predecessors.as_slice() == heads.as_slice()
        && header.body.0 == [0; 32]
}

// Whether the next update of the member over the rows has this number and is behind both heads.
fn goes_on(alloc: Global, history: &History, me: u8, seq: u32) -> Result<bool, Memory> {
    let ids = ids_of(alloc, history, &[1, 2])?;
    let heads = digests(alloc, ids.as_slice())?;
    Ok(match next_update(history, me)? {
        Some(header) => is_update(&header, me, seq, &heads),
        None => false,
    })
}

// The members whose next number isn't this one.
fn amiss(alloc: Global, history: &History) -> Result<Vec<u8>, Memory> {
    let mut members = Vec::new(alloc);
    for (me, seq) in [(1, 3), (2, 2), (3, 1)] {
        if !goes_on(alloc, history, me, seq)? {
            members.push(me)?;
        }
    }
    Ok(members)
}

// A header that asks whether one member may be the target of a create.
fn probe(alloc: Global, me: u8) -> Result<Header, Memory> {
    Ok(Header {
        set: 2,
        group: GroupId(Digest(GROUP)),
        sender: member(me),
        seq: 1,
        kind: Kind::Create,
        target: Target::Members(digests(alloc, &[[me; 32]])?),
        predecessors: Ids::new(alloc),
        body: Digest([0; 32]),
    })
}

// The header of the first create of a member, alone in its group.
fn first_create(alloc: Global, history: &History, me: u8) -> Result<Option<Header>, Memory> {
    let header = probe(alloc, me)?;
    if history.count() > 4095 || !header.has_spelling() {
        return Ok(None);
    }
    next_header::<Drill37>(history, &member(me), &RANDOM, header.kind, header.target)
}

// The group, the number and how many predecessors the header of a first create has.
fn opened(alloc: Global) -> Result<([u8; 32], u32, usize), Memory> {
    let history = History::new(alloc);
    Ok(match first_create(alloc, &history, 1)? {
        Some(header) => (header.group.0.0, header.seq, header.predecessors.len()),
        None => ([0; 32], 0, 0),
    })
}

// How many predecessors the next header has over so many heads, if there is one.
fn followed(alloc: Global, count: u32) -> Result<Option<usize>, Fail> {
    let mut history = History::new(alloc);
    if !push_heads(alloc, &mut history, count)? {
        return Err(Fail::new("a row can't be pushed"));
    }
    Ok(next_update(&history, 1)?.map(|header| header.predecessors.len()))
}

fn over_rows(alloc: Global) -> Result<Vec<u8>, Fail> {
    let mut history = History::new(alloc);
    if !push_rows(alloc, &mut history)? {
        return Err(Fail::new("a row can't be pushed"));
    }
    Ok(amiss(alloc, &history)?)
}

fn digest_of(alloc: Global, body: &[u8]) -> Result<[u8; 32], Memory> {
    let header = with_body(probe(alloc, 1)?, body);
    Ok(header.body.0)
}

// The body of an update for nobody.
fn body_for_nobody(
    alloc: Global,
    book: &mut Book<Drill37>,
    history: &History,
    header: &Header,
) -> Result<Bytes, Fail> {
    if !header.has_spelling() {
        return Err(Fail::new("no header"));
    }
    let to = Crowd::new();
    let cards = Cards::new(alloc);
    let _places = history.places();
    match header.kind {
        Kind::Update => Ok(next_seeded::<Drill37>(
            alloc, book, history, header, to, &cards, &RANDOM,
        )?),
        _ => Err(Fail::new("no update")),
    }
}

// The same, by the book of a member that has met nobody.
fn lone_update(alloc: Global, history: &History, header: &Header) -> Result<Bytes, Fail> {
    let pair = Drill37::make(alloc, &mut SeedWords::new(&RANDOM))?;
    let mut book = Book::<Drill37>::start(alloc, pair);
    let body = body_for_nobody(alloc, &mut book, history, header);
    book.close();
    body
}

// The body of an update over the rows, for nobody.
fn lone_body(alloc: Global) -> Result<Bytes, Fail> {
    let mut history = History::new(alloc);
    if !push_rows(alloc, &mut history)? {
        return Err(Fail::new("a row can't be pushed"));
    }
    match next_update(&history, 1)? {
        Some(header) => lone_update(alloc, &history, &header),
        None => Err(Fail::new("no header")),
    }
}

#[test]
fn bodies_for_nobody_have_no_part(rt: HostRuntime) -> Result<(), Fail> {
    assert_eq!(rt; lone_body(rt.alloc())?.as_slice(), [0].as_slice());
    Ok(())
}

#[test]
fn headers_go_on_from_all_rows(rt: HostRuntime) -> Result<(), Fail> {
    assert_eq!(rt; opened(rt.alloc())?, (NEW_GROUP, 1, 0));
    assert_eq!(rt; over_rows(rt.alloc())?.len(), 0);
    assert_eq!(rt; followed(rt.alloc(), 32)?, Some(32));
    assert_eq!(rt; followed(rt.alloc(), 33)?, None);
    assert_eq!(rt; digest_of(rt.alloc(), b"abc")?, ABC);
    Ok(())
}
