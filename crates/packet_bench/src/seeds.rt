//! What is drawn for an update of the first member of a group to all others, and the body that hands its seed to them.
//! The second work does what the first does and makes the body besides, so that a difference of the two is the body.

ghost use Rattle.std.specs.Prelude.{All, IsTrue};
ghost use Rattle.secret_book.specs.HeldBooks.{held};
ghost use Rattle.body_parts.specs.Sending.{CanReach};

use crate::histories::{digest_of, history_of, rows_of};
use crate::packets::unsigned_group;
use body_parts::{Receiver, can_reach, draw_for, receivers};
use causal_history::{Crowd, History};
use group_fields::{Bytes, Cards};
use group_ops::make_seeded;
use kem_trait::{Kem, KemRefusal, SeedWords};
use ntru_prime::{Sntrup761, TestedPair};
use secret_book::Book;
use sha2::{Digest, Sha256};
use std::alloc::{AllocError, Global};

type Large = Book<Sntrup761>;

/// How many members there are, and how many bytes a public key has.
const MEMBERS: u8 = 32;

const PUBLIC: usize = 1158;

/// Draws for parts to all others, each from the digest of the random bytes of the one before.
pub(crate) fn draw(alloc: Global, count: u32) -> Result<[u8; 32], AllocError> {
    let history = new_history(alloc)?;
    let list = receivers(alloc, &history, others())?;
    let mut random = [0u8; 32];
    let mut drawn = 0u32;
    for _ in 0..count {
        random = Sha256::digest(random.as_slice());
        drawn = drawn.wrapping_add(draw_once(alloc, &random, list.as_slice())?);
    }
    Ok(digest_of(drawn, &random))
}

/// Such draws, each with the body that is made from it.
pub(crate) fn seed(alloc: Global, count: u32) -> Result<[u8; 32], AllocError> {
    let history = new_history(alloc)?;
    let Some(pair) = new_pair(alloc)? else {
        return Ok([0; 32]);
    };
    let public = public_of(&pair);
    let mut book = Book::start(alloc, pair);
    let last = meet_and_send(alloc, &mut book, &public, &history, count);
    book.close();
    last
}

/// The history of the whole group.
fn new_history(alloc: Global) -> Result<History, AllocError> {
    let group = unsigned_group(alloc)?;
    let rows = rows_of(alloc, &group)?;
    history_of(alloc, &rows)
}

/// All but the first place.
fn others() -> Crowd {
    let mut to = Crowd::new();
    for place in 1..MEMBERS {
        to = to.with(place);
    }
    to
}

/// A pair. None where the seed gives no usable key.
fn new_pair(alloc: Global) -> Result<Option<TestedPair<761>>, AllocError> {
    match Sntrup761::make(alloc, &mut SeedWords::new(&[1; 32])) {
        Ok(pair) => Ok(Some(pair)),
        Err(KemRefusal::NoUsableKey) => Ok(None),
        Err(KemRefusal::Memory) => Err(AllocError),
    }
}

fn public_of(pair: &TestedPair<761>) -> [u8; PUBLIC] {
    let mut public = [0; PUBLIC];
    Sntrup761::public(pair, &mut public);
    public
}

/// 1 where there are draws, else 0.
fn draw_once(alloc: Global, random: &[u8; 32], to: &[Receiver]) -> Result<u32, AllocError> {
    match draw_for::<Sntrup761>(alloc, random, to) {
        Ok(_) => Ok(1),
        Err(KemRefusal::NoUsableKey) => Ok(0),
        Err(KemRefusal::Memory) => Err(AllocError),
    }
}

/// Meets all places, and makes bodies. The tag of the last one's last part.
fn meet_and_send(
    alloc: Global,
    book: &mut Large,
    public: &[u8; PUBLIC],
    history: &History,
    count: u32,
) -> Result<[u8; 32], AllocError> {
    for _ in 0..MEMBERS {
        meet_next(alloc, book, public)?;
    }
    send(alloc, book, history, count)
}

/// Meets the next place: the own one, which is the first, or that of a member with a public key.
fn meet_next(alloc: Global, book: &mut Large, public: &[u8; PUBLIC]) -> Result<(), AllocError> {
    let place = book.met();
    if place == 0 {
        return book.meet(alloc, 0, None);
    }
    if place > 255 || !Sntrup761::public_ok(public) {
        return Ok(());
    }
    book.meet(alloc, place as u8, Some(public.as_slice()))
}

/// Makes bodies, each from the digest of the random bytes of the one before.
fn send(
    alloc: Global,
    book: &mut Large,
    history: &History,
    count: u32,
) -> Result<[u8; 32], AllocError> {
    let mut random = [0u8; 32];
    let mut tag = [0u8; 32];
    for _ in 0..count {
        random = Sha256::digest(random.as_slice());
        tag = send_once(alloc, book, history, &random)?;
    }
    Ok(tag)
}

/// The tag of the last part of a body. Zeros where there is none.
fn send_once(
    alloc: Global,
    book: &mut Large,
    history: &History,
    random: &[u8; 32],
) -> Result<[u8; 32], AllocError> {
    match body(alloc, book, history, others(), random) {
        Ok(bytes) => Ok(last_tag(&bytes)),
        Err(KemRefusal::NoUsableKey) => Ok([0; 32]),
        Err(KemRefusal::Memory) => Err(AllocError),
    }
}

fn last_tag(bytes: &Bytes) -> [u8; 32] {
    match bytes.as_slice().split_last_chunk::<32>() {
        Some((_, tag)) => *tag,
        None => [0; 32],
    }
}

/// Whether parts can be sent to each of the receivers.
fn can_reach_each(book: &Large, to: &[Receiver]) -> bool
    ensures { IsTrue result → All (λ r. CanReach (held book.now) r.place) to.now }
{
    for i in 0..to.len() {
        if !can_reach(book, to[i].place) {
            return false;
        }
    }
    true
}

/// The body of an update to a crowd. Empty where parts can't be sent to each of it.
fn body(
    alloc: Global,
    book: &mut Large,
    history: &History,
    to: Crowd,
    random: &[u8; 32],
) -> Result<Bytes, KemRefusal> {
    let list = receivers(alloc, history, to)?;
    let all = list.as_slice();
    if !can_reach_each(book, all) {
        return Ok(Bytes::from(Vec::new(alloc)));
    }
    let draws = draw_for::<Sntrup761>(alloc, random, all)?;
    let none = Cards::new(alloc);
    Ok(make_seeded(alloc, book, history, to, &none, random, draws)?)
}
