//! Parts of two-party messaging with Sntrup761: what is drawn for them, parts sent by one side, and these taken by the
//! other. Each work does what the one before does and one thing more, so that a difference of two works is this thing.
//! In the last the sides take turns, with the same draws: so it is to be compared with the parts that are only sent.

use crate::kems::{pair_of, public_of};
use group_fields::{Bytes, Digest as Id, MemberId};
use kem_trait::{Kem, KemRefusal};
use ntru_prime::{Sntrup761, TestedPair};
use sha2::{Digest, Sha256};
use std::alloc::{AllocError, Global};
use std::mem::swap;
use two_party::{Pairing, PartDraw, draw_parts};

/// The member that parts are drawn for.
const RECEIVER: MemberId = MemberId(Id([1; 32]));

/// Draws for parts, each from the digest of the seed of the one before. A part is sent with the last.
pub(crate) fn draw(alloc: Global, count: u32) -> Result<[u8; 32], AllocError> {
    let Some((mut sender, _)) = sides(alloc)? else {
        return Ok([0; 32]);
    };
    let mut seed = [0u8; 32];
    let mut last = None;
    for _ in 0..count {
        seed = Sha256::digest(seed.as_slice());
        last = draw_of(alloc, &seed)?;
    }
    let part = send_by(alloc, &mut sender, &[0; 32], last)?;
    Ok(digest_of(&part))
}

/// Parts sent with such draws, each with the tag of the one before as its payload.
pub(crate) fn send(alloc: Global, count: u32) -> Result<[u8; 32], AllocError> {
    let Some((mut sender, _)) = sides(alloc)? else {
        return Ok([0; 32]);
    };
    let mut seed = [0u8; 32];
    let mut part = None;
    for _ in 0..count {
        seed = Sha256::digest(seed.as_slice());
        part = send_next(alloc, &mut sender, &seed, &part)?;
    }
    Ok(digest_of(&part))
}

/// The same parts, each taken by the other side once it is sent.
pub(crate) fn receive(alloc: Global, count: u32) -> Result<[u8; 32], AllocError> {
    let Some((mut sender, mut receiver)) = sides(alloc)? else {
        return Ok([0; 32]);
    };
    let mut seed = [0u8; 32];
    let mut part = None;
    let mut payload = [0u8; 32];
    for _ in 0..count {
        seed = Sha256::digest(seed.as_slice());
        part = send_next(alloc, &mut sender, &seed, &part)?;
        payload = take(alloc, &mut receiver, &part)?;
    }
    Ok(Sha256::digest(payload.as_slice()))
}

/// Parts with the same draws, sent by the two sides in turns, each taken by the other before that sends the next. So each
/// is sealed to an own key of the side that takes it.
pub(crate) fn answer(alloc: Global, count: u32) -> Result<[u8; 32], AllocError> {
    let Some((mut sender, mut receiver)) = sides(alloc)? else {
        return Ok([0; 32]);
    };
    let mut seed = [0u8; 32];
    let mut part = None;
    let mut payload = [0u8; 32];
    for _ in 0..count {
        seed = Sha256::digest(seed.as_slice());
        part = send_next(alloc, &mut sender, &seed, &part)?;
        payload = take(alloc, &mut receiver, &part)?;
        swap(&mut sender, &mut receiver);
    }
    Ok(Sha256::digest(payload.as_slice()))
}

/// The sending side of two members and the other. None where a seed gives no usable key.
fn sides(alloc: Global) -> Result<Option<(Pairing<Sntrup761>, Pairing<Sntrup761>)>, AllocError> {
    let Some(first) = pair_of(alloc, &[0; 32])? else {
        return Ok(None);
    };
    let Some(second) = pair_of(alloc, &[1; 32])? else {
        return Ok(None);
    };
    let Some(sender) = side(alloc, &first, &second)? else {
        return Ok(None);
    };
    let Some(receiver) = side(alloc, &second, &first)? else {
        return Ok(None);
    };
    Ok(Some((sender, receiver)))
}

/// The side of the member with the one pair, to the member with the other.
fn side(
    alloc: Global,
    mine: &TestedPair<761>,
    theirs: &TestedPair<761>,
) -> Result<Option<Pairing<Sntrup761>>, AllocError> {
    let public = public_of(theirs);
    if !Sntrup761::public_ok(&public) {
        return Ok(None);
    }
    Ok(Some(Pairing::start(alloc, mine, &public)?))
}

/// The draw of a seed. None where the seed gives no usable key.
fn draw_of(alloc: Global, seed: &[u8; 32]) -> Result<Option<PartDraw<Sntrup761>>, AllocError> {
    match draw_parts::<Sntrup761>(alloc, seed, &[RECEIVER]) {
        Ok(mut draws) => Ok(draws.take(&RECEIVER)),
        Err(KemRefusal::NoUsableKey) => Ok(None),
        Err(KemRefusal::Memory) => Err(AllocError),
    }
}

/// The part that is sent with a draw. None where there is no draw, or as many parts were sent as can be.
fn send_by(
    alloc: Global,
    sender: &mut Pairing<Sntrup761>,
    payload: &[u8; 32],
    draw: Option<PartDraw<Sntrup761>>,
) -> Result<Option<Bytes>, AllocError> {
    if sender.sends() == u32::MAX {
        return Ok(None);
    }
    let Some(draw) = draw else {
        return Ok(None);
    };
    Ok(Some(sender.send(alloc, payload, draw)?))
}

/// The part behind the last one, with the draw of a seed.
fn send_next(
    alloc: Global,
    sender: &mut Pairing<Sntrup761>,
    seed: &[u8; 32],
    last: &Option<Bytes>,
) -> Result<Option<Bytes>, AllocError> {
    let draw = draw_of(alloc, seed)?;
    send_by(alloc, sender, &tag_of(last), draw)
}

/// The payload of a part that is taken. Zeros where there is none.
fn take(
    alloc: Global,
    receiver: &mut Pairing<Sntrup761>,
    part: &Option<Bytes>,
) -> Result<[u8; 32], AllocError> {
    let Some(part) = part else {
        return Ok([0; 32]);
    };
    match receiver.receive(alloc, part.as_slice())? {
        Some(payload) => Ok(payload),
        None => Ok([0; 32]),
    }
}

/// The tag at the end of a part. Zeros where there is none.
fn tag_of(part: &Option<Bytes>) -> [u8; 32] {
    let Some(part) = part else {
        return [0; 32];
    };
    match part.as_slice().split_last_chunk::<32>() {
        Some((_, tag)) => *tag,
        None => [0; 32],
    }
}

/// The digest of a part's tag.
fn digest_of(part: &Option<Bytes>) -> [u8; 32] {
    Sha256::digest(tag_of(part).as_slice())
}
