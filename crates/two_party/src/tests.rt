//! Two sides that exchange parts, against an independent reading of the rules: which key a part is sealed to, and that
//! it opens to its payload.
ghost use Rattle.std.specs.Prelude.{◌≡◌, ◌%◌, Bool, true, false, cond, Option, Some, None, List, ℕ, length, nat_eq};
ghost use Rattle.std.specs.Prelude.{replicate, refl, bytes_eq};
ghost use Rattle.std.specs.Option.{option_map, option_map_or};
ghost use Rattle.std.proofs.Common.{ap, sym, inr, ◌∙◌};
ghost use Rattle.std.proofs.lemmas.Slice.Eq.{bytes_eq-Decides};
ghost use Rattle.kem_trait.specs.Encapsulated.{Encapsulated};

use crate::own_key::OwnKey;
use crate::{Pairing, PartDraw, PartDraws, draw_parts};
use group_fields::{Bytes, Digest, MemberId, Memory};
use hkdf_seal::{kdf, seal};
use kem_trait::{Kem, KemRefusal, SeedWords, Words};
use ntru_prime::{Drill37, Sntrup761};
use std::alloc::Global;
use std::test::Fail;

const MEMBER: MemberId = MemberId(Digest([9; 32]));

/// 32 bytes for each number.
fn seed(number: u32) -> [u8; 32] {
    kdf(&[7; 32], b"seed", &number.to_be_bytes())
}

/// The payload of the part that is sent with a number.
fn payload(number: u32) -> [u8; 32] {
    kdf(&[7; 32], b"payload", &number.to_be_bytes())
}

fn pair<K: Kem>(alloc: Global, number: u32) -> Result<K::Pair, Fail> {
    Ok(K::make(alloc, &mut SeedWords::new(&seed(number)))?)
}

fn public_of<K: Kem>(alloc: Global, pair: &K::Pair) -> Result<Vec<u8>, Fail> {
    let mut public = vec![in alloc; 0; K::PUBLIC_LEN]?;
    K::public(pair, public.as_mut_slice());
    Ok(public)
}

fn secret_of<K: Kem>(alloc: Global, pair: &K::Pair) -> Result<Vec<u8>, Fail> {
    let mut secret = vec![in alloc; 0; K::SECRET_LEN]?;
    K::secret(pair, secret.as_mut_slice());
    Ok(secret)
}

/// A side with this pair towards the other of this public key.
fn side_to<K: Kem>(alloc: Global, mine: &K::Pair, public: &[u8]) -> Result<Pairing<K>, Fail> {
    if public.len() != K::PUBLIC_LEN || !K::public_ok(public) {
        return Err(Fail::new("the public key of a pair is none"));
    }
    Ok(Pairing::start(alloc, mine, public)?)
}

fn start<K: Kem>(alloc: Global, mine: u32, theirs: u32) -> Result<Pairing<K>, Fail> {
    let public = public_of::<K>(alloc, &pair::<K>(alloc, theirs)?)?;
    side_to::<K>(alloc, &pair::<K>(alloc, mine)?, public.as_slice())
}

fn draw<K: Kem>(alloc: Global, number: u32) -> Result<PartDraw<K>, Fail> {
    let mut draws = draw_parts::<K>(alloc, &seed(number), &[MEMBER])?;
    match draws.take(&MEMBER) {
        Some(draw) => Ok(draw),
        None => Err(Fail::new("nothing was drawn for a member of the list")),
    }
}

/// Sends the payload of a number, with its draw.
fn send<K: Kem>(alloc: Global, side: &mut Pairing<K>, number: u32) -> Result<Bytes, Fail> {
    if side.sends() == u32::MAX {
        return Err(Fail::new("too many parts"));
    }
    let draw = draw::<K>(alloc, number)?;
    Ok(side.send(alloc, &payload(number), draw)?)
}

/// A part under way, with what it has to open to and the number of its send.
#[derive(Drop)]
struct Letter {
    part: Bytes,
    payload: [u8; 32],
    number: u32,
}

/// The origin and the number of a key.
#[derive(Clone, Copy, PartialEq, Eq, Debug)]
struct KeyName {
    made_by_sender: bool,
    number: u32,
}

/// One side, with the name of the newest key that it knows and what it was sent.
#[derive(Drop)]
struct Side<K: Kem> {
    pairing: Pairing<K>,
    newest: KeyName,
    inbox: Vec<Letter>,
    taken: usize,
}

impl<K: Kem> Side<K> {
    fn start(alloc: Global, mine: u32, theirs: u32) -> Result<Side<K>, Fail> {
        Ok(Side {
            pairing: start::<K>(alloc, mine, theirs)?,
            newest: KeyName {
                made_by_sender: false,
                number: 0,
            },
            inbox: Vec::new(alloc),
            taken: 0,
        })
    }
}

fn key_name(part: &[u8]) -> Option<KeyName> {
    let (front, _) = part.split_first_chunk::<5>()?;
    let [origin, a, b, c, d] = *front;
    Some(KeyName {
        made_by_sender: origin == 1,
        number: u32::from_be_bytes([a, b, c, d]),
    })
}

/// One side sends to the other. False where the part is not sealed to the newest key that the sender knows.
fn send_from<K: Kem>(
    alloc: Global,
    from: &mut Side<K>,
    to: &mut Side<K>,
    number: u32,
) -> Result<bool, Fail> {
    let part = send::<K>(alloc, &mut from.pairing, number)?;
    let right = key_name(part.as_slice()) == Some(from.newest);
    let count = from.pairing.sends();
    from.newest = KeyName {
        made_by_sender: true,
        number: count,
    };
    to.inbox.push(Letter {
        part,
        payload: payload(number),
        number: count,
    })?;
    Ok(right)
}

/// A side takes the next part, where there is one. False where it opens to anything but its payload.
fn take_next<K: Kem>(alloc: Global, side: &mut Side<K>) -> Result<bool, Fail> {
    let Some(letter) = side.inbox.get(side.taken) else {
        return Ok(true);
    };
    let opened = side.pairing.receive(alloc, letter.part.as_slice())?;
    let right = opened == Some(letter.payload);
    side.newest = KeyName {
        made_by_sender: false,
        number: letter.number,
    };
    side.taken = side.taken.wrapping_add(1);
    Ok(right)
}

/// Two sides, and the names of the keys that their parts were sealed to, each as its origin and the last byte of its
/// number.
#[derive(Drop)]
struct Sides<K: Kem> {
    p: Side<K>,
    q: Side<K>,
    names: Vec<u8>,
}

/// Notes the name of a key.
fn note(names: &mut Vec<u8>, name: KeyName) -> Result<(), Fail> {
    names.push(name.made_by_sender as u8)?;
    names.push((name.number % 256) as u8)?;
    Ok(())
}

/// One step of a script: P and Q send, p and q take the next part that is under way to them. False where it goes wrong.
fn act<K: Kem>(alloc: Global, sides: &mut Sides<K>, step: u8, number: u32) -> Result<bool, Fail> {
    match step {
        b'P' => {
            note(&mut sides.names, sides.p.newest)?;
            send_from::<K>(alloc, &mut sides.p, &mut sides.q, number)
        }
        b'Q' => {
            note(&mut sides.names, sides.q.newest)?;
            send_from::<K>(alloc, &mut sides.q, &mut sides.p, number)
        }
        b'p' => take_next::<K>(alloc, &mut sides.p),
        _ => take_next::<K>(alloc, &mut sides.q),
    }
}

/// Two sides that sent nothing.
fn two_sides<K: Kem>(alloc: Global) -> Result<Sides<K>, Fail> {
    Ok(Sides {
        p: Side::<K>::start(alloc, 1, 2)?,
        q: Side::<K>::start(alloc, 2, 1)?,
        names: Vec::new(alloc),
    })
}

/// Two sides act by a script. Answers the names of the keys.
fn exchange<K: Kem>(alloc: Global, script: &[u8]) -> Result<Vec<u8>, Fail> {
    let mut sides = two_sides::<K>(alloc)?;
    let mut number = 100_u32;
    for step in script {
        number = number.wrapping_add(1);
        if !act::<K>(alloc, &mut sides, *step, number)? {
            return Err(Fail::new(number));
        }
    }
    Ok(sides.names)
}

/// Each sends three before it takes any, each takes the other's three, each sends one more, each takes it.
const CROSSING: [u8; 16] = *b"PPPQQQpppqqqPQpq";

/// The same with the sides exchanged.
const CROSSING_BACK: [u8; 16] = *b"QQQPPPqqqpppQPqp";

/// The last two are sealed to key number 3 of the receiver's own.
const CROSSING_NAMES: [u8; 16] = [0, 0, 1, 1, 1, 2, 0, 0, 1, 1, 1, 2, 0, 3, 0, 3];

fn has_names<K: Kem>(alloc: Global, script: [u8; 16]) -> Result<bool, Fail> {
    Ok(exchange::<K>(alloc, &script)?.as_slice() == CROSSING_NAMES.as_slice())
}

fn crosses<K: Kem>(alloc: Global) -> Result<bool, Fail> {
    Ok(has_names::<K>(alloc, CROSSING)? && has_names::<K>(alloc, CROSSING_BACK)?)
}

#[test]
fn directions_cross(rt: HostRuntime) -> Result<(), Fail> {
    assert!(rt; crosses::<Drill37>(rt.alloc())?);
    assert!(rt; crosses::<Sntrup761>(rt.alloc())?);
    Ok(())
}

/// A script of so many steps, drawn by the words of a seed.
fn drawn_script(alloc: Global, number: u32, steps: usize) -> Result<Vec<u8>, Fail> {
    let mut words = SeedWords::new(&seed(number));
    let mut script = Vec::new(alloc);
    for _ in 0..steps {
        script.push(match words.next() % 4 {
            0 => b'P',
            1 => b'Q',
            2 => b'p',
            _ => b'q',
        })?;
    }
    Ok(script)
}

/// How many parts a drawn exchange sends.
fn drawn_sends(alloc: Global, number: u32, steps: usize) -> Result<usize, Fail> {
    let script = drawn_script(alloc, number, steps)?;
    Ok(exchange::<Drill37>(alloc, script.as_slice())?.len() / 2)
}

#[test]
fn drawn_exchanges(rt: HostRuntime) -> Result<(), Fail> {
    for number in [11, 12, 13] {
        assert!(rt; drawn_sends(rt.alloc(), number, 400)? > 150);
    }
    Ok(())
}

/// The bytes with those from one place up to another inverted.
fn inverted(alloc: Global, bytes: &[u8], from: usize, to: usize) -> Result<Vec<u8>, Fail> {
    let mut copy = bytes.to_vec(alloc)?;
    for (place, byte) in copy.iter_mut().enumerate() {
        if from <= place && place < to {
            *byte = !*byte;
        }
    }
    Ok(copy)
}

/// A ciphertext, and the key in it.
#[derive(Drop)]
struct Encapsulated {
    ciphertext: Vec<u8>,
    key: [u8; 32],
}

fn encapsulated_to<K: Kem>(alloc: Global, to: &K::Pair) -> Result<Encapsulated, Fail> {
    let public = public_of::<K>(alloc, to)?;
    if public.len() != K::PUBLIC_LEN || !K::public_ok(public.as_slice()) {
        return Err(Fail::new("the public key of a pair is none"));
    }
    let mut ciphertext = vec![in alloc; 0; K::CIPHER_LEN]?;
    let key = K::encap(
        public.as_slice(),
        &mut SeedWords::new(&seed(30)),
        ciphertext.as_mut_slice(),
    );
    Ok(Encapsulated { ciphertext, key })
}

/// A text that is sealed under a key, and its tag.
fn sealed_under(alloc: Global, key: &[u8; 32], text: &[u8]) -> Result<Vec<u8>, Fail> {
    let mut sealed = text.to_vec(alloc)?;
    let tag = seal(key, sealed.as_mut_slice());
    sealed.extend_from_slice(&tag)?;
    Ok(sealed)
}

/// A part that names this key and has this content, sealed to a pair.
fn forged<K: Kem>(
    alloc: Global,
    front: [u8; 5],
    to: &K::Pair,
    content: &[u8],
) -> Result<Vec<u8>, Fail> {
    let encapsulated = encapsulated_to::<K>(alloc, to)?;
    let sealed = sealed_under(alloc, &encapsulated.key, content)?;
    joined(
        alloc,
        front,
        encapsulated.ciphertext.as_slice(),
        sealed.as_slice(),
    )
}

fn joined(
    alloc: Global,
    front: [u8; 5],
    ciphertext: &[u8],
    sealed: &[u8],
) -> Result<Vec<u8>, Fail> {
    let mut part = front.to_vec(alloc)?;
    part.extend_from_slice(ciphertext)?;
    part.extend_from_slice(sealed)?;
    Ok(part)
}

/// A content with the payload of number 53: a secret key, a number and a public key.
fn content(alloc: Global, secret: &[u8], number: u32, public: &[u8]) -> Result<Vec<u8>, Fail> {
    let mut content = payload(53).to_vec(alloc)?;
    content.extend_from_slice(secret)?;
    content.extend_from_slice(&number.to_be_bytes())?;
    content.extend_from_slice(public)?;
    Ok(content)
}

/// A side that sent number 51 as its first part after it took the first of the other, and then two parts that are under
/// way to it: the first is sealed to its own key number 1, the second to the key that the first makes for it.
#[derive(Drop)]
struct Waiting<K: Kem> {
    side: Pairing<K>,
    first: Bytes,
    second: Bytes,
}

/// A part is sent and taken.
fn pass<K: Kem>(
    alloc: Global,
    from: &mut Pairing<K>,
    to: &mut Pairing<K>,
    number: u32,
) -> Result<(), Fail> {
    let part = send::<K>(alloc, from, number)?;
    let _ = to.receive(alloc, part.as_slice())?;
    Ok(())
}

fn side_that_waits<K: Kem>(alloc: Global) -> Result<Waiting<K>, Fail> {
    let mut other = start::<K>(alloc, 1, 2)?;
    let mut side = start::<K>(alloc, 2, 1)?;
    pass::<K>(alloc, &mut other, &mut side, 50)?;
    pass::<K>(alloc, &mut side, &mut other, 51)?;
    waits_for(alloc, side, &mut other)
}

/// The side, and the two parts of the other.
fn waits_for<K: Kem>(
    alloc: Global,
    side: Pairing<K>,
    other: &mut Pairing<K>,
) -> Result<Waiting<K>, Fail> {
    Ok(Waiting {
        side,
        first: send::<K>(alloc, other, 52)?,
        second: send::<K>(alloc, other, 54)?,
    })
}

/// The next part of a side that waits.
fn next_part<K: Kem>(alloc: Global) -> Result<Bytes, Fail> {
    send::<K>(alloc, &mut side_that_waits::<K>(alloc)?.side, 55)
}

/// Whether the next part of a side is that of one that waits.
fn sends_next<K: Kem>(alloc: Global, side: &mut Pairing<K>) -> Result<bool, Fail> {
    let next = send::<K>(alloc, side, 55)?;
    Ok(next.as_slice() == next_part::<K>(alloc)?.as_slice())
}

/// Whether the two parts under way open.
fn takes_both<K: Kem>(alloc: Global, waiting: &mut Waiting<K>) -> Result<bool, Fail> {
    let first = waiting.side.receive(alloc, waiting.first.as_slice())?;
    let second = waiting.side.receive(alloc, waiting.second.as_slice())?;
    Ok(first == Some(payload(52)) && second == Some(payload(54)))
}

/// Whether a side that waits takes these bytes for no part that opens, and goes on as one that never saw them: its next
/// part has the same bytes, and the two parts under way open.
fn is_refused<K: Kem>(alloc: Global, bytes: &[u8]) -> Result<bool, Fail> {
    let mut waiting = side_that_waits::<K>(alloc)?;
    let refused = waiting.side.receive(alloc, bytes)?.is_none();
    Ok(
        refused
            && sends_next::<K>(alloc, &mut waiting.side)?
            && takes_both::<K>(alloc, &mut waiting)?,
    )
}

/// A part that opens.
fn good_part<K: Kem>(alloc: Global) -> Result<Vec<u8>, Fail> {
    Ok(side_that_waits::<K>(alloc)?.first.as_slice().to_vec(alloc)?)
}

/// Whether a part is refused of which the bytes from one place up to another are inverted.
fn inverted_is_refused<K: Kem>(alloc: Global, from: usize, to: usize) -> Result<bool, Fail> {
    let good = good_part::<K>(alloc)?;
    let bytes = inverted(alloc, good.as_slice(), from, to)?;
    is_refused::<K>(alloc, bytes.as_slice())
}

/// Whether each field of a part may not be inverted.
fn fields_are_judged<K: Kem>(alloc: Global) -> Result<bool, Fail> {
    let mut judged = true;
    let mut from = 0_usize;
    for size in [1, 4, K::CIPHER_LEN, 32, K::SECRET_LEN, 4, K::PUBLIC_LEN, 32] {
        let to = from.wrapping_add(size);
        judged = judged && inverted_is_refused::<K>(alloc, from, to)?;
        from = to;
    }
    Ok(judged)
}

/// Whether nothing is no part, and a part with a byte less, and with one more.
fn lengths_are_judged<K: Kem>(alloc: Global) -> Result<bool, Fail> {
    let mut bytes = good_part::<K>(alloc)?;
    bytes.push(0)?;
    let longer = is_refused::<K>(alloc, bytes.as_slice())?;
    let _ = bytes.pop();
    let _ = bytes.pop();
    Ok(longer && is_refused::<K>(alloc, bytes.as_slice())? && is_refused::<K>(alloc, &[])?)
}

/// The first five bytes of parts whose key is not kept: an origin of 2, own key 0, which is dropped, own keys 2 and
/// 200, which were never made, and keys of number 2, 0 and 200 of the other side, whose last part had number 1.
const NOT_KEPT: [[u8; 5]; 7] = [
    [2, 0, 0, 0, 1],
    [0, 0, 0, 0, 0],
    [0, 0, 0, 0, 2],
    [0, 0, 0, 0, 200],
    [1, 0, 0, 0, 2],
    [1, 0, 0, 0, 0],
    [1, 0, 0, 0, 200],
];

/// Whether a part is refused that names this key.
fn key_is_refused<K: Kem>(alloc: Global, front: [u8; 5]) -> Result<bool, Fail> {
    let mut bytes = good_part::<K>(alloc)?;
    if let Some((first, _)) = bytes.as_mut_slice().split_first_chunk_mut::<5>() {
        *first = front;
    }
    is_refused::<K>(alloc, bytes.as_slice())
}

/// Whether parts whose key is not kept are refused.
fn keys_are_judged<K: Kem>(alloc: Global) -> Result<bool, Fail> {
    let mut judged = true;
    for front in NOT_KEPT {
        judged = judged && key_is_refused::<K>(alloc, front)?;
    }
    Ok(judged)
}

/// Contents that are sealed well: from which byte of the secret key up to which it is inverted, the number, whether the
/// public key is one, and whether the content opens. The first two secret keys are those of no tested pair.
const CONTENTS: [(usize, usize, u32, bool, bool); 5] = [
    (0, usize::MAX, 2, true, false),
    (10, 11, 2, true, false),
    (0, 0, 0, true, false),
    (0, 0, 2, false, false),
    (0, 0, 2, true, true),
];

fn spoiled_secret<K: Kem>(
    alloc: Global,
    pair: &K::Pair,
    from: usize,
    to: usize,
) -> Result<Vec<u8>, Fail> {
    let secret = secret_of::<K>(alloc, pair)?;
    inverted(alloc, secret.as_slice(), from, to)
}

/// The public key of a pair, or bytes that are none.
fn public_or_none<K: Kem>(alloc: Global, pair: &K::Pair, is_one: bool) -> Result<Vec<u8>, Fail> {
    if is_one {
        return public_of::<K>(alloc, pair);
    }
    Ok(vec![in alloc; 255; K::PUBLIC_LEN]?)
}

/// A part with such a content, sealed to the own key number 1 of a side that waits.
fn part_with<K: Kem>(
    alloc: Global,
    secret: &[u8],
    number: u32,
    public_is_one: bool,
) -> Result<Vec<u8>, Fail> {
    let to = draw::<K>(alloc, 51)?;
    let public = public_or_none::<K>(alloc, &to.other, public_is_one)?;
    let content = content(alloc, secret, number, public.as_slice())?;
    forged::<K>(alloc, [0, 0, 0, 0, 1], &to.own, content.as_slice())
}

fn is_opened<K: Kem>(alloc: Global, part: &[u8]) -> Result<bool, Fail> {
    let mut waiting = side_that_waits::<K>(alloc)?;
    Ok(waiting.side.receive(alloc, part)? == Some(payload(53)))
}

/// Whether the contents of the table open, or are refused.
fn contents_are_judged<K: Kem>(alloc: Global) -> Result<bool, Fail> {
    let to = draw::<K>(alloc, 51)?;
    let mut judged = true;
    for (from, until, number, public_is_one, opens) in CONTENTS {
        let secret = spoiled_secret::<K>(alloc, &to.other, from, until)?;
        let part = part_with::<K>(alloc, secret.as_slice(), number, public_is_one)?;
        judged = judged
            && if opens {
                is_opened::<K>(alloc, part.as_slice())?
            } else {
                is_refused::<K>(alloc, part.as_slice())?
            };
    }
    Ok(judged)
}

#[test]
fn refused_parts_change_nothing(rt: HostRuntime) -> Result<(), Fail> {
    assert!(rt; fields_are_judged::<Drill37>(rt.alloc())?);
    assert!(rt; lengths_are_judged::<Drill37>(rt.alloc())?);
    assert!(rt; keys_are_judged::<Drill37>(rt.alloc())?);
    assert!(rt; contents_are_judged::<Drill37>(rt.alloc())?);
    Ok(())
}

/// A draw whose two pairs have this secret key.
fn draw_with<K: Kem>(alloc: Global, secret: &[u8], number: u32) -> Result<PartDraw<K>, Fail> {
    if secret.len() != K::SECRET_LEN {
        return Err(Fail::new("no secret key"));
    }
    match (
        K::pair_from_secret(alloc, secret)?,
        K::pair_from_secret(alloc, secret)?,
    ) {
        (Some(own), Some(other)) => Ok(PartDraw {
            own,
            other,
            encapsulation: seed(number),
        }),
        _ => Err(Fail::new("the secret key of a pair is none")),
    }
}

fn send_with<K: Kem>(
    alloc: Global,
    side: &mut Pairing<K>,
    secret: &[u8],
    number: u32,
) -> Result<(), Fail> {
    let draw = draw_with::<K>(alloc, secret, number)?;
    if side.sends() < u32::MAX {
        side.send(alloc, &payload(number), draw)?;
    }
    Ok(())
}

/// A side that sent so many parts and took none, each with the pair of number 3 for both.
fn side_that_sent<K: Kem>(alloc: Global, count: u32) -> Result<Pairing<K>, Fail> {
    let secret = secret_of::<K>(alloc, &pair::<K>(alloc, 3)?)?;
    let mut side = start::<K>(alloc, 1, 2)?;
    for number in 0..count {
        send_with::<K>(alloc, &mut side, secret.as_slice(), number)?;
    }
    Ok(side)
}

/// How many bytes the own keys of a side have on the heap.
fn own_bytes<K: Kem>(side: &Pairing<K>) -> usize {
    let mut bytes = side.own.capacity().wrapping_mul(size_of::<OwnKey<K>>());
    for key in side.own.as_slice() {
        bytes = bytes.wrapping_add(key.secret.capacity());
    }
    bytes
}

/// A part that is sealed to the pair of number 3, and names an own key.
fn part_to_own<K: Kem>(alloc: Global, to: &K::Pair, number: u32) -> Result<Vec<u8>, Fail> {
    let secret = secret_of::<K>(alloc, to)?;
    let public = public_of::<K>(alloc, to)?;
    let content = content(alloc, secret.as_slice(), 1, public.as_slice())?;
    let [a, b, c, d] = number.to_be_bytes();
    forged::<K>(alloc, [0, a, b, c, d], to, content.as_slice())
}

/// Whether a part opens that is sealed to an own key of a side that sent parts.
fn opens_by<K: Kem>(alloc: Global, side: &mut Pairing<K>, number: u32) -> Result<bool, Fail> {
    let part = part_to_own::<K>(alloc, &pair::<K>(alloc, 3)?, number)?;
    Ok(side.receive(alloc, part.as_slice())?.is_some())
}

/// Own keys that parts are sealed to, one after the other, whether the part opens, and how many own keys are kept then.
const OWN_KEYS: [(u32, bool, usize); 6] = [
    (1_001, false, 1_001),
    (700, true, 300),
    (700, false, 300),
    (1, false, 300),
    (701, true, 299),
    (1_000, true, 0),
];

/// Whether a side that sent 1,000 parts keeps 1,001 own keys, and those that the table says, in at most 2,500 bytes each.
fn own_keys_are_dropped<K: Kem>(alloc: Global) -> Result<bool, Fail> {
    let mut side = side_that_sent::<K>(alloc, 1_000)?;
    let mut right = own_bytes::<K>(&side) <= 1_001 * 2_500;
    for (number, opens, kept) in OWN_KEYS {
        right = right
            && opens_by::<K>(alloc, &mut side, number)? == opens
            && side.own.len() == kept;
    }
    Ok(right)
}

#[test]
fn own_keys_are_small(rt: HostRuntime) -> Result<(), Fail> {
    assert!(rt; own_keys_are_dropped::<Sntrup761>(rt.alloc())?);
    Ok(())
}

/// Whether a pair is that of the words of a key.
fn is_made(
    alloc: Global,
    pair: &<Drill37 as Kem>::Pair,
    label: &[u8],
    id: &[u8; 32],
) -> Result<bool, Fail> {
    let made = Drill37::make(alloc, &mut SeedWords::new(&kdf(&seed(1), label, id)))?;
    let mut right = [0; 95];
    Drill37::secret(&made, &mut right);
    let mut bytes = [0; 95];
    Drill37::secret(pair, &mut bytes);
    Ok(bytes == right)
}

/// Whether a draw has the pairs and the seed of an id.
fn is_drawn(alloc: Global, draw: &PartDraw<Drill37>, id: &[u8; 32]) -> Result<bool, Fail> {
    Ok(
        is_made(alloc, &draw.own, b"own", id)?
            && is_made(alloc, &draw.other, b"other", id)?
            && draw.encapsulation == kdf(&seed(1), b"encap", id),
    )
}

/// Whether draws are left for the member whose id has these bytes, and are its own.
fn takes_draw(alloc: Global, draws: &mut PartDraws<Drill37>, byte: u8) -> Result<bool, Fail> {
    match draws.take(&MemberId(Digest([byte; 32]))) {
        Some(draw) => is_drawn(alloc, &draw, &[byte; 32]),
        None => Ok(false),
    }
}

/// For whom draws are taken, one after the other, and whether there are any.
const TAKEN: [(u8, bool); 5] = [(3, true), (1, true), (4, false), (3, false), (2, true)];

/// Whether the members 1, 2 and 3 have their draws, each taken once.
fn drawn_once(alloc: Global) -> Result<bool, Fail> {
    let members = [
        MemberId(Digest([1; 32])),
        MemberId(Digest([2; 32])),
        MemberId(Digest([3; 32])),
    ];
    let mut draws = draw_parts::<Drill37>(alloc, &seed(1), &members)?;
    let mut right = true;
    for (byte, is_there) in TAKEN {
        right = right && takes_draw(alloc, &mut draws, byte)? == is_there;
    }
    Ok(right)
}

#[test]
fn draws_are_taken_once(rt: HostRuntime) -> Result<(), Fail> {
    assert!(rt; drawn_once(rt.alloc())?);
    Ok(())
}

/// The one pair of the set.
#[derive(Drop)]
struct ZeroPair;

/// A set whose words give a usable key exactly where the first of them is even: there is one pair, and its keys, its
/// ciphertexts and its shared key are zeros. It stands for the words of the others that give none, which are too rare
/// to be met.
struct EvenFirst;

impl Kem for EvenFirst {
    ghost SET = { 2 };

    ghost PUBLIC_LEN = { 33 };

    ghost SECRET_LEN = { 95 };

    ghost CIPHER_LEN = { 58 };

    const SET: u8 = 2;

    const PUBLIC_LEN: usize = 33;

    const SECRET_LEN: usize = 95;

    const CIPHER_LEN: usize = 58;

    type Pair = ZeroPair;

    ghost made = { λ words. cond (nat_eq (words 0 % 2) 0) (Some (replicate 95 0)) None };

    ghost pair_words = { λ words. 1 };

    ghost is_secret = { λ secret. bytes_eq secret (replicate 95 0) };

    ghost public_in = { λ secret. replicate 33 0 };

    ghost is_public = { λ public. bytes_eq public (replicate 33 0) };

    ghost encapsulated = { λ public words. Some (record { cipher = replicate 58 0; key = replicate 32 0 }) };

    ghost cipher_words = { 0 };

    ghost decapsulated = { λ secret cipher. Some (replicate 32 0) };

    ghost secret_key = { λ pair. replicate 95 0 };

    ghost has_set_lengths = { inr (refl, refl, refl, refl) };

    ghost pairs_are_tested = { λ pair. refl };

    ghost made_is_tested = { λ words secret is.
        let tested : Option (List ℕ) → Bool = λ o. option_map_or (λ s. bytes_eq s (replicate 95 0)) o true in
        let made_tested : (b : Bool) → tested (cond b (Some (replicate 95 0)) None) ≡ true =
        elim [ true ↦ refl | false ↦ refl ] in
        sym (ap tested is) ∙ made_tested (nat_eq (words 0 % 2) 0) };

    ghost public_is_public = { λ secret is. refl };

    ghost decapsulates = { λ secret words e is sealed. ap (option_map (λ (e : Encapsulated). e.key)) sealed };

    ghost secrets_have_length = { λ secret is. ap length ((bytes_eq-Decides secret (replicate 95 0)).0 is) };

    ghost publics_have_length = { λ public is. ap length ((bytes_eq-Decides public (replicate 33 0)).0 is) };

    ghost encapsulates = { λ public words is. refl };

    ghost ciphers_have_length = { λ public words e is. (
      sym (ap (λ (o : Option Encapsulated). option_map_or (λ (e : Encapsulated). length e.cipher) o 58) is),
      sym (ap (λ (o : Option Encapsulated). option_map_or (λ (e : Encapsulated). length e.key) o 32) is),
    ) };

    fn make<W: Words>(_alloc: Global, words: &mut W) -> Result<ZeroPair, KemRefusal> {
        if words.next() % 2 == 0 {
            return Ok(ZeroPair);
        }
        Err(KemRefusal::NoUsableKey)
    }

    fn pair_from_secret(_alloc: Global, secret: &[u8]) -> Result<Option<ZeroPair>, Memory> {
        if secret == [0; 95].as_slice() {
            return Ok(Some(ZeroPair));
        }
        Ok(None)
    }

    fn secret(_pair: &ZeroPair, into: &mut [u8]) {
        into.copy_from_slice(&[0; 95]);
    }

    fn public(_pair: &ZeroPair, into: &mut [u8]) {
        into.copy_from_slice(&[0; 33]);
    }

    fn public_ok(public: &[u8]) -> bool {
        public == [0; 33].as_slice()
    }

    fn encap<W: Words>(_public: &[u8], _words: &mut W, cipher: &mut [u8]) -> [u8; 32] {
        cipher.copy_from_slice(&[0; 58]);
        [0; 32]
    }

    fn decap(_pair: &ZeroPair, _cipher: &[u8]) -> Option<[u8; 32]> {
        Some([0; 32])
    }
}

/// Members by the byte of their ids, and whether parts are drawn for them by the seed of number 2. By that seed the
/// first words of 1 are odd for the own pair alone, those of 5 for the other's alone, and those of 2 and 4 for neither.
/// Computed by Python's hmac and hashlib and a ChaCha20 of its own.
const USABLE: [(&[u8], bool); 9] = [
    (&[], true),
    (&[2], true),
    (&[1], false),
    (&[5], false),
    (&[1, 2, 4], false),
    (&[2, 1, 4], false),
    (&[2, 4, 5], false),
    (&[1, 5], false),
    (&[2, 4], true),
];

fn members_of(alloc: Global, bytes: &[u8]) -> Result<Vec<MemberId>, Fail> {
    let mut members = Vec::new(alloc);
    for byte in bytes {
        members.push(MemberId(Digest([*byte; 32])))?;
    }
    Ok(members)
}

/// Draws for members. None where the words of some pair give no usable key.
fn drawn_or_none(alloc: Global, bytes: &[u8]) -> Result<Option<PartDraws<EvenFirst>>, Fail> {
    let members = members_of(alloc, bytes)?;
    match draw_parts::<EvenFirst>(alloc, &seed(2), members.as_slice()) {
        Ok(draws) => Ok(Some(draws)),
        Err(KemRefusal::NoUsableKey) => Ok(None),
        Err(KemRefusal::Memory) => Err(Fail::new("memory was wanting")),
    }
}

/// Whether there are draws for each of the members.
fn takes_all(draws: &mut PartDraws<EvenFirst>, bytes: &[u8]) -> bool {
    let mut right = true;
    for byte in bytes {
        right = right && draws.take(&MemberId(Digest([*byte; 32]))).is_some();
    }
    right
}

/// Whether members have their draws, each of them, or the words of some pair give no usable key.
fn is_usable(alloc: Global, bytes: &[u8], usable: bool) -> Result<bool, Fail> {
    match drawn_or_none(alloc, bytes)? {
        Some(mut draws) => Ok(usable && takes_all(&mut draws, bytes)),
        None => Ok(!usable),
    }
}

fn unusable_words_are_told(alloc: Global) -> Result<bool, Fail> {
    let mut right = true;
    for (bytes, usable) in USABLE {
        right = right && is_usable(alloc, bytes, usable)?;
    }
    Ok(right)
}

#[test]
fn draws_want_usable_keys(rt: HostRuntime) -> Result<(), Fail> {
    assert!(rt; unusable_words_are_told(rt.alloc())?);
    Ok(())
}
