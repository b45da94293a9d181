//! The works that the program can do.

ghost use Rattle.std.specs.Prelude.{◌≡◌, length, pos};
ghost use Rattle.std.specs.List.{All};
ghost use Rattle.ring_poly.specs.Ring.{IsCentred, IsModulus};
ghost use Rattle.ring_solve.specs.Fields.{IsField};
ghost use Rattle.ring_solve.specs.Solutions.{coefficients_of};

use crate::{kems, parts, trees};
use ring_solve::Solved;
use sha2::{Digest, Sha256};
use std::alloc::{AllocError, Global};

/// A primitive.
#[derive(Clone, Copy)]
pub enum Work {
    /// SHA-256 of 55 bytes, which is one block.
    Digest,
    /// A tree of height 5.
    Tree5,
    /// A tree of height 10.
    Tree10,
    /// A signature of a tree of height 10.
    Sign10,
    /// The check of one.
    Verify10,
    /// HKDF-Expand of 64 bytes.
    Expand,
    /// A text of 4,096 bytes sealed.
    Seal,
    /// A product of two polynomials of 761 coefficients modulo 4591.
    ProductQ,
    /// The same modulo 3.
    Product3,
    /// The inverse of a polynomial of 761 coefficients modulo 4591.
    InverseQ,
    /// The same modulo 3.
    Inverse3,
    /// A pair of the key encapsulation Sntrup761.
    Pair,
    /// A key encapsulated to one.
    Encap,
    /// The key found by it.
    Decap,
    /// A pair of Sntrup761 read from its secret key and tested.
    TestPair,
    /// What is drawn for a part of two-party messaging with Sntrup761.
    DrawPart,
    /// The same, and the part sent.
    SendPart,
    /// The same, and the part taken by the other side.
    ReceivePart,
    /// What is drawn for a part, and the part sent to an own key of the other side, and taken there.
    AnswerPart,
}

/// How many coefficients a polynomial has.
const P: usize = 761;

impl Work {
    /// The work of this name.
    pub fn named(name: &str) -> Option<Work> {
        match name {
            "digest" => Some(Work::Digest),
            "tree-5" => Some(Work::Tree5),
            "tree-10" => Some(Work::Tree10),
            "sign-10" => Some(Work::Sign10),
            "verify-10" => Some(Work::Verify10),
            "expand" => Some(Work::Expand),
            "seal" => Some(Work::Seal),
            "product-q" => Some(Work::ProductQ),
            "product-3" => Some(Work::Product3),
            "inverse-q" => Some(Work::InverseQ),
            "inverse-3" => Some(Work::Inverse3),
            "pair" => Some(Work::Pair),
            "encap" => Some(Work::Encap),
            "decap" => Some(Work::Decap),
            "test-pair" => Some(Work::TestPair),
            "draw-part" => Some(Work::DrawPart),
            "send-part" => Some(Work::SendPart),
            "receive-part" => Some(Work::ReceivePart),
            "answer-part" => Some(Work::AnswerPart),
            _ => None,
        }
    }

    /// Does the work so many times, each on what the one before gave, and gives a digest of the last result.
    pub fn run(self, alloc: Global, count: u32) -> Result<[u8; 32], AllocError> {
        match self {
            Work::Digest => Ok(digest(count)),
            Work::Tree5 => trees::grow(alloc, 5, count),
            Work::Tree10 => trees::grow(alloc, 10, count),
            Work::Sign10 => trees::sign(alloc, count),
            Work::Verify10 => trees::check(alloc, count),
            Work::Expand => Ok(expand(count)),
            Work::Seal => Ok(seal(count)),
            Work::ProductQ => Ok(product_q(count)),
            Work::Product3 => Ok(product_3(count)),
            Work::InverseQ => inverses::<4591>(alloc, count),
            Work::Inverse3 => inverses::<3>(alloc, count),
            Work::Pair => kems::make(alloc, count),
            Work::Encap => kems::encapsulate(alloc, count),
            Work::Decap => kems::decapsulate(alloc, count),
            Work::TestPair => kems::read(alloc, count),
            Work::DrawPart => parts::draw(alloc, count),
            Work::SendPart => parts::send(alloc, count),
            Work::ReceivePart => parts::receive(alloc, count),
            Work::AnswerPart => parts::answer(alloc, count),
        }
    }
}

/// Digests of one block each, the digest before and 23 zero bytes.
fn digest(count: u32) -> [u8; 32] {
    let mut last = [0u8; 32];
    for _ in 0..count {
        last = digest_of_block(&last);
    }
    last
}

fn digest_of_block(last: &[u8; 32]) -> [u8; 32] {
    let mut hasher = Sha256::new();
    hasher.update(last.as_slice());
    hasher.update([0u8; 23].as_slice());
    hasher.finalize()
}

/// Keys of 64 bytes, each under the first half of the one before.
fn expand(count: u32) -> [u8; 32] {
    let mut key = [0u8; 32];
    let mut long = [0u8; 64];
    for _ in 0..count {
        hkdf_seal::expand(&key, b"ratchet", &mut long);
        key = first_half(&long);
    }
    Sha256::digest(long.as_slice())
}

fn first_half(long: &[u8; 64]) -> [u8; 32] {
    let mut key = [0u8; 32];
    key.copy_from_slice(&long[..32]);
    key
}

/// Texts, each sealed under the tag of the one before.
fn seal(count: u32) -> [u8; 32] {
    let mut key = [0u8; 32];
    let mut text = [0u8; 4096];
    for _ in 0..count {
        key = hkdf_seal::seal(&key, &mut text);
    }
    Sha256::digest(text.as_slice())
}

/// A polynomial whose coefficients are all 1.
fn ones() -> [i16; P]
    ensures q { All (IsCentred (pos 4591)) result }
    ensures three { All (IsCentred (pos 3)) result }
{
    [1; P]
}

/// Products modulo 4591, each of the one before and a fixed factor.
fn product_q(count: u32) -> [u8; 32] {
    let factor = ones();
    let mut last = ones();
    let mut next = [0; P];
    for _ in 0..count {
        ring_poly::mul_q::<P, 4591>(&last, &factor, &mut next);
        last = next;
    }
    digest_of(&last)
}

/// Products modulo 3, each of the one before and a fixed factor.
fn product_3(count: u32) -> [u8; 32] {
    let factor = ones();
    let mut last = ones();
    let mut next = [0; P];
    for _ in 0..count {
        ring_poly::mul_3::<P>(&last, &factor, &mut next);
        last = next;
    }
    digest_of(&last)
}

/// A polynomial whose coefficients are spread over the centred numbers.
fn scattered<const M: i32>() -> [i16; P]
    requires { IsModulus M }
    ensures { All (IsCentred M) result }
{
    let mut coefficients = [0; P];
    let mut word = 1u32;
    for i in 0..P {
        word = word.wrapping_mul(1_664_525).wrapping_add(1_013_904_223);
        coefficients[i] = ring_poly::center::<M>((word >> 16) as i32);
    }
    coefficients
}

/// Answers of the solver modulo M, each to the one before.
fn inverses<const M: i32>(alloc: Global, count: u32) -> Result<[u8; 32], AllocError>
    requires field { IsField M }
    requires modulus { IsModulus M }
{
    let mut last = scattered::<M>();
    for _ in 0..count {
        let answer = ring_solve::inverse::<P, M>(alloc, &last)?;
        last.copy_from_slice(coefficients(&answer));
    }
    Ok(digest_of(&last))
}

/// The coefficients of either answer.
fn coefficients(answer: &Solved) -> &[i16]
    ensures { result.now ≡ coefficients_of answer.now }
{
    match answer {
        Solved::Inverse(poly) => poly.as_slice(),
        Solved::Kernel(poly) => poly.as_slice(),
    }
}

/// The digest of the coefficients, two bytes each.
fn digest_of(coefficients: &[i16]) -> [u8; 32] {
    let mut hasher = Sha256::new();
    for coefficient in coefficients {
        hasher.update(coefficient.to_le_bytes().as_slice());
    }
    hasher.finalize()
}
