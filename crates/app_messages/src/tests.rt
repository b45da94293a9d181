//! Texts between two members: bodies against an independent program, and what does not open.
ghost use Rattle.std.specs.Prelude.{◌≡◌, ◌<◌, true, length};

use crate::{make_text, read_text};
use group_fields::Bytes;
use kem_trait::{Kem, SeedWords};
use ntru_prime::Drill37;
use secret_book::Book;
use sha2::{Digest as Hasher, Sha256};
use std::alloc::Global;
use std::test::Fail;

type Drill = Book<Drill37>;

/// A text of so many bytes, and the SHA-256 of its body.
struct SizedText {
    size: u16,
    body: [u8; 32],
}

/// The first texts of the chain that the input "welcome" starts on the empty ratchet: byte i of n is 7 i + n mod 256.
/// Computed by Python's hmac and hashlib, with a ChaCha20 written for it.
const SIZES: [SizedText; 3] = [
    SizedText {
        size: 0,
        body: [
            0xb9, 0xc1, 0x6a, 0xe6, 0xbd, 0x5a, 0x9e, 0xa8, 0xb2, 0x6d, 0x2d, 0x71, 0xa4, 0x54,
            0xde, 0x41, 0x8e, 0xef, 0x04, 0x6c, 0x0b, 0x65, 0xcd, 0x5c, 0x22, 0x1b, 0x78, 0x9d,
            0xbf, 0x31, 0x04, 0xe8,
        ],
    },
    SizedText {
        size: 1,
        body: [
            0xdf, 0x5f, 0x2f, 0xbd, 0xac, 0xd5, 0xa9, 0x51, 0x40, 0x3c, 0xd1, 0xed, 0x0b, 0x1d,
            0xfe, 0xda, 0xfb, 0x30, 0xcf, 0x9a, 0xe7, 0x7b, 0x36, 0xcd, 0xdd, 0xed, 0xa1, 0xc8,
            0xd5, 0x3f, 0xd1, 0x7e,
        ],
    },
    SizedText {
        size: 4096,
        body: [
            0xbb, 0xae, 0x96, 0xa0, 0x9b, 0xab, 0x3f, 0xd0, 0xa9, 0x5c, 0xff, 0x49, 0x32, 0x5f,
            0xa5, 0x4e, 0x0f, 0x55, 0x1c, 0x27, 0x2a, 0xf6, 0xd5, 0xdd, 0xf2, 0x47, 0x8e, 0x04,
            0x24, 0x47, 0x39, 0x81,
        ],
    },
];

/// The fourth text of the chain, `hello`.
const HELLO: [u8; 39] = [
    0x00, 0x05, 0x4c, 0x8e, 0xa4, 0xe5, 0x14, 0x9c, 0xb0, 0x40, 0x81, 0x16, 0x18, 0x45, 0xb7, 0xbe,
    0xb0, 0xad, 0xf7, 0x83, 0x84, 0x86, 0x06, 0x3d, 0x51, 0x91, 0xc8, 0x8f, 0x1f, 0x7e, 0x52, 0x66,
    0x91, 0x40, 0x4a, 0x9e, 0x72, 0x73, 0xf7,
];

fn pair(alloc: Global, number: u8) -> Result<<Drill37 as Kem>::Pair, Fail> {
    Ok(Drill37::make(alloc, &mut SeedWords::new(&[number; 32]))?)
}

/// Meets the own place first, and then the member whose pair is made by the seed of a number.
fn meet(alloc: Global, book: &mut Drill, number: u8) -> Result<(), Fail> {
    if book.met() != 0 {
        return Err(Fail::new("the own place is the first here"));
    }
    book.meet(alloc, 0, None)?;
    let theirs = pair(alloc, number)?;
    let mut public = vec![in alloc; 0; Drill37::PUBLIC_LEN]?;
    Drill37::public(&theirs, public.as_mut_slice());
    if !Drill37::public_ok(public.as_slice()) || book.met() != 1 {
        return Err(Fail::new("the public key of a pair is none"));
    }
    Ok(book.meet(alloc, 1, Some(public.as_slice()))?)
}

fn was_met(book: &Drill, place: u8) -> bool
    ensures { result ≡ true → place < length book.now.places }
{
    (place as usize) < book.met()
}

/// Starts the text chain of a place.
fn start_chain(book: &mut Drill, place: u8) {
    if was_met(book, place) {
        book.step(place, Some(b"welcome"));
    }
}

fn make(alloc: Global, book: &mut Drill, text: &[u8]) -> Result<Option<Bytes>, Fail> {
    if !was_met(book, 0) || text.len() > 4096 {
        return Err(Fail::new("a place that was not met, or a text that is too long"));
    }
    Ok(make_text(alloc, book, 0, text)?)
}

/// The next text of the own place.
fn made(alloc: Global, book: &mut Drill, text: &[u8]) -> Result<Bytes, Fail> {
    match make(alloc, book, text)? {
        Some(body) => Ok(body),
        None => Err(Fail::new("the text chain of the own place is known")),
    }
}

/// Reads a body whose size stands before it.
fn read(alloc: Global, book: &mut Drill, bytes: &[u8]) -> Result<Option<Bytes>, Fail> {
    if !was_met(book, 1) || bytes.len() < 34 {
        return Err(Fail::new("a place that was not met, or no body"));
    }
    let (body, tag) = bytes.split_at(bytes.len() - 32);
    Ok(read_text(alloc, book, 1, &body[2..], tag.as_array().unwrap())?)
}

/// Whether a body opens to the text.
fn opens(alloc: Global, book: &mut Drill, bytes: &[u8], text: &[u8]) -> Result<bool, Fail> {
    match read(alloc, book, bytes)? {
        Some(read) => Ok(read.as_slice() == text),
        None => Ok(false),
    }
}

/// Whether a body opens to nothing once a bit of the byte at a place is changed.
fn stays_shut(alloc: Global, book: &mut Drill, bytes: Bytes, at: usize) -> Result<bool, Fail> {
    let mut changed = bytes.into_vec();
    if at < changed.len() {
        changed[at] ^= 1;
    }
    Ok(read(alloc, book, changed.as_slice())?.is_none())
}

fn text_of(alloc: Global, size: u16) -> Result<Vec<u8>, Fail> {
    let mut text = vec![in alloc; 0; size as usize]?;
    let mut byte = (size & 0xff) as u8;
    for one in text.as_mut_slice().iter_mut() {
        *one = byte;
        byte = byte.wrapping_add(7);
    }
    Ok(text)
}

/// Whether the texts of the table are sealed as it says, and opened in turn.
fn crosses(alloc: Global, ada: &mut Drill, bob: &mut Drill) -> Result<bool, Fail> {
    let mut right = true;
    for row in &SIZES {
        let text = text_of(alloc, row.size)?;
        let body = made(alloc, ada, text.as_slice())?;
        right = right
            && Sha256::digest(body.as_slice()) == row.body
            && opens(alloc, bob, body.as_slice(), text.as_slice())?;
    }
    let hello = made(alloc, ada, b"hello")?;
    Ok(
        right
            && hello.as_slice() == HELLO.as_slice()
            && opens(alloc, bob, hello.as_slice(), b"hello")?,
    )
}

/// Whether a changed bit of a text or of its tag opens to nothing, and spends the key all the same.
fn spends(alloc: Global, ada: &mut Drill, bob: &mut Drill) -> Result<bool, Fail> {
    let mut right = true;
    for at in [2, 6, 7, 38] {
        let body = made(alloc, ada, b"again")?;
        right = right && stays_shut(alloc, bob, body, at)?;
        let next = made(alloc, ada, b"next")?;
        right = right && opens(alloc, bob, next.as_slice(), b"next")?;
    }
    let once = made(alloc, ada, b"once")?;
    Ok(
        right
            && opens(alloc, bob, once.as_slice(), b"once")?
            && !opens(alloc, bob, once.as_slice(), b"once")?,
    )
}

/// Two members, of whom the second takes the texts of the first.
fn story(alloc: Global, ada: &mut Drill, bob: &mut Drill) -> Result<bool, Fail> {
    meet(alloc, ada, 2)?;
    meet(alloc, bob, 1)?;
    let unknown = make(alloc, ada, b"early")?.is_none() && read(alloc, bob, &HELLO)?.is_none();
    start_chain(ada, 0);
    start_chain(bob, 1);
    Ok(unknown && crosses(alloc, ada, bob)? && spends(alloc, ada, bob)?)
}

#[test]
fn texts_of_two_members(rt: HostRuntime) -> Result<(), Fail> {
    let mine = pair(rt.alloc(), 1)?;
    let theirs = pair(rt.alloc(), 2)?;
    let mut ada = Book::start(rt.alloc(), mine);
    let mut bob = Book::start(rt.alloc(), theirs);
    let right = story(rt.alloc(), &mut ada, &mut bob);
    ada.close();
    bob.close();
    assert!(rt; right?);
    Ok(())
}
