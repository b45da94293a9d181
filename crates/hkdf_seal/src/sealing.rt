// Texts under a key stream, with a tag.

ghost use Rattle.std.specs.Prelude.{◌≡◌, ◌↔◌, ◌≤◌, ◌+◌, ◌*◌, ◌/◌, ◌^◌, ◌<◌, ◌++◌, ℕ, List, [], length, take, drop, IsSome, OnSome, IfNone};
ghost use Rattle.byteorder.specs.Endian.{little_bytes};
ghost use Rattle.hkdf_seal.specs.Sealing.{sealed, stream, stream_word, tag_of, xor_bytes, xor_stream};

use crate::hkdf::kdf;
use crate::mac::hmac;
use byteorder::{ByteOrder, LittleEndian};
use rand_chacha::ChaCha20Rng;
use rand_core::SeedableRng;
use rand_core::utils::NextWord;

const WORD: usize = 4;

// xors the four bytes onto the text from a place on, as far as it goes.
fn xor_at(text: &mut [u8], at: usize, key: &[u8; 4])
    requires { at ≤ length text.old }
    ensures { text.new ≡ take at text.old ++ (xor_bytes (drop at text.old) key.now ++ drop (at + 4) text.old) }
{
    let count = WORD.min(text.len() - at);
    'bytes: for i in 0..count {
        text[at + i] ^= key[i];
    }
}

// The text xor the word stream of a key, each word little-endian.
fn xor_stream(key: [u8; 32], text: &mut [u8])
    ensures { text.new ≡ xor_stream key text.old }
{
    let mut words = ChaCha20Rng::from_seed(key);
    let count = text.len().div_ceil(WORD);
    'words: for i in 0..count {
        let mut bytes = [0; WORD];
        LittleEndian::write_u32(&mut bytes, words.next_word());
        xor_at(text, WORD * i, &bytes);
    }
}

// The tag of a sealed text.
#[tactic(auto, unfolding(crate::specs::Sealing::tag_of))]
fn tag_of(key: &[u8; 32], body: &[u8]) -> [u8; 32]
    ensures { result ≡ tag_of key.now body.now }
{
    hmac(&kdf(key, b"mac", &[]), body)
}

/// Seals a text in place, and answers the tag of what it became.
#[tactic(auto, unfolding(crate::specs::Sealing::sealed))]
pub fn seal(key: &[u8; 32], text: &mut [u8]) -> [u8; 32]
    ensures body { text.new ≡ sealed key.now text.old }
    ensures tag { result ≡ tag_of key.now text.new }
{
    let stream_key = kdf(key, b"stream", &[]);
    xor_stream(stream_key, text);
    tag_of(key, text)
}

/// Opens a sealed text in place. `None` where the tag is not the text's, which is then left as it was.
#[tactic(auto, unfolding(crate::specs::Sealing::sealed))]
pub fn open(key: &[u8; 32], text: &mut [u8], tag: &[u8; 32]) -> Option<()>
    ensures only { IsSome result ↔ (tag.now ≡ tag_of key.now text.old) }
    ensures text { OnSome result (text.new ≡ sealed key.now text.old) }
    ensures unchanged { IfNone result (text.new ≡ text.old) }

    // What `seal` made of a text under this key opens to that text.
    ensures undoes { (plain : List ℕ) → text.old ≡ sealed key.now plain → tag.now ≡ tag_of key.now text.old
        → IsSome result × (text.new ≡ plain) }
{
    if tag_of(key, text) != *tag {
        return None;
    }
    let stream_key = kdf(key, b"stream", &[]);
    xor_stream(stream_key, text);
    Some(())
}
