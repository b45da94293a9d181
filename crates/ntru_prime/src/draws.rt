// Polynomials and bytes drawn from words.

ghost use Rattle.std.specs.Prelude.{◌≡◌, ◌≤◌, ◌<◌, ◌+◌, ◌*◌, ◌/◌, ◌%◌, ◌++◌, ℕ, List, length, map, take, drop, slice_index};
ghost use Rattle.std.specs.List.{flat_map};
ghost use Rattle.byteorder.specs.Endian.{little_bytes};
ghost use Rattle.ntru_codec.specs.Small.{coefficient_of};
ghost use Rattle.kem_trait.specs.Streams.{behind};
ghost use Rattle.ntru_model.specs.Draws.{bytes_draw, marked, short_draw, small_coefficient, small_draw};

use crate::blanks::{blank_bytes, blank_words};
use byteorder::{ByteOrder, LittleEndian};
use kem_trait::Words;

/// One more than the greatest number of 30 bits.
const LOW: u32 = 0x4000_0000;

/// The words that rho takes in the larger set.
const RHO_WORDS: usize = 48;

/// Takes words into a list.
fn draw_words<V: Words>(words: &mut V, into: &mut [u32])
    ensures drawn { (n : ℕ) → n < length into.old → slice_index into.new n ≡ V.upcoming words.old n }
    ensures left { (n : ℕ) → V.upcoming words.new n ≡ V.upcoming words.old (length into.old + n) }
{
    for i in 0..into.len() {
        into[i] = words.next();
    }
}

/// The coefficient of a code.
fn coefficient(code: u32) -> i16
    requires { code < 4 }
    ensures { result ≡ coefficient_of code }
{
    code as i16 - 1
}

/// The small coefficients that words stand for.
fn small_of(words: &[u32], into: &mut [i16])
    requires { length words.now ≡ length into.old }
    ensures { into.new ≡ map (λ word. small_coefficient word) words.now }
{
    for i in 0..words.len() {
        into[i] = coefficient(words[i] % LOW * 3 / LOW);
    }
}

/// Draws a small polynomial.
pub(crate) fn draw_small<const P: usize, V: Words>(words: &mut V, into: &mut [i16])
    requires size { (1 < P) × (P ≤ 761) }
    requires room { length into.old ≡ P }
    ensures drawn { into.new ≡ small_draw P (V.upcoming words.old) }
    ensures left { V.upcoming words.new ≡ behind P (V.upcoming words.old) }
{
    let mut drawn = blank_words::<P>();
    draw_words(words, &mut drawn);
    small_of(&drawn, into)
}

/// A word at its place: even below the weight, 1 above a multiple of 4 from there on.
fn marked(weight: usize, place: usize, word: u32) -> u32
    ensures { result ≡ marked weight place word }
{
    if place < weight {
        word / 2 * 2
    } else {
        word / 4 * 4 + 1
    }
}

/// Marks the words of a short polynomial.
fn mark(weight: usize, words: &[u32], into: &mut [u32])
    requires { length words.now ≡ length into.old }
    ensures { (n : ℕ) → n < length words.now → slice_index into.new n ≡ marked weight n (slice_index words.now n) }
{
    for i in 0..words.len() {
        into[i] = marked(weight, i, words[i]);
    }
}

/// The coefficients in the lowest bits of marked words.
fn short_of(words: &[u32], into: &mut [i16])
    requires { length words.now ≡ length into.old }
    ensures { into.new ≡ map (λ word. coefficient_of (word % 4)) words.now }
{
    for i in 0..words.len() {
        into[i] = coefficient(words[i] % 4);
    }
}

/// Draws a short polynomial of weight W.
pub(crate) fn draw_short<const P: usize, const W: usize, V: Words>(words: &mut V, into: &mut [i16])
    requires size { (1 < P) × (P ≤ 761) }
    requires room { length into.old ≡ P }
    ensures drawn { into.new ≡ short_draw P W (V.upcoming words.old) }
    ensures left { V.upcoming words.new ≡ behind P (V.upcoming words.old) }
{
    let mut drawn = blank_words::<P>();
    draw_words(words, &mut drawn);
    let mut sorted = blank_words::<P>();
    mark(W, &drawn, &mut sorted);
    sorted.sort_unstable();
    short_of(&sorted, into)
}

/// Writes four bytes into a buffer, from a place on.
fn put(into: &mut [u8], at: usize, part: &[u8; 4])
    requires { at + 4 ≤ length into.old }
    ensures { into.new ≡ take at into.old ++ (part.now ++ drop (at + 4) into.old) }
{
    into[at..at + 4].copy_from_slice(part);
}

/// The bytes of a word, the lowest first.
fn bytes_of(word: u32) -> [u8; 4]
    ensures { result ≡ little_bytes 4 word }
{
    let mut bytes = [0; 4];
    LittleEndian::write_u32(&mut bytes, word);
    bytes
}

/// Writes words, each little-endian.
fn write_words(words: &[u32], into: &mut [u8])
    requires { length into.old ≡ 4 * length words.now }
    ensures { into.new ≡ flat_map (λ word. little_bytes 4 word) words.now }
{
    for i in 0..words.len() {
        put(into, 4 * i, &bytes_of(words[i]));
    }
}

/// Draws bytes.
pub(crate) fn draw_bytes<V: Words>(words: &mut V, into: &mut [u8])
    requires { length into.old ≤ 191 }
    ensures drawn { into.new ≡ bytes_draw (length into.old) (V.upcoming words.old) }
    ensures left { V.upcoming words.new ≡ behind ((length into.old + 3) / 4) (V.upcoming words.old) }
{
    let count = (into.len() + 3) / 4;
    let mut drawn = blank_words::<RHO_WORDS>();
    let drawn = &mut drawn[..count];
    draw_words(words, drawn);
    let mut bytes = blank_bytes();
    let bytes = &mut bytes[..4 * count];
    write_words(drawn, bytes);
    into.copy_from_slice(&bytes[..into.len()]);
}
