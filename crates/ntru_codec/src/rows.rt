//! Rows of digits: one round of the encoding, there and back.

ghost use Rattle.std.specs.Prelude.{◌≡◌, ◌+◌, ◌*◌, ◌/◌, ◌^◌, ◌<◌, ◌≤◌, ◌%◌, ◌-◌, ◌↔◌, List, ℕ, length, take, IsTrue, IsSome, OnSome, slice_index};
ghost use Rattle.std.specs.List.{All};
ghost use Rattle.ntru_codec.specs.Mixed.{digit, encoding, given_off, round_bytes, next_round};
ghost use Rattle.ntru_codec.specs.Rows.{low_bytes, low_parts, high_parts, FirstsBelow, SecondsBelow, IsEnd, IsEndBelow};
ghost use Rattle.ntru_codec.specs.Round.{IsRound, round_len, digits_of, left_of, AreBelow, LeftBelow};

use crate::digit::{give_off, shrink, take_back};
use crate::moduli::{Moduli, Round};

/// Joins neighbours, of which the first of each two has this modulus. Writes the bytes that they give off, and what
/// stays of them.
fn encode_pairs(digits: &[u32], modulus: u32, bytes: usize, left: &mut [u32], into: &mut [u8])
    requires two { length digits.now ≡ 2 * length left.old }
    requires room { length into.old ≡ bytes * length left.old }
    requires below { All (λ r. r < modulus) digits.now }
    requires fits { modulus < 2 ^ 16 }
    ensures left { left.new ≡ high_parts modulus bytes digits.now }
    ensures bytes { into.new ≡ low_parts modulus bytes digits.now }
{
    for i in 0..left.len() {
        let value = digits[2 * i] + modulus * digits[2 * i + 1];
        left[i] = give_off(value, &mut into[bytes * i..bytes * (i + 1)]);
    }
}

/// Takes neighbours apart, of which the first of each two has the modulus `low`. True where the second is below `high`
/// in each pair.
fn decode_pairs(
    bytes: &[u8],
    each: usize,
    left: &[u32],
    low: u32,
    high: u32,
    digits: &mut [u32],
) -> bool
    requires two { length digits.old ≡ 2 * length left.now }
    requires size { length bytes.now ≡ each * length left.now }
    requires fits { All (λ r. (r + 1) * 256 ^ each ≤ 2 ^ 32) left.now }
    requires above { 0 < low }
    ensures left { high_parts low each digits.new ≡ left.now }
    ensures bytes { low_parts low each digits.new ≡ bytes.now }
    ensures firsts { FirstsBelow low digits.new }
    ensures seconds { IsTrue result ↔ SecondsBelow high digits.new }
{
    let mut whole = true;
    for i in 0..left.len() {
        let value = take_back(left[i], &bytes[each * i..each * (i + 1)]);
        digits[2 * i] = value % low;
        digits[2 * i + 1] = value / low;
        whole = whole && value / low < high;
    }
    whole
}

/// What stands at the end of a row: its last digit, joined with the one before it where that has no other neighbour.
fn end_of(row: Moduli, digits: &[u32]) -> u32
    requires long { row.front < length digits.now }
    requires below { AreBelow row digits.now }
    ensures { IsEnd row.front row.each digits.now result }
{
    if row.front % 2 == 0 {
        digits[row.front]
    } else {
        digits[row.front - 1] + row.each * digits[row.front]
    }
}

/// One round: writes the bytes that it gives off, and the digits that it leaves.
fn encode_round(row: Moduli, round: Round, digits: &[u32], left: &mut [u32], into: &mut [u8])
    requires round { IsRound row round }
    requires long { row.front < length digits.now }
    requires room { round.pairs < length left.old }
    requires below { AreBelow row digits.now }
    requires size { length into.old ≡ round_len round }
    ensures bytes { into.new ≡ round_bytes (digits_of row digits.now) }
    ensures left { left_of round left.new ≡ next_round (digits_of row digits.now) }
    ensures below { LeftBelow round left.new }
{
    let pairs = round.pairs;
    let (front, back) = into.split_at_mut(round.each.bytes * pairs);
    encode_pairs(
        &digits[..2 * pairs],
        row.each,
        round.each.bytes,
        &mut left[..pairs],
        front,
    );
    left[pairs] = give_off(end_of(row, digits), back);
}

/// Writes the encoding of a row. The digits of each round stand in one of the two lists, and those that it leaves in the
/// other.
pub(crate) fn encode_row(row: Moduli, digits: &mut [u32], left: &mut [u32], into: &mut [u8])
    requires long { row.front < length digits.old }
    requires room { row.front < length left.old }
    requires below { AreBelow row digits.old }
    requires size { length into.old ≡ length (encoding (digits_of row digits.old)) }
    ensures { into.new ≡ encoding (digits_of row digits.old) }
{
    if row.front == 0 {
        let _ = give_off(digits[0], into);
        return;
    }
    let round = row.round();
    let (now, rest) = into.split_at_mut(row.len(round));
    encode_round(row, round, digits, left, now);
    encode_row(row.after(round), left, digits, rest);
}

/// How many bytes the encoding of a row has, whichever digits they are.
pub(crate) fn row_len(row: Moduli) -> usize
    ensures exact { (rs : List ℕ) → length rs ≡ row.front + 1 → length (encoding (digits_of row rs)) ≡ result }
    ensures few { result ≤ 16 * row.front + 4 }
{
    if row.front == 0 {
        return shrink(row.last, 2).bytes;
    }
    let round = row.round();
    row.len(round) + row_len(row.after(round))
}

/// Takes apart what stands at the end of a row. True where the digits there are below their moduli.
fn decode_end(row: Moduli, round: Round, bytes: &[u8], left: u32, digits: &mut [u32]) -> bool
    requires round { IsRound row round }
    requires size { length bytes.now ≡ round.last.bytes }
    requires below { left < round.last.modulus }
    requires long { row.front < length digits.old }
    ensures end { (v : ℕ) → IsEnd row.front row.each digits.new v → (low_bytes round.last.bytes v ≡ bytes.now) × (v / 256 ^ round.last.bytes ≡ left) }
    ensures before { take (2 * round.pairs) digits.new ≡ take (2 * round.pairs) digits.old }
    ensures unique { (rs : List ℕ) → (v : ℕ) → IsEnd row.front row.each rs v → IsEndBelow row.front row.each row.last rs → low_bytes round.last.bytes v ≡ bytes.now → v / 256 ^ round.last.bytes ≡ left → (row.front % 2 ≡ 1 → slice_index rs (row.front - 1) ≡ slice_index digits.new (row.front - 1)) × (slice_index rs row.front ≡ slice_index digits.new row.front) }
    ensures whole { IsTrue result ↔ IsEndBelow row.front row.each row.last digits.new }
{
    if row.front % 2 == 0 {
        digits[row.front] = left;
        return true;
    }
    let value = take_back(left, bytes);
    digits[row.front - 1] = value % row.each;
    digits[row.front] = value / row.each;
    value / row.each < row.last
}

/// One round back: takes the bytes that it gave off, and the digits that it left. True where the digits are below their
/// moduli.
fn decode_round(row: Moduli, round: Round, bytes: &[u8], left: &[u32], digits: &mut [u32]) -> bool
    requires round { IsRound row round }
    requires size { length bytes.now ≡ round_len round }
    requires room { round.pairs < length left.now }
    requires below { LeftBelow round left.now }
    requires long { row.front < length digits.old }
    ensures bytes { round_bytes (digits_of row digits.new) ≡ bytes.now }
    ensures left { next_round (digits_of row digits.new) ≡ left_of round left.now }
    ensures whole { IsTrue result ↔ AreBelow row digits.new }
    ensures unique { (rs : List ℕ) → length rs ≡ row.front + 1 → AreBelow row rs → round_bytes (digits_of row rs) ≡ bytes.now → next_round (digits_of row rs) ≡ left_of round left.now → rs ≡ take (row.front + 1) digits.new }
{
    let pairs = round.pairs;
    let (front, back) = bytes.split_at(round.each.bytes * pairs);
    let pairs_whole = decode_pairs(
        front,
        round.each.bytes,
        &left[..pairs],
        row.each,
        row.each,
        &mut digits[..2 * pairs],
    );
    let end_whole = decode_end(row, round, back, left[pairs], digits);
    pairs_whole & end_whole
}

/// Reads a row of a single digit.
fn decode_one(modulus: u32, bytes: &[u8], digits: &mut [u32]) -> Option<()>
    requires some { 0 < length digits.old }
    requires above { 0 < modulus }
    ensures found { OnSome result ((slice_index digits.new 0 < modulus) × (given_off 4 2 (digit (slice_index digits.new 0) modulus) ≡ bytes.now)) }
    ensures only { (r : ℕ) → r < modulus → given_off 4 2 (digit r modulus) ≡ bytes.now → IsSome result × (r ≡ slice_index digits.new 0) }
{
    if bytes.len() != shrink(modulus, 2).bytes {
        return None;
    }
    let value = take_back(0, bytes);
    if value >= modulus {
        return None;
    }
    digits[0] = value;
    Some(())
}

/// Reads a row. The digits of each round stand in one of the two lists, and those that it leaves in the other.
pub(crate) fn decode_row(
    row: Moduli,
    bytes: &[u8],
    digits: &mut [u32],
    left: &mut [u32],
) -> Option<()>
    requires long { row.front < length digits.old }
    requires room { row.front < length left.old }
    ensures found { OnSome result (AreBelow row digits.new × (encoding (digits_of row digits.new) ≡ bytes.now)) }
    ensures only { (rs : List ℕ) → length rs ≡ row.front + 1 → AreBelow row rs → encoding (digits_of row rs) ≡ bytes.now → IsSome result × (rs ≡ take (row.front + 1) digits.new) }
{
    if row.front == 0 {
        return decode_one(row.last, bytes, digits);
    }
    let round = row.round();
    let given_off = row.len(round);
    if bytes.len() < given_off {
        return None;
    }
    let (now, rest) = bytes.split_at(given_off);
    decode_row(row.after(round), rest, left, digits)?;
    decode_round(row, round, now, left, digits).then_some(())
}
