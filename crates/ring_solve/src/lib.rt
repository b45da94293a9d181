//! Inverses modulo x^p - x - 1 by linear equations.
#![tactic(auto)]

ghost use Rattle.std.specs.Prelude.{◌≡◌, ℕ, ◌+◌, ◌-◌, ◌*◌, ◌%◌, ◌^◌, ◌<◌, ◌≤◌, length, slice_index, pos, List, ℤ, sum, map, take, All, IfOk, true, false};
ghost use Rattle.ring_poly.specs.Ring.{AreCongruent, IsCentred, IsCongruent, IsModulus, IsWithin, coefficient, product, weighted};
ghost use Rattle.ring_solve.specs.Fields.{IsField, one, zero_of};
ghost use Rattle.ring_solve.specs.Solutions.{Solves, coefficients_of};
ghost use Rattle.ring_solve.specs.declared.answer.Solved.TheVariants.{Inverse, Kernel};
ghost use Rattle.ring_solve.specs.Elimination.{numbers_from, IsBasis, IsKeptRow, IsSmallPrime};
ghost use Rattle.ring_solve.specs.Steps.{AreMultiples, AreRests, Clears, HasRoom, IsLead, IsMemory, IsSum, IsUnreduced, IsZeroAt, Replaces, SolvesBefore, SolvesRows, TakesIn, TakesRows};

mod answer;

pub use answer::{Poly, Solved};
use ring_poly::{center, mul_q, windows};
use std::alloc::{AllocError, Global};

/// Want of memory.
pub type Memory = AllocError;

/// How many multiples of a row are added before the sums are reduced: so many fit a `u32`.
const STEPS: u32 = 200;

/// The inverse of a number modulo a prime.
#[inline(always)]
fn invert(m: u32, number: u32) -> u32
    requires modulus { IsSmallPrime m }
    requires low { 0 < number }
    requires high { number < m }
    ensures below { result < m }
    ensures inverse { IsCongruent (pos m) (pos (result * number)) (pos 1) }
{
    let mut rest = number;
    let mut factor = 1u32;
    while rest != 1 {
        factor = factor * (m - m / rest) % m;
        rest = m % rest;
    }
    factor
}

/// Takes each number to its rest modulo m.
#[inline(always)]
fn reduce_row(m: u32, row: &mut [u32])
    requires { 0 < m }
    ensures { (j : ℕ) → slice_index row.new j ≡ slice_index row.old j % m }
{
    for j in 0..row.len() {
        row[j] %= m;
    }
}

/// Adds to the row, from a column on, a multiple of the row that begins at a place and has 0 before that column.
fn add_multiple(factor: u32, from: usize, row: &mut [u32], basis: &[u16], at: usize)
    requires room { HasRoom factor from row.old basis.now at }
    ensures { IsSum factor row.old basis.now at row.new }
{
    for j in from..row.len() {
        row[j] += factor * basis[at + j] as u32;
    }
}

/// The same where each product fits 16 bits, so that more of them are made at once.
fn add_small_multiple(factor: u16, from: usize, row: &mut [u32], basis: &[u16], at: usize)
    requires room { HasRoom factor from row.old basis.now at }
    requires narrow { (k : ℕ) → factor * slice_index basis.now k < 2 ^ 16 }
    ensures { IsSum factor row.old basis.now at row.new }
{
    for j in from..row.len() {
        row[j] += u32::from(factor * basis[at + j]);
    }
}

/// Up to this modulus the product of two numbers below it fits 16 bits.
const NARROW: u32 = 256;

/// Adds to the row a multiple of the row that is kept for a column and begins at a place. It starts a little before the
/// column, where that row has 0, so that whole groups of numbers are added at once.
#[inline(always)]
fn add_kept(m: u32, factor: u32, c: usize, row: &mut [u32], basis: &[u16], at: usize)
    requires factor { factor < m }
    requires below { (k : ℕ) → slice_index basis.now k < m }
    requires room { HasRoom factor c row.old basis.now at }
    ensures { IsSum factor row.old basis.now at row.new }
{
    if m <= NARROW {
        add_small_multiple(factor as u16, c - c % 16, row, basis, at);
        return;
    }
    add_multiple(factor, c - c % 8, row, basis, at);
}

/// Writes the row times a number, modulo m, to a place of the basis.
#[inline(always)]
fn keep(m: u32, scale: u32, row: &[u32], basis: &mut [u16], at: usize)
    requires some { 0 < m }
    requires small { m ≤ 4591 }
    requires scale_small { scale < m }
    requires place { at + length row.now ≤ length basis.old }
    requires room { length basis.old < 2 ^ 62 }
    ensures { Replaces (length row.now) at basis.old basis.new (λ j. slice_index row.now j % m * scale % m) }
{
    for j in 0..row.len() {
        basis[at + j] = (row[j] % m * scale % m) as u16;
    }
}

/// Makes room in the sums for one more multiple: answers how many have been added since the row was last reduced.
#[inline(always)]
fn settle(m: u32, steps: u32, row: &mut [u32]) -> u32
    requires some { 0 < m }
    requires small { m ≤ 4591 }
    requires row { IsUnreduced steps row.old }
    ensures room { result < 200 }
    ensures row { IsUnreduced result row.new }
    ensures same { (j : ℕ) → IsCongruent (pos m) (pos (slice_index row.new j)) (pos (slice_index row.old j)) }
{
    if steps < STEPS {
        return steps;
    }
    reduce_row(m, row);
    0
}

/// Clears a column of the row by the row that is kept for it, and answers as `settle`.
#[inline(always)]
fn clear(m: u32, lead: u32, c: usize, steps: u32, row: &mut [u32], basis: &[u16]) -> u32
    requires small { m ≤ 4591 }
    requires width { length row.old ≤ 761 }
    requires lead { IsLead m c row.old lead }
    requires row { IsUnreduced steps row.old }
    requires kept { IsKeptRow m (length row.old) c basis.now }
    ensures row { IsUnreduced result row.new }
    ensures clears { Clears m c basis.now row.old row.new }
{
    let at = c * row.len();
    let taken = settle(m, steps, row);
    add_kept(m, m - lead, c, row, basis, at);
    taken + 1
}

/// Keeps the row for a column.
#[inline(always)]
fn place(m: u32, lead: u32, c: usize, row: &[u32], basis: &mut [u16], kept: &mut [u8])
    requires modulus { IsSmallPrime m }
    requires width { length row.now ≤ 761 }
    requires lead { IsLead m c row.now lead }
    requires cleared { (j : ℕ) → j < c → IsZeroAt m row.now j }
    requires basis { IsBasis m (length row.now) basis.old kept.old }
    requires free { slice_index kept.old c ≡ 0 }
    ensures { TakesIn m row.now basis.old kept.old basis.new kept.new }
{
    let at = c * row.len();
    keep(m, invert(m, lead), row, basis, at);
    kept[c] = 1;
}

/// Takes the row modulo m into the basis: as a multiple of what is left of it, once the kept rows are subtracted.
#[inline(always)]
fn insert(m: u32, row: &mut [u32], basis: &mut [u16], kept: &mut [u8])
    requires modulus { IsSmallPrime m }
    requires width { length row.old ≤ 761 }
    requires row { (j : ℕ) → slice_index row.old j < m }
    requires basis { IsBasis m (length row.old) basis.old kept.old }
    ensures { TakesIn m row.old basis.old kept.old basis.new kept.new }
{
    let mut steps = 0u32;
    for c in 0..row.len() {
        let lead = row[c] % m;
        if lead != 0 {
            if kept[c] == 0 {
                place(m, lead, c, row, basis, kept);
                return;
            }
            steps = clear(m, lead, c, steps, row, basis);
        }
    }
}

/// The first column for which no row is kept.
fn free_column(kept: &[u8]) -> usize
    requires { sum kept.now < length kept.now }
    ensures in_range { result < length kept.now }
    ensures free { slice_index kept.now result ≡ 0 }
    ensures before { (c : ℕ) → c < result → 1 ≤ slice_index kept.now c }
{
    for c in 0..kept.len() {
        if kept[c] == 0 {
            return c;
        }
    }
    unreachable!()
}

/// The sum of the products of the numbers and those of the row that begins at a place.
fn row_sum(basis: &[u16], at: usize, x: &[u32]) -> u64
    requires place { at + length x.now ≤ length basis.now }
    requires room { length basis.now < 2 ^ 62 }
    requires width { length x.now ≤ 761 }
    requires basis_below { (k : ℕ) → slice_index basis.now k ≤ 4590 }
    requires below { (j : ℕ) → slice_index x.now j ≤ 4590 }
    ensures { pos result ≡ weighted (map pos x.now) (numbers_from basis.now at) }
{
    let mut sum = 0u64;
    for j in 0..x.len() {
        sum += basis[at + j] as u64 * x[j] as u64;
    }
    sum
}

/// The number below m that brings a sum to 0 modulo m.
fn negated(m: u32, sum: u64) -> u32
    requires { 0 < m }
    ensures below { result < m }
    ensures opposite { IsCongruent (pos m) (pos (sum + result)) (pos 0) }
{
    let rest = (sum % m as u64) as u32;
    if rest == 0 { 0 } else { m - rest }
}

/// Finds numbers, 1 at the free column and 0 behind it, at which each row kept for a column before it vanishes.
fn solve(m: u32, free: usize, basis: &[u16], x: &mut [u32])
    requires some { 1 < m }
    requires small { m ≤ 4591 }
    requires width { length x.old ≤ 761 }
    requires column { free < length x.old }
    requires rows { (c : ℕ) → c < free → IsKeptRow m (length x.old) c basis.now }
    requires blank { (j : ℕ) → slice_index x.old j ≡ 0 }
    ensures { SolvesBefore m (length x.old) free basis.now x.new }
{
    let width = x.len();
    x[free] = 1;
    for step in 0..free {
        let c = free - 1 - step;
        let sum = row_sum(basis, c * width, x);
        x[c] = negated(m, sum);
    }
}

/// Takes the rows from 1 on of a multiplication into the basis. The rows are windows of the residues, the first of them
/// the last.
#[inline(always)]
fn eliminate(m: u32, residues: &[u32], row: &mut [u32], basis: &mut [u16], kept: &mut [u8])
    requires modulus { IsSmallPrime m }
    requires wide { 0 < length row.old }
    requires width { length row.old ≤ 761 }
    requires len { length residues.now + 1 ≡ 2 * length row.old }
    requires below { (k : ℕ) → slice_index residues.now k < m }
    requires basis { IsBasis m (length row.old) basis.old kept.old }
    requires empty { sum kept.old ≡ 0 }
    ensures { TakesRows m (length row.old) (length row.old) residues.now basis.new kept.new }
{
    let width = row.len();
    for r in 1..width {
        let start = width - 1 - r;
        row.copy_from_slice(&residues[start..start + width]);
        insert(m, row, basis, kept);
    }
}

/// The rest modulo m of a sum of two centred coefficients.
fn residue(m: u32, value: i16) -> u32
    requires some { 0 < m }
    requires small { m ≤ 4591 }
    requires within { IsWithin 4590 value }
    ensures below { result < m }
    ensures congruent { IsCongruent (pos m) (pos result) value }
{
    let shifted = value as i32 + 4591 * m as i32;
    shifted as u32 % m
}

/// Writes the rest modulo m of each number.
fn reduce_numbers(m: u32, numbers: &[i16], residues: &mut [u32])
    requires some { 0 < m }
    requires small { m ≤ 4591 }
    requires len { length residues.old ≡ length numbers.now }
    requires within { (j : ℕ) → IsWithin 4590 (coefficient numbers.now j) }
    ensures below { (j : ℕ) → slice_index residues.new j < m }
    ensures congruent { AreRests m residues.new numbers.now }
{
    for j in 0..numbers.len() {
        residues[j] = residue(m, numbers[j]);
    }
}

/// Writes the centred number that is congruent to each number times a scale.
fn center_each<const M: i32>(scale: u32, x: &[u32], out: &mut [i16])
    requires modulus { IsModulus M }
    requires scale_small { scale ≤ 4590 }
    requires below { (j : ℕ) → slice_index x.now j ≤ 4590 }
    requires len { length out.old ≡ length x.now }
    ensures congruent { AreMultiples M scale x.now out.new }
    ensures centred { All (IsCentred M) out.new }
{
    for j in 0..x.len() {
        out[j] = center::<M>((scale * x[j]) as i32);
    }
}

/// The modulus as an unsigned number.
#[inline(always)]
fn modulus<const M: i32>() -> u32
    requires { IsModulus M }
    ensures value { pos result ≡ M }
    ensures least { 3 ≤ result }
    ensures most { result ≤ 4591 }
{
    M as u32
}

/// How many numbers stand for the rows of a multiplication, at most.
const ROOM: usize = 1521;

fn blank() -> [i16; ROOM]
    ensures { length result ≡ 1521 }
{
    [0; ROOM]
}

/// Finds numbers, one of them 1, at which the coefficients from 1 on of the product with `a` are 0 modulo m.
#[inline(always)]
fn kernel_numbers<const P: usize>(
    m: u32,
    a: &[i16],
    residues: &mut [u32],
    row: &mut [u32],
    basis: &mut [u16],
    kept: &mut [u8],
    x: &mut [u32],
)
    requires size { (1 < P) × (P ≤ 761) }
    requires modulus { IsSmallPrime m }
    requires a_len { length a.now ≡ P }
    requires a_within { (j : ℕ) → IsWithin 2295 (coefficient a.now j) }
    requires memory { IsMemory P residues.old row.old basis.old kept.old x.old }
    ensures { SolvesRows m P a.now x.new }
{
    let mut room = blank();
    let numbers = &mut room[..2 * P - 1];
    windows::<P>(a, numbers);
    reduce_numbers(m, numbers, residues);
    eliminate(m, residues, row, basis, kept);
    let free = free_column(kept);
    solve(m, free, basis, x);
}

/// Makes the answer of the numbers, and says whether it is an inverse.
fn decide<const P: usize, const M: i32>(
    m: u32,
    a: &[i16],
    x: &[u32],
    answer: &mut [i16],
    check: &mut [i16],
) -> bool
    requires size { (1 < P) × (P ≤ 761) }
    requires modulus { IsModulus M }
    requires prime { IsSmallPrime m }
    requires same { pos m ≡ M }
    requires a_len { length a.now ≡ P }
    requires a_centred { All (IsCentred M) a.now }
    requires solved { SolvesRows m P a.now x.now }
    requires answer_len { length answer.old ≡ P }
    requires check_len { length check.old ≡ P }
    ensures centred { All (IsCentred M) answer.new }
    ensures inverse { result ≡ true → Solves P M a.now (Inverse answer.new) }
    ensures kernel { result ≡ false → Solves P M a.now (Kernel answer.new) }
{
    center_each::<M>(1, x, answer);
    mul_q::<P, M>(a, answer, check);
    if check[0] == 0 {
        return false;
    }
    let scale = invert(m, residue(m, check[0]));
    center_each::<M>(scale, x, answer);
    true
}

/// `count` zeros.
fn zeros(alloc: Global, count: usize) -> Result<Vec<u32>, AllocError>
    ensures len { IfOk result (λ v. length v.items ≡ count) }
    ensures blank { IfOk result (λ v. (k : ℕ) → slice_index v.items k ≡ 0) }
{
    vec![in alloc; 0u32; count]
}

/// `count` zeros, two bytes each.
fn zero_words(alloc: Global, count: usize) -> Result<Vec<u16>, AllocError>
    ensures len { IfOk result (λ v. length v.items ≡ count) }
    ensures blank { IfOk result (λ v. (k : ℕ) → slice_index v.items k ≡ 0) }
{
    vec![in alloc; 0u16; count]
}

/// `count` zeros, a byte each.
fn zero_bytes(alloc: Global, count: usize) -> Result<Vec<u8>, AllocError>
    ensures len { IfOk result (λ v. length v.items ≡ count) }
    ensures blank { IfOk result (λ v. (k : ℕ) → slice_index v.items k ≡ 0) }
{
    vec![in alloc; 0u8; count]
}

/// `count` coefficients that are 0.
fn zero_coefficients(alloc: Global, count: usize) -> Result<Vec<i16>, AllocError>
    ensures { IfOk result (λ v. length v.items ≡ count) }
{
    vec![in alloc; 0i16; count]
}

/// Finds numbers as `kernel_numbers`, in memory of their own.
#[inline(always)]
fn found<const P: usize>(alloc: Global, m: u32, a: &[i16]) -> Result<Vec<u32>, AllocError>
    requires size { (1 < P) × (P ≤ 761) }
    requires modulus { IsSmallPrime m }
    requires a_len { length a.now ≡ P }
    requires a_within { (j : ℕ) → IsWithin 2295 (coefficient a.now j) }
    ensures { IfOk result (λ x. SolvesRows m P a.now x.items) }
{
    let mut residues = zeros(alloc, 2 * P - 1)?;
    let mut row = zeros(alloc, P)?;
    let mut basis = zero_words(alloc, P * P)?;
    let mut kept = zero_bytes(alloc, P)?;
    let mut x = zeros(alloc, P)?;
    kernel_numbers::<P>(
        m,
        a,
        residues.as_mut_slice(),
        row.as_mut_slice(),
        basis.as_mut_slice(),
        kept.as_mut_slice(),
        x.as_mut_slice(),
    );
    Ok(x)
}

/// The inverse of a polynomial of P coefficients modulo x^P - x - 1 and M; or, where it has none, a polynomial that
/// isn't 0 and whose product with it is 0. The error is want of memory.
pub fn inverse<const P: usize, const M: i32>(alloc: Global, a: &[i16]) -> Result<Solved, Memory>
    requires size { (1 < P) × (P ≤ 761) }
    requires modulus { IsField M }
    requires len { length a.now ≡ P }
    requires centred { All (IsCentred M) a.now }
    ensures solves { IfOk result (Solves P M a.now) }
    ensures len { IfOk result (λ s. length (coefficients_of s) ≡ P) }
    ensures centred { IfOk result (λ s. All (IsCentred M) (coefficients_of s)) }
{
    let m = modulus::<M>();
    let x = found::<P>(alloc, m, a)?;
    let mut answer = zero_coefficients(alloc, P)?;
    let mut check = zero_coefficients(alloc, P)?;
    let is_inverse = decide::<P, M>(
        m,
        a,
        x.as_slice(),
        answer.as_mut_slice(),
        check.as_mut_slice(),
    );
    let answer = Poly::from_vec(answer);
    if is_inverse {
        Ok(Solved::Inverse(answer))
    } else {
        Ok(Solved::Kernel(answer))
    }
}

#[cfg(test)]
mod tests;
