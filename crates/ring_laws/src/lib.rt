//! Laws of the ring under the key encapsulation: each is the contract of a function.
#![tactic(auto)]

ghost use Rattle.std.specs.Prelude.{◌≡◌, ℕ, ◌+◌, ◌*◌, ◌<◌, length, All, List, ℤ, pos, ◌+ℤ◌, ◌*ℤ◌, ◌<ℤ◌};
ghost use Rattle.ring_poly.specs.Ring.{AreCongruent, AreRounded, IsCentred, IsCongruent, IsWithin, coefficient, product};
ghost use Rattle.ring_solve.specs.Fields.{one, zero_of};
ghost use Rattle.ring_solve.specs.Solutions.{Solves, coefficients_of};
ghost use Rattle.ring_solve.specs.declared.answer.Solved.{Solved};
ghost use Rattle.ring_laws.specs.Laws.{HasInverse, IsShort, AreSmall, Shows, multiple_of, sum_of};

/// The order of the factors doesn't matter.
pub fn commutes()
    ensures { (p : ℕ) (a b : List ℤ) → product p a b ≡ product p b a }
{}

/// Products of three may be taken in either order.
pub fn associates()
    ensures { (p : ℕ) (a b c : List ℤ) → 1 < p → length a ≡ p → length b ≡ p → length c ≡ p → product p (product p a b) c ≡ product p a (product p b c) }
{}

/// The product of a sum is the sum of the products.
pub fn distributes()
    ensures { (p : ℕ) (a b c : List ℤ) → length b ≡ length c → product p a (sum_of b c) ≡ sum_of (product p a b) (product p a c) }
{}

/// A factor of the integers may be taken out.
pub fn scales()
    ensures { (p : ℕ) (s : ℤ) (a b : List ℤ) → product p a (multiple_of s b) ≡ multiple_of s (product p a b) }
{}

/// The product modulo m depends on its factors modulo m alone.
pub fn respects_congruence()
    ensures { (p : ℕ) (m : ℤ) (a b c : List ℤ) → AreCongruent m b c → AreCongruent m (product p a b) (product p a c) }
{}

/// Each coefficient of a small polynomial times a short one, with w coefficients that are not 0, is at most 2 w in size.
pub fn bounds_coefficients()
    ensures { (p w : ℕ) (a b : List ℤ) → length a ≡ p → AreSmall a → IsShort w b → All (IsWithin (2 * w)) (product p a b) }
{}

/// A polynomial that isn't 0 and whose product with a is 0 shows that a has no inverse, all modulo m.
pub fn excludes_inverse()
    ensures { (p : ℕ) (m : ℤ) (a z : List ℤ) → 1 < p → length a ≡ p → length z ≡ p → (AreCongruent m z (zero_of p) → ⊥) → AreCongruent m (product p a z) (zero_of p) → HasInverse p m a → ⊥ }
{}

/// Centred numbers that are congruent modulo m are equal.
pub fn separates_centred()
    ensures { (m c d : ℤ) → IsCentred m c → IsCentred m d → IsCongruent m c d → c ≡ d }
{}

/// What `inverse` answers, by its own clauses, shows whether there is an inverse: `Inverse` that there is one, `Kernel`
/// that there is none.
pub fn decides_inverse()
    ensures { (p : ℕ) (m : ℤ) (a : List ℤ) (s : Solved) → 1 < p → length a ≡ p → length (coefficients_of s) ≡ p → All (IsCentred m) (coefficients_of s) → Solves p m a s → Shows p m a s }
{}

/// Two inverses are congruent, and equal where they are centred.
pub fn has_one_inverse()
    ensures congruent { (p : ℕ) (m : ℤ) (a b c : List ℤ) → 1 < p → length a ≡ p → length b ≡ p → length c ≡ p → AreCongruent m (product p a b) (one p) → AreCongruent m (product p a c) (one p) → AreCongruent m b c }
    ensures equal { (p : ℕ) (m : ℤ) (a b c : List ℤ) → 1 < p → length a ≡ p → length b ≡ p → length c ≡ p → All (IsCentred m) b → All (IsCentred m) c → AreCongruent m (product p a b) (one p) → AreCongruent m (product p a c) (one p) → b ≡ c }
{}

/// Products have p coefficients; sums and multiples have as many as their operands.
pub fn keeps_lengths()
    ensures of_product { (p : ℕ) (a b : List ℤ) → length (product p a b) ≡ p }
    ensures of_sum { (a b : List ℤ) → length a ≡ length b → length (sum_of a b) ≡ length a }
    ensures of_multiple { (s : ℤ) (a : List ℤ) → length (multiple_of s a) ≡ length a }
{}

/// The coefficients of a sum and of a multiple.
pub fn gives_coefficients()
    ensures of_sum { (a b : List ℤ) (k : ℕ) → length a ≡ length b → coefficient (sum_of a b) k ≡ coefficient a k +ℤ coefficient b k }
    ensures of_multiple { (s : ℤ) (a : List ℤ) (k : ℕ) → coefficient (multiple_of s a) k ≡ s *ℤ coefficient a k }
{}

/// Congruence of polynomials is an equivalence.
pub fn is_equivalence()
    ensures reflexive { (m : ℤ) (a : List ℤ) → AreCongruent m a a }
    ensures symmetric { (m : ℤ) (a b : List ℤ) → AreCongruent m a b → AreCongruent m b a }
    ensures transitive { (m : ℤ) (a b c : List ℤ) → AreCongruent m a b → AreCongruent m b c → AreCongruent m a c }
{}

/// Products, sums and multiples of congruent operands are congruent.
pub fn keeps_congruence()
    ensures of_products { (p : ℕ) (m : ℤ) (a b c d : List ℤ) → AreCongruent m a b → AreCongruent m c d → AreCongruent m (product p a c) (product p b d) }
    ensures of_sums { (m : ℤ) (a b c d : List ℤ) → length a ≡ length c → AreCongruent m a b → AreCongruent m c d → AreCongruent m (sum_of a c) (sum_of b d) }
    ensures of_multiples { (m s t : ℤ) (a b : List ℤ) → IsCongruent m s t → AreCongruent m a b → AreCongruent m (multiple_of s a) (multiple_of t b) }
{}

/// 1 is neutral in products and 0 in sums; a product with 0 is 0.
pub fn has_neutrals()
    ensures one { (p : ℕ) (a : List ℤ) → length a ≡ p → product p a (one p) ≡ a }
    ensures zero { (p : ℕ) (a : List ℤ) → length a ≡ p → sum_of a (zero_of p) ≡ a }
    ensures times_zero { (p : ℕ) (a : List ℤ) → product p a (zero_of p) ≡ zero_of p }
{}

/// The order of the terms of a sum doesn't matter.
pub fn sums_commute()
    ensures { (a b : List ℤ) → length a ≡ length b → sum_of a b ≡ sum_of b a }
{}

/// A multiple of m may be left out modulo m.
pub fn drops_multiples()
    ensures { (m : ℤ) (a b : List ℤ) → length a ≡ length b → AreCongruent m (sum_of a (multiple_of m b)) a }
{}

/// The sizes of the coefficients of a sum and of a multiple.
pub fn bounds_sums()
    ensures of_sum { (v w : ℕ) (a b : List ℤ) → length a ≡ length b → All (IsWithin v) a → All (IsWithin w) b → All (IsWithin (v + w)) (sum_of a b) }
    ensures of_multiple { (s w : ℕ) (a : List ℤ) → All (IsWithin w) a → All (IsWithin (s * w)) (multiple_of (pos s) a) }
{}

/// Coefficients of at most w in size are centred modulo each m above 2 w.
pub fn centres_bounded()
    ensures { (m : ℤ) (w : ℕ) (a : List ℤ) → pos (2 * w) <ℤ m → All (IsWithin w) a → All (IsCentred m) a }
{}

/// Centred polynomials that are congruent are equal, and one that isn't 0 isn't congruent to 0.
pub fn separates_centred_lists()
    ensures equal { (m : ℤ) (a b : List ℤ) → All (IsCentred m) a → All (IsCentred m) b → AreCongruent m a b → a ≡ b }
    ensures nonzero { (p : ℕ) (m : ℤ) (z : List ℤ) → 0 < p → length z ≡ p → All (IsCentred m) z → (z ≡ zero_of p → ⊥) → AreCongruent m z (zero_of p) → ⊥ }
{}

/// A rounded polynomial is 0 modulo 3, and the polynomial and a small one.
pub fn rounds_by_small()
    ensures multiple { (a r : List ℤ) → AreRounded a r → AreCongruent (pos 3) r (zero_of (length a)) }
    ensures error { (a r : List ℤ) → AreRounded a r → (e : List ℤ) × (length e ≡ length a) × AreSmall e × (r ≡ sum_of a e) }
{}
